// The accounts once the lines of their month are issued.
ghost use Rattle.std.specs.Prelude.{◌≡◌};
ghost use Rattle.drawings.specs.Drawing.{issued_roll};

use accounts::account::Account;
use prices::slot::SHIPPERS;
use refusals::{Ground, Layer, Refusal};
use rolls::roll::Roll;
use statement::line::{Line, NO_LINE};

// The accounts once each has its line issued; the lowest shipper whose settled volume or account would pass its limit is
// told. Lines are read by place, since the rule speaks of lists of any length, and `zip` would end with the shorter.
pub fn issued_roll(roll: &Roll, lines: &[Line]) -> Result<Roll, Refusal>
    ensures value { result ≡ issued_roll lines.now roll.now }
{
    let mut accounts = [Account::default(); SHIPPERS];
    for (i, account) in roll.accounts().iter().enumerate() {
        let line = lines.get(i).copied().unwrap_or(NO_LINE);
        let next = account
            .issued(line)
            .ok_or(Layer::Book.refuses(Ground::AccountLimit, i as u64))?;
        accounts[i] = next;
    }
    Ok(Roll {
        count: roll.count,
        accounts,
    })
}
