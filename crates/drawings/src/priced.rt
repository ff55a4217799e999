// The month that a row of accounts makes with the prices that a board holds.
ghost use Rattle.std.specs.Prelude.{◌≡◌};
ghost use Rattle.drawings.specs.Drawing.{priced_month};

use prices::board::Asking;
use prices::slot::Slot;
use refusals::{Ground, Layer, Refusal};
use rolls::roll::Roll;
use statement::month::{Entry, Month};

// The month of these accounts at a place in the year; the lowest shipper whose price isn't held is told.
pub fn priced_month<B: Asking>(roll: &Roll, board: &B, place: u32) -> Result<Month, Refusal>
    ensures value { result ≡ priced_month (B.held board.now) place roll.now }
{
    let mut month = Month::new();
    for (i, account) in roll.accounts().iter().enumerate() {
        let slot = Slot {
            shipper: i as u32,
            place,
        };
        let prices = board
            .ask(slot)
            .ok_or(Layer::Board.refuses(Ground::PriceMissing, i as u64))?;
        let _ = month.add(Entry {
            figures: account.figures(),
            prices,
        });
    }
    Ok(month)
}
