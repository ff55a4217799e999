// The opening's figures: within their limits, or the first that is not is told.
ghost use Rattle.std.specs.Prelude.{◌≡◌};
ghost use Rattle.rolls.specs.Rolls.{terms_of, opened_roll};

use super::roll::Roll;
use super::terms::{LAST_FIRST_MONTH, MOST_TAX, Terms};
use accounts::account::Account;
use heat::standard::StandardHeat;
use prices::slot::SHIPPERS;
use refusals::{Ground, Layer, Refusal};

// A shipper's carry-overs of the two months before, in m³.
#[derive(Clone, Copy)]
pub struct Carries {
    pub older: i64,
    pub newer: i64,
}

impl Terms {
    // The terms of a year that begins with a month, at a standard heat in 10 kJ per m³ and a tax in percent.
    pub fn new(month: u32, heat: u32, tax: u32) -> Result<Terms, Refusal>
        ensures value { result ≡ terms_of month heat tax }
    {
        if month > LAST_FIRST_MONTH {
            return Err(Layer::Book.refuses(Ground::FigureLimits, 0));
        }
        let standard = StandardHeat::new(heat).ok_or(Layer::Book.refuses(Ground::FigureLimits, 1))?;
        if tax > MOST_TAX {
            return Err(Layer::Book.refuses(Ground::FigureLimits, 2));
        }
        Ok(Terms {
            first: month,
            standard,
            tax: tax as u8,
        })
    }
}

impl Roll {
    // The accounts of 1 to 16 shippers with these carry-overs.
    pub fn new(carries: &[Carries]) -> Result<Roll, Refusal>
        ensures value { result ≡ opened_roll carries.now }
    {
        if carries.is_empty() || carries.len() > SHIPPERS {
            return Err(Layer::Book.refuses(Ground::FigureLimits, 3));
        }
        let mut accounts = [Account::default(); SHIPPERS];
        for (i, carry) in carries.iter().enumerate() {
            let outside = Layer::Book.refuses(Ground::FigureLimits, 4 + i as u64);
            let account = Account::new(carry.older, carry.newer).ok_or(outside)?;
            accounts[i] = account;
        }
        Ok(Roll {
            count: carries.len(),
            accounts,
        })
    }
}
