// What an account settles: corrections, and the lines of issued months.
ghost use Rattle.std.specs.Prelude.{◌≡◌, ◌^◌, ◌≤◌, IfSome, unsigned_abs};
ghost use Rattle.accounts.specs.Accounts.{sum_if, settled_if, correction_at, corrected, after_correction, issued_if};

use super::account::Account;
use heat::standard::StandardHeat;
use postings::limits::CorrectionHeat;
use settlement::yen;
use sides::Side;
use statement::line::Line;

// The most of a settled volume, in m³, and of an account, in yen, either sign.
pub const MOST_SETTLED: u64 = 1_000_000_000_000;

pub const MOST_YEN: u64 = 1_000_000_000_000_000;

// A correction's volume in standard m³, counted for the shipper, and its yen.
#[derive(Clone, Copy, PartialEq, Eq, Debug)]
pub struct Correction {
    pub volume: i64,
    pub yen: i64,
}

// The sum of two figures, unless it passes a limit.
fn sum_within(most: u64, a: i64, b: i64) -> Option<i64>
    requires { most ≤ 10 ^ 15 }
    ensures value { result ≡ sum_if most a b }
    ensures limit { IfSome result (λ sum. unsigned_abs sum ≤ most) }
{
    let sum = a.checked_add(b)?;
    if sum.unsigned_abs() > most {
        None
    } else {
        Some(sum)
    }
}

// What a booked correction settles at a price in sen per m³.
fn correction_at(side: Side, booked: i64, price: u32) -> Correction
    requires { unsigned_abs booked ≤ 30000002 }
    ensures value { result ≡ correction_at side booked price }
{
    let volume = match side {
        Side::Receipts => booked,
        Side::Deliveries => -booked,
    };
    Correction {
        volume,
        yen: yen(volume, price) as i64,
    }
}

impl Account {
    // The account with a volume and yen more, unless a sum passes its limit.
    fn settling(&self, volume: i64, yen: i64) -> Option<Account>
        ensures value { result ≡ settled_if volume yen self.now }
    {
        Some(Account {
            settled: sum_within(MOST_SETTLED, self.settled, volume)?,
            yen: sum_within(MOST_YEN, self.yen, yen)?,
            ..*self
        })
    }

    // Settles a correction at a price in sen per m³; none, and no change, where a sum would pass its limit.
    pub fn correct(
        &mut self,
        standard: StandardHeat,
        side: Side,
        heat: CorrectionHeat,
        price: u32,
    ) -> Option<Correction>
        ensures value { result ≡ corrected standard side heat price self.old }
        ensures after { self.new ≡ after_correction standard side heat price self.old }
    {
        let split = self.split(standard, side, heat.units);
        let due = correction_at(side, split.booked, price);
        *self = self.settling(due.volume, due.yen)?;
        self.remainders.put(side, split.remainder);
        Some(due)
    }

    // The account once a line of the open month is issued; none where a sum would pass its limit.
    pub fn issued(&self, line: Line) -> Option<Account>
        ensures value { result ≡ issued_if line self.now }
    {
        let after = self.settling(line.settled, line.yen)?;
        Some(Account {
            remainders: self.remainders,
            older: self.newer,
            newer: line.carry,
            settled: after.settled,
            yen: after.yen,
            ..Account::default()
        })
    }
}
