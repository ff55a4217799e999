// The open month of an account: its opening, its days and plans, and its figures.
ghost use Rattle.std.specs.Prelude.{◌≡◌, ◌<◌, ◌≤◌, unsigned_abs};
ghost use Rattle.accounts.specs.Accounts.{allowed, opened_if, split, day_booked, after_day, plan_answered, after_plan, figures_told, all_in};

use super::account::Account;
use heat::split::Split;
use heat::standard::StandardHeat;
use postings::limits::{DayHeat, DayPlan};
use shares::figures::Figures;
use sides::Side;

// The most of a carry-over at the opening, either sign, in m³.
pub const MOST_CARRY: u64 = 46_500_000;

// A carry-over within its limits.
fn allowed(carry: i64) -> Option<i32>
    ensures value { result ≡ allowed carry }
{
    if carry.unsigned_abs() <= MOST_CARRY {
        Some(carry as i32)
    } else {
        None
    }
}

impl Account {
    // The account at the opening, if both carry-overs are within their limits.
    pub fn new(older: i64, newer: i64) -> Option<Account>
        ensures value { result ≡ opened_if older newer }
    {
        Some(Account {
            older: allowed(older)?,
            newer: allowed(newer)?,
            ..Account::default()
        })
    }

    // Heat divided with the remainder of its side. The standard heat, the side and the heat go together through three calls,
    // each with a heat of another type, so that one struct would not serve them.
    pub(crate) fn split(&self, standard: StandardHeat, side: Side, heat: i64) -> Split<i64>
        requires { unsigned_abs heat ≤ 120000000000 }
        ensures value { result ≡ split standard side heat self.now }
        ensures few { (unsigned_abs result.booked ≤ 30000002) × (result.remainder < 5000) }
    {
        standard.split(heat, self.remainders.get(side))
    }

    // Takes a day's metered gas, by its place in the month; none, and no change, where the day's ticket is in or a month
    // has no such day.
    pub fn meter(
        &mut self,
        standard: StandardHeat,
        side: Side,
        place: usize,
        heat: DayHeat,
    ) -> Option<i64>
        ensures value { result ≡ day_booked standard side place heat self.old }
        ensures after { self.new ≡ after_day standard side place heat self.old }
    {
        let mut marks = self.metered.get(side);
        if !marks.is_free(place) {
            return None;
        }
        let split = self.split(standard, side, heat.units as i64);
        let volume = self.volumes.get(side) + split.booked.unsigned_abs() as u32;
        marks.mark(place);
        self.remainders.put(side, split.remainder);
        self.volumes.put(side, volume);
        self.metered.put(side, marks);
        Some(split.booked)
    }

    // Takes a day's plan, and answers its volume; none, and no change, where the day's plan is in or a month has no such
    // day.
    pub fn plan(&mut self, place: usize, plan: DayPlan) -> Option<u32>
        ensures value { result ≡ plan_answered place plan self.old }
        ensures after { self.new ≡ after_plan place plan self.old }
    {
        if !self.planned.is_free(place) {
            return None;
        }
        self.plan += plan.volume;
        self.planned.mark(place);
        Some(plan.volume)
    }

    // The month's figures so far.
    pub fn figures(&self) -> Figures
        ensures value { result ≡ figures_told self.now }
    {
        Figures {
            receipts: self.volumes.receipts,
            deliveries: self.volumes.deliveries,
            plan: self.plan,
            brought: self.older,
        }
    }

    // Whether the three tickets of each of a month's days are in.
    pub fn has_all(&self, days: usize) -> bool
        ensures value { result ≡ all_in days self.now }
    {
        self.metered.receipts.has_all(days)
            && self.metered.deliveries.has_all(days)
            && self.planned.has_all(days)
    }
}
