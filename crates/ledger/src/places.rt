// Where a day stands in the open month.
ghost use Rattle.std.specs.Prelude.{◌≡◌};
ghost use Rattle.ledger.specs.Ledger.{month_number, place_in, place_or};

use calendar::{Day, Month};
use refusals::{Ground, Layer, Refusal};

// The day's place in the open month, from 0 on; none where it is in another month, or no month is open.
pub fn place_in(current: Option<Month>, day: Day) -> Option<usize>
    ensures value { result ≡ place_in (month_number current) day.0 }
{
    let month = current?;
    let first = month.first_day()?;
    if month.holds(day) {
        Some((day.0 - first.0) as usize)
    } else {
        None
    }
}

// The day's place in the open month, or the refusal of a day that is not in it.
pub(crate) fn place_of(current: Option<Month>, day: Day) -> Result<usize, Refusal>
    ensures value { result ≡ place_or (month_number current) day.0 }
{
    place_in(current, day).ok_or(Layer::Book.refuses(Ground::OutsidePeriod, u64::from(day.0)))
}
