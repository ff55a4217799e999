// Postings: what a ticket's words add to a shipper's figures, as a plain value that borrows nothing of the words. Words
// that are no ticket are refused as the reader refuses them.
ghost use Rattle.std.specs.Prelude.{◌≡◌, ◌*◌, ◌≤◌, pos, ◌*ℤ◌, unsigned_abs};
ghost use Rattle.booking.specs.Day.{day_volume};
ghost use Rattle.postings.specs.Postings.{posts};

use super::limits::{CorrectionHeat, DayHeat, DayPlan};
use booking::day::{Hours, TicketHeat, correction_heat};
use calendar::{Day, Month};
use refusals::Refusal;
use sides::Side;
use tickets::reader::{Ticket, read};

#[derive(Clone, Copy)]
pub enum Posting {
    // the heat of a day's metered gas, and the place of its peak hour
    Metered {
        side: Side,
        shipper: u8,
        day: Day,
        heat: DayHeat,
        peak: usize,
    },
    // a day's planned deliveries
    Planned {
        shipper: u8,
        day: Day,
        plan: DayPlan,
    },
    // the heat that a correction adds to an issued month
    Corrected {
        side: Side,
        shipper: u8,
        month: Month,
        heat: CorrectionHeat,
    },
}

// The heat of a day's hours, within its limit.
fn metered_heat(hours: &Hours<'_>, heat: TicketHeat) -> DayHeat
    ensures value { result ≡ day_volume hours.now * heat }
{
    let units = hours.heat(heat).unsigned_abs();
    DayHeat { units }
}

// The heat of a correction, within its limit.
fn corrected_heat(volume: i32, heat: TicketHeat) -> CorrectionHeat
    requires { unsigned_abs volume ≤ 24000000 }
    ensures value { result ≡ volume *ℤ pos heat }
{
    let units = correction_heat(volume, heat.units);
    CorrectionHeat { units }
}

// Reads a ticket's words as what they post, or refuses them as the reader does.
pub fn post(words: &[u32]) -> Result<Posting, Refusal>
    ensures value { result ≡ posts words.now }
{
    match read(words)? {
        Ticket::Metered {
            side,
            shipper,
            day,
            heat,
            hours,
            ..
        } => {
            let hours = Hours { words: hours };
            Ok(Posting::Metered {
                side,
                shipper,
                day,
                heat: metered_heat(&hours, TicketHeat { units: heat }),
                peak: hours.peak(),
            })
        }
        Ticket::Planned {
            shipper,
            day,
            volume,
        } => Ok(Posting::Planned {
            shipper,
            day,
            plan: DayPlan { volume },
        }),
        Ticket::Corrected {
            side,
            shipper,
            month,
            heat,
            volume,
        } => {
            let heat = corrected_heat(volume, TicketHeat { units: heat });
            Ok(Posting::Corrected {
                side,
                shipper,
                month,
                heat,
            })
        }
    }
}
