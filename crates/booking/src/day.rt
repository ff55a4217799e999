// What a day's hours and a correction come to, before they are booked.
ghost use Rattle.std.specs.Prelude.{◌≡◌, ◌*◌, ◌^◌, ◌≤◌, take, pos, ◌*ℤ◌, nat_lt, unsigned_abs};
ghost use Rattle.std.specs.Option.{unwrap_or};
ghost use Rattle.greatest.specs.Greatest.{first_greatest};
ghost use Rattle.booking.specs.Day.{day_volume, peak_hour};

use greatest::first_greatest;
use std::marker::Model;
use tickets::word::field_of;

// Hours of a day.
pub const DAY_HOURS: usize = 24;

// The heat of metered gas, in 10 kJ per m³, as tickets have it: 5,000 at most. Another limit on another number than those
// of a posting, so that one type would need both as parameters.
#[derive(Clone, Copy)]
pub struct TicketHeat {
    pub units: u16,
}

impl Model for TicketHeat {
    ghost use Rattle.std.specs.Prelude.{ℕ, ◌≤◌};

    ghost Value = { ℕ };

    ghost view = { λ h. h.units };

    ghost invariant = { λ h. h.units ≤ 5000 };

    ghost inverse = { λ n. record { units = n } };
}

// The words of a whole day's hours, each of the volume kind and within an hour's limit. What they come to is promised of
// any list of words too, by `day_heat` and `peak_hour`.
#[derive(Drop)]
pub struct Hours<'a> {
    pub words: &'a [u32],
}

impl<'a> Model for Hours<'a> {
    ghost use Rattle.std.specs.Prelude.{ℕ, List};
    ghost use Rattle.tickets.specs.Reader.{SoundHours};

    ghost Value = { List ℕ };

    ghost view = { λ h. h.words.now };

    ghost invariant = { λ h. SoundHours h.words.now };
}

impl Hours<'_> {
    // The heat of the day, in units of 10 kJ.
    pub fn heat(&self, heat: TicketHeat) -> i64
        ensures value { result ≡ pos (day_volume self.now * heat) }
        ensures few { unsigned_abs result ≤ 120000000000 }
    {
        day_heat(self.words, heat.units)
    }

    // The first hour with the greatest volume. The words are of one kind, so the greatest word has that volume.
    pub fn peak(&self) -> usize
        ensures value { result ≡ peak_hour self.now }
    {
        peak_hour(self.words)
    }
}

// The metered volume of a day, in m³.
fn day_volume(hours: &[u32]) -> u64
    ensures value { result ≡ day_volume (take 24 hours.now) }
    ensures bound { result ≤ 24 * 2 ^ 28 }
{
    // a `sum` would leave open whether it fits
    let mut volume = 0;
    for hour in &hours[..hours.len().min(DAY_HOURS)] {
        volume += u64::from(field_of(*hour));
    }
    volume
}

// The heat of a day, in units of 10 kJ. Words past the 24th are no hours.
pub fn day_heat(hours: &[u32], heat: u16) -> i64
    ensures value { result ≡ pos (day_volume (take 24 hours.now) * heat) }
{
    (day_volume(hours) * u64::from(heat)) as i64
}

// The place of the first of the greatest hour words; 0 where there is none.
pub fn peak_hour(hours: &[u32]) -> usize
    ensures value { result ≡ unwrap_or (first_greatest nat_lt hours.now) 0 }
{
    first_greatest(hours).unwrap_or(0)
}

// The heat of a correction, in units of 10 kJ, below zero where gas is taken away.
pub fn correction_heat(volume: i32, heat: u16) -> i64
    ensures value { result ≡ volume *ℤ pos heat }
{
    i64::from(volume) * i64::from(heat)
}
