// The split of heat into booked volume and remainder, alone, on one side of a shipper, and over a run.
ghost use Rattle.std.specs.Prelude.{◌≡◌, ◌<◌, ◌≤◌, pos, ◌+ℤ◌, ◌-ℤ◌, ◌*ℤ◌};
ghost use Rattle.std.specs.Int.{int_div_euclid, int_rem_euclid};
ghost use Rattle.sides.specs.Sides.{side_of, with_side};
ghost use Rattle.heat.specs.Split.{standard_units, split_of, run_of, whole_run};

use super::standard::{LEAST_STANDARD, MOST_STANDARD, StandardHeat};
use sides::{Pair, Side};

// The booked volume in standard m³, of one booking or of a run of them, and the heat left over, in units of 10 kJ.
#[derive(Clone, Copy, PartialEq, Eq, Debug)]
pub struct Split<V> {
    pub booked: V,
    pub remainder: u32,
}

impl StandardHeat {
    // The standard heat of so many units, if it is within its limits; a `TryFrom` would need an error that says no more
    // than none does.
    pub fn new(units: u32) -> Option<StandardHeat>
        ensures value { result ≡ standard_units units }
    {
        if (LEAST_STANDARD..=MOST_STANDARD).contains(&units) {
            Some(StandardHeat { units })
        } else {
            None
        }
    }

    // Divides heat alone.
    fn floor(self, heat: i64) -> Split<i64>
        ensures booked { result.booked ≡ int_div_euclid heat (pos self) }
        ensures remainder { pos result.remainder ≡ int_rem_euclid heat (pos self) }
    {
        let units = i64::from(self.units);
        Split {
            booked: heat.div_euclid(units),
            remainder: heat.rem_euclid(units) as u32,
        }
    }

    // Divides heat and an older remainder; a heat below zero is rounded down too.
    pub fn split(self, heat: i64, remainder: u32) -> Split<i64>
        ensures value { result ≡ split_of self heat remainder }
        ensures conserved { heat ≡ pos self *ℤ result.booked +ℤ (pos result.remainder -ℤ pos remainder) }
        ensures below { result.remainder < self }
        ensures least { 4000 ≤ self }
        ensures most { self ≤ 5000 }
    {
        let units = u64::from(self.units);
        let alone = self.floor(heat);
        let rest = u64::from(alone.remainder) + u64::from(remainder);
        Split {
            booked: alone.booked + (rest / units) as i64,
            remainder: (rest % units) as u32,
        }
    }

    // Books heat on one side of a shipper: that side's remainder takes part, and the new one is kept there.
    pub fn book(self, side: Side, heat: i64, remainders: &mut Pair<u32>) -> i64
        ensures value { result ≡ (split_of self heat (side_of side remainders.old)).booked }
        ensures after { remainders.new ≡ with_side side remainders.old (split_of self heat (side_of side remainders.old)).remainder }
    {
        let split = self.split(heat, remainders.get(side));
        remainders.put(side, split.remainder);
        split.booked
    }

    // Books a run of heats one after the other. Their volumes add up to the whole heat divided once, and the
    // remainder is what that division leaves. A `fold` would take the same three lines in a closure.
    pub fn book_all(self, heats: &[i64], remainder: u32) -> Split<i128>
        ensures value { result ≡ run_of self heats.now remainder }
        ensures telescopes { remainder < self → result ≡ whole_run self heats.now remainder }
    {
        let mut run = Split {
            booked: 0,
            remainder,
        };
        for heat in heats {
            let split = self.split(*heat, run.remainder);
            run.booked += i128::from(split.booked);
            run.remainder = split.remainder;
        }
        run
    }
}
