// What the opening fixes for the year.
use heat::standard::StandardHeat;
use std::marker::Model;

// The last month that a year can begin with, and the greatest tax in percent.
pub const LAST_FIRST_MONTH: u32 = 1188;

pub const MOST_TAX: u32 = 100;

#[derive(Clone, Copy)]
pub struct Terms {
    // the first month, counted from January 2000
    pub first: u32,
    pub standard: StandardHeat,
    // percent
    pub tax: u8,
}

impl Model for Terms {
    ghost use Rattle.std.specs.Prelude.{◌≤◌};
    ghost use Rattle.rolls.specs.Terms.{TermsTold};

    ghost Value = { TermsTold };

    ghost view = { λ t. record { first = t.first; standard = t.standard; tax = t.tax } };

    ghost invariant = { λ t. (t.first ≤ 1188) × (t.tax ≤ 100) };

    ghost inverse = { λ t. record { first = t.first; standard = t.standard; tax = t.tax } };
}
