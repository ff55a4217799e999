// The standard heat of a pipeline, which no value can hold outside its limits.
use std::marker::Model;

// The limits of the standard heat, in 10 kJ per m³.
pub const LEAST_STANDARD: u32 = 4000;

pub const MOST_STANDARD: u32 = 5000;

// The heat of one standard m³, in units of 10 kJ.
#[derive(Clone, Copy)]
pub struct StandardHeat {
    pub units: u32,
}

impl Model for StandardHeat {
    ghost use Rattle.std.specs.Prelude.{ℕ, ◌≤◌};

    ghost Value = { ℕ };

    ghost view = { λ s. s.units };

    ghost invariant = { λ s. (4000 ≤ s.units) × (s.units ≤ 5000) };

    ghost inverse = { λ units. record { units = units } };
}
