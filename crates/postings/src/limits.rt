// The figures of a posting. Each has its limit in its type, so that no value can lie outside it and whoever adds
// figures up can count on it. Their numbers are of three types, so one type with a limit as its parameter would not
// serve them all.
use std::marker::Model;

// The heat of a day's gas, in units of 10 kJ: at most 24 hours of 1,000,000 m³ at heat 5,000.
#[derive(Clone, Copy)]
pub struct DayHeat {
    pub units: u64,
}

impl Model for DayHeat {
    ghost use Rattle.std.specs.Prelude.{ℕ, ◌≤◌};

    ghost Value = { ℕ };

    ghost view = { λ h. h.units };

    ghost invariant = { λ h. h.units ≤ 120000000000 };

    ghost inverse = { λ n. record { units = n } };
}

// A day's planned deliveries, in standard m³: at most 24,000,000.
#[derive(Clone, Copy)]
pub struct DayPlan {
    pub volume: u32,
}

impl Model for DayPlan {
    ghost use Rattle.std.specs.Prelude.{ℕ, ◌≤◌};

    ghost Value = { ℕ };

    ghost view = { λ p. p.volume };

    ghost invariant = { λ p. p.volume ≤ 24000000 };

    ghost inverse = { λ n. record { volume = n } };
}

// The heat that a correction adds, in units of 10 kJ, below zero where gas is taken away: at most that of 24,000,000 m³
// at heat 5,000 either way.
#[derive(Clone, Copy)]
pub struct CorrectionHeat {
    pub units: i64,
}

impl Model for CorrectionHeat {
    ghost use Rattle.std.specs.Prelude.{ℤ, ◌≤◌, unsigned_abs};

    ghost Value = { ℤ };

    ghost view = { λ h. h.units };

    ghost invariant = { λ h. unsigned_abs h.units ≤ 120000000000 };

    ghost inverse = { λ z. record { units = z } };
}
