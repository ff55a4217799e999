// A ticket as what it posts (docs/RULES.md, "Heat into volume"): the heat of a day or of a correction, or a day's plan.
// A posting borrows nothing, and its figures keep their limits.
#![tactic(auto)]

pub mod limits;
pub mod posting;
