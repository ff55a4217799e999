// A month drawn from a row of accounts (docs/RULES.md, "Drawing"): its prices come from any board that keeps a board's
// meaning.
#![tactic(auto)]

pub mod drawn;
pub mod issuing;
pub mod priced;
