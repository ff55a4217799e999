// The shippers of a book (docs/RULES.md, "The opening", "A month's tickets"): their accounts in a row, from the opening
// on.
#![tactic(auto)]

pub mod opening;
mod places;
pub mod roll;
pub mod rows;
pub mod spare;
pub mod terms;
#[cfg(test)]
mod tests;
