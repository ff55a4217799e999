// Settlement prices and what a price board means (docs/BOARDS.md): a trait for asking, and one for fixing built on it.
#![tactic(auto)]

pub mod board;
pub mod price;
pub mod slot;
