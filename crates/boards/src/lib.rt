// The two price boards (docs/BOARDS.md): one table of held prices, and two rules by which evidence is judged.
#![tactic(auto)]

pub mod board;
pub mod cost;
pub mod index;
mod percent;
pub mod table;
