// A month's imbalances, and how each is divided into gas carried and gas settled (docs/RULES.md, "The month").
#![tactic(auto)]

pub mod figures;
pub mod pool;
pub mod pools;
