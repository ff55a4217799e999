// How far a shipper's deliveries are from its plan, as an exact fraction, and who is furthest (docs/RULES.md, "The
// month").
#![tactic(auto)]

pub mod order;
pub mod rate;
