// Metered gas into standard gas (docs/RULES.md, "Heat into volume"): heat is divided by the standard heat, and what is
// left over waits for the same shipper's next ticket on the same side.
#![tactic(auto)]

pub mod split;
pub mod standard;
