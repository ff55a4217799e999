// A month drawn (docs/RULES.md, "The statement"): from the figures and prices of up to sixteen shippers to the lines of
// their statement on a lent sheet.
#![tactic(auto)]

pub mod drawing;
pub mod line;
pub mod month;
pub mod written;
