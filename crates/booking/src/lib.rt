// From a read ticket to booked gas (docs/RULES.md, "Heat into volume"): the heat of a day or of a correction, the peak
// hour, and the intake that keeps both remainders of each shipper.
#![tactic(auto)]

pub mod day;
pub mod intake;
