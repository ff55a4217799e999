// Postings entered in the row of accounts (docs/RULES.md, "Entering postings"): a day's gas and a day's plan in the open
// month, and a correction at a price.
#![tactic(auto)]

pub mod entering;
pub mod places;
