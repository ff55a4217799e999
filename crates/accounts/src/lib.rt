// One shipper's account in the book (docs/RULES.md, "A shipper's account"): remainders, the open month's volumes and
// days, the two standing carries, the settled volume and the yen since the opening.
#![tactic(auto)]

pub mod account;
pub mod month;
pub mod settled;
