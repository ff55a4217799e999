// Ticket words (docs/TICKETS.md): any list of 32-bit words is read as a ticket, or refused.
#![tactic(auto)]

pub mod kind;
pub mod reader;
pub mod word;
