// Why a line is not answered, and what is printed in place of its answer.
use refusals::Refusal;
use std::io;
use thiserror::Error;

// A line that cannot be read, by what it should have been.
#[derive(Clone, Copy, Debug, Error)]
pub enum Unreadable {
    #[error("expected fix SHIPPER PLACE LNG LPG SHARE TAX, in decimal")]
    Fix,
    #[error("expected shipper R D P CARRY LOW PLAIN HIGH, in decimal, for at most 16 shippers")]
    Shipper,
    #[error("expected draw TAX, a percentage in decimal up to 100")]
    Draw,
    #[error("expected 32-bit words in hexadecimal, with spaces between, or a fixing")]
    Ticket,
}

#[derive(Debug, Drop, Error)]
pub enum Unanswered {
    #[error("{0}")]
    Unreadable(#[from] Unreadable),
    #[error("{0}")]
    Refused(#[from] Refusal),
    // no room in memory, or no way to write
    #[error("{0}")]
    Stopped(#[from] io::Error),
}
