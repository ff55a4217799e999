// The intake of tickets at one standard heat: it reads the words, books day tickets and corrections, and keeps both
// remainders of each shipper.
ghost use Rattle.std.specs.Prelude.{◌≡◌, ◌<◌, replicate, Some};
ghost use Rattle.tickets.specs.Reader.{reads};
ghost use Rattle.booking.specs.Intake.{no_remainder, booked, kept_on, answered, kept, booking_text};

use super::day::{Hours, TicketHeat, correction_heat};
use heat::standard::StandardHeat;
use refusals::Refusal;
use sides::{Pair, Side};
use std::fmt;
use tickets::reader::{Ticket, read};

// Shippers that the four bits of a header word can name.
pub const SHIPPERS: usize = 16;

// What a ticket comes to.
#[derive(Clone, Copy, PartialEq, Eq, Debug)]
pub enum Booking {
    // a day's booked volume in standard m³, and its peak hour
    Metered { volume: i64, peak: usize },
    // a day's planned deliveries in standard m³
    Planned { volume: u32 },
    // a correction's booked volume in standard m³
    Corrected { volume: i64 },
}

#[derive(Drop)]
pub struct Intake {
    standard: StandardHeat,
    remainders: [Pair<u32>; SHIPPERS],
}

impl Intake {
    // Nothing is left over at the start.
    pub fn new(standard: StandardHeat) -> Intake
        ensures standard { result.standard ≡ standard }
        ensures remainders { result.remainders ≡ replicate 16 no_remainder }
    {
        Intake {
            standard,
            remainders: [Pair::default(); SHIPPERS],
        }
    }

    // Books heat on one side of a shipper.
    fn book(&mut self, side: Side, shipper: u8, heat: i64) -> i64
        requires { shipper < 16 }
        ensures value { result ≡ (booked self.old.standard self.old.remainders side shipper heat).booked }
        ensures standard { self.new.standard ≡ self.old.standard }
        ensures remainders { self.new.remainders ≡ kept_on self.old.standard self.old.remainders side shipper heat }
    {
        let remainders = &mut self.remainders[shipper as usize];
        self.standard.book(side, heat, remainders)
    }

    // Takes one ticket; a refusal changes nothing.
    pub fn take(&mut self, words: &[u32]) -> Result<Booking, Refusal>
        ensures value { result ≡ answered self.old.standard self.old.remainders (reads words.now) }
        ensures standard { self.new.standard ≡ self.old.standard }
        ensures remainders { self.new.remainders ≡ kept self.old.standard self.old.remainders (reads words.now) }
    {
        match read(words)? {
            Ticket::Metered {
                side,
                shipper,
                heat,
                hours,
                ..
            } => {
                let hours = Hours { words: hours };
                let heat = hours.heat(TicketHeat { units: heat });
                let volume = self.book(side, shipper, heat);
                Ok(Booking::Metered {
                    volume,
                    peak: hours.peak(),
                })
            }
            Ticket::Planned { volume, .. } => Ok(Booking::Planned { volume }),
            Ticket::Corrected {
                side,
                shipper,
                heat,
                volume,
                ..
            } => {
                let volume = self.book(side, shipper, correction_heat(volume, heat));
                Ok(Booking::Corrected { volume })
            }
        }
    }
}

impl fmt::Display for Booking {
    ghost output = { λ booking. Some (booking_text booking) };

    fn fmt<W: fmt::Write>(&self, f: &mut fmt::Formatter<W>) -> fmt::Result {
        match *self {
            Booking::Metered { volume, peak } => write!(f, "booked {volume} peak {peak}"),
            Booking::Planned { volume } => write!(f, "planned {volume}"),
            Booking::Corrected { volume } => write!(f, "corrected {volume}"),
        }
    }
}
