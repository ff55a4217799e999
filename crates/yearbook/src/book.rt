// The year book as a program: each line is answered by one line, and a drawing by a statement's lines.
use super::line::Fields;
use super::unanswered::{Unanswered, Unreadable};
use anyhow::Context;
use boards::index::{IndexBoard, IndexEvidence};
use booking::intake::Intake;
use fields::{Base, number, number32};
use fixings::{Request, fix_and_ask};
use heat::standard::StandardHeat;
use prices::price::Prices;
use prices::slot::{SHIPPERS, Slot};
use rolls::terms::MOST_TAX;
use shares::figures::Figures;
use statement::line::{Line, NO_LINE};
use statement::month::{Entry, Month};
use std::alloc::Global;
use std::io::Write;
use std::{io, mem};

// The standard heat at which tickets are booked, in 10 kJ per m³.
const STANDARD_HEAT: u32 = 4500;

// The manufacturing price of the index board, in sen per m³.
const MANUFACTURING_PRICE: u16 = 236;

// Room for a line's text: ten figures of at most 20 digits, a minus and the byte after them.
const LINE_BYTES: usize = 220;

// The figures of a fixing: shipper, place, and the evidence's four.
fn read_fixing(line: &[u8]) -> Option<Request<IndexEvidence>> {
    let mut fields = Fields { rest: line };
    let request = Request {
        slot: Slot {
            shipper: fields.number32()?,
            place: fields.number32()?,
        },
        evidence: IndexEvidence {
            lng: fields.number()?,
            lpg: fields.number()?,
            share: fields.number()?,
            tax: fields.number()?,
        },
    };
    fields.complete(request)
}

// A shipper's month: its figures, and the three prices that are held for it.
fn read_entry(line: &[u8]) -> Option<Entry> {
    let mut fields = Fields { rest: line };
    let figures = Figures {
        receipts: fields.number32()?,
        deliveries: fields.number32()?,
        plan: fields.number32()?,
        brought: i32::try_from(fields.integer()?).ok()?,
    };
    let prices = Prices::new(fields.number()?, fields.number()?, fields.number()?)?;
    fields.complete(Entry { figures, prices })
}

// What the lines have told so far, and where the answers go.
#[derive(Drop)]
pub struct YearBook<W> {
    intake: Intake,
    board: IndexBoard,
    month: Month,
    words: Vec<u32>,
    pub out: W,
}

impl<W: Write + Drop> YearBook<W> {
    pub(crate) fn new(alloc: Global, out: W) -> anyhow::Result<YearBook<W>> {
        let standard = StandardHeat::new(STANDARD_HEAT).context(
            "the standard heat is outside its limits",
        )?;
        Ok(YearBook {
            intake: Intake::new(standard),
            board: IndexBoard::new(MANUFACTURING_PRICE),
            month: Month::new(),
            words: Vec::new(alloc),
            out,
        })
    }

    // Answers the line of this number, or prints why not.
    pub(crate) fn take(&mut self, number: u64, line: &[u8]) -> io::Result<()> {
        match self.answer(line) {
            Ok(()) => Ok(()),
            Err(Unanswered::Unreadable(unreadable)) => {
                writeln!(self.out, "line {number}: {unreadable}")
            }
            Err(Unanswered::Refused(refusal)) => writeln!(self.out, "{refusal}"),
            Err(Unanswered::Stopped(error)) => Err(error),
        }
    }

    fn answer(&mut self, line: &[u8]) -> Result<(), Unanswered> {
        if let Some(rest) = line.strip_prefix(b"fix ") {
            self.fix(rest)
        } else if let Some(rest) = line.strip_prefix(b"shipper ") {
            self.list(rest)
        } else if let Some(rest) = line.strip_prefix(b"draw ") {
            self.draw(rest)
        } else {
            self.book(line)
        }
    }

    // Fixes prices, and tells what is held then.
    fn fix(&mut self, line: &[u8]) -> Result<(), Unanswered> {
        let request = read_fixing(line).ok_or(Unreadable::Fix)?;
        let held = fix_and_ask(&mut self.board, request.slot, request.evidence)?;
        match held {
            Some(prices) => writeln!(self.out, "held {prices}")?,
            None => writeln!(self.out, "held nothing")?,
        }
        Ok(())
    }

    // Lists a shipper for the month.
    fn list(&mut self, line: &[u8]) -> Result<(), Unanswered> {
        let entry = read_entry(line).ok_or(Unreadable::Shipper)?;
        let shipper = self.month.len();
        self.month.add(entry).map_err(|_| Unreadable::Shipper)?;
        writeln!(self.out, "shipper {shipper}")?;
        Ok(())
    }

    // Draws the month on a sheet and prints its lines. Another month begins, also where the drawing is refused.
    fn draw(&mut self, line: &[u8]) -> Result<(), Unanswered> {
        let percent = number(line, Base::Decimal, u64::from(MOST_TAX)).ok_or(
            Unreadable::Draw,
        )? as u8;
        let month = mem::replace(&mut self.month, Month::new());
        // a lent sheet, as the rules have it
        let mut sheet = [NO_LINE; SHIPPERS];
        month.draw(percent, &mut sheet)?;
        for line in &sheet[..month.len()] {
            self.print(*line)?;
        }
        Ok(())
    }

    // A line is written into a lent buffer, so that a caller without a heap can do the same.
    fn print(&mut self, line: Line) -> io::Result<()> {
        let mut text = [0; LINE_BYTES];
        match line.write(&mut text, 0) {
            Ok(end) => self.out.write_all(&text[..end]),
            Err(refusal) => writeln!(self.out, "{refusal}"),
        }
    }

    // Books a ticket.
    fn book(&mut self, line: &[u8]) -> Result<(), Unanswered> {
        self.read_words(line)?;
        let booking = self.intake.take(self.words.as_slice())?;
        writeln!(self.out, "{booking}")?;
        Ok(())
    }

    // A ticket's words, in place of those of the ticket before.
    fn read_words(&mut self, line: &[u8]) -> Result<(), Unanswered> {
        self.words.clear();
        for field in (Fields { rest: line }) {
            let word = number32(field, Base::Hexadecimal).ok_or(Unreadable::Ticket)?;
            self.words.push(word).map_err(io::Error::from)?;
        }
        Ok(())
    }
}
