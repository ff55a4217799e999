// The reader: a list of words is a ticket, or the first thing wrong with it is told.
ghost use Rattle.std.specs.Prelude.{◌≡◌, length, IfOk, None};
ghost use Rattle.tickets.specs.Kinds.{ticket_length};
ghost use Rattle.tickets.specs.Reader.{first_not, shaped, allowed, metered_told, planned_told, corrected_told, told, ticket_told, outcome, reads, Sound};
ghost use Rattle.tickets.specs.declared.kind.TicketKind.TheVariants.{Receipts, Plan, ReceiptsCorrection};

use super::kind::TicketKind;
use super::word::{date_of, field_of, kind_of, reserved_of, shipper_of, signed_of};
use calendar::{Day, Month};
use refusals::{Ground, Layer, Refusal};
use sides::Side;

// Where the hours begin in a day ticket's words.
pub const HOURS_PLACE: usize = 2;

// A ticket as its words say it. The hours of a day ticket are a part of the words handed in, with the place of the
// first in them; an hour's volume is its word's field. The figures are plain: a match by another crate on an enum with
// both a reference and structs that keep limits gets no proof, so `read` says their limits (`sound`).
#[derive(Clone, Copy)]
pub enum Ticket<'a> {
    Metered {
        side: Side,
        shipper: u8,
        day: Day,
        heat: u16,
        hours: &'a [u32],
        place: usize,
    },
    Planned {
        shipper: u8,
        day: Day,
        volume: u32,
    },
    Corrected {
        side: Side,
        shipper: u8,
        month: Month,
        heat: u16,
        volume: i32,
    },
}

// A header has its reserved bits zero, and a body word the kind of what it stands for.
fn is_shaped(kind: TicketKind, index: usize, word: u32) -> bool
    ensures value { result ≡ shaped kind index word }
{
    if index == 0 {
        reserved_of(word) == 0
    } else {
        kind_of(word) == u32::from(kind.figure(index).kind())
    }
}

// A body word's figure lies within its limits.
fn is_allowed(kind: TicketKind, index: usize, word: u32) -> bool
    ensures value { result ≡ allowed kind index word }
{
    index == 0 || kind.figure(index).allows(word)
}

// The index of the first word of a wrong shape. Two searches: as a closure the test would need a contract of its own.
fn first_misshapen(kind: TicketKind, words: &[u32]) -> Option<usize>
    ensures value { result ≡ first_not (shaped kind) words.now }
{
    words
        .iter()
        .enumerate()
        .position(|(i, word)| !is_shaped(kind, i, *word))
}

// The index of the first word whose figure lies outside its limits.
fn first_outside(kind: TicketKind, words: &[u32]) -> Option<usize>
    ensures value { result ≡ first_not (allowed kind) words.now }
{
    words
        .iter()
        .enumerate()
        .position(|(i, word)| !is_allowed(kind, i, *word))
}

// A day's metered gas, from 26 words. Here and in the three functions below: words that have passed both tests are still
// words, and a type for them would serve `read` alone.
fn metered(side: Side, words: &[u32]) -> Ticket<'_>
    requires whole { length words.now ≡ 26 }
    requires shapes { first_not (shaped Receipts) words.now ≡ None }
    requires limits { first_not (allowed Receipts) words.now ≡ None }
    ensures value { ticket_told result ≡ metered_told side words.now }
    ensures sound { Sound (ticket_told result) }
{
    Ticket::Metered {
        side,
        shipper: shipper_of(words[0]),
        day: Day(date_of(words[0])),
        heat: field_of(words[1]) as u16,
        hours: &words[HOURS_PLACE..26],
        place: HOURS_PLACE,
    }
}

// A day's plan, from 2 words.
fn planned(words: &[u32]) -> Ticket<'_>
    requires whole { length words.now ≡ 2 }
    requires limits { first_not (allowed Plan) words.now ≡ None }
    ensures value { ticket_told result ≡ planned_told words.now }
    ensures sound { Sound (ticket_told result) }
{
    Ticket::Planned {
        shipper: shipper_of(words[0]),
        day: Day(date_of(words[0])),
        volume: field_of(words[1]),
    }
}

// A correction of an issued month, from 3 words.
fn corrected(side: Side, words: &[u32]) -> Ticket<'_>
    requires whole { length words.now ≡ 3 }
    requires limits { first_not (allowed ReceiptsCorrection) words.now ≡ None }
    ensures value { ticket_told result ≡ corrected_told side words.now }
    ensures sound { Sound (ticket_told result) }
{
    Ticket::Corrected {
        side,
        shipper: shipper_of(words[0]),
        month: Month(date_of(words[0])),
        heat: field_of(words[1]) as u16,
        volume: signed_of(words[2]),
    }
}

// The ticket that words of their kind's length say.
fn ticket_of(kind: TicketKind, words: &[u32]) -> Ticket<'_>
    requires whole { length words.now ≡ ticket_length kind }
    requires shapes { first_not (shaped kind) words.now ≡ None }
    requires limits { first_not (allowed kind) words.now ≡ None }
    ensures value { ticket_told result ≡ told kind words.now }
    ensures sound { Sound (ticket_told result) }
{
    match kind {
        TicketKind::Receipts => metered(Side::Receipts, words),
        TicketKind::Deliveries => metered(Side::Deliveries, words),
        TicketKind::Plan => planned(words),
        TicketKind::ReceiptsCorrection => corrected(Side::Receipts, words),
        TicketKind::DeliveriesCorrection => corrected(Side::Deliveries, words),
    }
}

// Any list of words is read, or refused by the first of three grounds: its length, a word's kind or bits, a figure's
// limits.
pub fn read(words: &[u32]) -> Result<Ticket<'_>, Refusal>
    ensures value { outcome result ≡ reads words.now }
    ensures sound { IfOk (outcome result) Sound }
{
    let header = words
        .first()
        .ok_or(Layer::Words.refuses(Ground::TicketLength, 0))?;
    let kind = TicketKind::of(*header).ok_or(Layer::Words.refuses(Ground::WordKind, 0))?;
    if words.len() != kind.length() {
        return Err(Layer::Words.refuses(Ground::TicketLength, words.len() as u64));
    }
    if let Some(at) = first_misshapen(kind, words) {
        return Err(Layer::Words.refuses(Ground::WordKind, at as u64));
    }
    if let Some(at) = first_outside(kind, words) {
        return Err(Layer::Words.refuses(Ground::FigureLimits, at as u64));
    }
    Ok(ticket_of(kind, words))
}
