// The one type of refusal (docs/REFUSALS.md): a ground, the layer that found it, and the place there.
#![tactic(auto)]

ghost use Rattle.std.specs.Prelude.{◌≡◌, Some};
ghost use Rattle.refusals.specs.Grounds.{ground_number, layer_name, refusal_at, refusal_text};

use std::fmt;

// Why a call is refused, with the number that the rules give it. Of several that are due the lowest is told.
#[derive(Clone, Copy, PartialEq, Eq, Debug)]
pub enum Ground {
    // the book is blank, and the call isn't the opening
    BlankBook = 1,
    // the opening reaches a book that isn't blank
    AlreadyOpened = 2,
    // a draft is out, and the call is a ticket, a price or a drawing
    DraftOut = 3,
    // a ticket is empty, or its length isn't that of its kind
    TicketLength = 4,
    // a word has a wrong kind, or a bit set that must be zero
    WordKind = 5,
    // a figure is outside its limits
    FigureLimits = 6,
    // the shipper isn't there
    UnknownShipper = 7,
    // the day isn't in the open month, or the month isn't one that the call may name
    OutsidePeriod = 8,
    // a ticket of its shipper, kind and day is in
    TicketRepeated = 9,
    // the price is already held
    PriceHeld = 10,
    // the evidence for a price doesn't stand
    EvidenceFails = 11,
    // a complete book is asked to draw
    YearComplete = 12,
    // the sheet or the buffer is too short
    SheetShort = 13,
    // some shipper lacks a day's ticket
    TicketMissing = 14,
    // some shipper's price for the month isn't held
    PriceMissing = 15,
    // a settled volume or an account would pass its limit
    AccountLimit = 16,
    // a draft reaches a book that hasn't drawn its month
    StrayDraft = 17,
}

// The part of the engine that found the ground. It says what the place counts.
#[derive(Clone, Copy, PartialEq, Eq, Debug)]
pub enum Layer {
    Words,
    Board,
    Sheet,
    Book,
}

#[derive(Clone, Copy, PartialEq, Eq, Debug)]
pub struct Refusal {
    pub ground: Ground,
    pub layer: Layer,
    pub place: u64,
}

impl From<Ground> for u8 {
    ghost from_gives = { λ ground number. number ≡ ground_number ground };

    fn from(ground: Ground) -> u8 {
        ground as u8
    }
}

impl fmt::Display for Layer {
    ghost output = { λ layer. Some (layer_name layer) };

    fn fmt<W: fmt::Write>(&self, f: &mut fmt::Formatter<W>) -> fmt::Result {
        f.write_str(self.name())
    }
}

impl Layer {
    pub fn name(self) -> &'static str
        ensures value { result.now ≡ layer_name self }
    {
        match self {
            Layer::Words => "words",
            Layer::Board => "board",
            Layer::Sheet => "sheet",
            Layer::Book => "book",
        }
    }

    // The refusal by this layer of what its ground is due for, at a place there.
    pub fn refuses(self, ground: Ground, place: u64) -> Refusal
        ensures value { result ≡ refusal_at ground self place }
    {
        Refusal {
            ground,
            layer: self,
            place,
        }
    }
}

impl fmt::Display for Refusal {
    ghost output = { λ refusal. Some (refusal_text refusal) };

    fn fmt<W: fmt::Write>(&self, f: &mut fmt::Formatter<W>) -> fmt::Result {
        let number = u8::from(self.ground);
        let layer = self.layer;
        let place = self.place;
        write!(f, "refused {number} {layer} {place}")
    }
}
