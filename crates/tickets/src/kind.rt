// The kinds of tickets and of body words, with their numbers, and which figure stands where.
ghost use Rattle.std.specs.Prelude.{◌≡◌};
ghost use Rattle.tickets.specs.Kinds.{ticket_kind, ticket_length, figure_at, body_kind, body_number, within};

use super::word::{field_of, kind_of, signed_of};

// What a ticket reports, by the kind in its header word.
#[derive(Clone, Copy, PartialEq, Eq, Debug)]
pub enum TicketKind {
    // a day's metered receipts
    Receipts = 1,
    // a day's metered deliveries
    Deliveries = 2,
    // a day's planned deliveries
    Plan = 3,
    // a correction of an issued month's receipts
    ReceiptsCorrection = 4,
    // a correction of an issued month's deliveries
    DeliveriesCorrection = 5,
}

// The kind of a body word.
#[derive(Clone, Copy, PartialEq, Eq, Debug)]
pub enum BodyKind {
    Heat = 8,
    Volume = 9,
    SignedVolume = 10,
}

// What a body word stands for.
#[derive(Clone, Copy, PartialEq, Eq, Debug)]
pub enum Figure {
    // the heat of the metered gas, in 10 kJ per m³
    GasHeat,
    // the metered volume of one hour, in m³
    HourVolume,
    // the planned deliveries of one day, in standard m³
    PlanVolume,
    // the metered volume that a correction adds or takes away, in m³
    CorrectionVolume,
}

pub const LEAST_HEAT: u32 = 4000;

pub const MOST_HEAT: u32 = 5000;

pub const MOST_HOUR: u32 = 1_000_000;

pub const MOST_PLAN: u32 = 24_000_000;

pub const MOST_CORRECTION: u32 = 24_000_000;

impl TicketKind {
    // The kind that a header word names; none where its top bits are no header kind. As a `TryFrom` it would need an
    // error type of its own, where the reader has the refusal at hand.
    pub fn of(header: u32) -> Option<TicketKind>
        ensures value { result ≡ ticket_kind header }
    {
        match kind_of(header) {
            1 => Some(TicketKind::Receipts),
            2 => Some(TicketKind::Deliveries),
            3 => Some(TicketKind::Plan),
            4 => Some(TicketKind::ReceiptsCorrection),
            5 => Some(TicketKind::DeliveriesCorrection),
            _ => None,
        }
    }

    // How many words such a ticket has, its header among them.
    pub fn length(self) -> usize
        ensures value { result ≡ ticket_length self }
    {
        match self {
            TicketKind::Receipts | TicketKind::Deliveries => 26,
            TicketKind::Plan => 2,
            TicketKind::ReceiptsCorrection | TicketKind::DeliveriesCorrection => 3,
        }
    }

    // What the word at an index past the header stands for.
    pub fn figure(self, index: usize) -> Figure
        ensures value { result ≡ figure_at self index }
    {
        match (self, index) {
            (TicketKind::Plan, _) => Figure::PlanVolume,
            (_, 1) => Figure::GasHeat,
            (TicketKind::Receipts | TicketKind::Deliveries, _) => Figure::HourVolume,
            (TicketKind::ReceiptsCorrection | TicketKind::DeliveriesCorrection, _) => {
                Figure::CorrectionVolume
            }
        }
    }
}

impl From<BodyKind> for u32 {
    ghost from_gives = { λ kind number. number ≡ body_number kind };

    fn from(kind: BodyKind) -> u32 {
        kind as u32
    }
}

impl Figure {
    pub fn kind(self) -> BodyKind
        ensures value { result ≡ body_kind self }
    {
        match self {
            Figure::GasHeat => BodyKind::Heat,
            Figure::HourVolume | Figure::PlanVolume => BodyKind::Volume,
            Figure::CorrectionVolume => BodyKind::SignedVolume,
        }
    }

    // Whether the word's figure lies within its limits.
    pub fn allows(self, word: u32) -> bool
        ensures value { result ≡ within self word }
    {
        match self {
            Figure::GasHeat => (LEAST_HEAT..=MOST_HEAT).contains(&field_of(word)),
            Figure::HourVolume => field_of(word) <= MOST_HOUR,
            Figure::PlanVolume => field_of(word) <= MOST_PLAN,
            Figure::CorrectionVolume => {
                (1..=MOST_CORRECTION).contains(&signed_of(word).unsigned_abs())
            }
        }
    }
}
