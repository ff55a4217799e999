// The cost board: the plain price from what the gas cost, low and high from a customs base.
ghost use Rattle.std.specs.Prelude.{◌≡◌, ℕ, None};
ghost use Rattle.boards.specs.Rules.{cost_stands, cost_prices};
ghost use Rattle.boards.specs.Table.{table_held};

use super::board::{Board, Rule};
use super::percent::{HIGH_PERCENT, LOW_PERCENT, percent_price};
use prices::price::Prices;

// The most that each figure of the evidence may be: the cost in yen, the volume in m³, the base in sen per m³.
pub const MOST_COST: u64 = 10_000_000_000_000;

pub const MOST_VOLUME: u64 = 10_000_000_000;

pub const MOST_CUSTOMS: u64 = 100_000;

// The cost of a month's gas in yen, the volume produced for it in m³, and the customs base in sen per m³.
#[derive(Clone, Copy)]
pub struct CostEvidence {
    pub cost: u64,
    pub volume: u64,
    pub customs: u64,
}

impl CostEvidence {
    // Whether the figures are within their limits.
    fn stands(self) -> bool
        ensures value { result ≡ cost_stands self }
    {
        self.customs <= MOST_CUSTOMS
            && self.cost <= MOST_COST
            && 1 <= self.volume
            && self.volume <= MOST_VOLUME
    }
}

// The manufacturing prices in sen per m³, for plain and for low and high.
#[derive(Clone, Copy)]
pub struct CostRule {
    pub plain: u16,
    pub customs: u16,
}

impl Rule for CostRule {
    type Evidence = CostEvidence;

    ghost judges = { λ rule evidence. cost_prices rule.plain rule.customs evidence };

    fn prices(&self, evidence: CostEvidence) -> Option<Prices> {
        if !evidence.stands() {
            return None;
        }
        let base = evidence.customs as u32;
        let CostRule { plain, customs } = *self;
        Prices::new(
            percent_price(base, LOW_PERCENT, customs),
            100 * evidence.cost / evidence.volume + u64::from(plain),
            percent_price(base, HIGH_PERCENT, customs),
        )
    }
}

pub type CostBoard = Board<CostRule>;

impl Board<CostRule> {
    // A board that holds nothing, with its manufacturing prices in sen per m³, for plain and for low and high.
    pub fn new(plain: u16, customs: u16) -> CostBoard
        ensures held { (s p : ℕ) → table_held result.table s p ≡ None }
        ensures rule { (result.rule.plain ≡ plain) × (result.rule.customs ≡ customs) }
    {
        Board::with_rule(CostRule { plain, customs })
    }
}
