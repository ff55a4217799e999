// The index board: prices from the customs prices of LNG and LPG, weighed by the LNG share.
ghost use Rattle.std.specs.Prelude.{◌≡◌, ℕ, ◌≤◌, true, None};
ghost use Rattle.boards.specs.Rules.{index_stands, index_base, index_prices};
ghost use Rattle.boards.specs.Table.{table_held};

use super::board::{Board, Rule};
use super::percent::{HIGH_PERCENT, LOW_PERCENT, percent_price};
use prices::price::Prices;

// The most that each figure of the evidence may be: prices and tax in sen per m³, the share in percent.
pub const MOST_SEN: u64 = 100_000;

pub const MOST_SHARE: u64 = 100;

// The customs price of LNG, that of LPG, and the tax, in sen per m³, and the LNG share in percent.
#[derive(Clone, Copy)]
pub struct IndexEvidence {
    pub lng: u64,
    pub lpg: u64,
    pub share: u64,
    pub tax: u64,
}

impl IndexEvidence {
    // Whether the figures are within their limits.
    fn stands(self) -> bool
        ensures value { result ≡ index_stands self }
    {
        self.lng <= MOST_SEN
            && self.lpg <= MOST_SEN
            && self.tax <= MOST_SEN
            && self.share <= MOST_SHARE
    }

    // The two customs prices weighed by the share, and the tax, in sen per m³.
    fn base(self) -> u32
        requires { index_stands self ≡ true }
        ensures value { result ≡ index_base self }
        ensures bound { result ≤ 200000 }
    {
        ((self.lng * self.share + self.lpg * (100 - self.share)) / 100 + self.tax) as u32
    }
}

// The manufacturing price, in sen per m³.
#[derive(Clone, Copy)]
pub struct IndexRule {
    pub manufacturing: u16,
}

impl Rule for IndexRule {
    type Evidence = IndexEvidence;

    ghost judges = { λ rule evidence. index_prices rule.manufacturing evidence };

    fn prices(&self, evidence: IndexEvidence) -> Option<Prices> {
        if !evidence.stands() {
            return None;
        }
        let base = evidence.base();
        let manufacturing = self.manufacturing;
        Prices::new(
            percent_price(base, LOW_PERCENT, manufacturing),
            u64::from(base) + u64::from(manufacturing),
            percent_price(base, HIGH_PERCENT, manufacturing),
        )
    }
}

pub type IndexBoard = Board<IndexRule>;

impl Board<IndexRule> {
    // A board that holds nothing, with its manufacturing price in sen per m³.
    pub fn new(manufacturing: u16) -> IndexBoard
        ensures held { (s p : ℕ) → table_held result.table s p ≡ None }
        ensures rule { result.rule.manufacturing ≡ manufacturing }
    {
        Board::with_rule(IndexRule { manufacturing })
    }
}
