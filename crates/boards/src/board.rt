// A board over any rule: the rule judges the evidence, and a table holds what was fixed.
ghost use Rattle.std.specs.Prelude.{◌≡◌, ℕ, None, Option};
ghost use Rattle.prices.specs.Price.{PricesTold};
ghost use Rattle.boards.specs.Table.{table_held};
ghost use Rattle.std.proofs.Common.{rules};

use super::table::PriceTable;
use prices::board::{Asking, Fixing};
use prices::price::Prices;
use prices::slot::Slot;
use refusals::Refusal;

// What a board's prices come from: the prices that evidence gives, or nothing where it does not stand.
pub trait Rule {
    type Evidence: Copy;

    ghost judges: { Self → Self.Evidence → Option PricesTold };

    fn prices(&self, evidence: Self::Evidence) -> Option<Prices>
        ensures value { result ≡ judges self.now evidence };
}

#[derive(Drop)]
pub struct Board<R> {
    table: PriceTable,
    rule: R,
}

impl<R> Board<R> {
    // A board that holds nothing, with its rule.
    pub fn with_rule(rule: R) -> Board<R>
        ensures held { (s p : ℕ) → table_held result.table s p ≡ None }
        ensures rule { result.rule ≡ rule }
    {
        Board {
            table: PriceTable::new(),
            rule,
        }
    }
}

impl<R: Rule> Asking for Board<R> {
    ghost held = { λ board. table_held board.table };

    ghost nothing_past_shippers = { Prim.search rules };

    ghost nothing_past_places = { Prim.search rules };

    fn ask(&self, slot: Slot) -> Option<Prices> {
        self.table.get(slot)
    }
}

impl<R: Rule> Fixing for Board<R> {
    type Evidence = R::Evidence;

    ghost judged = { λ board _ evidence. R.judges board.rule evidence };

    fn fix(&mut self, slot: Slot, evidence: R::Evidence) -> Result<(), Refusal> {
        let judged = self.rule.prices(evidence);
        self.table.fix(slot, judged)
    }
}
