// Laws that hold over every price board (docs/BOARDS.md, "What follows for every board"), proved once from the meaning.
#![tactic(auto)]

ghost use Rattle.std.specs.Prelude.{◌≡◌, ℕ, true, is_some};
ghost use Rattle.prices.specs.Board.{fix_bar, held_after};
ghost use Rattle.fixings.specs.Fixings.{fixed_prices, held_through};

use prices::board::{Asking, Fixing};
use prices::price::Prices;
use prices::slot::Slot;
use refusals::Refusal;

// One fixing, as it is asked for.
#[derive(Clone, Copy)]
pub struct Request<E> {
    pub slot: Slot,
    pub evidence: E,
}

// Asks a board that could be changed: it is not.
pub fn ask_only<B: Asking>(board: &mut B, slot: Slot) -> Option<Prices>
    ensures value { result ≡ B.held board.old slot.shipper slot.place }
    ensures same { board.new ≡ board.old }
{
    board.ask(slot)
}

// Fixes prices, and asks for them: they are those that the evidence gives.
pub fn fix_and_ask<B: Fixing>(
    board: &mut B,
    slot: Slot,
    evidence: B::Evidence,
) -> Result<Option<Prices>, Refusal>
    ensures value { result ≡ fixed_prices (fix_bar slot (B.held board.old slot.shipper slot.place) (B.judged board.old slot.shipper evidence)) (B.judged board.old slot.shipper evidence) }
    ensures held { (s p : ℕ) → B.held board.new s p ≡ held_after slot (B.held board.old) (B.judged board.old slot.shipper evidence) s p }
{
    board.fix(slot, evidence)?;
    Ok(board.ask(slot))
}

// Performs any list of fixings, some of them refused. What a pair held stays, and the board's rule too.
pub fn fix_all<B: Fixing>(board: &mut B, requests: &[Request<B::Evidence>])
    ensures held { (s p : ℕ) → B.held board.new s p ≡ held_through (B.held board.old) (B.judged board.old) requests.now s p }
    ensures kept { (s p : ℕ) → is_some (B.held board.old s p) ≡ true → B.held board.new s p ≡ B.held board.old s p }
    ensures rule { (s : ℕ) (e : B.Evidence) → B.judged board.new s e ≡ B.judged board.old s e }
{
    for request in requests {
        let _ = board.fix(request.slot, request.evidence);
    }
}
