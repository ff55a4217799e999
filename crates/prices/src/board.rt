// What a board means: what it holds, and what fixing does to that. The meaning is in ghost members and laws of the two
// traits; an implementation proves it for each call, and code over any board uses nothing else.
ghost use Rattle.std.specs.Prelude.{◌≡◌, ℕ, ◌≤◌, None, Option};
ghost use Rattle.prices.specs.Price.{PricesTold};
ghost use Rattle.prices.specs.Board.{fix_bar, ruling, held_after};

use super::price::Prices;
use super::slot::Slot;
use refusals::Refusal;

// A board that can be asked: for a shipper and a place in the year it holds nothing or three prices.
pub trait Asking {
    ghost held: { Self → ℕ → ℕ → Option PricesTold };

    fn ask(&self, slot: Slot) -> Option<Prices>
        ensures value { result ≡ held self.now slot.shipper slot.place };

    ghost nothing_past_shippers: { (board : Self) (shipper place : ℕ) → 16 ≤ shipper → held board shipper place ≡ None };

    ghost nothing_past_places: { (board : Self) (shipper place : ℕ) → 12 ≤ place → held board shipper place ≡ None };
}

// A board on which prices can be fixed, once for each shipper and place. Its rule judges the evidence: nothing where it
// does not stand, else the prices that it gives.
pub trait Fixing: Asking {
    type Evidence: Copy;

    ghost judged: { Self → ℕ → Self.Evidence → Option PricesTold };

    fn fix(&mut self, slot: Slot, evidence: Self::Evidence) -> Result<(), Refusal>
        ensures value { result ≡ ruling (fix_bar slot (Self.held self.old slot.shipper slot.place) (judged self.old slot.shipper evidence)) }
        ensures held { (s p : ℕ) → Self.held self.new s p ≡ held_after slot (Self.held self.old) (judged self.old slot.shipper evidence) s p }
        ensures rule { (s : ℕ) (e : Self.Evidence) → judged self.new s e ≡ judged self.old s e };
}
