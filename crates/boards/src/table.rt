// The prices that a board holds, and asking and fixing there once the evidence is judged.
ghost use Rattle.std.specs.Prelude.{◌≡◌, ℕ, None, replicate};
ghost use Rattle.prices.specs.Board.{fix_bar, ruling, held_after};
ghost use Rattle.boards.specs.Table.{table_held};

use prices::price::Prices;
use prices::slot::{PLACES, SHIPPERS, Slot};
use refusals::{Ground, Layer, Refusal};
use std::array;

// A row for each shipper, and in it the places.
#[derive(Clone, Copy)]
pub struct PriceTable {
    pub prices: [[Option<Prices>; PLACES]; SHIPPERS],
}

impl PriceTable {
    // Nothing is held.
    pub fn new() -> PriceTable
        ensures held { (s p : ℕ) → table_held result s p ≡ None }
    {
        PriceTable {
            // an array of arrays as a literal, `[[None; PLACES]; SHIPPERS]`, gets no proof
            prices: array::from_fn(
                |_| -> [Option<Prices>; PLACES]
                    ensures { result ≡ replicate 12 None }
                { [None; PLACES] },
            ),
        }
    }

    pub fn get(&self, slot: Slot) -> Option<Prices>
        ensures value { result ≡ table_held self.now slot.shipper slot.place }
    {
        let row = self.prices.get(slot.shipper as usize)?;
        *row.get(slot.place as usize)?
    }

    // Fixes the prices that evidence was judged to give, or refuses; a refusal changes nothing.
    pub fn fix(&mut self, slot: Slot, judged: Option<Prices>) -> Result<(), Refusal>
        ensures value { result ≡ ruling (fix_bar slot (table_held self.old slot.shipper slot.place) judged) }
        ensures held { (s p : ℕ) → table_held self.new s p ≡ held_after slot (table_held self.old) judged s p }
    {
        let shipper = u64::from(slot.shipper);
        let place = u64::from(slot.place);
        let row = self
            .prices
            .get(slot.shipper as usize)
            .ok_or(Layer::Board.refuses(Ground::UnknownShipper, shipper))?;
        let held = row
            .get(slot.place as usize)
            .ok_or(Layer::Board.refuses(Ground::OutsidePeriod, place))?;
        if held.is_some() {
            return Err(Layer::Board.refuses(Ground::PriceHeld, place));
        }
        let prices = judged.ok_or(Layer::Board.refuses(Ground::EvidenceFails, place))?;
        self.prices[slot.shipper as usize][slot.place as usize] = Some(prices);
        Ok(())
    }
}
