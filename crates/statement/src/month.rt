// The shippers of a month that is drawn, at most sixteen, in the order of their numbers.
ghost use Rattle.std.specs.Prelude.{◌≡◌, ◌<◌, ◌≤◌, ◌↔◌, [], length, IsOk, IfErr};
ghost use Rattle.arrayvec.specs.CapacityError.{error_element};
ghost use Rattle.statement.specs.Statement.{no_shipper, with_entry};

use arrayvec::CapacityError;
use prices::price::Prices;
use prices::slot::SHIPPERS;
use shares::figures::Figures;
use std::marker::Model;

// One shipper: its figures of the month, and the three prices that are held for it.
#[derive(Clone, Copy)]
pub struct Entry {
    pub figures: Figures,
    pub prices: Prices,
}

impl Default for Entry {
    ghost is_default = { λ entry. entry ≡ no_shipper };

    // What fills the places that no shipper has.
    fn default() -> Entry {
        let prices = Prices {
            low: 1,
            plain: 1,
            high: 1,
        };
        Entry {
            figures: Figures::default(),
            prices,
        }
    }
}

// A month is seen as the list of its shippers. An array with a count, since a short vector is never `Copy`.
#[derive(Clone, Copy)]
pub struct Month {
    // how many shippers there are; the places after them are those of no shipper
    pub count: usize,
    pub entries: [Entry; SHIPPERS],
}

impl Model for Month {
    ghost use Rattle.std.specs.Prelude.{List};
    ghost use Rattle.statement.specs.declared.month.Entry.{Entry};

    ghost Value = { List Entry };

    ghost use Rattle.statement.specs.Places.{shippers, Placed, places, places_back};

    ghost view = { shippers };

    ghost invariant = { Placed };

    ghost inverse = { places };

    ghost inverse_ok = { places_back };
}

impl Month {
    // No shipper yet.
    pub fn new() -> Month
        ensures entries { result ≡ [] }
    {
        Month {
            count: 0,
            entries: [Entry::default(); SHIPPERS],
        }
    }

    // How many shippers there are; sixteen at most, which callers do not see of the list itself.
    pub fn len(&self) -> usize
        ensures value { result ≡ length self.now }
        ensures few { result ≤ 16 }
    {
        self.count
    }

    // One shipper more; where there are sixteen it is handed back, and nothing changes.
    pub fn add(&mut self, entry: Entry) -> Result<(), CapacityError<Entry>>
        ensures value { IsOk result ↔ (length self.old < 16) }
        ensures entries { self.new ≡ with_entry self.old entry }
        ensures returned { IfErr result (λ e. error_element e ≡ entry) }
    {
        if self.count >= SHIPPERS {
            return Err(CapacityError::new(entry));
        }
        self.entries[self.count] = entry;
        self.count += 1;
        Ok(())
    }
}
