// Three settlement prices, in sen per m³, which no value can hold outside their limits.
ghost use Rattle.std.specs.Prelude.{◌≡◌, Some};
ghost use Rattle.prices.specs.Price.{in_range, prices_of, prices_text};

use std::fmt;
use std::marker::Model;

// The limits of a price, in sen per m³.
pub const LEAST_PRICE: u64 = 1;

pub const MOST_PRICE: u64 = 100_000;

#[derive(Clone, Copy, PartialEq, Eq, Debug)]
pub struct Prices {
    pub low: u32,
    pub plain: u32,
    pub high: u32,
}

impl Model for Prices {
    ghost use Rattle.std.specs.Prelude.{◌≤◌};
    ghost use Rattle.prices.specs.Price.{PricesTold};

    ghost Value = { PricesTold };

    ghost view = { λ p. record { low = p.low; plain = p.plain; high = p.high } };

    ghost invariant = { λ p. (1 ≤ p.low) × (1 ≤ p.plain) × (1 ≤ p.high) × (p.low ≤ 100000) × (p.plain ≤ 100000) × (p.high ≤ 100000) };

    ghost inverse = { λ p. record { low = p.low; plain = p.plain; high = p.high } };
}

fn in_range(price: u64) -> bool
    ensures value { result ≡ in_range price }
{
    (LEAST_PRICE..=MOST_PRICE).contains(&price)
}

impl Prices {
    // Three prices, if each is within its limits. A `TryFrom` would take the three as a tuple, without their names.
    pub fn new(low: u64, plain: u64, high: u64) -> Option<Prices>
        ensures value { result ≡ prices_of low plain high }
    {
        if in_range(low) && in_range(plain) && in_range(high) {
            Some(Prices {
                low: low as u32,
                plain: plain as u32,
                high: high as u32,
            })
        } else {
            None
        }
    }
}

impl fmt::Display for Prices {
    ghost output = { λ prices. Some (prices_text prices) };

    fn fmt<W: fmt::Write>(&self, f: &mut fmt::Formatter<W>) -> fmt::Result {
        let Prices { low, plain, high } = *self;
        write!(f, "{low} {plain} {high}")
    }
}
