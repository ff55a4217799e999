// What a settled volume comes to (docs/RULES.md, "Prices, yen and tax"): the kind of price that it takes, its yen, and
// the tax on them.
#![tactic(auto)]

ghost use Rattle.std.specs.Prelude.{◌≡◌, ◌*◌, ◌/◌, ◌≤◌, unsigned_abs};
ghost use Rattle.settlement.specs.Settlement.{kind_number, kind_of, price_of, hundredths, yen_of, tax_of};

use prices::price::Prices;

// A price's kind, with the number that a statement gives it.
#[derive(Clone, Copy, PartialEq, Eq, Debug)]
pub enum PriceKind {
    Plain = 0,
    Low = 1,
    High = 2,
}

impl From<PriceKind> for u8 {
    ghost from_gives = { λ kind number. number ≡ kind_number kind };

    fn from(kind: PriceKind) -> u8 {
        kind as u8
    }
}

impl PriceKind {
    // The kind that a shipper takes, by whether it is the instigator and what it settles.
    pub fn of(instigator: bool, settled: i64) -> PriceKind
        ensures value { result ≡ kind_of instigator settled }
    {
        if !instigator || settled == 0 {
            PriceKind::Plain
        } else if settled > 0 {
            PriceKind::Low
        } else {
            PriceKind::High
        }
    }

    // The price of this kind, in sen per m³.
    pub fn price(self, prices: Prices) -> u32
        ensures value { result ≡ price_of self prices }
        ensures range { (1 ≤ result) × (result ≤ 100000) }
    {
        match self {
            PriceKind::Plain => prices.plain,
            PriceKind::Low => prices.low,
            PriceKind::High => prices.high,
        }
    }
}

// So many hundredths of a figure, cut toward zero.
fn hundredths(figure: i64, factor: u32) -> i128
    ensures value { result ≡ hundredths figure factor }
    ensures size { unsigned_abs result ≡ unsigned_abs figure * factor / 100 }
{
    i128::from(figure) * i128::from(factor) / 100
}

// The yen of a settled volume in m³, at a price in sen per m³; of 128 bits, which no volume and no price passes.
pub fn yen(settled: i64, price: u32) -> i128
    ensures value { result ≡ yen_of settled price }
    ensures size { unsigned_abs result ≡ unsigned_abs settled * price / 100 }
{
    hundredths(settled, price)
}

// The tax on yen.
pub fn tax(yen: i64, percent: u8) -> i128
    ensures value { result ≡ tax_of yen percent }
    ensures size { unsigned_abs result ≡ unsigned_abs yen * percent / 100 }
{
    hundredths(yen, u32::from(percent))
}
