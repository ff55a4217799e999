// A line of a statement.
use settlement::PriceKind;

#[derive(Clone, Copy, PartialEq, Eq, Debug)]
pub struct Line {
    pub shipper: u32,
    // standard m³
    pub receipts: u32,
    pub deliveries: u32,
    pub imbalance: i64,
    pub carry: i32,
    pub settled: i64,
    pub kind: PriceKind,
    // sen per m³
    pub price: u32,
    // positive yen go to the shipper
    pub yen: i64,
    pub tax: i64,
}

// No line: what a sheet holds before anything is drawn on it. A constant and no `Default`, since no kind of price is a
// default.
pub const NO_LINE: Line = Line {
    shipper: 0,
    receipts: 0,
    deliveries: 0,
    imbalance: 0,
    carry: 0,
    settled: 0,
    kind: PriceKind::Plain,
    price: 0,
    yen: 0,
    tax: 0,
};
