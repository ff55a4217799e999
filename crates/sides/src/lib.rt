// What has two sides (docs/RULES.md, "Two sides"): one generic pair for receipts and deliveries, whatever the sides
// hold, and the marks of the days whose tickets are in.
#![tactic(auto)]

ghost use Rattle.std.specs.Prelude.{◌≡◌};
ghost use Rattle.sides.specs.Sides.{side_of, with_side};

pub mod days;

// The two directions in which gas crosses the pipeline's border.
#[derive(Clone, Copy, PartialEq, Eq, Debug)]
pub enum Side {
    Receipts,
    Deliveries,
}

#[derive(Clone, Copy, Default, PartialEq, Eq, Debug)]
pub struct Pair<T> {
    pub receipts: T,
    pub deliveries: T,
}

impl<T: Copy> Pair<T> {
    pub fn get(&self, side: Side) -> T
        ensures value { result ≡ side_of side self.now }
    {
        match side {
            Side::Receipts => self.receipts,
            Side::Deliveries => self.deliveries,
        }
    }

    pub fn put(&mut self, side: Side, value: T)
        ensures after { self.new ≡ with_side side self.old value }
    {
        match side {
            Side::Receipts => self.receipts = value,
            Side::Deliveries => self.deliveries = value,
        }
    }
}
