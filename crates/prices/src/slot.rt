// Where a board holds prices: a shipper, and a place in the year.

// Shippers of one pipeline, and months of its year.
pub const SHIPPERS: usize = 16;

pub const PLACES: usize = 12;

// The place is that of a month in its year. Whether the two are in range is the board's to say.
#[derive(Clone, Copy, PartialEq, Eq, Debug)]
pub struct Slot {
    pub shipper: u32,
    pub place: u32,
}
