// One shipper's figures of a month.
ghost use Rattle.std.specs.Prelude.{◌≡◌, ◌^◌, ◌≤◌, unsigned_abs};
ghost use Rattle.shares.specs.Month.{imbalance, stirred};

// In standard m³.
#[derive(Clone, Copy, Default)]
pub struct Figures {
    // R
    pub receipts: u32,
    // D
    pub deliveries: u32,
    // P
    pub plan: u32,
    // the carry-over of two months before
    pub brought: i32,
}

impl Figures {
    pub fn imbalance(self) -> i64
        ensures value { result ≡ imbalance self }
        ensures few { unsigned_abs result ≤ 2 ^ 33 }
    {
        i64::from(self.receipts) - i64::from(self.deliveries) + i64::from(self.brought)
    }

    // Whether the imbalance passes a twentieth of the receipts.
    pub fn is_stirred(self) -> bool
        ensures value { result ≡ stirred self }
    {
        20 * self.imbalance().unsigned_abs() > u64::from(self.receipts)
    }
}
