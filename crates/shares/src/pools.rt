// The pool of a month, and each shipper's share by it.
ghost use Rattle.std.specs.Prelude.{◌≡◌, ◌*◌, ◌/◌, ◌^◌, ◌<◌, ◌≤◌};
ghost use Rattle.shares.specs.Month.{pool_of, with_sign, carry_size, share_of, AllFair, CalmExactly};

use super::figures::Figures;
use super::pool::Pool;

// An imbalance and its two parts, in m³.
#[derive(Clone, Copy, PartialEq, Eq, Debug)]
pub struct Share {
    pub imbalance: i64,
    pub carry: i64,
    pub settled: i64,
}

// The stirred shippers of a month.
pub fn pool_of(figures: &[Figures]) -> Pool
    ensures value { result ≡ pool_of figures.now }
    ensures fair { AllFair figures.now }
    ensures calm { CalmExactly figures.now }
{
    let mut count: u64 = 0;
    let mut carried: u128 = 0;
    let mut moved: u128 = 0;
    // one loop for the three figures: as sums they would be three
    for f in figures {
        let f = *f;
        if f.is_stirred() {
            count += 1;
            carried += u128::from(f.receipts / 20);
            moved += u128::from(f.imbalance().unsigned_abs());
        }
    }
    Pool {
        count,
        carried,
        moved,
    }
}

// A size with the sign of another figure; `signum` would lose the size at a figure of 0.
fn signed_like(figure: i64, size: u64) -> i64
    requires { size ≤ 2 ^ 62 }
    ensures value { result ≡ with_sign figure size }
{
    if figure < 0 {
        -(size as i64)
    } else {
        size as i64
    }
}

impl Pool {
    // The part of a size that the stirred carry of theirs.
    fn part(self, size: u64) -> u64
        requires some { 0 < self.moved }
        requires size { size ≤ 2 ^ 33 }
        ensures value { result ≡ size * self.carried / self.moved }
        ensures bound { result ≤ size }
    {
        (u128::from(size) * self.carried / self.moved) as u64
    }

    // What a shipper carries, without sign.
    fn carry_size(self, f: Figures) -> u64
        ensures value { result ≡ carry_size self f }
        ensures bound { result ≤ 2 ^ 33 }
    {
        let size = f.imbalance().unsigned_abs();
        if self.count == 0 {
            size
        } else if f.is_stirred() {
            u64::from(f.receipts / 20)
        } else {
            self.part(size)
        }
    }

    // How a shipper's imbalance is divided in this month.
    pub fn share(self, f: Figures) -> Share
        ensures value { result ≡ share_of self f }
    {
        let imbalance = f.imbalance();
        let carry = signed_like(imbalance, self.carry_size(f));
        Share {
            imbalance,
            carry,
            settled: imbalance - carry,
        }
    }
}
