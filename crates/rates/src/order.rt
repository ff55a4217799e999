// Rates in their order, by cross products, and the instigator: the first holder of the greatest rate, if that is above
// a twentieth.
ghost use Rattle.std.specs.Prelude.{◌≡◌, Some, refl};
ghost use Rattle.rates.specs.Rates.{rate_of, cross, rate_order, same_rate, passing, passing_at, instigator_of, Instigator};
ghost use Rattle.std.specs.Cmp.{partial_equiv_from_equiv, partial_order_from_agreeing_total};
ghost use Rattle.rates.specs.Orders.{rates_total, rates_same, same_tied};

use super::rate::Rate;
use greatest::first_greatest;
use std::cmp::Ordering;

impl Rate {
    // The rate of a plan and what was delivered; 0 where nothing was planned.
    pub fn of(plan: u32, deliveries: u32) -> Rate
        ensures value { result ≡ rate_of plan deliveries }
    {
        if plan == 0 {
            Rate { gap: 0, plan: 1 }
        } else {
            Rate {
                gap: plan.abs_diff(deliveries),
                plan,
            }
        }
    }

    // Whether the rate is above a twentieth.
    pub fn passes(self) -> bool
        ensures value { result ≡ passing self }
    {
        20 * u64::from(self.gap) > u64::from(self.plan)
    }
}

impl Default for Rate {
    ghost is_default = { λ rate. rate ≡ rate_of 0 0 };

    fn default() -> Rate {
        Rate::of(0, 0)
    }
}

// This rate's numerator over the common denominator of both.
fn over(x: Rate, y: Rate) -> u64
    ensures value { result ≡ cross x y }
{
    u64::from(x.gap) * u64::from(y.plan)
}

// Equality and order are written out, by cross products: what a derive gives, field by field, is not that of fractions.
impl PartialEq for Rate {
    ghost eq = { λ x y. same_rate x y };

    ghost laws = { partial_equiv_from_equiv rates_same };

    fn eq(&self, other: &Rate) -> bool {
        over(*self, *other) == over(*other, *self)
    }
}

impl Eq for Rate {
    ghost laws = { rates_same };
}

impl PartialOrd for Rate {
    ghost partial_cmp = { λ x y. Some (rate_order x y) };

    ghost laws = { partial_order_from_agreeing_total rate_order rates_total (λ _ _. refl) same_tied };

    fn partial_cmp(&self, other: &Rate) -> Option<Ordering> {
        Some(self.cmp(other))
    }
}

impl Ord for Rate {
    ghost cmp = { λ x y. rate_order x y };

    ghost total = { rates_total };

    ghost matches_partial_cmp = { λ _ _. refl };

    ghost matches_eq = { same_tied };

    fn cmp(&self, other: &Rate) -> Ordering {
        over(*self, *other).cmp(&over(*other, *self))
    }
}

// Whether there is a rate at a place, and it is above a twentieth.
fn passes_at(rates: &[Rate], at: usize) -> bool
    ensures value { result ≡ passing_at at rates.now }
{
    rates.get(at).is_some_and(|rate| rate.passes())
}

// The instigator among shippers with these rates, if there is one.
pub fn instigator(rates: &[Rate]) -> Option<usize>
    ensures value { result ≡ instigator_of rates.now }
    ensures who { Instigator rates.now result }
{
    first_greatest(rates).filter(|at| passes_at(rates, *at))
}
