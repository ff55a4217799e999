// What the stirred shippers of a month come to.
use std::marker::Model;

#[derive(Clone, Copy)]
pub struct Pool {
    // how many there are
    pub count: u64,
    // V2, the sum of their carries in m³
    pub carried: u128,
    // V3, the sum of their imbalances without sign in m³
    pub moved: u128,
}

impl Model for Pool {
    ghost use Rattle.std.specs.Prelude.{◌^◌, ◌≤◌};
    ghost use Rattle.shares.specs.Pool.{PoolTold};

    ghost Value = { PoolTold };

    ghost view = { λ p. record { count = p.count; carried = p.carried; moved = p.moved } };

    // each moves 1 m³ or more, and carries no more than it moves
    ghost invariant = { λ p. (p.count ≤ p.moved) × (p.carried ≤ p.moved) × (p.carried ≤ 2 ^ 92) × (p.moved ≤ 2 ^ 97) };

    ghost inverse = { λ p. record { count = p.count; carried = p.carried; moved = p.moved } };
}
