// A deviation rate: |P − D| / P as an exact fraction.
ghost use Rattle.std.specs.Prelude.{◌≤◌};

#[derive(Clone, Copy)]
pub struct Rate {
    // the numerator and the denominator, in m³
    pub gap: u32,
    pub plan: u32,
    // a ghost field, so that definitions see it too: the order by cross products is total only by this fact, and the
    // value of a Model would be the two numbers without it
    ghost some: { 1 ≤ plan },
}
