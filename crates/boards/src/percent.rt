// What both rules share: the low and the high price come from a base by a percentage, and a manufacturing price on top.
ghost use Rattle.std.specs.Prelude.{◌≡◌};
ghost use Rattle.boards.specs.Rules.{percent_price};

// Of a base, in percent.
pub const LOW_PERCENT: u8 = 70;

pub const HIGH_PERCENT: u8 = 130;

pub fn percent_price(base: u32, percent: u8, manufacturing: u16) -> u64
    ensures value { result ≡ percent_price base percent manufacturing }
{
    u64::from(base) * u64::from(percent) / 100 + u64::from(manufacturing)
}
