// One element for writing: of a slice, and of an array by its slice.
ghost use Rattle.std.specs.Prelude.{◌≡◌, ◌<◌, length, slice_index_or};
ghost use Rattle.std.specs.Borrow.{sem};
ghost use Rattle.rolls.specs.Lending.{lends_item, lends_place};

// An element of a slice.
fn item_mut<T>(items: &mut [T], at: usize) -> &mut T
    requires { at < length items.old }
    ensures* writes_back { sem 𝓛 (lends_item T.row items.entry at result) }
    ensures value { result.now ≡ slice_index_or items.old at result.now }
{
    &mut items[at]
}

// An element of an array. Its proof is written by hand, since the toolchain makes none of such a loan.
pub(crate) fn place_mut<T, const N: usize>(places: &mut [T; N], at: usize) -> &mut T
    requires { at < length places.old }
    ensures* writes_back { sem 𝓛 (lends_place T.row places.entry at N result) }
    ensures value { result.now ≡ slice_index_or places.old at result.now }
{
    item_mut(places.as_mut_slice(), at)
}
