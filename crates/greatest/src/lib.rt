// The search for the first of the greatest (docs/RULES.md, "The first greatest"), for any kind with a total order.
#![tactic(auto)]

ghost use Rattle.std.specs.Prelude.{◌≡◌};
ghost use Rattle.std.specs.Cmp.{IsTotalOrder};
ghost use Rattle.greatest.specs.Greatest.{first_greatest, FirstGreatest, below};

// The place of the first greatest item; none where there is no item.
pub fn first_greatest<T: Ord>(items: &[T]) -> Option<usize>
    ensures value { (o : IsTotalOrder T.cmp) → result ≡ first_greatest (below o) items.now }
    ensures first { (o : IsTotalOrder T.cmp) → FirstGreatest (below o) items.now result }
{
    items
        .iter()
        .enumerate()
        .reduce(|best, next| if best.1.cmp(next.1).is_lt() {
            next
        } else {
            best
        })
        .map(|best| best.0)
}
