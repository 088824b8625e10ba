// Chains over the numbers below a bound. Those that are for any closure as the test stand apart from
// the public functions since they ask that the closure may be called there.
ghost use Rattle.std.specs.Prelude.{◌≡◌, ℕ, ◌≤◌, Bool};
ghost use Rattle.choose.specs.Choice.{count, chosen};
ghost use Rattle.choose.specs.Tests.{Callable, Decides};

use crate::Test;

// How many numbers pass.
pub(crate) fn count<P: Fn(&usize) -> bool>(test: P, bound: usize) -> usize
    requires { Callable P.Fn test bound }
    ensures value { (holds : ℕ → Bool) → Decides P.Fn test bound holds → result ≡ count holds bound }
    ensures within { result ≤ bound }
{
    (0..bound).filter(test).count()
}

// The number that passes after exactly `k` others: each that passes takes one from `k`, until there is
// none to take. One fold does that, with one way on from number to number: behind a filter, `nth` goes
// from one passing number to the next in a loop of its own, which takes longer where many pass.
pub(crate) fn nth<T: Test>(test: &T, bound: usize, k: usize) -> Option<usize>
    ensures { result ≡ chosen (T.holds test.now) bound k }
{
    (0..bound)
        .try_fold(k, |left, i| {
            let one = usize::from(test.passes(i));
            if one <= left { Ok(left - one) } else { Err(i) }
        })
        .err()
}

// The least number that passes.
pub(crate) fn first<P: Fn(&usize) -> bool>(test: P, bound: usize) -> Option<usize>
    requires { Callable P.Fn test bound }
    ensures { (holds : ℕ → Bool) → Decides P.Fn test bound holds → result ≡ chosen holds bound 0 }
{
    (0..bound).find(test)
}
