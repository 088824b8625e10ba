// Counting and choosing among the numbers below a bound by a test: written and proved once, for
// whatever has a test. Test and bound stay two parameters: a struct of both would be made for one
// call and used up by it.
#![tactic(auto)]

mod ranges;

ghost use Rattle.std.specs.Prelude.{◌≡◌, ℕ, ◌≤◌, Bool};
ghost use Rattle.choose.specs.Choice.{count, chosen, Undoes, First, Rising, Split};

// A test of numbers. It is a trait and no closure by the project's rule that a public function asks
// nothing of its caller: of a closure it would have to ask that it may be called.
pub trait Test {
    ghost holds: { Self → ℕ → Bool };

    fn passes(&self, i: usize) -> bool
        ensures { result ≡ holds self.now i };
}

// How many numbers below `bound` pass.
pub fn count_passing<P: Test>(test: &P, bound: usize) -> usize
    ensures value { result ≡ count (P.holds test.now) bound }
    ensures within { result ≤ bound }
{
    ranges::count(|&i| test.passes(i), bound)
}

// The number below `bound` that passes after exactly `k` others.
#[tactic(auto, using(crate::proofs::Laws::undoes_chosen))]
pub fn choose_passing<P: Test>(test: &P, bound: usize, k: usize) -> Option<usize>
    ensures value { result ≡ chosen (P.holds test.now) bound k }
    ensures undoes { Undoes (P.holds test.now) bound k result }
{
    ranges::nth(test, bound, k)
}

// The least number below `bound` that passes.
#[tactic(auto, using(crate::proofs::Laws::first_chosen))]
pub fn first_passing<P: Test>(test: &P, bound: usize) -> Option<usize>
    ensures value { result ≡ chosen (P.holds test.now) bound 0 }
    ensures first { First (P.holds test.now) bound result }
{
    ranges::first(|&i| test.passes(i), bound)
}

// Where the numbers below `bound` begin to pass, found by halving: for a test that, once it
// passes, stays passing. It stays a loop, as it is promised for numbers that no list holds, and the
// library halves only what lies in memory (`partition_point`).
pub fn split_passing<P: Test>(test: &P, bound: usize) -> usize
    ensures within { result ≤ bound }
    ensures split { Rising (P.holds test.now) bound → Split (P.holds test.now) bound result }
{
    let mut low = 0;
    let mut high = bound;
    while low < high {
        let middle = low + (high - low) / 2;
        if test.passes(middle) {
            high = middle;
        } else {
            low = middle + 1;
        }
    }
    low
}
