//! The first two candidates neither of which is strictly more specific than the other.

ghost use Rattle.std.specs.Prelude.{ℕ, ◌<◌, ◌≤◌, IfSome, IsNone, IsTrue, length};
ghost use Rattle.sa_overload.specs.Candidates.{call_in};
ghost use Rattle.sa_overload.specs.Resolution.{FirstTied, Tied, fits_at};

use crate::candidates::Candidates;

/// The first two candidates that fit and neither of which is strictly more specific than the other.
pub fn first_tie(call: &Candidates) -> Option<(usize, usize)>
    ensures found { IfSome result (λ pair. FirstTied (call_in call.now) pair.0 pair.1) }
    ensures within { IfSome result (λ pair. pair.1 < length call.now.cands.now) }
    ensures none { IsNone result → (i j : ℕ) → ¬ Tied (call_in call.now) i j }
{
    for i in 0..call.len() {
        if call.fits(i)
            && let Some(j) = tie_of(call, i)
        {
            return Some((i, j));
        }
    }
    None
}

/// The first candidate after one that fits such that neither of them is strictly more specific.
fn tie_of(call: &Candidates, i: usize) -> Option<usize>
    requires { IsTrue (fits_at (call_in call.now) i) }
    ensures found { IfSome result (λ j. Tied (call_in call.now) i j) }
    ensures first { IfSome result (λ j. (l : ℕ) → Tied (call_in call.now) i l → j ≤ l) }
    ensures within { IfSome result (λ j. j < length call.now.cands.now) }
    ensures none { IsNone result → (j : ℕ) → ¬ Tied (call_in call.now) i j }
{
    for j in i + 1..call.len() {
        if call.fits(j) && call.is_before(i, j) == call.is_before(j, i) {
            return Some(j);
        }
    }
    None
}
