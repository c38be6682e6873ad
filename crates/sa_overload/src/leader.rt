//! The candidate that fits and is at least as specific as every other one that fits, if there is one such candidate.

ghost use Rattle.std.specs.Prelude.{◌≢◌, ℕ, ◌<◌, ◌≤◌, IfSome, IsNone, IsTrue, length};
ghost use Rattle.sa_overload.specs.Candidates.{call_in};
ghost use Rattle.sa_overload.specs.Resolution.{Chosen, Leads, NoneChosen, Objects, fits_at, is_before};

use crate::candidates::Candidates;

/// The one candidate that leads, if there is one.
pub fn leader(call: &Candidates) -> Option<usize>
    ensures chosen { IfSome result (λ k. Chosen (call_in call.now) k) }
    ensures within { IfSome result (λ k. k < length call.now.cands.now) }
    ensures none { IsNone result → NoneChosen (call_in call.now) }
{
    let first = next_leader(call, 0, None)?;
    match next_leader(call, first + 1, Some(first)) {
        Some(_) => None,
        None => Some(first),
    }
}

/// The first candidate from an index on that leads.
///
/// One that doesn't lead has an objector, which it isn't at least as specific as. That one is asked first about the next candidate: if
/// subtypes are an order, it objects to each candidate between the two, so that none of them needs a search of its own.
fn next_leader(call: &Candidates, from: usize, asked_first: Option<usize>) -> Option<usize>
    requires fit { IfSome asked_first (λ j. IsTrue (fits_at (call_in call.now) j)) }
    ensures leads { IfSome result (λ k. Leads (call_in call.now) k) }
    ensures within { IfSome result (λ k. k < length call.now.cands.now) }
    ensures order { IfSome result (λ k. from ≤ k) }
    ensures first { IfSome result (λ k. (j : ℕ) → from ≤ j → j < k → ¬ Leads (call_in call.now) j) }
    ensures none { IsNone result → (j : ℕ) → from ≤ j → ¬ Leads (call_in call.now) j }
{
    let mut asked_first = asked_first;
    for k in from..call.len() {
        if call.fits(k) {
            match objector(call, k, asked_first) {
                None => return Some(k),
                found => asked_first = found,
            }
        }
    }
    None
}

/// A candidate that fits and that `k` isn't at least as specific as: the one asked first, or the next one after `k`, or the first
/// one.
fn objector(call: &Candidates, k: usize, asked_first: Option<usize>) -> Option<usize>
    requires within { k < length call.now.cands.now }
    requires fit { IfSome asked_first (λ j. IsTrue (fits_at (call_in call.now) j)) }
    ensures found { IfSome result (λ j. Objects (call_in call.now) k j) }
    ensures none { IsNone result → (j : ℕ) → IsTrue (fits_at (call_in call.now) j) → j ≢ k → IsTrue (is_before (call_in call.now) k j) }
{
    if let Some(j) = asked_first
        && j != k
        && !call.is_before(k, j)
    {
        return asked_first;
    }
    match objector_in(call, k, k + 1, call.len()) {
        Some(j) => Some(j),
        None => objector_in(call, k, 0, k),
    }
}

/// The first candidate in a range of them without `k` that fits and that candidate `k` isn't at least as specific as.
fn objector_in(call: &Candidates, k: usize, from: usize, to: usize) -> Option<usize>
    requires apart { (j : ℕ) → from ≤ j → j < to → j ≢ k }
    ensures found { IfSome result (λ j. Objects (call_in call.now) k j) }
    ensures none { IsNone result → (j : ℕ) → from ≤ j → j < to → IsTrue (fits_at (call_in call.now) j)
        → IsTrue (is_before (call_in call.now) k j) }
{
    for j in from..to {
        if call.fits(j) && !call.is_before(k, j) {
            return Some(j);
        }
    }
    None
}
