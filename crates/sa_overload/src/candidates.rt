//! The candidates of a call by their numbers: which fit, and which is more specific.

ghost use Rattle.std.specs.Prelude.{◌≡◌, ℕ, ◌≤◌, ◌<◌, IsTrue, IsFalse, IfSome, IsNone, length};
ghost use Rattle.sa_overload.specs.Candidates.{call_in};
ghost use Rattle.sa_overload.specs.Resolution.{call_of, fits_at, is_before};

use crate::fit::{ActualArg, CandidateSignature, fits};
use crate::specificity::is_as_specific;
use sa_subtypes::SubtypeRelation;

/// The candidates of a call, with what decides which of them fit.
#[derive(Drop)]
pub struct Candidates<'a> {
    cands: &'a [CandidateSignature],
    args: &'a [ActualArg],
    expects_result: bool,
    edges: &'a SubtypeRelation,
}

impl<'a> Candidates<'a> {
    pub fn new(
        cands: &'a [CandidateSignature],
        args: &'a [ActualArg],
        expects_result: bool,
        edges: &'a SubtypeRelation,
    ) -> Candidates<'a>
        ensures { call_in result ≡ call_of cands.now args.now expects_result edges.now }
    {
        Candidates {
            cands,
            args,
            expects_result,
            edges,
        }
    }

    /// How many candidates there are.
    pub fn len(&self) -> usize
        ensures { result ≡ length self.now.cands.now }
    {
        self.cands.len()
    }

    /// Whether there is a candidate of this number, and it fits.
    pub fn fits(&self, k: usize) -> bool
        ensures { result ≡ fits_at (call_in self.now) k }
    {
        match self.cands.get(k) {
            None => false,
            Some(cand) => fits(cand, self.args, self.expects_result, self.edges),
        }
    }

    /// Whether a candidate is at least as specific as another one.
    pub fn is_before(&self, k: usize, j: usize) -> bool
        ensures { result ≡ is_before (call_in self.now) k j }
    {
        match (self.cands.get(k), self.cands.get(j)) {
            (Some(one), Some(other)) => is_as_specific(one, other, self.edges),
            _ => false,
        }
    }

    /// The first candidate from an index on that fits.
    pub fn next_fit(&self, from: usize) -> Option<usize>
        ensures found { IfSome result (λ k. IsTrue (fits_at (call_in self.now) k)) }
        ensures order { IfSome result (λ k. from ≤ k) }
        ensures within { IfSome result (λ k. k < length self.now.cands.now) }
        ensures first { IfSome result (λ k. (j : ℕ) → from ≤ j → j < k → IsFalse (fits_at (call_in self.now) j)) }
        ensures none { IsNone result → (j : ℕ) → from ≤ j → IsFalse (fits_at (call_in self.now) j) }
    {
        for k in from..self.len() {
            if self.fits(k) {
                return Some(k);
            }
        }
        None
    }
}
