//! The candidate that a call chooses.

ghost use Rattle.std.specs.Prelude.{◌≡◌, ℕ, ◌<◌, ◌↔◌, length};
ghost use Rattle.sa_overload.specs.Resolution.{Chosen, NamesPair, NoneChosen, NoneFit, call_of};

use crate::candidates::Candidates;
use crate::fit::{ActualArg, CandidateSignature};
use crate::leader::leader;
use crate::tie::first_tie;
use sa_subtypes::SubtypeRelation;

/// Which candidate a call chooses, by their numbers from 0.
#[derive(Clone, Copy, Debug, PartialEq, Eq)]
pub enum Resolution {
    /// The one that fits and is the most specific.
    One(u32),
    NoneFits,
    /// Several fit, and none of them is the most specific: the first two neither of which is strictly more specific than
    /// the other, or the first two that fit if there are no such two.
    Several(u32, u32),
}

/// The candidate that a call with these arguments chooses, where its context expects a result or expects none: the one that fits
/// and whose `in` and `once` types are subtypes of those of every other candidate that fits, `out` types being equal. It
/// takes no memory.
///
/// Each candidate is looked at a few times. But if several fit and none is chosen, each candidate up to `i` is compared
/// with those that follow it, and an open argument for parameters of several modes may make each pair be
/// compared.
pub fn choose(
    cands: &[CandidateSignature],
    args: &[ActualArg],
    expects_result: bool,
    edges: &SubtypeRelation,
) -> Resolution
    requires few { length cands.now < 4294967295 }
    ensures one { (k : ℕ) → (result ≡ Resolution.One k) ↔ Chosen (call_of cands.now args.now expects_result edges.now) k }
    ensures none { (result ≡ Resolution.NoneFits) ↔ NoneFit (call_of cands.now args.now expects_result edges.now) }
    ensures several { (i j : ℕ) → result ≡ Resolution.Several i j → NamesPair (call_of cands.now args.now expects_result edges.now) i j }
{
    let call = Candidates::new(cands, args, expects_result, edges);
    let Some(first) = call.next_fit(0) else {
        return Resolution::NoneFits;
    };
    let Some(second) = call.next_fit(first + 1) else {
        return Resolution::One(first as u32);
    };
    if let Some(chosen) = leader(&call) {
        return Resolution::One(chosen as u32);
    }
    let (i, j) = first_tie(&call).unwrap_or((first, second));
    Resolution::Several(i as u32, j as u32)
}
