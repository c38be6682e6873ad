//! Which of two candidates is more specific.

ghost use Rattle.std.specs.Prelude.{◌≡◌};
ghost use Rattle.std.specs.Cmp.Lexicographic.{pointwise};
ghost use Rattle.sa_overload.specs.Specificity.{is_as_specific, is_param_as_specific};

use crate::fit::CandidateSignature;
use sa_ast::{Mode, ModeTy};
use sa_subtypes::SubtypeRelation;

/// Whether a candidate is at least as specific as another: its `in` and `once` types are subtypes of the other's at their
/// positions, and its `out` types are equal to them. Nothing is asked at `inout`.
pub fn is_as_specific(
    one: &CandidateSignature,
    other: &CandidateSignature,
    edges: &SubtypeRelation,
) -> bool
    ensures { result ≡ is_as_specific edges.now one.now other.now }
{
    are_params_as_specific(one.args.as_slice(), other.args.as_slice(), edges)
}

#[tactic(auto, using(crate::proofs::Pairs::pairs))]
fn are_params_as_specific(one: &[ModeTy], other: &[ModeTy], edges: &SubtypeRelation) -> bool
    ensures { result ≡ pointwise (is_param_as_specific edges.now) one.now other.now }
{
    if one.len() != other.len() {
        return false;
    }
    for (i, param) in one.iter().enumerate() {
        if !is_param_as_specific(param, &other[i], edges) {
            return false;
        }
    }
    true
}

fn is_param_as_specific(one: &ModeTy, other: &ModeTy, edges: &SubtypeRelation) -> bool
    ensures { result ≡ is_param_as_specific edges.now one.now other.now }
{
    match one.mode {
        Mode::In | Mode::Once => edges.is_sub(&one.ty, &other.ty),
        Mode::Out => one.ty == other.ty,
        Mode::Inout => true,
    }
}
