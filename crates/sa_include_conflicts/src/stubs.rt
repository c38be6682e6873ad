//! Stubs that are left. A class that isn't partial has none.

ghost use Rattle.std.specs.Prelude.{◌≡◌, ◌&&◌, IfOk, MatchOption};
ghost use Rattle.sa_include_conflicts.specs.Sharing.{all_features};
ghost use Rattle.sa_include_conflicts.specs.Stub as spec;

use crate::features::{ClassFeatures, is_stub};
use crate::lists::is_set;
use failure::Failure;
use sa_ast::{ClassKind, Feature, Pos};

/// The position at which the first stub that stays is named (E22), of a class that isn't partial.
///
/// # Errors
///
/// A `Failure`.
#[tactic(auto, using(crate::proofs::LeftStubs::stubs))]
pub fn remaining_stub(
    kind: ClassKind,
    features: &ClassFeatures<'_>,
    stays: &[bool],
) -> Result<Option<Pos>, Failure>
    ensures { IfOk result (λ found. MatchOption found
        (spec.NoStubLeft kind (all_features features.now) stays.now)
        (spec.IsFirstStub kind (all_features features.now) stays.now)) }
{
    if is_partial(kind) {
        return Ok(None);
    }
    for place in 0..features.len() {
        let feature = features.at(place)?;
        if is_left(feature, is_set(stays, place)) {
            return Ok(Some(feature.name.pos));
        }
    }
    Ok(None)
}

/// Whether a feature is a stub that stays.
fn is_left(feature: &Feature, stays: bool) -> bool
    ensures { result ≡ (spec.is_stub_part feature.now.part && stays) }
{
    is_stub(feature) && stays
}

/// Whether a class that isn't partial has a stub among these features.
pub fn keeps_stub(kind: ClassKind, features: &[Feature]) -> bool
    ensures { result ≡ spec.keeps_stub kind features.now }
{
    if is_partial(kind) {
        return false;
    }
    has_stub(features)
}

fn is_partial(kind: ClassKind) -> bool
    ensures { result ≡ spec.is_partial kind }
{
    match kind {
        ClassKind::Partial => true,
        ClassKind::Reference => false,
        ClassKind::Immutable => false,
        ClassKind::Abstract => false,
    }
}

#[tactic(auto, using(std::proofs::lemmas::List::Folds::list_any_more, std::proofs::lemmas::List::Folds::list_any_at))]
fn has_stub(features: &[Feature]) -> bool
    ensures { result ≡ spec.has_stub features.now }
{
    for feature in features {
        if is_stub(feature) {
            return true;
        }
    }
    false
}
