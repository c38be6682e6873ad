//! A run-time check that no two features conflict: each signature goes into a table, in which it conflicts with none of an earlier feature.

ghost use Rattle.std.specs.Prelude.{IfOk, OnOk};
ghost use Rattle.sa_include_conflicts.specs.IncludedFeatures.{HasSignatures};
ghost use Rattle.sa_include_conflicts.specs.Clashes.{NoneClash};
ghost use Rattle.sa_include_conflicts.specs.KnownSignatures.{AddsFeature, AddsSignature};

use crate::signature::{own_signature, writer_signature};
use crate::signature_key::SignatureKey;
use failure::{Failure, Invariant, broken};
use indexmap::IndexSet;
use sa_ast::Feature;
use sa_subst::Sig;
use std::alloc::Global;

/// The signatures of features of which no two conflict.
#[derive(Drop)]
pub struct KnownSignatures {
    pub(crate) shapes: IndexSet<SignatureKey>,
}

/// The signatures of the features of a class. It checks that no two of these conflict, which is known to the author and not to
/// a proof.
///
/// # Errors
///
/// A `Failure`: `Broken` where two conflict.
#[tactic(auto, using(crate::proofs::Separate::none_apart, crate::proofs::Separate::more_apart))]
pub fn try_apart(
    alloc: Global,
    features: &[Feature],
    immutable: bool,
) -> Result<KnownSignatures, Failure>
    ensures none_clash { OnOk result (NoneClash immutable features.now) }
    ensures signatures { IfOk result (HasSignatures immutable features.now) }
{
    let mut known = KnownSignatures {
        shapes: IndexSet::new(alloc),
    };
    for feature in features {
        known.add_feature(alloc, feature, immutable)?;
    }
    Ok(known)
}

impl KnownSignatures {
    /// Adds the signatures of a feature.
    #[tactic(auto, using(crate::proofs::Separate::adds_one, crate::proofs::Separate::adds_two))]
    fn add_feature(
        &mut self,
        alloc: Global,
        feature: &Feature,
        immutable: bool,
    ) -> Result<(), Failure>
        ensures { OnOk result (AddsFeature immutable feature.now self.old.shapes.keys self.new.shapes.keys) }
    {
        self.add(own_signature(alloc, feature)?)?;
        match writer_signature(alloc, feature, immutable)? {
            Some(sig) => {
                self.add(sig)?;
                Ok(())
            }
            None => Ok(()),
        }
    }

    /// Adds a signature, which conflicts with none of the others.
    #[tactic(auto, using(crate::proofs::Separate::adds_new))]
    fn add(&mut self, sig: Sig) -> Result<(), Failure>
        ensures { OnOk result (AddsSignature sig self.old.shapes.keys self.new.shapes.keys) }
    {
        let is_new = self.shapes.insert(SignatureKey::new(sig))?;
        if !is_new {
            return broken(Invariant::RuleDenied);
        }
        Ok(())
    }
}
