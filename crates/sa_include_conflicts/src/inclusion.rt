//! Whether the features of a class have one that an include clause contributes: it is there, or one that conflicts with it.

ghost use Rattle.std.specs.Prelude.{◌≡◌, IfOk, map};
ghost use Rattle.sa_subst.specs.Table.{put_in};
ghost use Rattle.sa_include_conflicts.specs.IncludedFeatures as spec;

use crate::apart::KnownSignatures;
use crate::signature::{own_signature, writer_signature};
use crate::signature_key::SignatureKey;
use failure::Failure;
use sa_ast::{Feature, ModeTy, Name};
use sa_subst::{Sig, Substitution, subst_with};
use sqlite_items::Items;
use std::alloc::Global;

impl KnownSignatures {
    /// Whether a feature conflicts with one of these under a new name and with types substituted, as it does with itself.
    pub fn has_included(
        &self,
        alloc: Global,
        feature: &Feature,
        immutable: bool,
        name: &Name,
        by: &Substitution<'_>,
    ) -> Result<bool, Failure>
        ensures { IfOk result (λ has. has ≡ spec.has_included (put_in by.now) name.now immutable self.now.shapes.keys feature.now) }
    {
        let own = own_signature(alloc, feature)?;
        if self.meets(alloc, own, name, by)? {
            return Ok(true);
        }
        match writer_signature(alloc, feature, immutable)? {
            Some(writer) => self.meets(alloc, writer, name, by),
            None => Ok(false),
        }
    }

    fn meets(
        &self,
        alloc: Global,
        sig: Sig,
        name: &Name,
        by: &Substitution<'_>,
    ) -> Result<bool, Failure>
        ensures { IfOk result (λ meets. meets ≡ spec.is_met (put_in by.now) name.now self.now.shapes.keys sig) }
    {
        let shape = SignatureKey::new(inherited(alloc, sig, name, by)?);
        Ok(self.shapes.contains(&shape))
    }
}

/// A signature under this name, with types substituted in those of its arguments.
fn inherited(alloc: Global, sig: Sig, name: &Name, by: &Substitution<'_>) -> Result<Sig, Failure>
    ensures { IfOk result (λ copy. copy ≡ spec.inherited (put_in by.now) name.now sig) }
{
    let Sig { args, result, .. } = sig;
    let args = brought_arguments(alloc, args.as_slice(), by)?;
    let name = name.copy(alloc)?;
    Ok(Sig { name, args, result })
}

#[tactic(auto, using(std::proofs::lemmas::List::map_more))]
fn brought_arguments(
    alloc: Global,
    args: &[ModeTy],
    by: &Substitution<'_>,
) -> Result<Items<ModeTy>, Failure>
    ensures { IfOk result (λ copies. copies ≡ map (spec.inherited_argument (put_in by.now)) args.now) }
{
    let mut copies = Items::new(alloc);
    for arg in args {
        let ty = subst_with(alloc, &arg.ty, by)?;
        copies.push(ModeTy { mode: arg.mode, ty })?;
    }
    Ok(copies)
}
