//! A class without its includes: its header, the features that it includes, and those that it writes itself, but for
//! its stubs that are replaced.

ghost use Rattle.std.specs.Prelude.{◌≡◌, IfOk, IsTrue, OnOk, false};
ghost use Rattle.std.specs.List.{All};
ghost use Rattle.sa_include_conflicts.specs.Stub.{is_stub_part, keeps_stub};
ghost use Rattle.sa_include.specs.Flattened.{IsFlattened, Wins, is_immutable};
ghost use Rattle.sa_include.specs.Parts.{PutsNothing};

use crate::resolved::Flattened;
use crate::substitute::subst_part;
use failure::{Failure, Invariant, broken};
use sa_ast::{Class, ClassKind, Feature, FormalParam, Local, Ty, TypeParam};
use sa_include_conflicts::{is_set, is_stub, keeps_stub};
use sa_subst::Substitution;
use sqlite_items::Items;
use std::alloc::{AllocError, Global};

/// A class without its includes. The substitution substitutes nothing for anything.
pub(crate) fn whole_class(
    alloc: Global,
    class: &Class,
    flattened: Flattened,
    nothing: &Substitution<'_>,
) -> Result<Class, Failure>
    requires { PutsNothing nothing.now }
    ensures { IfOk result (λ flat. IsFlattened class.now flat) }
{
    let Flattened {
        inherited,
        stays,
        ..
    } = flattened;
    let written = class.features.as_slice();
    let features = with_written(alloc, inherited, written, &stays, nothing)?;
    try_stubs(class.kind, features.as_slice())?;
    Ok(Class {
        kind: class.kind,
        name: copy_local(alloc, &class.name)?,
        params: copy_params(alloc, class.params.as_slice())?,
        below: copy_types(alloc, class.below.as_slice())?,
        above: copy_types(alloc, class.above.as_slice())?,
        includes: Items::new(alloc),
        features,
    })
}

/// Checks that a class of this kind has no stub, unless it is partial. A class that has one has been refused.
fn try_stubs(kind: ClassKind, features: &[Feature]) -> Result<(), Failure>
    ensures { OnOk result (keeps_stub kind features.now ≡ false) }
{
    if keeps_stub(kind, features) {
        return broken(Invariant::RuleDenied);
    }
    Ok(())
}

pub(crate) fn is_immutable(kind: ClassKind) -> bool
    ensures { result ≡ is_immutable kind }
{
    match kind {
        ClassKind::Reference => false,
        ClassKind::Immutable => true,
        ClassKind::Abstract => false,
        ClassKind::Partial => false,
    }
}

/// The features that a class includes, and after them those that it writes, but for its stubs that don't stay.
fn with_written(
    alloc: Global,
    inherited: Items<Feature>,
    written: &[Feature],
    stays: &[bool],
    nothing: &Substitution<'_>,
) -> Result<Items<Feature>, Failure>
    requires { PutsNothing nothing.now }
    ensures { IfOk result (λ features. All (Wins features) written.now) }
{
    let mut features = inherited;
    for (place, feature) in written.iter().enumerate() {
        if is_replaced_stub(feature, is_set(stays, place)) {
            continue;
        }
        features.push(copy_feature(alloc, feature, nothing)?)?;
    }
    Ok(features)
}

/// Whether a feature that a class writes is a stub that doesn't stay.
fn is_replaced_stub(feature: &Feature, stays: bool) -> bool
    ensures { IsTrue result → IsTrue (is_stub_part feature.now.part) }
{
    is_stub(feature) && !stays
}

/// A copy of a feature. Its statements are shared.
#[tactic(auto, using(crate::proofs::Nothing::part_nothing))]
fn copy_feature(
    alloc: Global,
    feature: &Feature,
    nothing: &Substitution<'_>,
) -> Result<Feature, Failure>
    requires { PutsNothing nothing.now }
    ensures { IfOk result (λ copy. copy ≡ feature.now) }
{
    Ok(Feature {
        name: copy_local(alloc, &feature.name)?,
        access: feature.access,
        formals: copy_formals(alloc, feature.formals.as_slice())?,
        result: copy_optional_type(alloc, &feature.result)?,
        part: subst_part(alloc, &feature.part, nothing)?,
    })
}

fn copy_local(alloc: Global, local: &Local) -> Result<Local, AllocError>
    ensures { IfOk result (λ copy. copy ≡ local.now) }
{
    Ok(Local {
        name: local.name.copy(alloc)?,
        pos: local.pos,
    })
}

fn copy_params(alloc: Global, params: &[TypeParam]) -> Result<Items<TypeParam>, AllocError>
    ensures { IfOk result (λ copies. copies ≡ params.now) }
{
    let mut copies = Items::new(alloc);
    for param in params {
        let name = copy_local(alloc, &param.name)?;
        let bound = copy_optional_type(alloc, &param.bound)?;
        copies.push(TypeParam { name, bound })?;
    }
    Ok(copies)
}

fn copy_formals(alloc: Global, formals: &[FormalParam]) -> Result<Items<FormalParam>, AllocError>
    ensures { IfOk result (λ copies. copies ≡ formals.now) }
{
    let mut copies = Items::new(alloc);
    for formal in formals {
        let local = copy_local(alloc, &formal.local)?;
        let ty = formal.ty.copy(alloc)?;
        copies.push(FormalParam {
            mode: formal.mode,
            local,
            ty,
        })?;
    }
    Ok(copies)
}

fn copy_types(alloc: Global, types: &[Ty]) -> Result<Items<Ty>, AllocError>
    ensures { IfOk result (λ copies. copies ≡ types.now) }
{
    let mut copies = Items::new(alloc);
    for ty in types {
        copies.push(ty.copy(alloc)?)?;
    }
    Ok(copies)
}

fn copy_optional_type(alloc: Global, ty: &Option<Ty>) -> Result<Option<Ty>, AllocError>
    ensures { IfOk result (λ copy. copy ≡ ty.now) }
{
    match ty {
        None => Ok(None),
        Some(ty) => Ok(Some(ty.copy(alloc)?)),
    }
}
