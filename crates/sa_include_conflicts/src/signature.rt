//! The signatures of a feature, by which it conflicts with others. An attribute and a shared have two, those of the reader and
//! of the writer, and every other feature has one.

ghost use Rattle.std.specs.Prelude.{◌≡◌, IfOk, map};
ghost use Rattle.std.specs.Option.{option_map, option_to_list};
ghost use Rattle.sa_include_conflicts.specs.Signatures as spec;

use failure::Failure;
use sa_ast::{Feature, FeatureBody, FormalParam, Mode, ModeTy, Name, Ty};
use sa_subst::Sig;
use sqlite_items::Items;
use std::alloc::{AllocError, Global};

/// The signature by which a feature is read or called.
pub(crate) fn own_signature(alloc: Global, feature: &Feature) -> Result<Sig, Failure>
    ensures { IfOk result (λ sig. sig ≡ spec.own_signature feature.now) }
{
    let name = feature.name.name.copy(alloc)?;
    let args = arguments(alloc, feature.formals.as_slice())?;
    let result = result_of(alloc, feature)?;
    Ok(Sig { name, args, result })
}

#[tactic(auto, using(std::proofs::lemmas::List::map_more))]
fn arguments(alloc: Global, formals: &[FormalParam]) -> Result<Items<ModeTy>, AllocError>
    ensures { IfOk result (λ args. args ≡ map spec.argument formals.now) }
{
    let mut args = Items::new(alloc);
    for formal in formals {
        let ty = formal.ty.copy(alloc)?;
        args.push(ModeTy {
            mode: formal.mode,
            ty,
        })?;
    }
    Ok(args)
}

/// The type of a result: INT for a constant without a type.
fn result_of(alloc: Global, feature: &Feature) -> Result<Option<Ty>, AllocError>
    ensures { IfOk result (λ of. of ≡ spec.result_of_part feature.now feature.now.part) }
{
    match (&feature.part, &feature.result) {
        (FeatureBody::Const(_, _), None) => {
            let name = Name::from_slice(alloc, b"INT")?;
            Ok(Some(Ty::Named(name, Items::new(alloc), feature.name.pos)))
        }
        (_, None) => Ok(None),
        (_, Some(ty)) => Ok(Some(ty.copy(alloc)?)),
    }
}

/// The signature by which an attribute or a shared is written. That of an attribute of an immutable class gives the changed
/// copy.
pub(crate) fn writer_signature(
    alloc: Global,
    feature: &Feature,
    immutable: bool,
) -> Result<Option<Sig>, Failure>
    ensures { IfOk result (λ sig. sig ≡ spec.writer_signature immutable feature.now) }
{
    let result = match feature.part {
        FeatureBody::Attr if immutable => Some(Ty::Same(feature.name.pos)),
        FeatureBody::Attr | FeatureBody::Shared(_) => None,
        _ => return Ok(None),
    };
    let name = feature.name.name.copy(alloc)?;
    let args = written_argument(alloc, &feature.result)?;
    Ok(Some(Sig { name, args, result }))
}

/// The argument of a writer.
fn written_argument(alloc: Global, ty: &Option<Ty>) -> Result<Items<ModeTy>, AllocError>
    ensures { IfOk result (λ args. args ≡ option_to_list (option_map spec.taken ty.now)) }
{
    let mut args = Items::new(alloc);
    if let Some(ty) = ty {
        let ty = ty.copy(alloc)?;
        args.push(ModeTy { mode: Mode::In, ty })?;
    }
    Ok(args)
}
