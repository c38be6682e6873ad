//! The signature of a member: its name and modes, and its types with an instance's types substituted.

use failure::{Failure, Invariant, known};
use sa_ast::{Feature, FeatureBody, FormalParam, Mode, ModeTy, Name, Ty};
use sa_subst::{Sig, Substitution, subst_with};
use sa_terms::{Accessor, Member};
use sqlite_items::Items;
use std::alloc::Global;

/// The signature of a member of a feature.
pub(crate) fn signature_of(
    alloc: Global,
    feature: &Feature,
    member: &Member,
    by: &Substitution<'_>,
) -> Result<Sig, Failure> {
    match member.side {
        Accessor::Whole => whole(alloc, feature, by),
        Accessor::Reader => reader(alloc, feature, by),
        Accessor::Writer => writer(alloc, feature, member, by),
    }
}

fn whole(alloc: Global, feature: &Feature, by: &Substitution<'_>) -> Result<Sig, Failure> {
    let name = feature.name.name.copy(alloc)?;
    let args = args_of(alloc, feature.formals.as_slice(), by)?;
    let result_ty = whole_result(alloc, feature, by)?;
    Ok(Sig {
        name,
        args,
        result: result_ty,
    })
}

fn reader(alloc: Global, feature: &Feature, by: &Substitution<'_>) -> Result<Sig, Failure> {
    let name = feature.name.name.copy(alloc)?;
    let result_ty = written_result(alloc, feature, by)?;
    Ok(Sig {
        name,
        args: Items::new(alloc),
        result: result_ty,
    })
}

fn writer(
    alloc: Global,
    feature: &Feature,
    member: &Member,
    by: &Substitution<'_>,
) -> Result<Sig, Failure> {
    let name = feature.name.name.copy(alloc)?;
    let args = new_value(alloc, feature, by)?;
    let result_ty = writer_result(alloc, feature, member, by)?;
    Ok(Sig {
        name,
        args,
        result: result_ty,
    })
}

fn args_of(
    alloc: Global,
    formals: &[FormalParam],
    by: &Substitution<'_>,
) -> Result<Items<ModeTy>, Failure> {
    let mut args = Items::new(alloc);
    for formal in formals {
        let ty = subst_with(alloc, &formal.ty, by)?;
        args.push(ModeTy {
            mode: formal.mode,
            ty,
        })?;
    }
    Ok(args)
}

/// The parameter of a writer.
fn new_value(
    alloc: Global,
    feature: &Feature,
    by: &Substitution<'_>,
) -> Result<Items<ModeTy>, Failure> {
    let ty = known(
        written_result(alloc, feature, by)?,
        Invariant::InstanceTable,
    )?;
    let mut args = Items::new(alloc);
    args.push(ModeTy { mode: Mode::In, ty })?;
    Ok(args)
}

fn written_result(
    alloc: Global,
    feature: &Feature,
    by: &Substitution<'_>,
) -> Result<Option<Ty>, Failure> {
    match &feature.result {
        None => Ok(None),
        Some(ty) => Ok(Some(subst_with(alloc, ty, by)?)),
    }
}

/// A constant without a written type is an INT.
fn whole_result(
    alloc: Global,
    feature: &Feature,
    by: &Substitution<'_>,
) -> Result<Option<Ty>, Failure> {
    if feature.result.is_none() && is_constant(&feature.part) {
        let name = Name::from_slice(alloc, b"INT")?;
        return Ok(Some(Ty::Named(name, Items::new(alloc), feature.name.pos)));
    }
    written_result(alloc, feature, by)
}

fn is_constant(part: &FeatureBody) -> bool {
    match part {
        FeatureBody::Const(_, _) => true,
        _ => false,
    }
}

/// The writer of an attribute of an immutable class gives a changed copy.
fn writer_result(
    alloc: Global,
    feature: &Feature,
    member: &Member,
    by: &Substitution<'_>,
) -> Result<Option<Ty>, Failure> {
    if member.result.is_none() {
        return Ok(None);
    }
    Ok(Some(subst_with(alloc, &Ty::Same(feature.name.pos), by)?))
}
