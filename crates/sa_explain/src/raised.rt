//! The static type of what is raised at a position.

use crate::walk::{Body, seen_in};
use failure::Failure;
use sa_ast::{Pos, Ty};
use sa_prelude::BuiltinFeature;
use sa_typed::{Target, TypedCallee, TypedExpr, TypedProgram};
use std::alloc::Global;

/// The static type of what is raised at a position; none where it isn't known, or not the same in each instance of the class.
///
/// # Errors
///
/// `NoMemory` where memory runs out.
pub fn raised_type(alloc: Global, core: &TypedProgram, place: Pos) -> Result<Option<&Ty>, Failure> {
    let seen = seen_in(alloc, core, place)?;
    Ok(the_same(seen.raised.as_slice()))
}

/// The type that all of a list are, or none.
fn the_same<'a>(types: &[Option<&'a Ty>]) -> Option<&'a Ty> {
    let first: &'a Ty = (*types.first()?)?;
    for ty in types {
        let other: &'a Ty = (*ty)?;
        if *other != *first {
            return None;
        }
    }
    Some(first)
}

/// The static type of an expression in a body.
pub(crate) fn type_of<'a>(body: Body<'a>, expr: &'a TypedExpr) -> Option<&'a Ty> {
    match expr {
        TypedExpr::Int(_) => type_named(body.core, b"INT"),
        TypedExpr::Bool(_) | TypedExpr::IsVoid(_) | TypedExpr::And(_, _) | TypedExpr::Or(_, _) => {
            type_named(body.core, b"BOOL")
        }
        TypedExpr::Char(_) => type_named(body.core, b"CHAR"),
        TypedExpr::Text(_) => type_named(body.core, b"STR"),
        TypedExpr::VoidValue(ty)
        | TypedExpr::New(ty, _)
        | TypedExpr::NewArray(ty, _, _)
        | TypedExpr::Array(ty, _, _)
        | TypedExpr::Box(ty, _, _)
        | TypedExpr::Bind(_, _, _, ty, _) => type_at(body.core, *ty),
        TypedExpr::SelfRef => type_at(body.core, body.feature?.class),
        TypedExpr::Var(number) => type_at(body.core, *body.feature?.vars.get(*number as usize)?),
        TypedExpr::Call(called, _, _, _) => given_by(body.core, *called),
        TypedExpr::IterCall(site, _, _, _) => given_by(body.core, body.site(*site)?.called),
        TypedExpr::Reversed(Target::Feature(number), _, _, _) => given_at(body.core, *number),
        TypedExpr::Reversed(_, _, _, _) | TypedExpr::Exception => None,
    }
}

/// The type with a number, or none.
fn type_at(core: &TypedProgram, number: u32) -> Option<&Ty> {
    Some(&core.types.get(number as usize)?.ty)
}

/// The type that is a class with this name and without parameters, or none.
fn type_named<'a>(core: &'a TypedProgram, name: &[u8]) -> Option<&'a Ty> {
    core.types
        .as_slice()
        .iter()
        .map(|info| &info.ty)
        .find(|ty| is_named(ty, name))
}

fn is_named(ty: &Ty, name: &[u8]) -> bool {
    match ty {
        Ty::Named(there, params, _) => there.as_slice() == name && params.is_empty(),
        _ => false,
    }
}

/// The type of the result of a call.
fn given_by(core: &TypedProgram, called: TypedCallee) -> Option<&Ty> {
    match called {
        TypedCallee::Static(target, of) => given_of(core, target, of),
        TypedCallee::Dispatch(number) => core.sigs.get(number as usize)?.sig.result.as_ref(),
        TypedCallee::Bound => None,
    }
}

/// The type of the result of a feature of a type.
fn given_of(core: &TypedProgram, target: Target, of: u32) -> Option<&Ty> {
    match target {
        Target::Feature(number) => given_at(core, number),
        Target::Builtin(feature) => given_built_in(core, feature, of),
        Target::Get(place) => {
            let info = core.types.get(of as usize)?;
            type_at(core, *info.attrs.get(place as usize)?)
        }
        Target::GetShared(number) => type_at(core, core.shareds.get(number as usize)?.ty),
        Target::Set(_) | Target::SetShared(_) => None,
    }
}

/// The type of the result of the feature with a number.
fn given_at(core: &TypedProgram, number: u32) -> Option<&Ty> {
    type_at(core, core.features.get(number as usize)?.result?)
}

/// The type of the result of a built-in feature of a type, where it isn't BOOL or INT, which are seldom raised.
fn given_built_in(core: &TypedProgram, feature: BuiltinFeature, of: u32) -> Option<&Ty> {
    match feature {
        BuiltinFeature::IntStr
        | BuiltinFeature::CharStr
        | BuiltinFeature::StrCat
        | BuiltinFeature::StrSubstring
        | BuiltinFeature::StrOf => type_named(core, b"STR"),
        BuiltinFeature::IntChar | BuiltinFeature::StrAget => type_named(core, b"CHAR"),
        BuiltinFeature::ArefAget => type_at(core, core.types.get(of as usize)?.elem?),
        BuiltinFeature::ArrayCreate => type_at(core, of),
        _ => None,
    }
}
