//! Contextual forms checked against the type that their context expects.

use crate::calls::called_value;
use crate::passing::{PassedArgs, actual_args, pass_args};
use crate::receiver::Receiver;
use crate::synthesised::{Synthesised, SynthesisedArg};
use crate::{
    BodyOutput, CheckTables, CheckedExpr, ChosenFeature, Expected, Resolved, boxed, first_iter,
    is_concrete, is_sub, number_of, resolve_call, type_of,
};
use failure::{Failure, Invariant, known};
use sa_ast::{Pos, Rejection, Rule, Ty};
use sa_typed::TypedExpr;
use sqlite_items::Items;
use std::alloc::Global;

/// The class of array literals.
const ARRAY: &[u8] = b"ARRAY";

/// An expression checked against the type that its context expects. One that has a type by itself keeps it.
#[cycle(check)]
pub fn check_value(
    view: &CheckTables<'_>,
    built: &BodyOutput,
    synthesised: Synthesised,
    expected: Expected,
) -> Result<CheckedExpr, Rejection> {
    match synthesised {
        Synthesised::Typed(value, _) => Ok(value),
        Synthesised::Void(pos) => void(expected, pos),
        Synthesised::Create(args, pos) => create(view, built, args, expected, pos),
        Synthesised::Items(items, pos) => array(view, built, items, expected, pos),
    }
}

/// `void`: E41 where no type is expected.
fn void(expected: Expected, pos: Pos) -> Result<CheckedExpr, Rejection> {
    let Some(ty) = expected.ty() else {
        return Err(Rule::NoTypeFromContext.at(pos).into());
    };
    Ok(CheckedExpr {
        core: TypedExpr::VoidValue(ty),
        ty: Some(ty),
        iter: None,
    })
}

/// `#(..)` without a type: a call of `create` on void of the expected type, and E41 unless that is a concrete one.
#[cycle(check)]
fn create(
    view: &CheckTables<'_>,
    built: &BodyOutput,
    args: Vec<SynthesisedArg>,
    expected: Expected,
    pos: Pos,
) -> Result<CheckedExpr, Rejection> {
    let on = created(view, expected);
    let chosen = created_by(view, built, &on, args.as_slice(), pos)?;
    let passed = pass_args(view, built, args, chosen.params.as_slice(), pos)?;
    Ok(made(view.alloc, chosen, on, passed, pos)?)
}

/// The receiver on which `#(..)` without a type calls `create`: nothing that has a type, unless a concrete one is expected.
fn created(view: &CheckTables<'_>, expected: Expected) -> Receiver {
    match expected {
        Expected::Type(class) if is_concrete(view, class) => Receiver::Class(class),
        _ => Receiver::Untyped,
    }
}

/// The `create` that the call resolves to.
fn created_by(
    view: &CheckTables<'_>,
    built: &BodyOutput,
    on: &Receiver,
    args: &[SynthesisedArg],
    pos: Pos,
) -> Result<ChosenFeature, Rejection> {
    let of = on.ty(view, pos)?;
    let seen = actual_args(view, built, args)?;
    resolve_call(view, of, b"create", seen.as_slice(), Expected::Value, pos)
}

/// The call of `create`, or its value where it is a const.
fn made(
    alloc: Global,
    chosen: ChosenFeature,
    on: Receiver,
    passed: PassedArgs,
    pos: Pos,
) -> Result<CheckedExpr, Failure> {
    let ChosenFeature {
        resolved: reached,
        params: _params,
        result: ty,
    } = chosen;
    match reached {
        Resolved::Called(called) => called_value(alloc, called, on, passed, ty, pos),
        Resolved::Value(core) => Ok(CheckedExpr {
            core,
            ty,
            iter: None,
        }),
    }
}

/// A value where a type is expected, with the number of the type that it has by itself.
#[derive(Drop)]
pub(crate) struct CheckedValue {
    pub core: TypedExpr,
    pub from: u32,
    pub iter: Option<Pos>,
}

/// An expression as a value of the type that its context expects, boxed where that is needed.
#[cycle(check)]
pub(crate) fn checked_to(
    view: &CheckTables<'_>,
    built: &BodyOutput,
    synthesised: Synthesised,
    to: u32,
) -> Result<CheckedValue, Rejection> {
    let pos = synthesised.pos();
    let CheckedExpr { core, ty, iter } = check_value(view, built, synthesised, Expected::Type(to))?;
    let from = known(ty, Invariant::CheckedNumber)?;
    let core = boxed(view, core, from, to, pos)?;
    Ok(CheckedValue { core, from, iter })
}

/// An array literal: E41 unless an array is expected, and E33 unless each element is assignable to the type of its elements.
#[cycle(check)]
fn array(
    view: &CheckTables<'_>,
    built: &BodyOutput,
    items: Vec<Synthesised>,
    expected: Expected,
    pos: Pos,
) -> Result<CheckedExpr, Rejection> {
    let Some((ty, of)) = array_type(view, built, expected) else {
        return Err(Rule::NoTypeFromContext.at(pos).into());
    };
    let elements = elements(view, built, items, of)?;
    if !elements.go {
        return Err(Rule::WrongType.at(pos).into());
    }
    Ok(CheckedExpr {
        core: TypedExpr::Array(ty, elements.cores, pos),
        ty: Some(ty),
        iter: elements.iter,
    })
}

/// The elements of an array literal.
#[derive(Drop)]
struct ArrayElements {
    cores: Items<TypedExpr>,
    /// The first iter call in them.
    iter: Option<Pos>,
    /// Whether each is assignable to the type of the array's elements.
    go: bool,
}

/// The elements of an array literal whose elements have the type with the number `of`.
#[cycle(check)]
fn elements(
    view: &CheckTables<'_>,
    built: &BodyOutput,
    items: Vec<Synthesised>,
    of: u32,
) -> Result<ArrayElements, Rejection> {
    let mut all = ArrayElements {
        cores: Items::new(view.alloc),
        iter: None,
        go: true,
    };
    for item in items {
        let value = checked_to(view, built, item, of)?;
        all.go = all.go && is_sub(view, built, value.from, of);
        all.add(value)?;
    }
    Ok(all)
}

impl ArrayElements {
    fn add(&mut self, value: CheckedValue) -> Result<(), Failure> {
        let CheckedValue {
            core,
            from: _from,
            iter,
        } = value;
        self.cores.push(core)?;
        self.iter = first_iter(self.iter, iter);
        Ok(())
    }
}

/// The number of an expected array type and that of its elements' type.
fn array_type(
    view: &CheckTables<'_>,
    built: &BodyOutput,
    expected: Expected,
) -> Option<(u32, u32)> {
    let ty = expected.ty()?;
    let Ty::Named(name, given, _) = type_of(view, built, ty)? else {
        return None;
    };
    if name.as_slice() != ARRAY {
        return None;
    }
    let of = given.get(0)?;
    Some((ty, number_of(view, built, of)?))
}
