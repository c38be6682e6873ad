//! Features: a routine or an iter with its body, and a shared with its initialiser.

use crate::statement::statements;
use crate::{BodyState, FeatureKind, check_assignable};
use failure::{Invariant, known};
use sa_ast::{
    Expr, FaultKind, Feature, FeatureBody, FormalParam, Mode, Pos, Rejection, Rule, Stmt,
};
use sa_check_expr::{
    BodyOutput, CheckScope, CheckTables, Expected, position, type_expr, written_type,
};
use sa_typed::{TypedExpr, TypedFeature, TypedShared, TypedStmt};
use sqlite_items::Items;
use std::mem;

/// The greatest number of variables of a feature, parameters among them.
const MOST_VARIABLES: usize = 200;

/// The greatest number of `out` and `inout` parameters of a feature.
const MOST_OUT: usize = 16;

/// A routine or an iter of the class, typed. `built.sites` is empty before and after the call, and the answer has them.
///
/// # Errors
///
/// The first refusal by the rules of statements and expressions; E43 for equal arguments before those, and E54 and E53 for
/// too many `out` arguments and too many variables after them; a `Failure`.
pub fn body(
    view: &CheckTables<'_>,
    built: &mut BodyOutput,
    f: &Feature,
) -> Result<TypedFeature, Rejection> {
    let kind = FeatureKind::of_name(&f.name.name);
    let mut draft = BodyState::new(view.alloc, kind, result_of(view, f)?);
    let modes = formals(view, &mut draft, f.formals.as_slice())?;
    let body = whole_body(view, &mut draft, built, f)?;
    within_limits(&draft, modes.as_slice(), f.name.pos)?;
    Ok(TypedFeature {
        class: view.class,
        iter: kind == FeatureKind::Iter,
        modes,
        vars: draft.vars,
        result: draft.result,
        sites: mem::replace(&mut built.sites, Items::new(view.alloc)),
        body,
        pos: f.name.pos,
    })
}

/// The statements of the feature; those of a routine with a result are followed by a fault, for an execution that reaches its end.
fn whole_body(
    view: &CheckTables<'_>,
    draft: &mut BodyState,
    built: &mut BodyOutput,
    f: &Feature,
) -> Result<Items<TypedStmt>, Rejection> {
    let mut body = statements(view, draft, built, body_of(f))?;
    if draft.result.is_some() && draft.kind == FeatureKind::Routine {
        body.push(TypedStmt::Fault(FaultKind::NoReturn, f.name.pos))?;
    }
    Ok(body)
}

/// A shared of the class, with its initialiser typed.
///
/// # Errors
///
/// The first refusal by the rules of expressions; E33 at the name of the shared unless the initialiser has a subtype of its
/// type; a `Failure`.
pub fn shared_body(
    view: &CheckTables<'_>,
    built: &mut BodyOutput,
    f: &Feature,
) -> Result<TypedShared, Rejection> {
    let ty = known(result_of(view, f)?, Invariant::CheckedNumber)?;
    let start = start(view, built, ty, f)?;
    let class = view.class;
    Ok(TypedShared { ty, class, start })
}

/// The initialiser of a shared, where it has one.
fn start(
    view: &CheckTables<'_>,
    built: &mut BodyOutput,
    ty: u32,
    f: &Feature,
) -> Result<Option<TypedExpr>, Rejection> {
    match &f.part {
        FeatureBody::Shared(Some(e)) => Ok(Some(initialiser(view, built, ty, e, f.name.pos)?)),
        _ => Ok(None),
    }
}

/// An initialiser, whose context expects the type of the shared.
fn initialiser(
    view: &CheckTables<'_>,
    built: &mut BodyOutput,
    ty: u32,
    e: &Expr,
    name: Pos,
) -> Result<TypedExpr, Rejection> {
    let outside = CheckScope::new(view.alloc);
    let value = type_expr((&*view).at(&outside), built, e, Expected::Type(ty))?;
    check_assignable(view, built, value, ty, position(e), name)
}

/// The number of the type of the feature's result.
fn result_of(view: &CheckTables<'_>, f: &Feature) -> Result<Option<u32>, Rejection> {
    match &f.result {
        None => Ok(None),
        Some(ty) => Ok(Some(known(written_type(view, ty), Invariant::CheckedNumber)?)),
    }
}

/// The statements of the feature.
fn body_of(f: &Feature) -> &[Stmt] {
    match &f.part {
        FeatureBody::Routine(body) => body.get().as_slice(),
        _ => &[],
    }
}

/// Declares the parameters as the first variables, and gives their modes.
fn formals(
    view: &CheckTables<'_>,
    draft: &mut BodyState,
    formals: &[FormalParam],
) -> Result<Items<Mode>, Rejection> {
    let mut modes = Items::new(view.alloc);
    for formal in formals {
        let ty = known(written_type(view, &formal.ty), Invariant::CheckedNumber)?;
        draft.declare(view.alloc, &formal.local, ty)?;
        modes.push(formal.mode)?;
    }
    Ok(modes)
}

/// Whether the feature has no more `out` parameters and variables than it may have.
fn within_limits(draft: &BodyState, modes: &[Mode], name: Pos) -> Result<(), Rejection> {
    if out_arguments(modes) > MOST_OUT {
        return Err(Rule::TooManyOutArguments.at(name).into());
    }
    if draft.vars.len() > MOST_VARIABLES {
        return Err(Rule::TooManyVariables.at(name).into());
    }
    Ok(())
}

/// The number of `out` and `inout` parameters.
fn out_arguments(modes: &[Mode]) -> usize {
    let mut count = 0usize;
    for mode in modes {
        if matches!(*mode, Mode::Out | Mode::Inout) {
            count = count.saturating_add(1);
        }
    }
    count
}
