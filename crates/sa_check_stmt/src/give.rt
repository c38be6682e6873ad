//! `return` and `yield`, which give a value to the caller.

use crate::body_state::{BodyState, FeatureKind};
use crate::leave::in_iter;
use crate::value::check_assignable;
use sa_ast::{Expr, Pos, Rejection, Rule};
use sa_check_expr::{
    BodyOutput, CheckTables, CheckedExpr, Expected, position, synthesise, type_expr,
};
use sa_typed::{TypedExpr, TypedStmt};

/// `return` and `return e`, in routines only.
pub(crate) fn return_value(
    view: &CheckTables<'_>,
    draft: &BodyState,
    built: &mut BodyOutput,
    value: &Option<Expr>,
    pos: Pos,
) -> Result<TypedStmt, Rejection> {
    let Some(e) = value else {
        in_routine(draft, pos)?;
        gives_none(draft, pos)?;
        return Ok(TypedStmt::Return(None));
    };
    let made = result_value(view, draft, built, e)?;
    in_routine(draft, pos)?;
    let core = given_back(view, draft, built, made, position(e), pos)?;
    Ok(TypedStmt::Return(Some(core)))
}

/// `yield` and `yield e`, in iters only, and in no protect.
pub(crate) fn yield_value(
    view: &CheckTables<'_>,
    draft: &BodyState,
    built: &mut BodyOutput,
    value: &Option<Expr>,
    pos: Pos,
) -> Result<TypedStmt, Rejection> {
    let Some(e) = value else {
        in_iter(draft, pos)?;
        gives_none(draft, pos)?;
        return Ok(TypedStmt::Yield(None));
    };
    let made = result_value(view, draft, built, e)?;
    in_iter(draft, pos)?;
    let core = given_back(view, draft, built, made, position(e), pos)?;
    Ok(TypedStmt::Yield(Some(core)))
}

/// Whether a form may occur here that only a routine has.
fn in_routine(draft: &BodyState, pos: Pos) -> Result<(), Rejection> {
    if draft.kind == FeatureKind::Iter {
        return Err(Rule::OutOfPlace.at(pos).into());
    }
    Ok(())
}

/// Whether the feature has no result, where no value is returned or yielded.
fn gives_none(draft: &BodyState, pos: Pos) -> Result<(), Rejection> {
    if draft.result.is_some() {
        return Err(Rule::WrongType.at(pos).into());
    }
    Ok(())
}

/// The expression that is returned or yielded, whose context expects the type of the feature's result. Where the feature has none, it
/// expects no type, and what is typed isn't kept: the form is refused after it.
fn result_value(
    view: &CheckTables<'_>,
    draft: &BodyState,
    built: &mut BodyOutput,
    e: &Expr,
) -> Result<Option<CheckedExpr>, Rejection> {
    let Some(ty) = draft.result else {
        let _e = synthesise(view.at(&draft.place), built, e)?;
        return Ok(None);
    };
    let made = type_expr(view.at(&draft.place), built, e, Expected::Type(ty))?;
    Ok(Some(made))
}

/// The value of the expression at a position, which has a subtype of the type of the feature's result.
fn given_back(
    view: &CheckTables<'_>,
    draft: &BodyState,
    built: &BodyOutput,
    made: Option<CheckedExpr>,
    at: Pos,
    form: Pos,
) -> Result<TypedExpr, Rejection> {
    let Some(made) = made else {
        return Err(Rule::WrongType.at(form).into());
    };
    let Some(ty) = draft.result else {
        return Err(Rule::WrongType.at(form).into());
    };
    check_assignable(view, built, made, ty, at, form)
}
