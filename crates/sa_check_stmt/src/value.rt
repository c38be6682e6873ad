//! The expressions of a statement: those that expect a type, and those that are assigned to one.

use failure::{Failure, Invariant, known};
use sa_ast::{Expr, Pos, Rejection, Rule};
use sa_check_expr::{
    BodyOutput, CheckContext, CheckTables, CheckedExpr, Expected, Synthesised, boxed, is_sub,
    synthesise, type_expr,
};
use sa_instantiate::BOOL;
use sa_typed::{TypedBranch, TypedExpr, TypedStmt};
use sqlite_items::Items;
use std::alloc::Global;

/// An expression whose context expects a result of any type. A contextual one is refused, as the form at a position, once its
/// subexpressions are typed.
pub(crate) fn untyped_value(
    context: CheckContext<'_>,
    built: &mut BodyOutput,
    e: &Expr,
    form: Pos,
) -> Result<CheckedExpr, Rejection> {
    with_type(synthesise(context, built, e)?, form)
}

/// An expression that has a type by itself.
///
/// # Errors
///
/// E41, as the form at a position, where it is contextual.
pub fn with_type(value: Synthesised, form: Pos) -> Result<CheckedExpr, Rejection> {
    match value {
        Synthesised::Typed(value, _at) => Ok(value),
        _ => Err(Rule::NoTypeFromContext.at(form).into()),
    }
}

/// A test, whose context expects a BOOL.
///
/// # Errors
///
/// The first refusal by the rules of expressions; a `Failure`.
pub fn test(
    context: CheckContext<'_>,
    built: &mut BodyOutput,
    e: &Expr,
) -> Result<CheckedExpr, Rejection> {
    type_expr(context, built, e, Expected::Type(BOOL))
}

/// The value of an expression at a position, where a type is expected.
///
/// # Errors
///
/// E33, as the form at the other position, unless the expression has a subtype of this type; a `Failure`.
pub fn check_assignable(
    view: &CheckTables<'_>,
    built: &BodyOutput,
    value: CheckedExpr,
    to: u32,
    at: Pos,
    form: Pos,
) -> Result<TypedExpr, Rejection> {
    let from = known(value.ty, Invariant::CheckedNumber)?;
    if !is_sub(view, built, from, to) {
        return Err(Rule::WrongType.at(form).into());
    }
    Ok(boxed(view, value.core, from, to, at)?)
}

/// A test with its statements. It fails only where memory runs out.
pub fn entry(
    alloc: Global,
    test: TypedExpr,
    body: Items<TypedStmt>,
) -> Result<TypedBranch, Failure> {
    let mut tests = Items::new(alloc);
    tests.push(test)?;
    Ok(TypedBranch { tests, body })
}
