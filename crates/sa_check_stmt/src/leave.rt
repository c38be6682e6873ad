//! Statements that exit or stop: `quit`, `raise`, `assert`, `while! := b`, and an expression as a statement.

use crate::body_state::{BodyState, FeatureKind};
use crate::value::{entry, test, untyped_value};
use failure::{Invariant, known};
use sa_ast::{Expr, ExprReceiver, FaultKind, Operator, Pos, Rejection, Rule};
use sa_check_expr::{
    BodyOutput, CheckTables, Expected, LeavingCall, boxed, leave, leave_form, only_argument, parts,
    position, synthesise, type_expr,
};
use sa_instantiate::OB;
use sa_typed::{TypedExpr, TypedStmt};
use sqlite_items::Items;
use std::alloc::Global;

/// `quit`, in iters only, and in no protect.
pub(crate) fn quit(draft: &BodyState, pos: Pos) -> Result<TypedStmt, Rejection> {
    in_iter(draft, pos)?;
    Ok(TypedStmt::Quit)
}

/// Whether a form may occur here that only an iter has, and in no protect.
pub(crate) fn in_iter(draft: &BodyState, pos: Pos) -> Result<(), Rejection> {
    if draft.kind == FeatureKind::Routine {
        return Err(Rule::OutOfPlace.at(pos).into());
    }
    if draft.place.guard > 0 {
        return Err(Rule::NotAllowedInProtect.at(pos).into());
    }
    Ok(())
}

/// `raise e`, whose value is assignable to `$OB`.
pub(crate) fn raise(
    view: &CheckTables<'_>,
    draft: &BodyState,
    built: &mut BodyOutput,
    e: &Expr,
    pos: Pos,
) -> Result<TypedStmt, Rejection> {
    let value = untyped_value(view.at(&draft.place), built, e, pos)?;
    let ty = known(value.ty, Invariant::CheckedNumber)?;
    let core = boxed(view, value.core, ty, OB, position(e))?;
    Ok(TypedStmt::Raise(core, pos))
}

/// `assert e`: the program stops where the test is false.
pub(crate) fn assert_true(
    view: &CheckTables<'_>,
    draft: &BodyState,
    built: &mut BodyOutput,
    e: &Expr,
    pos: Pos,
) -> Result<TypedStmt, Rejection> {
    let test = test(view.at(&draft.place), built, e)?;
    asserted(view.alloc, test.into_bool(pos)?, pos)
}

/// Nothing where a test is true, and else a fault.
fn asserted(alloc: Global, test: TypedExpr, pos: Pos) -> Result<TypedStmt, Rejection> {
    let mut entries = Items::new(alloc);
    entries.push(entry(alloc, test, Items::new(alloc))?)?;
    let mut rest = Items::new(alloc);
    rest.push(TypedStmt::Fault(FaultKind::Assert, pos))?;
    Ok(TypedStmt::If(entries, rest))
}

/// An expression as a statement: a call, an index, `#` or an operator other than `and` and `or`, without a result.
pub(crate) fn expression(
    view: &CheckTables<'_>,
    draft: &BodyState,
    built: &mut BodyOutput,
    e: &Expr,
) -> Result<TypedStmt, Rejection> {
    if let Some(left) = leave(view.at(&draft.place), built, e)? {
        return Ok(left);
    }
    if !can_stand_alone(draft, e) {
        parts(view.at(&draft.place), built, e)?;
        return Err(Rule::WrongType.at(position(e)).into());
    }
    let made = type_expr(view.at(&draft.place), built, e, Expected::Nothing)?;
    Ok(TypedStmt::ExprStmt(made.core))
}

/// Whether the expression is of a form that can be a statement. A variable can't.
fn can_stand_alone(draft: &BodyState, e: &Expr) -> bool {
    match e {
        Expr::Call(ExprReceiver::Implied, name, args, _) => !args.is_empty()
            || draft.lookup(name).is_none(),
        Expr::Call(_, _, _, _)
        | Expr::Index(_, _, _)
        | Expr::Create(_, _, _)
        | Expr::Unary(_, _, _) => true,
        Expr::Binary(op, _, _, _) => !matches!(op, Operator::And | Operator::Or),
        _ => false,
    }
}

/// `while! := b`, which is `while!(b)`.
pub(crate) fn leave_assigned(
    view: &CheckTables<'_>,
    draft: &BodyState,
    built: &mut BodyOutput,
    call: LeavingCall,
    value: &Expr,
    pos: Pos,
) -> Result<TypedStmt, Rejection> {
    let value = synthesise(view.at(&draft.place), built, value)?;
    let args = only_argument(view.alloc, value)?;
    leave_form(view.at(&draft.place), built, call, args, pos)
}
