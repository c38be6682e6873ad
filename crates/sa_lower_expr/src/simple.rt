//! The forms of one operation on operands that are in variables already, and array literals.

ghost use Rattle.std.specs.Prelude.{◌≡◌, IfOk, IsTrue, is_some};
ghost use Rattle.sa_lower_expr.specs.ExprContext.{IsLowered, expr_context, env_of};
ghost use Rattle.sa_lower_expr.specs.Kinds.{IsLeaf};
ghost use Rattle.sa_lower_expr.specs.Typed.{IsTyped};

use crate::context::{Effects, ExprContext, Owner};
use crate::lowered::{LoweredExpr, value};
use failure::{Failure, Invariant, known};
use sa_ast::{Name, Pos};
use sa_cfg::{CfgOperation, Constant, FaultExit};
use sa_cfg_builder::{BodyBuilder, CaughtException, ProgramBuilder};
use sa_typed::TypedExpr;
use sa_typing::{BOOL, CHAR, ExprType, INT, STR};
use std::alloc::Global;

/// Lowers a form without subexpressions.
#[tactic(auto, using(crate::proofs::Forms::leaves))]
pub(crate) fn leaf(
    alloc: Global,
    around: &ExprContext<'_>,
    draft: &mut ProgramBuilder,
    e: &TypedExpr,
) -> Result<LoweredExpr, Failure>
    requires form { IsLeaf e.now }
    requires typed { IsTyped (env_of around.now) (expr_context around.now) e.now }
    ensures { IfOk result (IsLowered around.now e.now) }
{
    let body = &mut draft.body;
    match e {
        TypedExpr::Int(number) => {
            value(constant(body, Constant::Int(*number)), ExprType::Of(INT))
        }
        TypedExpr::Bool(truth) => {
            value(constant(body, Constant::Bool(*truth)), ExprType::Of(BOOL))
        }
        TypedExpr::Char(byte) => value(constant(body, Constant::Char(*byte)), ExprType::Of(CHAR)),
        TypedExpr::VoidValue(ty) => value(constant(body, Constant::Void(*ty)), ExprType::Of(*ty)),
        TypedExpr::Text(bytes) => value(text(alloc, draft, bytes), ExprType::Of(STR)),
        TypedExpr::SelfRef => value(me(around, body), ExprType::Of(around.scope.class)),
        TypedExpr::Var(var) => {
            let ty = around.scope.vars[*var as usize];
            value(variable(around, body, *var), ExprType::Of(ty))
        }
        TypedExpr::Exception => {
            let exception = exception(around);
            value(Ok(exception.var), ExprType::Of(exception.ty))
        }
        TypedExpr::New(ty, pos) => value(new_object(around, draft, *ty, *pos), ExprType::Of(*ty)),
        _ => unreachable!(),
    }
}

/// A constant.
fn constant(body: &mut BodyBuilder, value: Constant) -> Result<u32, Failure> {
    let to = body.temporary()?;
    body.step(CfgOperation::Const { to, value })?;
    Ok(to)
}

/// A text.
fn text(alloc: Global, draft: &mut ProgramBuilder, text: &Name) -> Result<u32, Failure> {
    let number = draft.tables.texts.number(alloc, text)?;
    constant(&mut draft.body, Constant::Text(number))
}

/// `self`, which in an initialiser is the void value of the class.
fn me(around: &ExprContext<'_>, body: &mut BodyBuilder) -> Result<u32, Failure> {
    match around.owner {
        Owner::Feature => own_object(body),
        Owner::Initialiser => constant(body, Constant::Void(around.scope.class)),
    }
}

/// The body's `self`.
fn own_object(body: &mut BodyBuilder) -> Result<u32, Failure> {
    let to = body.temporary()?;
    body.step(CfgOperation::SelfRef { to })?;
    Ok(to)
}

/// A variable of the feature: itself, or a copy of its value where a later call may write it.
fn variable(around: &ExprContext<'_>, body: &mut BodyBuilder, var: u32) -> Result<u32, Failure> {
    match around.variables {
        Effects::Pure => Ok(var),
        Effects::Writes => copied(body, var),
    }
}

/// A copy of the value that a variable has now.
pub(crate) fn copied(body: &mut BodyBuilder, var: u32) -> Result<u32, Failure> {
    let to = body.temporary()?;
    body.move_to(to, var)?;
    Ok(to)
}

/// The exception of the branch around.
fn exception(around: &ExprContext<'_>) -> CaughtException
    requires { IsTrue (is_some around.now.inside.now.exception) }
    ensures { around.now.inside.now.exception ≡ Some result }
{
    match around.inside.exception {
        Some(exception) => exception,
        None => unreachable!(),
    }
}

/// `void(e)`
pub(crate) fn void_test(body: &mut BodyBuilder, from: u32) -> Result<u32, Failure> {
    let to = body.temporary()?;
    body.step(CfgOperation::IsVoid { to, from })?;
    Ok(to)
}

/// A new object.
fn new_object(
    around: &ExprContext<'_>,
    draft: &mut ProgramBuilder,
    ty: u32,
    pos: Pos,
) -> Result<u32, Failure> {
    let fail = draft.tables.fail(pos, around.inside.raised)?;
    let to = draft.body.temporary()?;
    draft.body.step(CfgOperation::New { to, ty, fail })?;
    Ok(to)
}

/// A new object with an array part of `count` elements.
pub(crate) fn new_array(
    around: &ExprContext<'_>,
    draft: &mut ProgramBuilder,
    ty: u32,
    count: u32,
    pos: Pos,
) -> Result<u32, Failure> {
    let fail = draft.tables.fail(pos, around.inside.raised)?;
    let to = draft.body.temporary()?;
    draft.body.step(CfgOperation::NewArray {
        to,
        ty,
        count,
        fail,
    })?;
    Ok(to)
}

/// A value of the immutable class `ty`, boxed where an abstract type is wanted.
pub(crate) fn widened(
    around: &ExprContext<'_>,
    draft: &mut ProgramBuilder,
    ty: u32,
    from: u32,
    pos: Pos,
) -> Result<u32, Failure> {
    let fail = draft.tables.fail(pos, around.inside.raised)?;
    let to = draft.body.temporary()?;
    widen(&mut draft.body, to, from, ty, fail)?;
    Ok(to)
}

/// Boxes a value into a variable.
pub(crate) fn widen(
    body: &mut BodyBuilder,
    to: u32,
    from: u32,
    ty: u32,
    fail: FaultExit,
) -> Result<(), Failure> {
    body.step(CfgOperation::Box { to, from, ty, fail })
}

/// An array of these elements: it is made once all of them are there, and then filled.
pub(crate) fn array(
    around: &ExprContext<'_>,
    draft: &mut ProgramBuilder,
    ty: u32,
    elements: &[u32],
    pos: Pos,
) -> Result<u32, Failure> {
    let count = known(i32::try_from(elements.len()).ok(), Invariant::CheckedCount)?;
    let count = constant(&mut draft.body, Constant::Int(count))?;
    let array = new_array(around, draft, ty, count, pos)?;
    let at = draft.body.temporary()?;
    for (place, value) in elements.iter().enumerate() {
        put_item(&mut draft.body, array, ty, at, place, *value)?;
    }
    Ok(array)
}

/// Sets an element of an array literal at the index that is in the variable `at`.
fn put_item(
    body: &mut BodyBuilder,
    array: u32,
    ty: u32,
    at: u32,
    place: usize,
    value: u32,
) -> Result<(), Failure> {
    let place = known(i32::try_from(place).ok(), Invariant::CheckedCount)?;
    body.step(CfgOperation::Const {
        to: at,
        value: Constant::Int(place),
    })?;
    body.step(CfgOperation::SetElement {
        array,
        ty,
        at,
        value,
    })
}
