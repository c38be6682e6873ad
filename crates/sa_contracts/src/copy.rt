//! Copies of expressions, as far as the budget allows.

ghost use Rattle.std.specs.Prelude.{◌≡◌, IfOk};
ghost use Rattle.sa_ast.specs.declared.expr.Expr.TheVariants as expr;

use crate::budget::Budget;
use failure::Failure;
use sa_ast::{Expr, ExprArg, ExprReceiver, Name, Operator, Pos, Ty};
use sqlite_items::{Boxed, Items};
use std::alloc::Global;

/// The same expression once more. It fails where memory runs out, or the budget.
#[cycle(copying)]
pub(crate) fn copy_expr(alloc: Global, e: &Expr, budget: &mut Budget) -> Result<Expr, Failure>
    ensures { IfOk result (λ copy. copy ≡ e.now) }
{
    budget.take_expr()?;
    match e {
        Expr::Int(value, pos) => Ok(Expr::Int(*value, *pos)),
        Expr::Bool(value, pos) => Ok(Expr::Bool(*value, *pos)),
        Expr::Char(value, pos) => Ok(Expr::Char(*value, *pos)),
        Expr::Text(text, pos) => Ok(Expr::Text(copy_name(alloc, text, budget)?, *pos)),
        Expr::SelfRef(pos) => Ok(Expr::SelfRef(*pos)),
        Expr::Void(pos) => Ok(Expr::Void(*pos)),
        Expr::Exception(pos) => Ok(Expr::Exception(*pos)),
        Expr::IsVoid(tested, pos) => Ok(Expr::IsVoid(copy_boxed(alloc, tested, budget)?, *pos)),
        Expr::New(count, pos) => Ok(Expr::New(copy_optional_boxed(alloc, count, budget)?, *pos)),
        Expr::Create(ty, args, pos) => copy_create(alloc, args.as_slice(), ty, *pos, budget),
        Expr::Items(items, pos) => {
            Ok(Expr::Items(copy_exprs(alloc, items.as_slice(), budget)?, *pos))
        }
        Expr::Call(on, name, args, pos) => {
            let on = copy_receiver(alloc, on, budget)?;
            copy_call(alloc, args.as_slice(), on, name, *pos, budget)
        }
        Expr::Binary(op, left, right, pos) => {
            let left = copy_boxed(alloc, left, budget)?;
            copy_binary(alloc, right, *op, left, *pos, budget)
        }
        Expr::Unary(op, of, pos) => Ok(Expr::Unary(*op, copy_boxed(alloc, of, budget)?, *pos)),
        Expr::Index(of, at, pos) => {
            let of = copy_optional_boxed(alloc, of, budget)?;
            copy_index(alloc, at.as_slice(), of, *pos, budget)
        }
        Expr::Bind(call, pos) => Ok(Expr::Bind(copy_boxed(alloc, call, budget)?, *pos)),
    }
}

/// The `#` with these arguments.
#[cycle(copying)]
fn copy_create(
    alloc: Global,
    args: &[ExprArg],
    ty: &Option<Ty>,
    pos: Pos,
    budget: &mut Budget,
) -> Result<Expr, Failure>
    ensures { IfOk result (λ copy. copy ≡ expr.Create ty.now args.now pos) }
{
    let args = copy_args(alloc, args, budget)?;
    Ok(Expr::Create(copy_optional_type(alloc, ty, budget)?, args, pos))
}

/// The call with these arguments, whose receiver is done.
#[cycle(copying)]
fn copy_call(
    alloc: Global,
    args: &[ExprArg],
    on: ExprReceiver,
    name: &Name,
    pos: Pos,
    budget: &mut Budget,
) -> Result<Expr, Failure>
    ensures { IfOk result (λ copy. copy ≡ expr.Call on name.now args.now pos) }
{
    let args = copy_args(alloc, args, budget)?;
    Ok(Expr::Call(on, copy_name(alloc, name, budget)?, args, pos))
}

/// The operation with this right operand, whose left operand is done.
#[cycle(copying)]
fn copy_binary(
    alloc: Global,
    right: &Boxed<Expr>,
    op: Operator,
    left: Boxed<Expr>,
    pos: Pos,
    budget: &mut Budget,
) -> Result<Expr, Failure>
    ensures { IfOk result (λ copy. copy ≡ expr.Binary op left right.now pos) }
{
    Ok(Expr::Binary(op, left, copy_boxed(alloc, right, budget)?, pos))
}

/// The element at these indices, where the expression that has the elements is done.
#[cycle(copying)]
fn copy_index(
    alloc: Global,
    at: &[Expr],
    of: Option<Boxed<Expr>>,
    pos: Pos,
    budget: &mut Budget,
) -> Result<Expr, Failure>
    ensures { IfOk result (λ copy. copy ≡ expr.Index of at.now pos) }
{
    Ok(Expr::Index(of, copy_exprs(alloc, at, budget)?, pos))
}

#[cycle(copying)]
fn copy_boxed(alloc: Global, e: &Boxed<Expr>, budget: &mut Budget) -> Result<Boxed<Expr>, Failure>
    ensures { IfOk result (λ copy. copy ≡ e.now) }
{
    let copy = copy_expr(alloc, e.get(), budget)?;
    Ok(Boxed::new(alloc, copy)?)
}

#[cycle(copying)]
fn copy_optional_boxed(
    alloc: Global,
    e: &Option<Boxed<Expr>>,
    budget: &mut Budget,
) -> Result<Option<Boxed<Expr>>, Failure>
    ensures { IfOk result (λ copy. copy ≡ e.now) }
{
    match e {
        None => Ok(None),
        Some(e) => Ok(Some(Boxed::new(alloc, copy_expr(alloc, e.get(), budget)?)?)),
    }
}

#[cycle(copying)]
pub(crate) fn copy_exprs(
    alloc: Global,
    list: &[Expr],
    budget: &mut Budget,
) -> Result<Items<Expr>, Failure>
    ensures { IfOk result (λ copies. copies ≡ list.now) }
{
    let mut copies = Items::new(alloc);
    for e in list {
        copies.push(copy_expr(alloc, e, budget)?)?;
    }
    Ok(copies)
}

#[cycle(copying)]
fn copy_receiver(
    alloc: Global,
    on: &ExprReceiver,
    budget: &mut Budget,
) -> Result<ExprReceiver, Failure>
    ensures { IfOk result (λ copy. copy ≡ on.now) }
{
    match on {
        ExprReceiver::Implied => Ok(ExprReceiver::Implied),
        ExprReceiver::Of(e) => Ok(ExprReceiver::Of(copy_boxed(alloc, e, budget)?)),
        ExprReceiver::OfClass(ty) => Ok(ExprReceiver::OfClass(copy_type(alloc, ty, budget)?)),
    }
}

#[cycle(copying)]
fn copy_args(
    alloc: Global,
    args: &[ExprArg],
    budget: &mut Budget,
) -> Result<Items<ExprArg>, Failure>
    ensures { IfOk result (λ copies. copies ≡ args.now) }
{
    let mut copies = Items::new(alloc);
    for arg in args {
        copies.push(copy_arg(alloc, arg, budget)?)?;
    }
    Ok(copies)
}

#[cycle(copying)]
fn copy_arg(alloc: Global, arg: &ExprArg, budget: &mut Budget) -> Result<ExprArg, Failure>
    ensures { IfOk result (λ copy. copy ≡ arg.now) }
{
    match arg {
        ExprArg::Value(mode, e) => Ok(ExprArg::Value(*mode, copy_expr(alloc, e, budget)?)),
        ExprArg::Unbound(ty, pos) => Ok(ExprArg::Unbound(
            copy_optional_type(alloc, ty, budget)?,
            *pos,
        )),
    }
}

/// The same of an expression that may be missing.
pub(crate) fn copy_optional_expr(
    alloc: Global,
    e: &Option<Expr>,
    budget: &mut Budget,
) -> Result<Option<Expr>, Failure>
    ensures { IfOk result (λ copy. copy ≡ e.now) }
{
    match e {
        None => Ok(None),
        Some(e) => Ok(Some(copy_expr(alloc, e, budget)?)),
    }
}

/// A copy of a type.
pub(crate) fn copy_type(alloc: Global, ty: &Ty, budget: &mut Budget) -> Result<Ty, Failure>
    ensures { IfOk result (λ copy. copy ≡ ty.now) }
{
    budget.take_type(ty)?;
    Ok(ty.copy(alloc)?)
}

/// The same of a type that may be missing.
pub(crate) fn copy_optional_type(
    alloc: Global,
    ty: &Option<Ty>,
    budget: &mut Budget,
) -> Result<Option<Ty>, Failure>
    ensures { IfOk result (λ copy. copy ≡ ty.now) }
{
    match ty {
        None => Ok(None),
        Some(ty) => Ok(Some(copy_type(alloc, ty, budget)?)),
    }
}

/// A copy of a name or a text.
pub(crate) fn copy_name(alloc: Global, name: &Name, budget: &mut Budget) -> Result<Name, Failure>
    ensures { IfOk result (λ copy. copy ≡ name.now) }
{
    budget.take_name(name)?;
    Ok(name.copy(alloc)?)
}
