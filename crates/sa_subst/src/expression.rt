//! Expressions of an instance: one function for each kind of AST node.

ghost use Rattle.std.specs.Prelude.{◌≡◌, IfOk, map};
ghost use Rattle.std.specs.Option.{option_map};
ghost use Rattle.sa_subst.specs.Table.{put_in};
ghost use Rattle.sa_subst.specs.Trees.{argument_with, expr_with, receiver_with};

use crate::{Substitution, subst_with};
use failure::Failure;
use sa_ast::{Expr, ExprArg, ExprReceiver, Ty};
use sqlite_items::{Boxed, Items};
use std::alloc::Global;

/// The expression with the substitution made in each type that is written in it. It fails only where memory runs out.
#[tactic(auto, using(crate::proofs::TreeTypes::expressions))]
#[cycle(expression)]
pub fn subst_expr(alloc: Global, e: &Expr, by: &Substitution<'_>) -> Result<Expr, Failure>
    ensures { IfOk result (λ copy. copy ≡ expr_with (put_in by.now) e.now) }
{
    match e {
        Expr::Int(value, pos) => Ok(Expr::Int(*value, *pos)),
        Expr::Bool(value, pos) => Ok(Expr::Bool(*value, *pos)),
        Expr::Char(value, pos) => Ok(Expr::Char(*value, *pos)),
        Expr::Text(text, pos) => Ok(Expr::Text(text.copy(alloc)?, *pos)),
        Expr::SelfRef(pos) => Ok(Expr::SelfRef(*pos)),
        Expr::Void(pos) => Ok(Expr::Void(*pos)),
        Expr::Exception(pos) => Ok(Expr::Exception(*pos)),
        Expr::IsVoid(tested, pos) => Ok(Expr::IsVoid(boxed(alloc, tested, by)?, *pos)),
        Expr::New(count, pos) => Ok(Expr::New(optional_boxed(alloc, count, by)?, *pos)),
        Expr::Create(ty, args, pos) => {
            let ty = optional_type(alloc, ty, by)?;
            Ok(Expr::Create(ty, arguments(alloc, args.as_slice(), by)?, *pos))
        }
        Expr::Items(items, pos) => Ok(Expr::Items(exprs(alloc, items.as_slice(), by)?, *pos)),
        Expr::Call(on, name, args, pos) => {
            let on = receiver(alloc, on, by)?;
            let name = name.copy(alloc)?;
            Ok(Expr::Call(on, name, arguments(alloc, args.as_slice(), by)?, *pos))
        }
        Expr::Binary(op, left, right, pos) => {
            let left = boxed(alloc, left, by)?;
            Ok(Expr::Binary(*op, left, boxed(alloc, right, by)?, *pos))
        }
        Expr::Unary(op, of, pos) => Ok(Expr::Unary(*op, boxed(alloc, of, by)?, *pos)),
        Expr::Index(of, at, pos) => {
            let of = optional_boxed(alloc, of, by)?;
            Ok(Expr::Index(of, exprs(alloc, at.as_slice(), by)?, *pos))
        }
        Expr::Bind(call, pos) => Ok(Expr::Bind(boxed(alloc, call, by)?, *pos)),
    }
}

/// The same in an expression in a box.
#[tactic(auto, using(crate::proofs::TreeTypes::expressions))]
#[cycle(expression)]
fn boxed(alloc: Global, e: &Boxed<Expr>, by: &Substitution<'_>) -> Result<Boxed<Expr>, Failure>
    ensures { IfOk result (λ copy. copy ≡ expr_with (put_in by.now) e.now) }
{
    let copy = subst_expr(alloc, e.get(), by)?;
    Ok(Boxed::new(alloc, copy)?)
}

/// The same in an expression in a box, where there is one.
#[tactic(auto, using(crate::proofs::TreeTypes::expressions))]
#[cycle(expression)]
fn optional_boxed(
    alloc: Global,
    e: &Option<Boxed<Expr>>,
    by: &Substitution<'_>,
) -> Result<Option<Boxed<Expr>>, Failure>
    ensures { IfOk result (λ copy. copy ≡ option_map (expr_with (put_in by.now)) e.now) }
{
    match e {
        None => Ok(None),
        Some(e) => Ok(Some(Boxed::new(alloc, subst_expr(alloc, e.get(), by)?)?)),
    }
}

/// The same in each of these expressions.
#[tactic(auto, using(crate::proofs::TreeTypes::expressions))]
#[cycle(expression)]
pub(crate) fn exprs(
    alloc: Global,
    list: &[Expr],
    by: &Substitution<'_>,
) -> Result<Items<Expr>, Failure>
    ensures { IfOk result (λ copies. copies ≡ map (expr_with (put_in by.now)) list.now) }
{
    let mut copies = Items::new(alloc);
    for e in list {
        copies.push(subst_expr(alloc, e, by)?)?;
    }
    Ok(copies)
}

/// The same in the receiver of a call.
#[tactic(auto, using(crate::proofs::TreeTypes::expressions))]
#[cycle(expression)]
fn receiver(
    alloc: Global,
    on: &ExprReceiver,
    by: &Substitution<'_>,
) -> Result<ExprReceiver, Failure>
    ensures { IfOk result (λ copy. copy ≡ receiver_with (put_in by.now) on.now) }
{
    match on {
        ExprReceiver::Implied => Ok(ExprReceiver::Implied),
        ExprReceiver::Of(e) => Ok(ExprReceiver::Of(boxed(alloc, e, by)?)),
        ExprReceiver::OfClass(ty) => Ok(ExprReceiver::OfClass(subst_with(alloc, ty, by)?)),
    }
}

/// The same in each argument of a call.
#[tactic(auto, using(crate::proofs::TreeTypes::expressions))]
#[cycle(expression)]
fn arguments(
    alloc: Global,
    args: &[ExprArg],
    by: &Substitution<'_>,
) -> Result<Items<ExprArg>, Failure>
    ensures { IfOk result (λ copies. copies ≡ map (argument_with (put_in by.now)) args.now) }
{
    let mut copies = Items::new(alloc);
    for arg in args {
        copies.push(argument(alloc, arg, by)?)?;
    }
    Ok(copies)
}

/// The same in an argument of a call.
#[tactic(auto, using(crate::proofs::TreeTypes::expressions))]
#[cycle(expression)]
fn argument(alloc: Global, arg: &ExprArg, by: &Substitution<'_>) -> Result<ExprArg, Failure>
    ensures { IfOk result (λ copy. copy ≡ argument_with (put_in by.now) arg.now) }
{
    match arg {
        ExprArg::Value(mode, e) => Ok(ExprArg::Value(*mode, subst_expr(alloc, e, by)?)),
        ExprArg::Unbound(ty, pos) => Ok(ExprArg::Unbound(optional_type(alloc, ty, by)?, *pos)),
    }
}

/// The same in an expression, where there is one.
pub(crate) fn optional_expr(
    alloc: Global,
    e: &Option<Expr>,
    by: &Substitution<'_>,
) -> Result<Option<Expr>, Failure>
    ensures { IfOk result (λ copy. copy ≡ option_map (expr_with (put_in by.now)) e.now) }
{
    match e {
        None => Ok(None),
        Some(e) => Ok(Some(subst_expr(alloc, e, by)?)),
    }
}

/// The same in a type, where there is one.
pub(crate) fn optional_type(
    alloc: Global,
    ty: &Option<Ty>,
    by: &Substitution<'_>,
) -> Result<Option<Ty>, Failure>
    ensures { IfOk result (λ copy. copy ≡ option_map (put_in by.now) ty.now) }
{
    match ty {
        None => Ok(None),
        Some(ty) => Ok(Some(subst_with(alloc, ty, by)?)),
    }
}
