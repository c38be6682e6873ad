//! The types that expressions write.

use crate::terms::{TypeTerms, optional_type, written};
use failure::Failure;
use sa_ast::{Expr, ExprArg, ExprReceiver};
use sqlite_items::Boxed;

/// The types of an expression, if there is one.
pub(crate) fn optional_expr<'a>(
    terms: &mut TypeTerms<'a>,
    value: &'a Option<Expr>,
) -> Result<(), Failure> {
    match value {
        None => Ok(()),
        Some(value) => expr(terms, value),
    }
}

/// The types of an expression, appended to those that the class writes before it.
#[cycle(expr)]
pub(crate) fn expr<'a>(terms: &mut TypeTerms<'a>, value: &'a Expr) -> Result<(), Failure> {
    match value {
        Expr::IsVoid(of, _) => expr(terms, of.get()),
        Expr::New(count, _) => boxed_expr(terms, count),
        Expr::Create(ty, args, _) => {
            optional_type(terms, ty)?;
            arguments(terms, args.as_slice())
        }
        Expr::Items(values, _) => exprs(terms, values.as_slice()),
        Expr::Call(on, _, args, _) => {
            receiver(terms, on)?;
            arguments(terms, args.as_slice())
        }
        Expr::Binary(_, left, right, _) => {
            expr(terms, left.get())?;
            expr(terms, right.get())
        }
        Expr::Unary(_, of, _) => expr(terms, of.get()),
        Expr::Index(of, places, _) => {
            boxed_expr(terms, of)?;
            exprs(terms, places.as_slice())
        }
        Expr::Bind(call, _) => expr(terms, call.get()),
        _ => Ok(()),
    }
}

/// The types of expressions in order.
#[cycle(expr)]
pub(crate) fn exprs<'a>(terms: &mut TypeTerms<'a>, list: &'a [Expr]) -> Result<(), Failure> {
    for each in list {
        expr(terms, each)?;
    }
    Ok(())
}

#[cycle(expr)]
fn boxed_expr<'a>(
    terms: &mut TypeTerms<'a>,
    value: &'a Option<Boxed<Expr>>,
) -> Result<(), Failure> {
    match value {
        None => Ok(()),
        Some(value) => expr(terms, value.get()),
    }
}

#[cycle(expr)]
fn receiver<'a>(terms: &mut TypeTerms<'a>, on: &'a ExprReceiver) -> Result<(), Failure> {
    match on {
        ExprReceiver::Implied => Ok(()),
        ExprReceiver::Of(value) => expr(terms, value.get()),
        ExprReceiver::OfClass(ty) => written(terms, ty),
    }
}

#[cycle(expr)]
fn arguments<'a>(terms: &mut TypeTerms<'a>, list: &'a [ExprArg]) -> Result<(), Failure> {
    for each in list {
        argument(terms, each)?;
    }
    Ok(())
}

#[cycle(expr)]
fn argument<'a>(terms: &mut TypeTerms<'a>, given: &'a ExprArg) -> Result<(), Failure> {
    match given {
        ExprArg::Value(_, value) => expr(terms, value),
        ExprArg::Unbound(ty, _) => optional_type(terms, ty),
    }
}
