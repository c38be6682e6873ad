//! Expressions of a source. Each begins with the word of its kind, and its parts follow: those of several words in parentheses.

use crate::writer::{Nesting, Words, Writer};
use sa_ast::{Expr, ExprArg, ExprReceiver, Operator, Ty};
use sqlite_items::Boxed;
use std::alloc::AllocError;

/// An expression. A part of another one stands after a space.
#[cycle(write_source_expr)]
pub(crate) fn put_expr(to: &mut Writer, e: &Expr, nesting: Nesting) -> Result<(), AllocError> {
    let words = words_of(e);
    to.open(nesting, words)?;
    match e {
        Expr::IsVoid(of, _) => {
            to.put("is_void")?;
            put_expr(to, of.get(), Nesting::Part)?;
        }
        Expr::New(size, _) => {
            to.put("new")?;
            put_optional(to, size)?;
        }
        Expr::Create(ty, args, _) => {
            put_create(to, ty)?;
            put_args(to, args.as_slice())?;
        }
        Expr::Items(elements, _) => {
            to.put("array")?;
            put_exprs(to, elements.as_slice())?;
        }
        Expr::Call(on, name, args, _) => {
            to.put("call ")?;
            to.bytes(name.as_slice())?;
            put_receiver(to, on)?;
            put_args(to, args.as_slice())?;
        }
        Expr::Binary(op, first, second, _) => {
            put_op(to, *op)?;
            put_expr(to, first.get(), Nesting::Part)?;
            put_expr(to, second.get(), Nesting::Part)?;
        }
        Expr::Unary(op, of, _) => {
            put_op(to, *op)?;
            put_expr(to, of.get(), Nesting::Part)?;
        }
        Expr::Index(of, at, _) => {
            to.put("index")?;
            put_optional(to, of)?;
            to.put(" at")?;
            put_exprs(to, at.as_slice())?;
        }
        Expr::Bind(call, _) => {
            to.put("bind")?;
            put_expr(to, call.get(), Nesting::Part)?;
        }
        _ => put_leaf(to, e)?,
    }
    to.close(nesting, words)
}

/// How many words an expression is written in.
fn words_of(e: &Expr) -> Words {
    match e {
        Expr::SelfRef(_) | Expr::Void(_) | Expr::Exception(_) | Expr::New(None, _) => Words::One,
        _ => Words::Several,
    }
}

/// An expression without parts.
fn put_leaf(to: &mut Writer, e: &Expr) -> Result<(), AllocError> {
    match e {
        Expr::Int(value, _) => to.numbered("int ", *value),
        Expr::Bool(value, _) => {
            to.put("bool ")?;
            to.truth(*value)
        }
        Expr::Char(byte, _) => to.char_literal(*byte),
        Expr::Text(text, _) => to.text_literal(text.as_slice()),
        Expr::SelfRef(_) => to.put("self"),
        Expr::Void(_) => to.put("void"),
        Expr::Exception(_) => to.put("exception"),
        _ => Ok(()),
    }
}

/// An operator.
fn put_op(to: &mut Writer, op: Operator) -> Result<(), AllocError> {
    to.put(match op {
        Operator::Plus => "op +",
        Operator::Minus => "op -",
        Operator::Times => "op *",
        Operator::Div => "op /",
        Operator::Pow => "op ^",
        Operator::Mod => "op %",
        Operator::Lt => "op <",
        Operator::Leq => "op <=",
        Operator::Gt => "op >",
        Operator::Geq => "op >=",
        Operator::Eq => "op =",
        Operator::Neq => "op /=",
        Operator::And => "and",
        Operator::Or => "or",
        Operator::Negate => "negate",
        Operator::Not => "not",
    })
}

/// The word of a creation, with its type where one is written.
fn put_create(to: &mut Writer, ty: &Option<Ty>) -> Result<(), AllocError> {
    to.put("create")?;
    match ty {
        Some(ty) => {
            to.put(" ")?;
            to.ty(ty)
        }
        None => Ok(()),
    }
}

#[cycle(write_source_expr)]
fn put_optional(to: &mut Writer, e: &Option<Boxed<Expr>>) -> Result<(), AllocError> {
    match e {
        Some(e) => put_expr(to, e.get(), Nesting::Part),
        None => Ok(()),
    }
}

#[cycle(write_source_expr)]
fn put_exprs(to: &mut Writer, exprs: &[Expr]) -> Result<(), AllocError> {
    for e in exprs {
        put_expr(to, e, Nesting::Part)?;
    }
    Ok(())
}

/// What a call is made on, where that is written.
#[cycle(write_source_expr)]
fn put_receiver(to: &mut Writer, on: &ExprReceiver) -> Result<(), AllocError> {
    match on {
        ExprReceiver::Implied => Ok(()),
        ExprReceiver::Of(e) => {
            to.put(" on")?;
            put_expr(to, e.get(), Nesting::Part)
        }
        ExprReceiver::OfClass(ty) => {
            to.put(" of ")?;
            to.ty(ty)
        }
    }
}

#[cycle(write_source_expr)]
fn put_args(to: &mut Writer, args: &[ExprArg]) -> Result<(), AllocError> {
    for arg in args {
        put_arg(to, arg)?;
    }
    Ok(())
}

/// An argument with its mode, or `_` for one that a bind leaves open.
#[cycle(write_source_expr)]
fn put_arg(to: &mut Writer, arg: &ExprArg) -> Result<(), AllocError> {
    match arg {
        ExprArg::Value(mode, e) => {
            to.mode_before(*mode)?;
            put_expr(to, e, Nesting::Part)
        }
        ExprArg::Unbound(ty, _) => {
            to.put(" _")?;
            to.of_type(ty)
        }
    }
}
