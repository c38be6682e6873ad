//! Typed expressions. Each begins with the word of its kind, and its parts follow: those of several words in parentheses.

use crate::symbols::Symbols;
use crate::writer::{Nesting, Words, Writer};
use sa_typed::{Site, TypedArg, TypedExpr};
use std::alloc::AllocError;

/// What an expression stands in: a typed program, and the sites of the feature.
#[derive(Clone, Copy)]
pub(crate) struct Scope<'a> {
    pub symbols: Symbols<'a>,
    pub sites: &'a [Site],
}

/// An expression. A part of another one stands after a space.
#[cycle(write_typed_expr)]
pub(crate) fn put_expr(
    to: &mut Writer,
    scope: Scope<'_>,
    e: &TypedExpr,
    nesting: Nesting,
) -> Result<(), AllocError> {
    let words = words_of(e);
    to.open(nesting, words)?;
    put_word(to, scope, e)?;
    match e {
        TypedExpr::IsVoid(of) | TypedExpr::NewArray(_, of, _) | TypedExpr::Box(_, of, _) => {
            put_expr(to, scope, of.get(), Nesting::Part)?;
        }
        TypedExpr::Array(_, elements, _) => put_exprs(to, scope, elements.as_slice())?,
        TypedExpr::Call(_, on, args, _)
        | TypedExpr::IterCall(_, on, args, _)
        | TypedExpr::Bind(_, on, args, _, _) => {
            put_expr(to, scope, on.get(), Nesting::Part)?;
            put_args(to, scope, args.as_slice())?;
        }
        TypedExpr::Reversed(_, first, second, _)
        | TypedExpr::And(first, second)
        | TypedExpr::Or(first, second) => {
            put_expr(to, scope, first.get(), Nesting::Part)?;
            put_expr(to, scope, second.get(), Nesting::Part)?;
        }
        _ => {}
    }
    to.close(nesting, words)
}

/// How many words an expression is written in.
fn words_of(e: &TypedExpr) -> Words {
    match e {
        TypedExpr::SelfRef | TypedExpr::Var(_) | TypedExpr::Exception => Words::One,
        _ => Words::Several,
    }
}

/// The word of an expression's kind, with what isn't an expression.
fn put_word(to: &mut Writer, scope: Scope<'_>, e: &TypedExpr) -> Result<(), AllocError> {
    match e {
        TypedExpr::Int(value) => {
            to.put("int ")?;
            to.integer(*value)
        }
        TypedExpr::Bool(value) => {
            to.put("bool ")?;
            to.truth(*value)
        }
        TypedExpr::Char(byte) => to.char_literal(*byte),
        TypedExpr::Text(text) => to.text_literal(text.as_slice()),
        TypedExpr::SelfRef => to.put("self"),
        TypedExpr::Var(var) => to.numbered("v", *var),
        TypedExpr::Exception => to.put("exception"),
        TypedExpr::IsVoid(_) => to.put("is_void"),
        TypedExpr::And(_, _) => to.put("and"),
        TypedExpr::Or(_, _) => to.put("or"),
        TypedExpr::VoidValue(ty) => put_with_type(to, scope, "void ", *ty),
        TypedExpr::New(ty, _) => put_with_type(to, scope, "new ", *ty),
        TypedExpr::NewArray(ty, _, _) => put_with_type(to, scope, "new_array ", *ty),
        TypedExpr::Array(ty, _, _) => put_with_type(to, scope, "array ", *ty),
        TypedExpr::Box(ty, _, _) => put_with_type(to, scope, "box ", *ty),
        _ => put_callee(to, scope, e),
    }
}

/// The word of a kind, and a type.
fn put_with_type(to: &mut Writer, scope: Scope<'_>, word: &str, ty: u32) -> Result<(), AllocError> {
    to.put(word)?;
    scope.symbols.put_type(to, ty)
}

/// The word of a call, and what is called.
fn put_callee(to: &mut Writer, scope: Scope<'_>, e: &TypedExpr) -> Result<(), AllocError> {
    match e {
        TypedExpr::Call(callee, _, _, _) => {
            to.put("call ")?;
            scope.symbols.put_callee(to, *callee)?;
            to.put(" on")
        }
        TypedExpr::IterCall(site, _, _, _) => {
            to.numbered("iter_call site", *site)?;
            to.put(" ")?;
            if let Some(site) = scope.sites.get(*site as usize) {
                scope.symbols.put_callee(to, site.called)?;
            }
            to.put(" on")
        }
        TypedExpr::Bind(callee, _, _, ty, _) => {
            put_with_type(to, scope, "bind ", *ty)?;
            to.put(" to ")?;
            scope.symbols.put_callee(to, *callee)?;
            to.put(" on")
        }
        TypedExpr::Reversed(target, _, _, _) => {
            to.put("reversed ")?;
            scope.symbols.put_target(to, *target, None)
        }
        _ => Ok(()),
    }
}

/// Parts of an expression.
#[cycle(write_typed_expr)]
fn put_exprs(to: &mut Writer, scope: Scope<'_>, exprs: &[TypedExpr]) -> Result<(), AllocError> {
    for e in exprs {
        put_expr(to, scope, e, Nesting::Part)?;
    }
    Ok(())
}

#[cycle(write_typed_expr)]
fn put_args(to: &mut Writer, scope: Scope<'_>, args: &[TypedArg]) -> Result<(), AllocError> {
    for arg in args {
        put_arg(to, scope, arg)?;
    }
    Ok(())
}

/// An argument with its mode: a value, a variable that the call writes, or `_` for one that a bind leaves open.
#[cycle(write_typed_expr)]
fn put_arg(to: &mut Writer, scope: Scope<'_>, arg: &TypedArg) -> Result<(), AllocError> {
    match arg {
        TypedArg::Value(mode, value) => {
            to.mode_before(*mode)?;
            put_expr(to, scope, value, Nesting::Part)
        }
        TypedArg::Variable(mode, var) => {
            to.mode_before(*mode)?;
            to.numbered(" v", *var)
        }
        TypedArg::Open => to.put(" _"),
    }
}
