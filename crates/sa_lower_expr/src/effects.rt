//! Effects: whether an expression writes variables of its feature, which an `out` or `inout` argument of a call inside does.

use crate::context::Effects;
use sa_typed::{TypedArg, TypedExpr};

/// The effects on variables of the calls of a statement with this expression.
pub(crate) fn variables_in(e: &TypedExpr) -> Effects {
    if writes(e) {
        Effects::Writes
    } else {
        Effects::Pure
    }
}

/// Whether a call inside the expression, itself included, has an argument that it writes.
#[cycle(writes)]
fn writes(e: &TypedExpr) -> bool {
    match e {
        TypedExpr::IsVoid(of) | TypedExpr::NewArray(_, of, _) | TypedExpr::Box(_, of, _) => {
            writes(of.get())
        }
        TypedExpr::Array(_, elements, _) => any_writes(elements.as_slice()),
        TypedExpr::Call(_, on, args, _)
        | TypedExpr::IterCall(_, on, args, _)
        | TypedExpr::Bind(_, on, args, _, _) => writes(on.get()) || args_write(args.as_slice()),
        TypedExpr::Reversed(_, first, second, _)
        | TypedExpr::And(first, second)
        | TypedExpr::Or(first, second) => writes(first.get()) || writes(second.get()),
        TypedExpr::Int(_)
        | TypedExpr::Bool(_)
        | TypedExpr::Char(_)
        | TypedExpr::Text(_)
        | TypedExpr::VoidValue(_)
        | TypedExpr::SelfRef
        | TypedExpr::Var(_)
        | TypedExpr::Exception
        | TypedExpr::New(_, _) => false,
    }
}

#[cycle(writes)]
fn any_writes(list: &[TypedExpr]) -> bool {
    for e in list {
        if writes(e) {
            return true;
        }
    }
    false
}

#[cycle(writes)]
fn args_write(args: &[TypedArg]) -> bool {
    for arg in args {
        if arg_writes(arg) {
            return true;
        }
    }
    false
}

#[cycle(writes)]
fn arg_writes(arg: &TypedArg) -> bool {
    match arg {
        TypedArg::Value(_, value) => writes(value),
        TypedArg::Variable(_, _) => true,
        TypedArg::Open => false,
    }
}

/// How many arguments there are up to the last one whose evaluation writes variables.
pub(crate) fn written_up_to(args: &[TypedArg]) -> usize {
    let mut count = 0;
    for (place, arg) in args.iter().enumerate() {
        if evaluation_writes(arg) {
            count = place + 1;
        }
    }
    count
}

/// Whether the evaluation of an argument writes variables, before the call itself writes any.
fn evaluation_writes(arg: &TypedArg) -> bool {
    match arg {
        TypedArg::Value(_, value) => writes(value),
        TypedArg::Variable(_, _) => false,
        TypedArg::Open => false,
    }
}
