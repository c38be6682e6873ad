//! Operators and the features that they call, once their operands are typed.
//!
//! A comparison by `<=`, `>`, `>=` or `/=` calls `is_leq`, `is_gt`, `is_geq` or `is_neq` where the class of the left operand has a feature
//! of that name, visible or not. Otherwise `a <= b` is rewritten to `~(b < a)`, `a > b` to `b < a`, `a >= b` to `~(a < b)` and `a /= b` to
//! `~(a = b)`. Operands are evaluated from left to right all the same.

use crate::reversed::reversed;
use failure::Failure;
use sa_ast::{Operator, Pos, Rejection, Rule};
use sa_check_calls::{
    BodyOutput, Call, CheckContext, CheckTables, CheckedExpr, Expected, Receiver, Synthesised,
    SynthesisedArg, first_iter, typed_call,
};
use sa_instantiate::BOOL;
use sa_typed::TypedExpr;
use sqlite_items::Boxed;
use std::alloc::Global;

/// The feature that an operator calls.
pub(crate) fn called_name(op: Operator) -> &'static [u8] {
    match op {
        Operator::Plus => b"plus",
        Operator::Minus => b"minus",
        Operator::Times => b"times",
        Operator::Div => b"div",
        Operator::Pow => b"pow",
        Operator::Mod => b"mod",
        Operator::Lt => b"is_lt",
        Operator::Leq => b"is_leq",
        Operator::Gt => b"is_gt",
        Operator::Geq => b"is_geq",
        Operator::Eq => b"is_eq",
        Operator::Neq => b"is_neq",
        Operator::And => b"and",
        Operator::Or => b"or",
        Operator::Negate => b"negate",
        Operator::Not => b"not",
    }
}

/// `and` and `or`: E33 unless both operands are BOOL.
pub fn short_circuit(
    alloc: Global,
    op: Operator,
    one: CheckedExpr,
    other: CheckedExpr,
    pos: Pos,
) -> Result<CheckedExpr, Rejection> {
    if one.ty != Some(BOOL) || other.ty != Some(BOOL) {
        return Err(Rule::WrongType.at(pos).into());
    }
    let iter = first_iter(one.iter, other.iter);
    let one = Boxed::new(alloc, one.core)?;
    let other = Boxed::new(alloc, other.core)?;
    let core = match op {
        Operator::Or => TypedExpr::Or(one, other),
        _ => TypedExpr::And(one, other),
    };
    Ok(CheckedExpr {
        core,
        ty: Some(BOOL),
        iter,
    })
}

/// `-` and `~`: a call on the operand.
pub fn unary(
    context: CheckContext<'_>,
    built: &mut BodyOutput,
    op: Operator,
    of: Receiver,
    pos: Pos,
    expected: Expected,
) -> Result<CheckedExpr, Rejection> {
    let form = Call {
        on: of,
        name: called_name(op),
        args: Vec::new(context.view.alloc),
        pos,
    };
    typed_call(context, built, form, expected)
}

/// `e[..]` and `[..]`: a call of `aget`.
pub fn index(
    context: CheckContext<'_>,
    built: &mut BodyOutput,
    of: Receiver,
    places: Vec<Synthesised>,
    pos: Pos,
    expected: Expected,
) -> Result<CheckedExpr, Rejection> {
    let args = values(context.view.alloc, places)?;
    let form = Call {
        on: of,
        name: b"aget",
        args,
        pos,
    };
    typed_call(context, built, form, expected)
}

/// Arguments that are values.
fn values(alloc: Global, list: Vec<Synthesised>) -> Result<Vec<SynthesisedArg>, Failure> {
    let mut args = Vec::new(alloc);
    for value in list {
        args.push(SynthesisedArg::Value(value))?;
    }
    Ok(args)
}

/// An operator of two operands, at `pos`.
#[derive(Clone, Copy)]
pub struct OperatorCall {
    pub op: Operator,
    /// The position of the left operand.
    pub left: Pos,
    pub pos: Pos,
}

/// An operator of two operands that isn't `and` or `or`. E41 where the receiver is contextual, and the refusals of the call.
pub fn binary(
    context: CheckContext<'_>,
    built: &mut BodyOutput,
    operation: OperatorCall,
    one: Receiver,
    other: Synthesised,
    expected: Expected,
) -> Result<CheckedExpr, Rejection> {
    let OperatorCall {
        op,
        left: _left,
        pos,
    } = operation;
    let of = one.ty(context.view, pos)?;
    let name = called_name(op);
    if !is_derived(op) || has_feature(context.view, of, name) {
        let form = Call::with_value(context.view.alloc, one, name, other, pos)?;
        return typed_call(context, built, form, expected);
    }
    if op == Operator::Gt {
        return reversed(context.view, built, operation, one, other, expected);
    }
    let opposite = opposite(context, built, operation, one, other)?;
    negated(context, built, opposite, pos, expected)
}

/// The comparison to whose negation `<=`, `>=` or `/=` is rewritten.
fn opposite(
    context: CheckContext<'_>,
    built: &mut BodyOutput,
    operation: OperatorCall,
    one: Receiver,
    other: Synthesised,
) -> Result<CheckedExpr, Rejection> {
    let name = match operation.op {
        Operator::Leq => {
            return reversed(context.view, built, operation, one, other, Expected::Value);
        }
        Operator::Geq => called_name(Operator::Lt),
        _ => called_name(Operator::Eq),
    };
    let form = Call::with_value(context.view.alloc, one, name, other, operation.pos)?;
    typed_call(context, built, form, Expected::Value)
}

/// Whether an operator is rewritten to another call where the class of its left operand has no feature for it.
fn is_derived(op: Operator) -> bool {
    matches!(
        op,
        Operator::Leq | Operator::Gt | Operator::Geq | Operator::Neq
    )
}

/// Whether the class of a type has a feature or a signature with a name, visible or not.
fn has_feature(view: &CheckTables<'_>, of: u32, name: &[u8]) -> bool {
    if view.program.is_abstract(of) {
        return !view.signatures.named(of, name).is_empty();
    }
    !view.program.named(of, name).is_empty()
}

/// The call of `not` on a comparison: E33 unless this gives BOOL.
fn negated(
    context: CheckContext<'_>,
    built: &mut BodyOutput,
    compared: CheckedExpr,
    pos: Pos,
    expected: Expected,
) -> Result<CheckedExpr, Rejection> {
    if compared.ty != Some(BOOL) {
        return Err(Rule::WrongType.at(pos).into());
    }
    let form = Call {
        on: Receiver::Value(compared, built.sites.len()),
        name: called_name(Operator::Not),
        args: Vec::new(context.view.alloc),
        pos,
    };
    typed_call(context, built, form, expected)
}
