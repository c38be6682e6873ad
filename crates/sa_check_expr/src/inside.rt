//! The typing rule of a form with its subexpressions, each typed or refused: of several refusals in them the first one counts.

use crate::{
    OperatorCall, binary, bind_form, create, index, is_void, new_array, new_object, short_circuit,
    unary,
};
use failure::{Failure, Invariant};
use sa_ast::{Expr, Operator, Pos, Rejection, Ty};
use sa_check_calls::{
    BodyOutput, CallHead, CheckContext, CheckTables, CheckedExpr, Expected, Receiver, Synthesised,
    SynthesisedArg, call_form, character, check_value, exception, int, self_ref, text, truth,
    written_type,
};
use std::alloc::Global;

/// The result of typing a part of a form.
type Checked<T> = Result<T, Rejection>;

/// A form without subexpressions. The others are no such form.
pub(crate) fn without_inside(
    context: CheckContext<'_>,
    built: &BodyOutput,
    e: &Expr,
    expected: Expected,
) -> Result<CheckedExpr, Rejection> {
    match e {
        Expr::Int(value, _) => Ok(int(*value)?),
        Expr::Bool(value, _) => Ok(truth(*value)),
        Expr::Char(value, _) => Ok(character(*value)),
        Expr::Text(value, _) => Ok(text(context.view.alloc, value)?),
        Expr::SelfRef(_) => Ok(self_ref(context.view)),
        Expr::Void(pos) => check_value(context.view, built, Synthesised::Void(*pos), expected),
        Expr::Exception(pos) => exception(context.place, *pos),
        Expr::New(_, pos) => new_object(context.view, *pos),
        _ => Err(Rejection::Failed(Failure::Broken(Invariant::ExcludedForm))),
    }
}

/// `void(e)`
pub(crate) fn void_test(
    alloc: Global,
    of: Checked<Synthesised>,
    pos: Pos,
) -> Result<CheckedExpr, Rejection> {
    is_void(alloc, of?, pos)
}

/// `new(n)`
pub(crate) fn array_object(
    view: &CheckTables<'_>,
    length: Checked<CheckedExpr>,
    pos: Pos,
) -> Result<CheckedExpr, Rejection> {
    new_array(view, length?, pos)
}

/// `#(..)` without a type, at the type that its context expects.
pub(crate) fn object_here(
    view: &CheckTables<'_>,
    built: &BodyOutput,
    args: Checked<Vec<SynthesisedArg>>,
    expected: Expected,
    pos: Pos,
) -> Result<CheckedExpr, Rejection> {
    check_value(view, built, Synthesised::Create(args?, pos), expected)
}

/// `#C(..)`
pub(crate) fn object_of(
    context: CheckContext<'_>,
    built: &mut BodyOutput,
    class: &Ty,
    args: Checked<Vec<SynthesisedArg>>,
    pos: Pos,
    expected: Expected,
) -> Result<CheckedExpr, Rejection> {
    let class = written_type(context.view, class);
    create(context, built, class, args?, pos, expected)
}

/// An array literal, at the type that its context expects.
pub(crate) fn array(
    view: &CheckTables<'_>,
    built: &BodyOutput,
    items: Checked<Vec<Synthesised>>,
    expected: Expected,
    pos: Pos,
) -> Result<CheckedExpr, Rejection> {
    check_value(view, built, Synthesised::Items(items?, pos), expected)
}

/// A call by name that isn't a variable.
pub(crate) fn called(
    context: CheckContext<'_>,
    built: &mut BodyOutput,
    head: CallHead<'_>,
    receiver: Checked<Receiver>,
    args: Checked<Vec<SynthesisedArg>>,
    expected: Expected,
) -> Result<CheckedExpr, Rejection> {
    call_form(context, built, head, receiver?, args?, expected)
}

/// `and` and `or`
pub(crate) fn joined(
    alloc: Global,
    op: Operator,
    left: Checked<CheckedExpr>,
    right: Checked<CheckedExpr>,
    pos: Pos,
) -> Result<CheckedExpr, Rejection> {
    short_circuit(alloc, op, left?, right?, pos)
}

/// Another operator of two operands.
pub(crate) fn operated(
    context: CheckContext<'_>,
    built: &mut BodyOutput,
    operation: OperatorCall,
    left: Checked<Receiver>,
    right: Checked<Synthesised>,
    expected: Expected,
) -> Result<CheckedExpr, Rejection> {
    binary(context, built, operation, left?, right?, expected)
}

/// `-` and `~` before an operand.
pub(crate) fn signed(
    context: CheckContext<'_>,
    built: &mut BodyOutput,
    op: Operator,
    of: Checked<Receiver>,
    pos: Pos,
    expected: Expected,
) -> Result<CheckedExpr, Rejection> {
    unary(context, built, op, of?, pos, expected)
}

/// `e[..]` and `[..]`
pub(crate) fn indexed(
    context: CheckContext<'_>,
    built: &mut BodyOutput,
    of: Checked<Receiver>,
    places: Checked<Vec<Synthesised>>,
    pos: Pos,
    expected: Expected,
) -> Result<CheckedExpr, Rejection> {
    index(context, built, of?, places?, pos, expected)
}

/// `bind(..)` of a call by name.
pub(crate) fn bound(
    context: CheckContext<'_>,
    built: &mut BodyOutput,
    head: &Expr,
    receiver: Checked<Receiver>,
    args: Checked<Vec<SynthesisedArg>>,
    pos: Pos,
) -> Result<CheckedExpr, Rejection> {
    bind_form(context, built, head, receiver?, args?, pos)
}

/// That a part is typed.
pub(crate) fn done<T: Drop>(part: Checked<T>) -> Result<(), Rejection> {
    let _part = part?;
    Ok(())
}

/// That two parts are typed.
pub(crate) fn both<T: Drop, U: Drop>(one: Checked<T>, other: Checked<U>) -> Result<(), Rejection> {
    done(one)?;
    done(other)
}
