//! Comparisons that are reversed: called on their second operand.

use crate::operator::{OperatorCall, called_name};
use failure::{Failure, Invariant, known};
use sa_ast::{Mode, Operator, Pos, Rejection, Rule};
use sa_check_calls::{
    BodyOutput, CheckTables, CheckedExpr, Expected, Receiver, Synthesised, boxed, first_iter,
    resolve_call, type_of,
};
use sa_instantiate::BOOL;
use sa_overload::ActualArg;
use sa_typed::{Target, TypedCallee, TypedExpr};
use sqlite_items::Boxed;

/// `a > b` as `b < a`: a call of `is_lt` on the second operand, with the first as its argument.
///
/// E41 where one of them is contextual, the refusals of the call, where an abstract type of the second operand has no
/// feature that fits, and E33 unless the called feature gives BOOL.
pub(crate) fn reversed(
    view: &CheckTables<'_>,
    built: &BodyOutput,
    operation: OperatorCall,
    one: Receiver,
    other: Synthesised,
    expected: Expected,
) -> Result<CheckedExpr, Rejection> {
    let less = less_of(view, built, &one, &other, expected, operation.pos)?;
    Ok(call_of(view, less, operation, one, other)?)
}

/// The `is_lt` that is called on the second operand, where both have a type by themselves.
fn less_of(
    view: &CheckTables<'_>,
    built: &BodyOutput,
    one: &Receiver,
    other: &Synthesised,
    expected: Expected,
    pos: Pos,
) -> Result<Comparison, Rejection> {
    let Receiver::Value(one, _) = one else {
        return Err(Rule::NoTypeFromContext.at(pos).into());
    };
    let Synthesised::Typed(other, _) = other else {
        return Err(Rule::NoTypeFromContext.at(pos).into());
    };
    less(
        view,
        built,
        known(other.ty, Invariant::CheckedNumber)?,
        known(one.ty, Invariant::CheckedNumber)?,
        expected,
        pos,
    )
}

/// The call of `is_lt` on the second operand, with the first as its argument.
fn call_of(
    view: &CheckTables<'_>,
    less: Comparison,
    operation: OperatorCall,
    one: Receiver,
    other: Synthesised,
) -> Result<CheckedExpr, Failure> {
    let iter = first_iter(one.iter(), other.iter());
    let arg = passed_operand(view, less, one, operation.left)?;
    let on = Boxed::new(view.alloc, other.into_expr()?)?;
    Ok(CheckedExpr {
        core: TypedExpr::Reversed(less.target, arg, on, operation.pos),
        ty: Some(BOOL),
        iter,
    })
}

/// The first operand as the argument.
fn passed_operand(
    view: &CheckTables<'_>,
    less: Comparison,
    one: Receiver,
    at: Pos,
) -> Result<Boxed<TypedExpr>, Failure> {
    let arg = boxed(view, one.into_expr()?, less.from, less.param, at)?;
    Ok(Boxed::new(view.alloc, arg)?)
}

/// The callee of a reversed comparison: the `is_lt` of a concrete class.
#[derive(Clone, Copy)]
struct Comparison {
    target: Target,
    /// The number of the argument's type.
    from: u32,
    /// The number of its parameter's type.
    param: u32,
}

/// The `is_lt` to which a call on a type resolves for an argument of another one: E33 unless it gives BOOL.
fn less(
    view: &CheckTables<'_>,
    built: &BodyOutput,
    of: u32,
    from: u32,
    expected: Expected,
    pos: Pos,
) -> Result<Comparison, Rejection> {
    if view.program.is_abstract(of) {
        return Err(none_on_abstract(view, of).at(pos).into());
    }
    let arg = argument(view, built, from)?;
    let less = resolve_call(view, of, called_name(Operator::Lt), &[arg], expected, pos)?;
    let Some(TypedCallee::Static(target, _)) = less.resolved.called() else {
        return Err(Rejection::Failed(Failure::Broken(Invariant::ExcludedForm)));
    };
    if less.result != Some(BOOL) {
        return Err(Rule::WrongType.at(pos).into());
    }
    let param = known(less.params.get(0), Invariant::CheckedNumber)?;
    Ok(Comparison {
        target,
        from,
        param: param.ty,
    })
}

/// The rule that a call on an abstract type breaks here: it has no `is_lt`, or none that fits.
fn none_on_abstract(view: &CheckTables<'_>, of: u32) -> Rule {
    if view
        .signatures
        .named(of, called_name(Operator::Lt))
        .is_empty()
    {
        Rule::UnknownName
    } else {
        Rule::NoFeatureFits
    }
}

/// An argument with a type.
fn argument(view: &CheckTables<'_>, built: &BodyOutput, number: u32) -> Result<ActualArg, Failure> {
    let ty = known(type_of(view, built, number), Invariant::CheckedNumber)?;
    Ok(ActualArg {
        mode: Mode::In,
        ty: Some(ty.copy(view.alloc)?),
        left: false,
    })
}
