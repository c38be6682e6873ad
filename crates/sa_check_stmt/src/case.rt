//! `case`: the value is evaluated once, into a variable without a name, and compared by `is_eq` in order.

use crate::statement::statements;
use crate::{BodyState, with_type};
use failure::{Failure, Invariant, known};
use sa_ast::{CaseArm, Expr, FaultKind, Pos, Rejection};
use sa_check_expr::{
    BodyOutput, Call, CheckContext, CheckTables, CheckedExpr, Expected, Receiver, Synthesised,
    synthesise, synthesise_all, typed_call,
};
use sa_instantiate::OB;
use sa_typed::{TypedBranch, TypedExpr, TypedStmt};
use sqlite_items::Items;
use std::alloc::Global;

/// The variable that holds the value of a `case`, and the position of the form.
#[derive(Clone, Copy)]
struct CaseVariable {
    ty: u32,
    number: u32,
    pos: Pos,
}

/// The value of a `case`, and the variable that holds it.
#[derive(Drop)]
pub(crate) struct Subject {
    value: Synthesised,
    variable: CaseVariable,
}

/// An arm whose values and statements are typed, and whose tests aren't made yet.
#[derive(Drop)]
pub(crate) struct TypedArm {
    values: Vec<Synthesised>,
    body: Items<TypedStmt>,
}

/// The value of a `case`, whose variable is made before its arms are typed.
pub(crate) fn case_subject(
    view: &CheckTables<'_>,
    draft: &mut BodyState,
    built: &mut BodyOutput,
    tested: &Expr,
    pos: Pos,
) -> Result<Subject, Rejection> {
    let value = synthesise((&*view).at(&draft.place), built, tested)?;
    let ty = value_type(&value)?;
    let number = draft.variable(ty)?;
    let variable = CaseVariable { ty, number, pos };
    Ok(Subject { value, variable })
}

/// The number of a value's type. A contextual value has none, and is refused later.
fn value_type(value: &Synthesised) -> Result<u32, Failure> {
    match value {
        Synthesised::Typed(value, _at) => known(value.ty, Invariant::CheckedNumber),
        _ => Ok(OB),
    }
}

/// The arms of a `case`.
#[cycle(statement)]
pub(crate) fn case_arms(
    view: &CheckTables<'_>,
    draft: &mut BodyState,
    built: &mut BodyOutput,
    arms: &[CaseArm],
) -> Result<Vec<TypedArm>, Rejection> {
    let mut typed_arms = Vec::new(view.alloc);
    for arm in arms {
        typed_arms.push(case_arm(view, draft, built, arm)?)?;
    }
    Ok(typed_arms)
}

/// An arm of a `case`.
#[cycle(statement)]
fn case_arm(
    view: &CheckTables<'_>,
    draft: &mut BodyState,
    built: &mut BodyOutput,
    arm: &CaseArm,
) -> Result<TypedArm, Rejection> {
    let values = synthesise_all((&*view).at(&draft.place), built, arm.values.as_slice())?;
    let body = statements(view, draft, built, arm.body.as_slice())?;
    Ok(TypedArm { values, body })
}

/// The `case` with its parts, appended to the list.
pub(crate) fn case_stmts(
    context: CheckContext<'_>,
    built: &mut BodyOutput,
    subject: Subject,
    arms: Vec<TypedArm>,
    rest: Option<Items<TypedStmt>>,
    cores: &mut Items<TypedStmt>,
) -> Result<(), Rejection> {
    let Subject { value, variable } = subject;
    let value = with_type(value, variable.pos)?;
    let tests = tested_arms(context, built, variable, arms)?;
    let rest = otherwise(context.view.alloc, rest, variable.pos)?;
    cores.push(TypedStmt::Assign(variable.number, value.core))?;
    cores.push(TypedStmt::If(tests, rest))?;
    Ok(())
}

/// The statements that are executed where no value is equal.
fn otherwise(
    alloc: Global,
    rest: Option<Items<TypedStmt>>,
    pos: Pos,
) -> Result<Items<TypedStmt>, Rejection> {
    if let Some(rest) = rest {
        return Ok(rest);
    }
    let mut stop = Items::new(alloc);
    stop.push(TypedStmt::Fault(FaultKind::NoBranch, pos))?;
    Ok(stop)
}

/// The arms with their tests.
fn tested_arms(
    context: CheckContext<'_>,
    built: &mut BodyOutput,
    variable: CaseVariable,
    arms: Vec<TypedArm>,
) -> Result<Items<TypedBranch>, Rejection> {
    let mut entries = Items::new(context.view.alloc);
    for arm in arms {
        entries.push(tested_arm(context, built, variable, arm)?)?;
    }
    Ok(entries)
}

/// An arm with its tests.
fn tested_arm(
    context: CheckContext<'_>,
    built: &mut BodyOutput,
    variable: CaseVariable,
    arm: TypedArm,
) -> Result<TypedBranch, Rejection> {
    let TypedArm { values, body } = arm;
    let tests = comparisons(context, built, variable, values)?;
    Ok(TypedBranch { tests, body })
}

/// The tests of an arm.
fn comparisons(
    context: CheckContext<'_>,
    built: &mut BodyOutput,
    variable: CaseVariable,
    values: Vec<Synthesised>,
) -> Result<Items<TypedExpr>, Rejection> {
    let mut tests = Items::new(context.view.alloc);
    for value in values {
        tests.push(comparison(context, built, variable, value)?)?;
    }
    Ok(tests)
}

/// The call of `is_eq` on the variable with a value: E33 unless it gives a BOOL.
fn comparison(
    context: CheckContext<'_>,
    built: &mut BodyOutput,
    variable: CaseVariable,
    value: Synthesised,
) -> Result<TypedExpr, Rejection> {
    let on = variable_receiver(variable, built.sites.len());
    let pos = variable.pos;
    let form = Call::with_value(context.view.alloc, on, b"is_eq", value, pos)?;
    let test = typed_call(context, built, form, Expected::Value)?;
    test.into_bool(pos)
}

/// The variable as the receiver of a call, before which there are this many sites.
fn variable_receiver(variable: CaseVariable, sites: usize) -> Receiver {
    let value = CheckedExpr {
        core: TypedExpr::Var(variable.number),
        ty: Some(variable.ty),
        iter: None,
    };
    Receiver::Value(value, sites)
}
