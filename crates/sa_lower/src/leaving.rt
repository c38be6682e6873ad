//! The statements that leave the body, or the innermost loop.

ghost use Rattle.std.specs.Prelude.{IfSome};
ghost use Rattle.sa_lower.specs.TypedStatements.{IsWellTypedExit, env_of, stmt_context};
ghost use Rattle.sa_lower_expr.specs.Typed.{HasValue};

use crate::context::StmtContext;
use crate::looping::returned;
use crate::value::value_of;
use failure::Failure;
use sa_ast::{FaultKind, Pos};
use sa_cfg::{CfgOperation, Terminator};
use sa_cfg_builder::{BodyBuilder, ProgramBuilder};
use sa_typed::{LoopExit, TypedExpr};
use std::alloc::Global;

/// `return`, which first ends the instances of the loops around it.
pub(crate) fn leave_body(
    alloc: Global,
    around: &StmtContext<'_>,
    draft: &mut ProgramBuilder,
    e: &Option<TypedExpr>,
) -> Result<(), Failure>
    requires { IfSome e.now (HasValue (env_of around.now) (stmt_context around.now)) }
{
    let value = match e {
        Some(e) => Some(value_of(alloc, around, draft, e)?),
        None => None,
    };
    let Some(out) = around.inside.out() else {
        return draft.body.leave(alloc, Terminator::Return { value });
    };
    if let Some(from) = value {
        draft.body.move_to(returned(), from)?;
    }
    draft.body.leave(alloc, Terminator::Jump(out))
}

/// `raise`: the value must not be void.
pub(crate) fn raise(
    alloc: Global,
    around: &StmtContext<'_>,
    draft: &mut ProgramBuilder,
    e: &TypedExpr,
    pos: Pos,
) -> Result<(), Failure>
    requires { HasValue (env_of around.now) (stmt_context around.now) e.now }
{
    let value = value_of(alloc, around, draft, e)?;
    let raised = around.inside.raised;
    let fail = draft.tables.fail(pos, raised)?;
    draft
        .body
        .step(CfgOperation::CheckNotVoid { from: value, fail })?;
    draft.body.step(CfgOperation::SetException {
        value,
        place: fail.place,
        to: raised,
    })?;
    draft.body.leave(alloc, Terminator::Jump(raised.block))
}

/// A fault.
pub(crate) fn stop(
    alloc: Global,
    around: &StmtContext<'_>,
    draft: &mut ProgramBuilder,
    kind: FaultKind,
    pos: Pos,
) -> Result<(), Failure> {
    let fail = draft.tables.fail(pos, around.inside.raised)?;
    draft.body.leave(alloc, Terminator::Fault { kind, fail })
}

/// Leaves the innermost loop: always, or by a test.
#[tactic(auto, using(crate::proofs::StmtParts::parts))]
pub(crate) fn leave_loop(
    alloc: Global,
    around: &StmtContext<'_>,
    draft: &mut ProgramBuilder,
    exit: &LoopExit,
) -> Result<(), Failure>
    requires { IsWellTypedExit (env_of around.now) (stmt_context around.now) exit.now }
{
    let after = around.inside.after();
    match exit {
        LoopExit::Break => draft.body.leave(alloc, Terminator::Jump(after)),
        LoopExit::While(test) => {
            let test = value_of(alloc, around, draft, test)?;
            go_on_where_true(alloc, &mut draft.body, test, after)
        }
        LoopExit::Until(test) => {
            let test = value_of(alloc, around, draft, test)?;
            go_on_where_false(alloc, &mut draft.body, test, after)
        }
    }
}

/// Goes on in a new block where the test is true, otherwise in the block `after`.
fn go_on_where_true(
    alloc: Global,
    body: &mut BodyBuilder,
    test: u32,
    after: u32,
) -> Result<(), Failure> {
    let next = body.block(alloc)?;
    let exit = Terminator::Branch {
        test,
        yes: next,
        no: after,
    };
    body.end(alloc, exit, next)
}

/// Goes on in a new block where the test is false, otherwise in the block `after`.
fn go_on_where_false(
    alloc: Global,
    body: &mut BodyBuilder,
    test: u32,
    after: u32,
) -> Result<(), Failure> {
    let next = body.block(alloc)?;
    let exit = Terminator::Branch {
        test,
        yes: after,
        no: next,
    };
    body.end(alloc, exit, next)
}
