//! The operation of a call: what it calls, of which class, and whether it gives a value.

ghost use Rattle.std.specs.Prelude.{◌≡◌, IfOk};
ghost use Rattle.sa_lower_expr.specs.ExprContext.{IsResult, env_of};
ghost use Rattle.sa_lower_expr.specs.Typed.{IsPlain};
ghost use Rattle.sa_typing.specs.Rows.{rows};

use crate::callees::{callee, type_of};
use crate::context::ExprContext;
use crate::copies::copy_back;
use crate::lowered::{LoweredExpr, Operand};
use crate::passing::{LoweredArgs, pass_value};
use failure::Failure;
use sa_ast::{Mode, Pos};
use sa_cfg::{CallOperand, CallOperation, CfgOperation};
use sa_cfg_builder::{BodyBuilder, ProgramBuilder, Tables};
use sa_typing::{ExprType, ResolvedCallee, TypingView, result_type};
use sqlite_items::Items;
use std::alloc::Global;

/// What is called, the variable that holds its receiver, and the position of the call.
#[derive(Clone, Copy)]
pub(crate) struct Invocation {
    pub reached: ResolvedCallee,
    /// The index of the type whose feature is called. Of a bound value it isn't read.
    pub class: u32,
    pub recv: u32,
    pub pos: Pos,
}

impl Invocation {
    /// What is called, on this receiver, at this position.
    pub fn on(reached: ResolvedCallee, recv: Operand, pos: Pos) -> Invocation
        requires { IsPlain recv.given }
        ensures { result.reached ≡ reached }
    {
        let class = match reached {
            ResolvedCallee::Target(_, class) => class,
            ResolvedCallee::Signature(_) => type_of(recv.given),
            ResolvedCallee::Bound(_) => 0,
        };
        Invocation {
            reached,
            class,
            recv: recv.var,
            pos,
        }
    }
}

/// A call with the copies out after it.
pub(crate) fn call(
    around: &ExprContext<'_>,
    draft: &mut ProgramBuilder,
    invocation: Invocation,
    passed: LoweredArgs,
) -> Result<LoweredExpr, Failure>
    ensures { IfOk result (IsResult (env_of around.now).rows invocation.reached) }
{
    let placed = result_of_call(&around.scope.view, &mut draft.body, invocation.reached)?;
    let plan = plan_of(around, &draft.tables, invocation, passed.args, placed.var)?;
    let fail = plan.fail;
    draft.body.step(CfgOperation::Call { plan })?;
    copy_back(&mut draft.body, passed.copies.as_slice(), fail)?;
    Ok(placed)
}

/// What is called, with which variables, and where its faults and raises go.
pub(crate) fn plan_of(
    around: &ExprContext<'_>,
    tables: &Tables,
    invocation: Invocation,
    args: Items<CallOperand>,
    value: Option<u32>,
) -> Result<CallOperation, Failure> {
    let fail = tables.fail(invocation.pos, around.inside.raised)?;
    Ok(CallOperation {
        callee: callee(invocation.reached),
        class: invocation.class,
        recv: invocation.recv,
        args,
        value,
        fail,
    })
}

/// One value as the only argument.
pub(crate) fn one_passed(alloc: Global, value: u32) -> Result<LoweredArgs, Failure> {
    let mut passed = LoweredArgs::of_values(alloc);
    pass_value(&mut passed, Mode::In, value)?;
    Ok(passed)
}

/// What a call gives, and a temporary for it, where it gives a value.
pub(crate) fn result_of_call(
    view: &TypingView<'_>,
    body: &mut BodyBuilder,
    reached: ResolvedCallee,
) -> Result<LoweredExpr, Failure>
    ensures { IfOk result (IsResult (rows view.now) reached) }
{
    let given = ExprType::of_result(result_type(view, reached));
    if !given.is_value() {
        return Ok(LoweredExpr { var: None, given });
    }
    Ok(LoweredExpr {
        var: Some(body.temporary()?),
        given,
    })
}
