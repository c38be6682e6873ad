//! Calls, by their targets.

use crate::binding::emit_bound_call;
use crate::dispatch::emit_dispatch;
use crate::{
    CallPhase, EmitContext, emit_args, emit_builtin, emit_fail_if, emit_get, emit_get_shared,
    emit_if, emit_raise, emit_results, emit_set, emit_set_shared,
};
use failure::Failure;
use sa_cfg::{CallOperation, CallTarget, FaultExit};
use sa_runtime::fault_numbers::TOO_DEEP;
use sa_runtime::layout::BODY_TYPE;
use sa_runtime::template_ops::{TemplateOp, emit_ops};
use sqlite_items::Items;
use std::alloc::Global;
use wa_syntax::Instr;
use wa_syntax::opcode::{I32_EQZ, I32_SUB};

/// A call.
pub fn emit_call(
    alloc: Global,
    code: &mut Items<Instr>,
    around: &EmitContext<'_>,
    plan: &CallOperation,
) -> Result<(), Failure> {
    match plan.callee {
        CallTarget::Body(body) => emit_body_call(alloc, code, around, plan, body),
        CallTarget::Builtin(feature) => emit_builtin(alloc, code, around, plan, feature),
        CallTarget::Get(place) => emit_get(alloc, code, around, plan, place),
        CallTarget::Set(place) => emit_set(alloc, code, around, plan, place),
        CallTarget::GetShared(shared) => emit_get_shared(code, around, plan, shared),
        CallTarget::SetShared(shared) => emit_set_shared(code, around, plan, shared),
        CallTarget::Dispatch(sig) => emit_dispatch(alloc, code, around, plan, sig),
        CallTarget::Bound => emit_bound_call(alloc, code, around, plan),
    }
}

/// A call of a body.
fn emit_body_call(
    alloc: Global,
    code: &mut Items<Instr>,
    around: &EmitContext<'_>,
    plan: &CallOperation,
    body: u32,
) -> Result<(), Failure> {
    let func = around.program.function_of(body)?;
    emit_depth_test(alloc, code, around, &plan.fail)?;
    emit_args(code, around, plan.args.as_slice(), CallPhase::AtStart)?;
    emit_ops(code, &[around.operand(plan.recv)])?;
    emit_deeper(code, around, TemplateOp::I32(0))?;
    emit_ops(code, &[TemplateOp::Call(func)])?;
    let inner = around.further_in()?;
    let mut raised = Items::new(alloc);
    emit_raise(&mut raised, &inner, &plan.fail.raised)?;
    emit_if(alloc, code, raised)?;
    emit_results(code, around, plan.value, plan.args.as_slice())
}

/// Emits the fault of an activation that would nest too deep.
pub fn emit_depth_test(
    alloc: Global,
    code: &mut Items<Instr>,
    around: &EmitContext<'_>,
    fail: &FaultExit,
) -> Result<(), Failure> {
    emit_too_deep(code, around)?;
    emit_fail_if(alloc, code, around, TemplateOp::I32(TOO_DEEP), fail)
}

/// Emits the test whether an activation would nest too deep, as an operand.
pub fn emit_too_deep(code: &mut Items<Instr>, around: &EmitContext<'_>) -> Result<(), Failure> {
    emit_ops(
        code,
        &[TemplateOp::Get(around.depth()), TemplateOp::Do(I32_EQZ)],
    )
}

/// Emits how much deeper activations may nest in a new activation, and its frame, as operands. `frame` reads the frame.
pub fn emit_deeper(
    code: &mut Items<Instr>,
    around: &EmitContext<'_>,
    frame: TemplateOp,
) -> Result<(), Failure> {
    let line = [
        TemplateOp::Get(around.depth()),
        TemplateOp::I32(1),
        TemplateOp::Do(I32_SUB),
        frame,
    ];
    emit_ops(code, &line)
}

/// Emits how much deeper activations may nest and a frame, as operands of an adapter, which is no activation. `frame` reads the frame.
pub(crate) fn emit_as_deep(
    code: &mut Items<Instr>,
    around: &EmitContext<'_>,
    frame: TemplateOp,
) -> Result<(), Failure> {
    emit_ops(code, &[TemplateOp::Get(around.depth()), frame])
}

/// Emits a call through the table of the function whose index is the operand, and which has so many parameters that are arguments.
pub(crate) fn emit_indirect_call(code: &mut Items<Instr>, parameters: u32) -> Result<(), Failure> {
    emit_ops(
        code,
        &[TemplateOp::CallIndirect(BODY_TYPE.saturating_add(parameters))],
    )
}
