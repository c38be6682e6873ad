//! Operations of adapters of iters. Such a body is no activation: it allocates the frame of the instance at a start, passes it out, and
//! runs the iter's body on it, at the depth of its caller.

use crate::frames::emit_is_frame;
use crate::outcome::{InstanceState, emit_is_raised, emit_is_suspended, emit_quit};
use crate::{
    CallPhase, EmitContext, emit_args, emit_deeper, emit_forward, emit_if, emit_if_else,
    emit_results, emit_too_deep,
};
use failure::Failure;
use sa_cfg::CallOperand;
use sa_runtime::fault_numbers::{TOO_DEEP, TOO_MANY_FRAMES};
use sa_runtime::layout::{END_FRAME, FRAME_OUT, NEW_FRAME, RAISED};
use sa_runtime::template_ops::{TemplateOp, emit_ops};
use sa_runtime::trace::{self, TraceEvent};
use sqlite_items::Items;
use std::alloc::Global;
use wa_syntax::Instr;
use wa_syntax::opcode::{I32_EQZ, RETURN};

/// Whether the instance has a frame already.
pub(crate) fn emit_has_frame(
    code: &mut Items<Instr>,
    around: &EmitContext<'_>,
    to: u32,
) -> Result<(), Failure> {
    emit_is_frame(code, around, to, around.frame())
}

/// The operation that allocates the frame of the instance at a start, and runs the iter's body on it.
#[derive(Clone, Copy)]
pub(crate) struct EnterStep<'a> {
    pub body: u32,
    /// The variable with the instance's `self`.
    pub recv: u32,
    pub args: &'a [CallOperand],
    /// The variable that gets what is yielded.
    pub value: Option<u32>,
    /// The variable that says afterwards whether the instance has ended.
    pub quit: u32,
}

/// Allocates the frame of the instance at a start, and runs the iter's body on it.
pub(crate) fn emit_enter(
    alloc: Global,
    code: &mut Items<Instr>,
    around: &EmitContext<'_>,
    entering: &EnterStep<'_>,
) -> Result<(), Failure> {
    let func = around.program.function_of(entering.body)?;
    emit_too_deep(code, around)?;
    emit_forward_if(alloc, code, TOO_DEEP)?;
    let (frame, status) = (around.frame(), around.status());
    emit_frame(alloc, code, around)?;
    emit_args(code, around, entering.args, CallPhase::AtStart)?;
    emit_ops(code, &[around.operand(entering.recv)])?;
    emit_deeper(code, around, TemplateOp::Get(frame))?;
    emit_ops(code, &[TemplateOp::Call(func), TemplateOp::Tee(status)])?;
    trace::emit_outcome(code, around.program.tracing, frame, status)?;
    let inner = around.further_in()?;
    let mut suspended = Items::new(alloc);
    emit_iter_suspension(&mut suspended, &inner, entering)?;
    let mut ended = Items::new(alloc);
    emit_iter_end(alloc, &mut ended, &inner, entering.quit)?;
    emit_is_suspended(code)?;
    emit_if_else(alloc, code, suspended, ended)
}

/// Emits the code that forwards a fault to the caller where the operand isn't 0.
fn emit_forward_if(alloc: Global, code: &mut Items<Instr>, kind: u32) -> Result<(), Failure> {
    let mut fault = Items::new(alloc);
    emit_forward(&mut fault, TemplateOp::I32(kind))?;
    emit_if(alloc, code, fault)
}

/// Emits the code that allocates a frame where the instance has none, and else reports that it resumes.
fn emit_frame(
    alloc: Global,
    code: &mut Items<Instr>,
    around: &EmitContext<'_>,
) -> Result<(), Failure> {
    let frame = around.frame();
    let tracing = around.program.tracing;
    let mut start = Items::new(alloc);
    let line = [
        around.runtime(NEW_FRAME)?,
        TemplateOp::Tee(frame),
        TemplateOp::Do(I32_EQZ),
    ];
    emit_ops(&mut start, &line)?;
    emit_forward_if(alloc, &mut start, TOO_MANY_FRAMES)?;
    trace::emit_event(&mut start, tracing, frame, TraceEvent::Start)?;
    let mut resumption = Items::new(alloc);
    trace::emit_event(&mut resumption, tracing, frame, TraceEvent::Resume)?;
    emit_ops(code, &[TemplateOp::Get(frame), TemplateOp::Do(I32_EQZ)])?;
    emit_if_else(alloc, code, start, resumption)
}

/// Emits what follows a suspension: the frame is passed to the site.
fn emit_iter_suspension(
    code: &mut Items<Instr>,
    around: &EmitContext<'_>,
    entering: &EnterStep<'_>,
) -> Result<(), Failure> {
    emit_ops(
        code,
        &[
            TemplateOp::Get(around.frame()),
            TemplateOp::SetGlobal(FRAME_OUT),
        ],
    )?;
    emit_results(code, around, entering.value, entering.args)?;
    emit_quit(code, around, entering.quit, InstanceState::Suspended)
}

/// Emits what follows the end of the instance: a raise is passed on to the caller.
fn emit_iter_end(
    alloc: Global,
    code: &mut Items<Instr>,
    around: &EmitContext<'_>,
    quit: u32,
) -> Result<(), Failure> {
    emit_ops(
        code,
        &[TemplateOp::Get(around.frame()), around.runtime(END_FRAME)?],
    )?;
    let mut raise = Items::new(alloc);
    emit_ops(
        &mut raise,
        &[TemplateOp::I32(RAISED), TemplateOp::Do(RETURN)],
    )?;
    emit_is_raised(code, around)?;
    emit_if(alloc, code, raise)?;
    emit_quit(code, around, quit, InstanceState::Ended)
}
