//! Iter calls: a start of an instance at a site, and its resumptions.
//!
//! The order at a start is: the fault of a void receiver, then that of the depth, then that of too many instances, then the arguments are
//! passed down. A resumption reads neither the receiver nor the arguments that are `once`.

use crate::frames::emit_new_frame;
use crate::outcome::{SiteOperands, SiteTarget, emit_after_resume, emit_after_start};
use crate::{
    ARGUMENTS, CallPhase, ClassSource, DispatchedCall, EmitContext, Implementations, emit_args,
    emit_chosen_call, emit_deeper, emit_depth_test, emit_stored_args, emit_type_of, emit_void_test,
    implementations_of, parameters,
};
use failure::{Failure, Invariant};
use sa_cfg::{CallOperation, CallTarget};
use sa_runtime::layout::{BOUND_CALL, CALLED_AT};
use sa_runtime::template_ops::{TemplateOp, emit_ops};
use sa_runtime::trace::{TraceEvent, emit_event, emit_starting_site};
use sqlite_items::Items;
use std::alloc::Global;
use wa_syntax::Instr;
use wa_syntax::opcode::{I32_LOAD, I32_WRAP_I64, UNREACHABLE};

/// Starts an instance at a site.
pub(crate) fn emit_start(
    alloc: Global,
    code: &mut Items<Instr>,
    around: &EmitContext<'_>,
    number: u32,
    plan: &CallOperation,
    quit: u32,
) -> Result<(), Failure> {
    let site = site_of(around, number, plan, quit);
    let place = around.place_of_site(number)?;
    emit_starting_site(code, around.program.tracing, place)?;
    match plan.callee {
        CallTarget::Body(body) => emit_body_start(alloc, code, around, &site, body),
        CallTarget::Dispatch(sig) => emit_dispatched_start(alloc, code, around, &site, sig),
        CallTarget::Bound => emit_bound_start(alloc, code, around, &site),
        _ => Err(no_iter()),
    }
}

/// Resumes the instance at a site.
pub(crate) fn emit_resume(
    alloc: Global,
    code: &mut Items<Instr>,
    around: &EmitContext<'_>,
    number: u32,
    plan: &CallOperation,
    quit: u32,
) -> Result<(), Failure> {
    let site = site_of(around, number, plan, quit);
    match plan.callee {
        CallTarget::Body(body) => emit_body_resume(alloc, code, around, &site, body),
        CallTarget::Dispatch(sig) => emit_dispatched_resume(alloc, code, around, &site, sig),
        CallTarget::Bound => emit_bound_resume(alloc, code, around, &site),
        _ => Err(no_iter()),
    }
}

/// The error for a start of what is no iter.
fn no_iter() -> Failure {
    Failure::Broken(Invariant::ExcludedForm)
}

fn site_of<'a>(
    around: &EmitContext<'_>,
    number: u32,
    plan: &'a CallOperation,
    quit: u32,
) -> SiteOperands<'a> {
    SiteOperands {
        number,
        frame: around.site(number),
        plan,
        quit,
    }
}

/// A start of the body of a feature.
fn emit_body_start(
    alloc: Global,
    code: &mut Items<Instr>,
    around: &EmitContext<'_>,
    site: &SiteOperands<'_>,
    body: u32,
) -> Result<(), Failure> {
    let func = around.program.function_of(body)?;
    emit_new_frame(alloc, code, around, site)?;
    emit_all_args(code, around, site)?;
    emit_deeper(code, around, TemplateOp::Get(site.frame))?;
    emit_ops(code, &[TemplateOp::Call(func)])?;
    emit_after_start(alloc, code, around, site, SiteTarget::Body)
}

/// A resumption of the body of a feature.
fn emit_body_resume(
    alloc: Global,
    code: &mut Items<Instr>,
    around: &EmitContext<'_>,
    site: &SiteOperands<'_>,
    body: u32,
) -> Result<(), Failure> {
    let func = around.program.function_of(body)?;
    emit_depth_test(alloc, code, around, &site.plan.fail)?;
    emit_event(code, around.program.tracing, site.frame, TraceEvent::Resume)?;
    emit_args_but_once(code, around, site)?;
    emit_deeper(code, around, TemplateOp::Get(site.frame))?;
    emit_ops(code, &[TemplateOp::Call(func)])?;
    emit_after_resume(alloc, code, around, site, SiteTarget::Body)
}

/// A start of the implementation of a signature.
fn emit_dispatched_start(
    alloc: Global,
    code: &mut Items<Instr>,
    around: &EmitContext<'_>,
    site: &SiteOperands<'_>,
    sig: u32,
) -> Result<(), Failure> {
    let plan = site.plan;
    emit_void_test(alloc, code, around, plan.recv, &plan.fail)?;
    if around.program.rows.types(sig).is_empty() {
        return emit_ops(code, &[TemplateOp::Do(UNREACHABLE)]);
    }
    let choice = dispatched_call_of(around, site, sig)?;
    match choice.implementations {
        Implementations::Features => emit_feature_start(alloc, code, around, site, choice),
        Implementations::Adapters => emit_adapter_start(alloc, code, around, site, choice),
    }
}

/// The dispatch among the implementations of a signature by the class in `ADDRESS`.
fn dispatched_call_of(
    around: &EmitContext<'_>,
    site: &SiteOperands<'_>,
    sig: u32,
) -> Result<DispatchedCall, Failure> {
    Ok(DispatchedCall {
        class: ClassSource::InAddress,
        sig,
        implementations: implementations_of(around, sig)?,
        parameters: parameters(site.plan.args.as_slice()),
    })
}

/// A start of one of the bodies of features.
fn emit_feature_start(
    alloc: Global,
    code: &mut Items<Instr>,
    around: &EmitContext<'_>,
    site: &SiteOperands<'_>,
    choice: DispatchedCall,
) -> Result<(), Failure> {
    let frame = TemplateOp::Get(site.frame);
    emit_new_frame(alloc, code, around, site)?;
    emit_all_args(code, around, site)?;
    emit_class_of(code, around, site)?;
    emit_chosen_call(alloc, code, around, choice, frame)?;
    emit_after_start(alloc, code, around, site, SiteTarget::Feature)
}

/// A start of one of the adapters. The adapter allocates the frame.
fn emit_adapter_start(
    alloc: Global,
    code: &mut Items<Instr>,
    around: &EmitContext<'_>,
    site: &SiteOperands<'_>,
    choice: DispatchedCall,
) -> Result<(), Failure> {
    let frame = TemplateOp::I32(0);
    emit_all_args(code, around, site)?;
    emit_class_of(code, around, site)?;
    emit_chosen_call(alloc, code, around, choice, frame)?;
    emit_after_start(alloc, code, around, site, SiteTarget::Adapter)
}

/// A resumption of the implementation of a signature. The class that chose it is in the frame.
fn emit_dispatched_resume(
    alloc: Global,
    code: &mut Items<Instr>,
    around: &EmitContext<'_>,
    site: &SiteOperands<'_>,
    sig: u32,
) -> Result<(), Failure> {
    if around.program.rows.types(sig).is_empty() {
        return emit_ops(code, &[TemplateOp::Do(UNREACHABLE)]);
    }
    let choice = dispatched_call_of(around, site, sig)?;
    match choice.implementations {
        Implementations::Features => emit_feature_resume(alloc, code, around, site, choice),
        Implementations::Adapters => emit_adapter_resume(alloc, code, around, site, choice),
    }
}

/// A resumption of one of the bodies of features.
fn emit_feature_resume(
    alloc: Global,
    code: &mut Items<Instr>,
    around: &EmitContext<'_>,
    site: &SiteOperands<'_>,
    choice: DispatchedCall,
) -> Result<(), Failure> {
    let frame = TemplateOp::Get(site.frame);
    emit_depth_test(alloc, code, around, &site.plan.fail)?;
    emit_event(code, around.program.tracing, site.frame, TraceEvent::Resume)?;
    emit_args_but_once(code, around, site)?;
    emit_called_load(code, site)?;
    emit_ops(code, &[TemplateOp::Set(around.address())])?;
    emit_chosen_call(alloc, code, around, choice, frame)?;
    emit_after_resume(alloc, code, around, site, SiteTarget::Feature)
}

/// A resumption of one of the adapters.
fn emit_adapter_resume(
    alloc: Global,
    code: &mut Items<Instr>,
    around: &EmitContext<'_>,
    site: &SiteOperands<'_>,
    choice: DispatchedCall,
) -> Result<(), Failure> {
    let frame = TemplateOp::Get(site.frame);
    emit_args_but_once(code, around, site)?;
    emit_called_load(code, site)?;
    emit_ops(code, &[TemplateOp::Set(around.address())])?;
    emit_chosen_call(alloc, code, around, choice, frame)?;
    emit_after_resume(alloc, code, around, site, SiteTarget::Adapter)
}

/// A start of a bound value.
fn emit_bound_start(
    alloc: Global,
    code: &mut Items<Instr>,
    around: &EmitContext<'_>,
    site: &SiteOperands<'_>,
) -> Result<(), Failure> {
    let plan = site.plan;
    emit_void_test(alloc, code, around, plan.recv, &plan.fail)?;
    if plan.args.len() > ARGUMENTS {
        return emit_ops(code, &[TemplateOp::Do(UNREACHABLE)]);
    }
    emit_stored_args(code, around, plan.args.as_slice(), CallPhase::AtStart)?;
    let line = [
        TemplateOp::Get(around.depth()),
        TemplateOp::I32(0),
        around.operand(plan.recv),
        TemplateOp::Do(I32_WRAP_I64),
        around.runtime(BOUND_CALL)?,
    ];
    emit_ops(code, &line)?;
    emit_after_start(alloc, code, around, site, SiteTarget::Bound)
}

/// A resumption of a bound value, whose address is in the frame.
fn emit_bound_resume(
    alloc: Global,
    code: &mut Items<Instr>,
    around: &EmitContext<'_>,
    site: &SiteOperands<'_>,
) -> Result<(), Failure> {
    if site.plan.args.len() > ARGUMENTS {
        return emit_ops(code, &[TemplateOp::Do(UNREACHABLE)]);
    }
    let args = site.plan.args.as_slice();
    emit_stored_args(code, around, args, CallPhase::AtResumption)?;
    emit_ops(
        code,
        &[TemplateOp::Get(around.depth()), TemplateOp::Get(site.frame)],
    )?;
    emit_called_load(code, site)?;
    emit_ops(code, &[around.runtime(BOUND_CALL)?])?;
    emit_after_resume(alloc, code, around, site, SiteTarget::Bound)
}

/// Emits the arguments and the receiver of a start.
fn emit_all_args(
    code: &mut Items<Instr>,
    around: &EmitContext<'_>,
    site: &SiteOperands<'_>,
) -> Result<(), Failure> {
    let plan = site.plan;
    emit_args(code, around, plan.args.as_slice(), CallPhase::AtStart)?;
    emit_ops(code, &[around.operand(plan.recv)])
}

/// Emits the arguments of a resumption, and 0 for the receiver, which isn't read.
fn emit_args_but_once(
    code: &mut Items<Instr>,
    around: &EmitContext<'_>,
    site: &SiteOperands<'_>,
) -> Result<(), Failure> {
    let args = site.plan.args.as_slice();
    emit_args(code, around, args, CallPhase::AtResumption)?;
    emit_ops(code, &[TemplateOp::I64(0)])
}

/// Emits the code that sets `ADDRESS` to the number of the receiver's class, where it stays over the call.
fn emit_class_of(
    code: &mut Items<Instr>,
    around: &EmitContext<'_>,
    site: &SiteOperands<'_>,
) -> Result<(), Failure> {
    emit_type_of(code, around, site.plan.recv)?;
    emit_ops(code, &[TemplateOp::Set(around.address())])
}

/// Emits the load of what the frame says of the start: the number of the receiver's class, or the address of the bound value.
fn emit_called_load(code: &mut Items<Instr>, site: &SiteOperands<'_>) -> Result<(), Failure> {
    emit_ops(
        code,
        &[
            TemplateOp::Get(site.frame),
            TemplateOp::Memory(I32_LOAD, CALLED_AT),
        ],
    )
}
