//! What follows the call at a site, by the status that it returns: the instance is suspended, or it has ended.
//!
//! Who allocates a frame frees it when the body ends: the site where it calls the body of a feature itself, and else what it calls. The
//! local of the site is cleared before a raise goes on, so that what ends the instances of the loop finds none there.

use crate::{
    EmitContext, Role, emit_forwarded_fault, emit_if, emit_if_else, emit_jump, emit_raise,
    emit_results,
};
use failure::Failure;
use sa_cfg::{CallOperation, Handler};
use sa_runtime::layout::{CALLED_AT, END_FRAME, FRAME_OUT, RAISED, SIBLING_AT, SUSPENDED};
use sa_runtime::template_ops::{TemplateOp, emit_ops};
use sa_runtime::trace;
use sqlite_items::Items;
use std::alloc::Global;
use wa_syntax::Instr;
use wa_syntax::opcode::{I32_EQ, I32_NE, I32_STORE, I32_WRAP_I64, I64_STORE};

/// A site as a start or a resumption names it.
#[derive(Clone, Copy)]
pub(crate) struct SiteOperands<'a> {
    pub number: u32,
    /// The local with the frame of its instance.
    pub frame: u32,
    pub plan: &'a CallOperation,
    /// The variable that says afterwards whether the instance has ended.
    pub quit: u32,
}

/// What a site calls.
#[derive(Clone, Copy)]
pub(crate) enum SiteTarget {
    /// The body of a feature.
    Body,
    /// The body of a feature that the class in `ADDRESS` chooses.
    Feature,
    /// An adapter, which the class in `ADDRESS` chooses.
    Adapter,
    /// A bound value.
    Bound,
}

/// The state of an instance after a start or a resumption.
#[derive(Clone, Copy, Debug, PartialEq, Eq)]
pub(crate) enum InstanceState {
    Suspended,
    Ended,
}

/// Whether the site itself allocates the frame of the instance and frees it.
fn keeps_frame(called: SiteTarget) -> bool {
    match called {
        SiteTarget::Body => true,
        SiteTarget::Feature => true,
        SiteTarget::Adapter => false,
        SiteTarget::Bound => false,
    }
}

/// Emits what follows a start, whose status is the operand.
pub(crate) fn emit_after_start(
    alloc: Global,
    code: &mut Items<Instr>,
    around: &EmitContext<'_>,
    site: &SiteOperands<'_>,
    called: SiteTarget,
) -> Result<(), Failure> {
    if let Some(left) = around.left {
        emit_instance_end(alloc, code, around, site, called, left)?;
        emit_first_suspension(code, around, site, called)?;
        return emit_value(code, around, site);
    }
    let inner = around.further_in()?;
    let mut suspended = Items::new(alloc);
    emit_first_suspension(&mut suspended, &inner, site, called)?;
    emit_yield(&mut suspended, &inner, site)?;
    emit_outcome(alloc, code, around, site, called, suspended)
}

/// Emits what follows a resumption, whose status is the operand.
pub(crate) fn emit_after_resume(
    alloc: Global,
    code: &mut Items<Instr>,
    around: &EmitContext<'_>,
    site: &SiteOperands<'_>,
    called: SiteTarget,
) -> Result<(), Failure> {
    if let Some(left) = around.left {
        emit_instance_end(alloc, code, around, site, called, left)?;
        return emit_value(code, around, site);
    }
    let inner = around.further_in()?;
    let mut suspended = Items::new(alloc);
    emit_yield(&mut suspended, &inner, site)?;
    emit_outcome(alloc, code, around, site, called, suspended)
}

/// Emits the branch on the status that is the operand: what is done where the instance is suspended, and else its end.
fn emit_outcome(
    alloc: Global,
    code: &mut Items<Instr>,
    around: &EmitContext<'_>,
    site: &SiteOperands<'_>,
    called: SiteTarget,
    suspended: Items<Instr>,
) -> Result<(), Failure> {
    let inner = around.further_in()?;
    let mut ended = Items::new(alloc);
    emit_after_end(alloc, &mut ended, &inner, site, called)?;
    emit_quit(&mut ended, &inner, site.quit, InstanceState::Ended)?;
    emit_status(code, around, site, called)?;
    emit_is_suspended(code)?;
    emit_if_else(alloc, code, suspended, ended)
}

/// Emits the end of the instance and the jump after it, where the status that is the operand says that it isn't suspended.
fn emit_instance_end(
    alloc: Global,
    code: &mut Items<Instr>,
    around: &EmitContext<'_>,
    site: &SiteOperands<'_>,
    called: SiteTarget,
    left: u32,
) -> Result<(), Failure> {
    let inner = around.further_in()?;
    let mut ended = Items::new(alloc);
    emit_after_end(alloc, &mut ended, &inner, site, called)?;
    emit_jump(&mut ended, &inner, left)?;
    emit_status(code, around, site, called)?;
    emit_ops(code, &[TemplateOp::I32(SUSPENDED), TemplateOp::Do(I32_NE)])?;
    emit_if(alloc, code, ended)
}

/// Emits the code that stores the status that is the operand and leaves it there. A site that allocates the frame reports how the body was
/// left.
fn emit_status(
    code: &mut Items<Instr>,
    around: &EmitContext<'_>,
    site: &SiteOperands<'_>,
    called: SiteTarget,
) -> Result<(), Failure> {
    let status = around.status();
    emit_ops(code, &[TemplateOp::Tee(status)])?;
    if keeps_frame(called) {
        trace::emit_outcome(code, around.program.tracing, site.frame, status)?;
    }
    Ok(())
}

/// Emits the test whether the status that is the operand is that of a suspension, as an operand.
pub(crate) fn emit_is_suspended(code: &mut Items<Instr>) -> Result<(), Failure> {
    emit_ops(code, &[TemplateOp::I32(SUSPENDED), TemplateOp::Do(I32_EQ)])
}

/// Emits what a site does after the first suspension of an instance: it stores the frame, and the frame gets what was called, and where the
/// body has a frame itself, that nothing is after it in its list, and the number of the site.
fn emit_first_suspension(
    code: &mut Items<Instr>,
    around: &EmitContext<'_>,
    site: &SiteOperands<'_>,
    called: SiteTarget,
) -> Result<(), Failure> {
    if !keeps_frame(called) {
        emit_ops(
            code,
            &[
                TemplateOp::GetGlobal(FRAME_OUT),
                TemplateOp::Set(site.frame),
            ],
        )?;
    }
    if is_suspended(around) {
        let line = [
            TemplateOp::Get(site.frame),
            TemplateOp::I64(u64::from(site.number) * SITE_UNIT),
            TemplateOp::Memory(I64_STORE, SIBLING_AT),
        ];
        emit_ops(code, &line)?;
    }
    match called {
        SiteTarget::Body => Ok(()),
        SiteTarget::Feature => emit_class_store(code, around, site),
        SiteTarget::Adapter => emit_class_store(code, around, site),
        SiteTarget::Bound => emit_bound_store(code, around, site),
    }
}

/// The unit of the number of a site in the word that has it above the link to the next instance.
const SITE_UNIT: u64 = 0x1_0000_0000;

/// Whether the body is suspended with the instances of its sites.
fn is_suspended(around: &EmitContext<'_>) -> bool {
    match around.role {
        Role::Feature => around.body.iter,
        Role::Adapter => false,
        Role::Entry => false,
    }
}

/// Emits the store, in the frame, of the class in `ADDRESS`.
fn emit_class_store(
    code: &mut Items<Instr>,
    around: &EmitContext<'_>,
    site: &SiteOperands<'_>,
) -> Result<(), Failure> {
    let line = [
        TemplateOp::Get(site.frame),
        TemplateOp::Get(around.address()),
        TemplateOp::Memory(I32_STORE, CALLED_AT),
    ];
    emit_ops(code, &line)
}

/// Emits the store, in the frame, of the address of the bound value.
fn emit_bound_store(
    code: &mut Items<Instr>,
    around: &EmitContext<'_>,
    site: &SiteOperands<'_>,
) -> Result<(), Failure> {
    let line = [
        TemplateOp::Get(site.frame),
        around.operand(site.plan.recv),
        TemplateOp::Do(I32_WRAP_I64),
        TemplateOp::Memory(I32_STORE, CALLED_AT),
    ];
    emit_ops(code, &line)
}

/// Emits the code that takes the value of a suspension and what is copied out, and sets that the instance hasn't ended.
fn emit_yield(
    code: &mut Items<Instr>,
    around: &EmitContext<'_>,
    site: &SiteOperands<'_>,
) -> Result<(), Failure> {
    emit_value(code, around, site)?;
    emit_quit(code, around, site.quit, InstanceState::Suspended)
}

/// Emits the code that takes the value of a suspension and what is copied out.
fn emit_value(
    code: &mut Items<Instr>,
    around: &EmitContext<'_>,
    site: &SiteOperands<'_>,
) -> Result<(), Failure> {
    let plan = site.plan;
    emit_results(code, around, plan.value, plan.args.as_slice())
}

/// Emits what follows the end of an instance, by the status in the local: a fault that is forwarded, or a raise.
fn emit_after_end(
    alloc: Global,
    code: &mut Items<Instr>,
    around: &EmitContext<'_>,
    site: &SiteOperands<'_>,
    called: SiteTarget,
) -> Result<(), Failure> {
    let fail = &site.plan.fail;
    if keeps_frame(called) {
        emit_ops(
            code,
            &[TemplateOp::Get(site.frame), around.runtime(END_FRAME)?],
        )?;
    }
    emit_ops(code, &[TemplateOp::I32(0), TemplateOp::Set(site.frame)])?;
    if !keeps_frame(called) {
        emit_forwarded_fault(alloc, code, around, fail)?;
    }
    emit_instance_raise(alloc, code, around, &fail.raised)
}

/// Emits the raise that an instance has ended with, where the status in the local says so.
fn emit_instance_raise(
    alloc: Global,
    code: &mut Items<Instr>,
    around: &EmitContext<'_>,
    raised: &Handler,
) -> Result<(), Failure> {
    let inner = around.further_in()?;
    let mut raise = Items::new(alloc);
    emit_raise(&mut raise, &inner, raised)?;
    emit_is_raised(code, around)?;
    emit_if(alloc, code, raise)
}

/// Emits the test whether the status in the local is that of a raise, as an operand.
pub(crate) fn emit_is_raised(
    code: &mut Items<Instr>,
    around: &EmitContext<'_>,
) -> Result<(), Failure> {
    let line = [
        TemplateOp::Get(around.status()),
        TemplateOp::I32(RAISED),
        TemplateOp::Do(I32_EQ),
    ];
    emit_ops(code, &line)
}

/// Emits the code that sets whether the instance has ended.
pub(crate) fn emit_quit(
    code: &mut Items<Instr>,
    around: &EmitContext<'_>,
    quit: u32,
    instance: InstanceState,
) -> Result<(), Failure> {
    let ended = match instance {
        InstanceState::Suspended => 0,
        InstanceState::Ended => 1,
    };
    emit_ops(
        code,
        &[TemplateOp::I64(ended), TemplateOp::Set(around.local(quit))],
    )
}
