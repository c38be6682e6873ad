//! Calls of the implementation of a signature by the receiver's class.
//!
//! The implementations of a signature are bodies of features, or each is an adapter of its own: that is no activation, so no depth is
//! tested before it, and it forwards its faults.

use crate::calls::{emit_as_deep, emit_deeper, emit_depth_test, emit_indirect_call};
use crate::entry::placed;
use crate::{
    CallPhase, EmitContext, emit_args, emit_fail_if, emit_if, emit_raise, emit_results,
    emit_type_of, emit_void_test, parameters,
};
use failure::{Failure, Invariant, known};
use sa_cfg::{CallOperation, FaultExit};
use sa_dispatch::PackedRange;
use sa_runtime::layout::{FAULT_KIND, FORWARDED};
use sa_runtime::template_ops::{TemplateOp, emit_ops};
use sqlite_items::Items;
use std::alloc::Global;
use wa_syntax::opcode::{I32_ADD, I32_EQ, UNREACHABLE};
use wa_syntax::{Instr, ValTy};

/// Where the number of the class that chooses an implementation is found.
#[derive(Clone, Copy)]
pub enum ClassSource {
    /// It is the class of the object in this variable.
    Of(u32),
    /// It is in the local `ADDRESS`.
    InAddress,
}

/// What the implementations of a signature are. They are alike in this.
#[derive(Clone, Copy, Debug, PartialEq, Eq)]
pub enum Implementations {
    /// Bodies of features: a call of one is an activation.
    Features,
    /// Adapters: a call of one is no activation, and forwards its faults.
    Adapters,
}

/// A dispatched call: the implementations of a signature, among which a class chooses.
#[derive(Clone, Copy)]
pub struct DispatchedCall {
    pub class: ClassSource,
    pub sig: u32,
    pub implementations: Implementations,
    /// How many arguments are parameters.
    pub parameters: u32,
}

/// A dispatched call.
pub(crate) fn emit_dispatch(
    alloc: Global,
    code: &mut Items<Instr>,
    around: &EmitContext<'_>,
    plan: &CallOperation,
    sig: u32,
) -> Result<(), Failure> {
    emit_void_test(alloc, code, around, plan.recv, &plan.fail)?;
    if around.program.rows.types(sig).is_empty() {
        return emit_ops(code, &[TemplateOp::Do(UNREACHABLE)]);
    }
    let choice = DispatchedCall {
        class: ClassSource::Of(plan.recv),
        sig,
        implementations: implementations_of(around, sig)?,
        parameters: parameters(plan.args.as_slice()),
    };
    match choice.implementations {
        Implementations::Features => emit_of_feature(alloc, code, around, plan, choice),
        Implementations::Adapters => emit_of_adapter(alloc, code, around, plan, choice),
    }
}

/// What the implementations of a signature are: the first one decides.
pub fn implementations_of(around: &EmitContext<'_>, sig: u32) -> Result<Implementations, Failure> {
    let first = known(around.program.rows.first(sig), Invariant::TableIndex)?;
    let number = around.program.body_of_implementation(first)?;
    let body = around.program.body(number)?;
    match body.feature {
        Some(_) => Ok(Implementations::Features),
        None => Ok(Implementations::Adapters),
    }
}

/// A call of one of the bodies of features.
fn emit_of_feature(
    alloc: Global,
    code: &mut Items<Instr>,
    around: &EmitContext<'_>,
    plan: &CallOperation,
    choice: DispatchedCall,
) -> Result<(), Failure> {
    emit_depth_test(alloc, code, around, &plan.fail)?;
    emit_dispatched_arguments(code, around, plan)?;
    emit_chosen_call(alloc, code, around, choice, TemplateOp::I32(0))?;
    let inner = around.further_in()?;
    let mut raised = Items::new(alloc);
    emit_raise(&mut raised, &inner, &plan.fail.raised)?;
    emit_if(alloc, code, raised)?;
    emit_results(code, around, plan.value, plan.args.as_slice())
}

/// A call of one of the adapters.
fn emit_of_adapter(
    alloc: Global,
    code: &mut Items<Instr>,
    around: &EmitContext<'_>,
    plan: &CallOperation,
    choice: DispatchedCall,
) -> Result<(), Failure> {
    emit_dispatched_arguments(code, around, plan)?;
    emit_chosen_call(alloc, code, around, choice, TemplateOp::I32(0))?;
    emit_ops(code, &[TemplateOp::Tee(around.status())])?;
    let inner = around.further_in()?;
    let mut unreturned = Items::new(alloc);
    emit_unreturned(alloc, &mut unreturned, &inner, &plan.fail)?;
    emit_if(alloc, code, unreturned)?;
    emit_results(code, around, plan.value, plan.args.as_slice())
}

/// Emits the arguments and the receiver.
fn emit_dispatched_arguments(
    code: &mut Items<Instr>,
    around: &EmitContext<'_>,
    plan: &CallOperation,
) -> Result<(), Failure> {
    emit_args(code, around, plan.args.as_slice(), CallPhase::AtStart)?;
    emit_ops(code, &[around.operand(plan.recv)])
}

/// Emits the code that follows a body that didn't return, by the status in the local: a fault that it forwards, or a raise.
pub(crate) fn emit_unreturned(
    alloc: Global,
    code: &mut Items<Instr>,
    around: &EmitContext<'_>,
    fail: &FaultExit,
) -> Result<(), Failure> {
    emit_forwarded_fault(alloc, code, around, fail)?;
    emit_raise(code, around, &fail.raised)
}

/// Emits the fault that a body forwards, where the status in the local says so.
pub fn emit_forwarded_fault(
    alloc: Global,
    code: &mut Items<Instr>,
    around: &EmitContext<'_>,
    fail: &FaultExit,
) -> Result<(), Failure> {
    let line = [
        TemplateOp::Get(around.status()),
        TemplateOp::I32(FORWARDED),
        TemplateOp::Do(I32_EQ),
    ];
    emit_ops(code, &line)?;
    emit_fail_if(alloc, code, around, TemplateOp::GetGlobal(FAULT_KIND), fail)
}

/// Emits the call of the implementation that is chosen, after its arguments and its receiver. It leaves its status as an operand. `frame`
/// reads the frame that is passed to it.
pub fn emit_chosen_call(
    alloc: Global,
    code: &mut Items<Instr>,
    around: &EmitContext<'_>,
    choice: DispatchedCall,
    frame: TemplateOp,
) -> Result<(), Failure> {
    emit_depth_and_frame(code, around, choice.implementations, frame)?;
    emit_place(alloc, code, around, choice.class, choice.sig)?;
    emit_indirect_call(code, choice.parameters)
}

/// Emits the index in the table of the body that a class chooses, as an operand.
pub(crate) fn emit_place(
    alloc: Global,
    code: &mut Items<Instr>,
    around: &EmitContext<'_>,
    class: ClassSource,
    sig: u32,
) -> Result<(), Failure> {
    match around.program.rows.span(sig) {
        Some(span) => emit_place_by_span(code, around, class, &span),
        None => emit_place_by_tests(alloc, code, around, class, sig),
    }
}

/// Emits the index of the class in the signature's range of the table.
fn emit_place_by_span(
    code: &mut Items<Instr>,
    around: &EmitContext<'_>,
    class: ClassSource,
    span: &PackedRange,
) -> Result<(), Failure> {
    emit_class(code, around, class)?;
    match span.first.wrapping_sub(span.least) {
        0 => Ok(()),
        before => emit_ops(code, &[TemplateOp::I32(before), TemplateOp::Do(I32_ADD)]),
    }
}

/// Emits one test after the other of the class, which leave the table index.
fn emit_place_by_tests(
    alloc: Global,
    code: &mut Items<Instr>,
    around: &EmitContext<'_>,
    class: ClassSource,
    sig: u32,
) -> Result<(), Failure> {
    emit_class_in_address(code, around, class)?;
    let inner = around.further_in()?;
    let mut tests = Items::new(alloc);
    for ty in around.program.rows.types(sig) {
        emit_place_test(alloc, &mut tests, &inner, sig, *ty)?;
    }
    emit_ops(&mut tests, &[TemplateOp::Do(UNREACHABLE)])?;
    code.push(Instr::block_of(alloc, Some(ValTy::I32), tests)?)?;
    Ok(())
}

/// Emits the test of the class, after which a branch leaves the block of the tests with the table index.
fn emit_place_test(
    alloc: Global,
    code: &mut Items<Instr>,
    around: &EmitContext<'_>,
    sig: u32,
    ty: u32,
) -> Result<(), Failure> {
    let place = placed(around, chosen_body(around, sig, ty)?)?;
    let mut found = Items::new(alloc);
    emit_ops(&mut found, &[TemplateOp::I32(place), TemplateOp::Br(1)])?;
    emit_ops(
        code,
        &[
            TemplateOp::Get(around.address()),
            TemplateOp::I32(ty),
            TemplateOp::Do(I32_EQ),
        ],
    )?;
    emit_if(alloc, code, found)
}

/// The body of a signature's implementation for a class.
fn chosen_body(around: &EmitContext<'_>, sig: u32, ty: u32) -> Result<u32, Failure> {
    let row = known(
        around.program.rows.implementation(sig, ty),
        Invariant::TableIndex,
    )?;
    around.program.body_of_implementation(row)
}

/// Emits the number of the class, as an operand.
fn emit_class(
    code: &mut Items<Instr>,
    around: &EmitContext<'_>,
    class: ClassSource,
) -> Result<(), Failure> {
    match class {
        ClassSource::Of(var) => emit_type_of(code, around, var),
        ClassSource::InAddress => emit_ops(code, &[TemplateOp::Get(around.address())]),
    }
}

/// Emits the code that sets the local for the number of the class.
fn emit_class_in_address(
    code: &mut Items<Instr>,
    around: &EmitContext<'_>,
    class: ClassSource,
) -> Result<(), Failure> {
    match class {
        ClassSource::Of(var) => {
            emit_type_of(code, around, var)?;
            emit_ops(code, &[TemplateOp::Set(around.address())])
        }
        ClassSource::InAddress => Ok(()),
    }
}

/// Emits the depth and the frame that an implementation gets, as operands.
fn emit_depth_and_frame(
    code: &mut Items<Instr>,
    around: &EmitContext<'_>,
    implementations: Implementations,
    frame: TemplateOp,
) -> Result<(), Failure> {
    match implementations {
        Implementations::Features => emit_deeper(code, around, frame),
        Implementations::Adapters => emit_as_deep(code, around, frame),
    }
}
