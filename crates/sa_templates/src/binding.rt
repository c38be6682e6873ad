//! Operations that make bound values, and calls of them. A bound value is an object: its header names the words of its bind, the receiver
//! follows, and then the captured arguments. Where the receiver's class chooses what is called, its index in the table is in the high half
//! of the receiver's word, since the receiver is an address then.

use crate::dispatch::{ClassSource, emit_place, emit_unreturned};
use crate::entry::{entry_words, given};
use crate::{
    ARGUMENTS, Boxing, CallPhase, EmitContext, emit_any_range, emit_boxed, emit_fail_if, emit_if,
    emit_if_else, emit_move, emit_results, emit_stored_args, emit_type_of, emit_void_test,
    ranges_of,
};
use failure::{Failure, Invariant, known};
use sa_cfg::{BoundLayout, CallOperand, CallOperation, CallTarget, FaultExit};
use sa_runtime::fault_numbers::NO_ROOM;
use sa_runtime::layout::{
    ALLOCATE, BOUND, BOUND_CALL, BOXED_MARK, HALF_BITS, RESULT, attribute_at, header,
};
use sa_runtime::template_ops::{TemplateOp, emit_ops};
use sqlite_items::Items;
use std::alloc::Global;
use wa_syntax::Instr;
use wa_syntax::opcode::{
    I32_EQZ, I32_WRAP_I64, I64_EXTEND_I32_U, I64_OR, I64_SHL, I64_STORE, UNREACHABLE,
};

/// A bound value of an entry.
pub fn emit_bind(
    alloc: Global,
    code: &mut Items<Instr>,
    around: &EmitContext<'_>,
    plan: &CallOperation,
    entry: u32,
) -> Result<(), Failure> {
    let at = known(
        around.program.entries.get(entry as usize).copied(),
        Invariant::CfgNumber,
    )?;
    let entry = known(
        around.program.flat.binds.get(entry as usize),
        Invariant::CfgNumber,
    )?;
    if let CallTarget::Dispatch(sig) = entry.callee {
        emit_void_test(alloc, code, around, plan.recv, &plan.fail)?;
        if around.program.rows.types(sig).is_empty() {
            return emit_ops(code, &[TemplateOp::Do(UNREACHABLE)]);
        }
        emit_choice(alloc, code, around, plan.recv, sig)?;
    }
    emit_object(alloc, code, around, plan, entry, at)?;
    emit_receiver(code, around, plan.recv, entry)?;
    emit_captured_args(code, around, plan.args.as_slice())?;
    emit_entry(alloc, code, around, entry, at)?;
    let line = [
        TemplateOp::Get(around.address()),
        TemplateOp::Do(I64_EXTEND_I32_U),
        around.put(plan.value),
    ];
    emit_ops(code, &line)
}

/// Emits the code that puts the table index of the body that the receiver's class chooses into the local of the status.
fn emit_choice(
    alloc: Global,
    code: &mut Items<Instr>,
    around: &EmitContext<'_>,
    recv: u32,
    sig: u32,
) -> Result<(), Failure> {
    emit_place(alloc, code, around, ClassSource::Of(recv), sig)?;
    emit_ops(code, &[TemplateOp::Set(around.status())])
}

/// Emits the code that allocates the object, whose header names the words of the bind.
fn emit_object(
    alloc: Global,
    code: &mut Items<Instr>,
    around: &EmitContext<'_>,
    plan: &CallOperation,
    entry: &BoundLayout,
    at: u32,
) -> Result<(), Failure> {
    let size = attribute_at(given(entry.open.as_slice()).saturating_add(1));
    let line = [
        TemplateOp::I64(header(entry.ty, BOUND, at)),
        TemplateOp::I64(u64::from(size)),
        around.runtime(ALLOCATE)?,
        TemplateOp::Tee(around.address()),
        TemplateOp::Do(I32_EQZ),
    ];
    emit_ops(code, &line)?;
    emit_fail_if(alloc, code, around, TemplateOp::I32(NO_ROOM), &plan.fail)
}

/// Emits the store of the receiver, with the table index of what its class chose.
fn emit_receiver(
    code: &mut Items<Instr>,
    around: &EmitContext<'_>,
    recv: u32,
    entry: &BoundLayout,
) -> Result<(), Failure> {
    emit_ops(
        code,
        &[TemplateOp::Get(around.address()), around.operand(recv)],
    )?;
    if let CallTarget::Dispatch(_) = entry.callee {
        let line = [
            TemplateOp::Get(around.status()),
            TemplateOp::Do(I64_EXTEND_I32_U),
            TemplateOp::I64(HALF_BITS),
            TemplateOp::Do(I64_SHL),
            TemplateOp::Do(I64_OR),
        ];
        emit_ops(code, &line)?;
    }
    emit_ops(code, &[TemplateOp::Memory(I64_STORE, attribute_at(0))])
}

/// Emits the stores of the captured arguments, in their order.
fn emit_captured_args(
    code: &mut Items<Instr>,
    around: &EmitContext<'_>,
    args: &[CallOperand],
) -> Result<(), Failure> {
    let mut place = 1u32;
    for arg in args {
        if let Some(var) = arg.var {
            emit_attribute(code, around, var, place)?;
            place = place.saturating_add(1);
        }
    }
    Ok(())
}

/// Emits the store of a variable in the object at the address.
fn emit_attribute(
    code: &mut Items<Instr>,
    around: &EmitContext<'_>,
    var: u32,
    place: u32,
) -> Result<(), Failure> {
    let line = [
        TemplateOp::Get(around.address()),
        around.operand(var),
        TemplateOp::Memory(I64_STORE, attribute_at(place)),
    ];
    emit_ops(code, &line)
}

/// Emits the code that writes the words of the bind. They are the same each time.
fn emit_entry(
    alloc: Global,
    code: &mut Items<Instr>,
    around: &EmitContext<'_>,
    entry: &BoundLayout,
    at: u32,
) -> Result<(), Failure> {
    let words = entry_words(alloc, around, entry)?;
    let mut next = at;
    for word in words.as_slice() {
        let line = [
            TemplateOp::I32(0),
            TemplateOp::I64(*word),
            TemplateOp::Memory(I64_STORE, next),
        ];
        emit_ops(code, &line)?;
        next = known(next.checked_add(8), Invariant::CfgNumber)?;
    }
    Ok(())
}

/// A call of a bound value. One of a signature with more arguments than a feature has is of void alone.
pub(crate) fn emit_bound_call(
    alloc: Global,
    code: &mut Items<Instr>,
    around: &EmitContext<'_>,
    plan: &CallOperation,
) -> Result<(), Failure> {
    emit_void_test(alloc, code, around, plan.recv, &plan.fail)?;
    if plan.args.len() > ARGUMENTS {
        return emit_ops(code, &[TemplateOp::Do(UNREACHABLE)]);
    }
    emit_stored_args(code, around, plan.args.as_slice(), CallPhase::AtStart)?;
    let line = [
        TemplateOp::Get(around.depth()),
        TemplateOp::I32(0),
        around.operand(plan.recv),
        TemplateOp::Do(I32_WRAP_I64),
        around.runtime(BOUND_CALL)?,
        TemplateOp::Tee(around.status()),
    ];
    emit_ops(code, &line)?;
    let inner = around.further_in()?;
    let mut unreturned = Items::new(alloc);
    emit_unreturned(alloc, &mut unreturned, &inner, &plan.fail)?;
    emit_if(alloc, code, unreturned)?;
    emit_results(code, around, plan.value, plan.args.as_slice())
}

/// The receiver of a bind, and the types of its class, rising, with which a captured value is boxed.
#[derive(Clone, Copy)]
pub struct BoxingReceivers<'a> {
    pub recv: u32,
    pub types: &'a [u32],
}

/// The value that a bind captures for an argument: boxed where the class of the receiver takes it so, else as it is.
pub fn emit_box_for(
    alloc: Global,
    code: &mut Items<Instr>,
    around: &EmitContext<'_>,
    widening: Boxing,
    takers: BoxingReceivers<'_>,
    fail: &FaultExit,
) -> Result<(), Failure> {
    emit_type_of(code, around, takers.recv)?;
    emit_ops(code, &[TemplateOp::Set(around.address())])?;
    emit_any_range(code, around, ranges_of(alloc, takers.types)?.as_slice())?;
    let inner = around.further_in()?;
    let mut widened = Items::new(alloc);
    emit_marked_box(alloc, &mut widened, &inner, widening, fail)?;
    let mut same = Items::new(alloc);
    emit_move(&mut same, &inner, widening.to, widening.from)?;
    emit_if_else(alloc, code, widened, same)
}

/// Emits the code that boxes a value and marks it.
fn emit_marked_box(
    alloc: Global,
    code: &mut Items<Instr>,
    around: &EmitContext<'_>,
    widening: Boxing,
    fail: &FaultExit,
) -> Result<(), Failure> {
    emit_boxed(code, around, widening.from, widening.ty)?;
    emit_fail_if(alloc, code, around, TemplateOp::Get(around.status()), fail)?;
    let line = [
        TemplateOp::GetGlobal(RESULT),
        TemplateOp::I64(BOXED_MARK),
        TemplateOp::Do(I64_OR),
        TemplateOp::Set(around.local(widening.to)),
    ];
    emit_ops(code, &line)
}
