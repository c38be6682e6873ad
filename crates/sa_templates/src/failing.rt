//! Faults and raises of operations, and jumps to blocks.

use crate::conditionals::emit_if;
use crate::context::{EmitContext, Role};
use failure::{Failure, Invariant, known};
use sa_cfg::{FaultExit, Handler};
use sa_runtime::fault_numbers::VOID;
use sa_runtime::layout::{
    EXCEPTION, EXCEPTION_KIND, EXCEPTION_PLACE, FAULT, FAULT_KIND, FORWARDED, RAISED,
};
use sa_runtime::template_ops::{TemplateOp, emit_ops};
use sa_structure::leaves;
use sqlite_items::Items;
use std::alloc::Global;
use wa_syntax::Instr;
use wa_syntax::opcode::{I64_EQZ, I64_EXTEND_I32_U, RETURN};

/// Emits a fault where the operand isn't 0. `kind` reads its number.
pub fn emit_fail_if(
    alloc: Global,
    code: &mut Items<Instr>,
    around: &EmitContext<'_>,
    kind: TemplateOp,
    fail: &FaultExit,
) -> Result<(), Failure> {
    let inner = around.further_in()?;
    let mut then = Items::new(alloc);
    emit_fail(&mut then, &inner, kind, fail)?;
    emit_if(alloc, code, then)
}

/// Emits the fault of a variable whose value is void.
pub fn emit_void_test(
    alloc: Global,
    code: &mut Items<Instr>,
    around: &EmitContext<'_>,
    var: u32,
    fail: &FaultExit,
) -> Result<(), Failure> {
    emit_ops(code, &[around.first_operand(var), TemplateOp::Do(I64_EQZ)])?;
    emit_fail_if(alloc, code, around, TemplateOp::I32(VOID), fail)
}

/// Emits a fault: an adapter forwards it to its caller, in other bodies it is raised.
pub fn emit_fail(
    code: &mut Items<Instr>,
    around: &EmitContext<'_>,
    kind: TemplateOp,
    fail: &FaultExit,
) -> Result<(), Failure> {
    match around.role {
        Role::Adapter => emit_forward(code, kind),
        Role::Feature => emit_fault(code, around, kind, fail),
        Role::Entry => emit_fault(code, around, kind, fail),
    }
}

/// Emits the code that forwards a fault to the caller. `kind` reads its number.
pub fn emit_forward(code: &mut Items<Instr>, kind: TemplateOp) -> Result<(), Failure> {
    let line = [
        kind,
        TemplateOp::SetGlobal(FAULT_KIND),
        TemplateOp::I32(FORWARDED),
        TemplateOp::Do(RETURN),
    ];
    emit_ops(code, &line)
}

fn emit_fault(
    code: &mut Items<Instr>,
    around: &EmitContext<'_>,
    kind: TemplateOp,
    fail: &FaultExit,
) -> Result<(), Failure> {
    let line = [
        kind,
        TemplateOp::I32(fail.place),
        TemplateOp::I32(fail.line),
        around.runtime(FAULT)?,
    ];
    emit_ops(code, &line)?;
    emit_raise(code, around, &fail.raised)
}

/// Emits a raise whose value, position and kind the globals have: it leaves the body at once where the block that it goes to does nothing
/// else.
pub fn emit_raise(
    code: &mut Items<Instr>,
    around: &EmitContext<'_>,
    raised: &Handler,
) -> Result<(), Failure> {
    if leaves(around.body, *raised) {
        return emit_ops(code, &[TemplateOp::I32(RAISED), TemplateOp::Do(RETURN)]);
    }
    let line = [
        TemplateOp::GetGlobal(EXCEPTION),
        TemplateOp::Set(around.local(raised.value)),
        TemplateOp::GetGlobal(EXCEPTION_PLACE),
        TemplateOp::Do(I64_EXTEND_I32_U),
        TemplateOp::Set(around.local(raised.place)),
        TemplateOp::GetGlobal(EXCEPTION_KIND),
        TemplateOp::Do(I64_EXTEND_I32_U),
        TemplateOp::Set(around.local(raised.kind)),
    ];
    emit_ops(code, &line)?;
    emit_jump(code, around, raised.block)
}

/// Emits a jump to a block: out of the labelled block before it, to the beginning of its loop, or by way of the dispatch.
///
/// # Errors
///
/// A `Failure`: `Broken` where the block isn't jumped to.
pub fn emit_jump(
    code: &mut Items<Instr>,
    around: &EmitContext<'_>,
    block: u32,
) -> Result<(), Failure> {
    match known(jump_to(around, block), Invariant::CfgNumber)? {
        Jump::Label(depth) => emit_ops(code, &[TemplateOp::Br(around.nesting.label(depth)?)]),
        Jump::Choice(number) => {
            let line = [
                TemplateOp::I32(number),
                TemplateOp::Set(around.block()),
                TemplateOp::Br(around.nesting.label(0)?),
            ];
            emit_ops(code, &line)
        }
    }
}

/// How a block is jumped to.
#[derive(Clone, Copy, Debug, PartialEq, Eq)]
pub enum Jump {
    /// To its label, at this nesting.
    Label(u32),
    /// By way of the dispatch, by its number there.
    Choice(u32),
}

/// How a block is jumped to, if it is.
pub fn jump_to(around: &EmitContext<'_>, block: u32) -> Option<Jump> {
    let place = block as usize;
    if let Some(number) = around.again.get(place).copied().flatten() {
        return Some(Jump::Choice(number));
    }
    around.labels.get(place).copied().flatten().map(Jump::Label)
}

/// The number by which the body continues in a block.
///
/// # Errors
///
/// `Broken` where it has none.
pub fn target_number(around: &EmitContext<'_>, block: u32) -> Result<u32, Failure> {
    let number = known(
        around.numbers.get(block as usize).copied(),
        Invariant::CfgNumber,
    )?;
    known(number, Invariant::CfgNumber)
}
