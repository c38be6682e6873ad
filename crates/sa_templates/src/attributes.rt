//! Attributes and shareds.

use crate::area::{emit_result, emit_store};
use crate::builtins::argument;
use crate::context::EmitContext;
use crate::failing::{emit_fail_if, emit_void_test};
use failure::{Failure, Invariant, known};
use sa_ast::ClassKind;
use sa_cfg::CallOperation;
use sa_runtime::layout::{CHANGED, SHAREDS_AT, attribute_at};
use sa_runtime::template_ops::{TemplateOp, emit_ops};
use sqlite_items::Items;
use std::alloc::Global;
use wa_syntax::opcode::{I32_WRAP_I64, I64_EQZ, I64_LOAD, I64_STORE};
use wa_syntax::{Instr, ValTy};

/// The value of an attribute by its index.
pub fn emit_get(
    alloc: Global,
    code: &mut Items<Instr>,
    around: &EmitContext<'_>,
    plan: &CallOperation,
    place: u32,
) -> Result<(), Failure> {
    if is_immutable(around, plan.class)? {
        return emit_get_of_value(alloc, code, around, plan, place);
    }
    emit_void_test(alloc, code, around, plan.recv, &plan.fail)?;
    emit_read(code, around, plan, place)?;
    emit_ops(code, &[around.put(plan.value)])
}

/// The attribute of an immutable value: void where all its attributes are.
fn emit_get_of_value(
    alloc: Global,
    code: &mut Items<Instr>,
    around: &EmitContext<'_>,
    plan: &CallOperation,
    place: u32,
) -> Result<(), Failure> {
    let inner = around.further_in()?;
    let mut void = Items::new(alloc);
    emit_ops(&mut void, &[TemplateOp::I64(0)])?;
    let mut read = Items::new(alloc);
    emit_read(&mut read, &inner, plan, place)?;
    emit_ops(
        code,
        &[around.first_operand(plan.recv), TemplateOp::Do(I64_EQZ)],
    )?;
    code.push(Instr::if_of(alloc, Some(ValTy::I64), void, read)?)?;
    emit_ops(code, &[around.put(plan.value)])
}

/// Emits the load of the attribute of an object, as an operand.
fn emit_read(
    code: &mut Items<Instr>,
    around: &EmitContext<'_>,
    plan: &CallOperation,
    place: u32,
) -> Result<(), Failure> {
    let line = [
        around.same_operand(plan.recv),
        TemplateOp::Do(I32_WRAP_I64),
        TemplateOp::Memory(I64_LOAD, attribute_at(place)),
    ];
    emit_ops(code, &line)
}

/// Writes an attribute by its index.
pub fn emit_set(
    alloc: Global,
    code: &mut Items<Instr>,
    around: &EmitContext<'_>,
    plan: &CallOperation,
    place: u32,
) -> Result<(), Failure> {
    if is_immutable(around, plan.class)? {
        return emit_set_of_value(alloc, code, around, plan, place);
    }
    let value = argument(around, plan, 0)?;
    emit_void_test(alloc, code, around, plan.recv, &plan.fail)?;
    let line = [
        around.operand(plan.recv),
        TemplateOp::Do(I32_WRAP_I64),
        value,
        TemplateOp::Memory(I64_STORE, attribute_at(place)),
    ];
    emit_ops(code, &line)
}

/// The copy of an immutable value with another attribute.
fn emit_set_of_value(
    alloc: Global,
    code: &mut Items<Instr>,
    around: &EmitContext<'_>,
    plan: &CallOperation,
    place: u32,
) -> Result<(), Failure> {
    let attributes = around.attributes(plan.class)?;
    let value = argument(around, plan, 0)?;
    let line = [
        around.operand(plan.recv),
        value,
        TemplateOp::I32(plan.class),
        TemplateOp::I32(attributes),
        TemplateOp::I32(attribute_at(place)),
        around.runtime(CHANGED)?,
        TemplateOp::Tee(around.status()),
    ];
    emit_ops(code, &line)?;
    emit_fail_if(
        alloc,
        code,
        around,
        TemplateOp::Get(around.status()),
        &plan.fail,
    )?;
    emit_result(code, around, plan.value)
}

/// The value of a shared.
pub fn emit_get_shared(
    code: &mut Items<Instr>,
    around: &EmitContext<'_>,
    plan: &CallOperation,
    shared: u32,
) -> Result<(), Failure> {
    let line = [
        TemplateOp::I32(0),
        TemplateOp::Memory(I64_LOAD, shared_at(shared)?),
        around.put(plan.value),
    ];
    emit_ops(code, &line)
}

/// Writes a shared.
pub fn emit_set_shared(
    code: &mut Items<Instr>,
    around: &EmitContext<'_>,
    plan: &CallOperation,
    shared: u32,
) -> Result<(), Failure> {
    emit_store(code, shared_at(shared)?, argument(around, plan, 0)?)
}

/// The first value of a shared.
pub fn emit_init_shared(
    code: &mut Items<Instr>,
    around: &EmitContext<'_>,
    shared: u32,
    from: u32,
) -> Result<(), Failure> {
    emit_store(code, shared_at(shared)?, around.operand(from))
}

/// The address of a shared.
pub fn shared_at(shared: u32) -> Result<u32, Failure> {
    let bytes = known(shared.checked_mul(8), Invariant::CfgNumber)?;
    known(bytes.checked_add(SHAREDS_AT), Invariant::CfgNumber)
}

/// Whether a type is of an immutable class.
pub fn is_immutable(around: &EmitContext<'_>, ty: u32) -> Result<bool, Failure> {
    let layout = known(
        around.program.flat.layouts.get(ty as usize),
        Invariant::CfgNumber,
    )?;
    Ok(matches!(layout.kind, ClassKind::Immutable))
}
