//! Operations that make objects, and those that box and unbox immutable values.

use crate::area::emit_result;
use crate::builtins::CREATE;
use crate::conditionals::emit_if_else;
use crate::context::{EmitContext, Role};
use crate::failing::emit_fail_if;
use crate::operand_source::OperandSource;
use failure::Failure;
use sa_cfg::FaultExit;
use sa_runtime::fault_numbers::NO_ROOM;
use sa_runtime::layout::{
    ALLOCATE, BOOL, BOX_IMMUTABLE, BOX_WORD, BOXED_HALF, CHAR, HALF_BITS, INT, LOW_HALF, OBJECT,
    UNBOX, attribute_at, first_element_at, header,
};
use sa_runtime::template_ops::{TemplateOp, emit_ops};
use sqlite_items::Items;
use std::alloc::Global;
use wa_syntax::Instr;
use wa_syntax::opcode::{
    DROP, I32_EQZ, I32_WRAP_I64, I64_ADD, I64_AND, I64_EQ, I64_EXTEND_I32_U, I64_LOAD, I64_SHL,
    I64_SHR_U, I64_STORE,
};

/// A new object with an array part: the variable that gets it, its type, and the variable with the number of elements.
#[derive(Clone, Copy, Debug, PartialEq, Eq)]
pub struct NewArray {
    pub to: u32,
    pub ty: u32,
    pub count: u32,
}

/// A value of the immutable class `ty` that is boxed: the variable that gets it, and the one that has it.
#[derive(Clone, Copy, Debug, PartialEq, Eq)]
pub struct Boxing {
    pub to: u32,
    pub from: u32,
    pub ty: u32,
}

/// A new object.
pub fn emit_new(
    alloc: Global,
    code: &mut Items<Instr>,
    around: &EmitContext<'_>,
    to: u32,
    ty: u32,
    fail: &FaultExit,
) -> Result<(), Failure> {
    let size = attribute_at(around.attributes(ty)?);
    let line = [
        TemplateOp::I64(header(ty, OBJECT, 0)),
        TemplateOp::I64(u64::from(size)),
        around.runtime(ALLOCATE)?,
        TemplateOp::Tee(around.address()),
        TemplateOp::Do(I32_EQZ),
    ];
    emit_ops(code, &line)?;
    emit_fail_if(alloc, code, around, TemplateOp::I32(NO_ROOM), fail)?;
    let line = [
        TemplateOp::Get(around.address()),
        TemplateOp::Do(I64_EXTEND_I32_U),
        around.put(Some(to)),
    ];
    emit_ops(code, &line)
}

/// A new object with an array part.
pub fn emit_new_array(
    alloc: Global,
    code: &mut Items<Instr>,
    around: &EmitContext<'_>,
    array: NewArray,
    fail: &FaultExit,
) -> Result<(), Failure> {
    let first = first_element_at(around.attributes(array.ty)?);
    let line = [
        TemplateOp::I64(0),
        around.operand(array.count),
        TemplateOp::I32(array.ty),
        TemplateOp::I32(first),
        around.runtime(CREATE)?,
        TemplateOp::Tee(around.status()),
    ];
    emit_ops(code, &line)?;
    emit_fail_if(alloc, code, around, TemplateOp::Get(around.status()), fail)?;
    emit_result(code, around, Some(array.to))
}

/// An element of an array literal, whose index is in range.
pub fn emit_set_element(
    code: &mut Items<Instr>,
    around: &EmitContext<'_>,
    array: u32,
    ty: u32,
    at: u32,
    value: u32,
) -> Result<(), Failure> {
    let first = first_element_at(around.attributes(ty)?);
    let offset = match around.reading(at) {
        OperandSource::Word(place) => constant_offset(first, place),
        _ => None,
    };
    match offset {
        Some(_) => emit_ops(code, &[around.operand(array), TemplateOp::Do(I32_WRAP_I64)])?,
        None => emit_element(code, around.operand(array), around.operand(at))?,
    }
    let offset = offset.unwrap_or(first);
    emit_ops(
        code,
        &[around.operand(value), TemplateOp::Memory(I64_STORE, offset)],
    )
}

/// The offset of an element in its object, by its index and the offset of the first one, if it fits 32 bits.
fn constant_offset(first: u32, place: u64) -> Option<u32> {
    let bytes = place.checked_mul(8)?.checked_add(u64::from(first))?;
    u32::try_from(bytes).ok()
}

/// Emits the address of an element of an object less the offset of the first one, as an operand. `object` and `place` read the object and
/// the index.
pub(crate) fn emit_element(
    code: &mut Items<Instr>,
    object: TemplateOp,
    place: TemplateOp,
) -> Result<(), Failure> {
    let line = [
        object,
        place,
        TemplateOp::I64(3),
        TemplateOp::Do(I64_SHL),
        TemplateOp::Do(I64_ADD),
        TemplateOp::Do(I32_WRAP_I64),
    ];
    emit_ops(code, &line)
}

/// An immutable value at an abstract type. An argument of an adapter may be one that a bind has boxed, and is marked so.
pub fn emit_box(
    alloc: Global,
    code: &mut Items<Instr>,
    around: &EmitContext<'_>,
    widening: Boxing,
    fail: &FaultExit,
) -> Result<(), Failure> {
    if !may_be_marked(around, widening.from) {
        return emit_boxing(alloc, code, around, widening, fail);
    }
    let inner = around.further_in()?;
    let mut marked = Items::new(alloc);
    emit_unmark(&mut marked, &inner, widening)?;
    let mut unmarked = Items::new(alloc);
    emit_boxing(alloc, &mut unmarked, &inner, widening, fail)?;
    emit_is_marked(code, around, widening.from)?;
    emit_if_else(alloc, code, marked, unmarked)
}

/// Emits the test whether a value is one that a bind has boxed, as an operand.
fn emit_is_marked(
    code: &mut Items<Instr>,
    around: &EmitContext<'_>,
    from: u32,
) -> Result<(), Failure> {
    let line = [
        around.operand(from),
        TemplateOp::I64(HALF_BITS),
        TemplateOp::Do(I64_SHR_U),
        TemplateOp::I64(BOXED_HALF),
        TemplateOp::Do(I64_EQ),
    ];
    emit_ops(code, &line)
}

/// Emits the code that takes the mark off a value that a bind has boxed.
fn emit_unmark(
    code: &mut Items<Instr>,
    around: &EmitContext<'_>,
    widening: Boxing,
) -> Result<(), Failure> {
    let line = [
        around.operand(widening.from),
        TemplateOp::I64(LOW_HALF),
        TemplateOp::Do(I64_AND),
        TemplateOp::Set(around.local(widening.to)),
    ];
    emit_ops(code, &line)
}

/// Whether the value of a variable may be one that a bind has boxed.
fn may_be_marked(around: &EmitContext<'_>, var: u32) -> bool {
    match around.role {
        Role::Adapter => (var as usize) < around.body.formals.len(),
        Role::Feature => false,
        Role::Entry => false,
    }
}

/// Emits the code that boxes a value.
fn emit_boxing(
    alloc: Global,
    code: &mut Items<Instr>,
    around: &EmitContext<'_>,
    widening: Boxing,
    fail: &FaultExit,
) -> Result<(), Failure> {
    emit_boxed(code, around, widening.from, widening.ty)?;
    emit_fail_if(alloc, code, around, TemplateOp::Get(around.status()), fail)?;
    emit_result(code, around, Some(widening.to))
}

/// Emits the call that boxes, which leaves its status in the local and as an operand.
pub fn emit_boxed(
    code: &mut Items<Instr>,
    around: &EmitContext<'_>,
    from: u32,
    ty: u32,
) -> Result<(), Failure> {
    if is_one_word(ty) {
        let line = [
            around.operand(from),
            TemplateOp::I32(ty),
            around.runtime(BOX_WORD)?,
            TemplateOp::Tee(around.status()),
        ];
        return emit_ops(code, &line);
    }
    let attributes = around.attributes(ty)?;
    let line = [
        around.operand(from),
        TemplateOp::I32(ty),
        TemplateOp::I32(attributes),
        around.runtime(BOX_IMMUTABLE)?,
        TemplateOp::Tee(around.status()),
    ];
    emit_ops(code, &line)
}

/// A boxed value at its own class.
pub fn emit_unbox(
    code: &mut Items<Instr>,
    around: &EmitContext<'_>,
    to: u32,
    from: u32,
    ty: u32,
) -> Result<(), Failure> {
    if is_one_word(ty) {
        return emit_unboxed(code, around, to, from);
    }
    let attributes = around.attributes(ty)?;
    if attributes == 0 {
        return emit_void(code, around, to, from);
    }
    let line = [
        around.operand(from),
        TemplateOp::I32(attributes),
        around.runtime(UNBOX)?,
        around.put(Some(to)),
    ];
    emit_ops(code, &line)
}

/// Emits the void value of a class without attributes in place of the boxed one.
fn emit_void(
    code: &mut Items<Instr>,
    around: &EmitContext<'_>,
    to: u32,
    from: u32,
) -> Result<(), Failure> {
    if around.is_operand(from) {
        emit_ops(code, &[TemplateOp::Do(DROP)])?;
    }
    emit_ops(code, &[TemplateOp::I64(0), around.put(Some(to))])
}

/// Emits the load of the word of a boxed `INT`, `BOOL` or `CHAR`.
fn emit_unboxed(
    code: &mut Items<Instr>,
    around: &EmitContext<'_>,
    to: u32,
    from: u32,
) -> Result<(), Failure> {
    let line = [
        around.operand(from),
        TemplateOp::Do(I32_WRAP_I64),
        TemplateOp::Memory(I64_LOAD, attribute_at(0)),
        around.put(Some(to)),
    ];
    emit_ops(code, &line)
}

/// Whether values of the type are one word that is no address.
fn is_one_word(ty: u32) -> bool {
    ty == BOOL || ty == INT || ty == CHAR
}
