//! Calls of bound values whose features have no body: attributes, shareds and built-in features. Each does what a call of the
//! feature itself does.

use crate::bound_locals::{ENTRY, INDEX, KIND, SELF, STATUS};
use crate::builtins::BUILTINS;
use crate::fault_numbers::VOID;
use crate::layout::{
    CHANGED, FAULT_KIND, FIRST_ARGUMENT_AT, FIRST_AT, FIRST_BOUND_BUILTIN, FIRST_BUILTIN,
    FORWARDED, GET_OF_OBJECT, GET_OF_VALUE, GET_SHARED, RESULT, RETURNED, SET_OF_OBJECT,
    SET_OF_VALUE, SET_SHARED, TYPE_AT,
};
use crate::operations::TO_ADDRESS;
use crate::template_ops::TemplateOp::{self, Br, Call, Do, Get, I32, I64, Memory, Set, SetGlobal};
use crate::template_ops::emit_ops;
use crate::templates::Template::{self, If, Line, Sequence};
use crate::templates::{emit_templates, instructions};
use crate::trace::Tracing;
use failure::{Failure, Invariant};
use sqlite_items::Items;
use std::alloc::Global;
use wa_syntax::Instr;
use wa_syntax::opcode::{
    I32_ADD, I32_EQ, I32_LOAD, I64_EQZ, I64_LOAD, I64_NE, I64_STORE, RETURN, UNREACHABLE,
};

/// The first argument, as an operand.
const FIRST_ARGUMENT: Template = Line(&[I32(0), Memory(I64_LOAD, FIRST_ARGUMENT_AT)]);

/// The second argument, as an operand.
const SECOND_ARGUMENT: Template = Line(&[I32(0), Memory(I64_LOAD, FIRST_ARGUMENT_AT + 8)]);

/// The number of the class, as an operand.
const CLASS: Template = Line(&[Get(ENTRY), Memory(I32_LOAD, TYPE_AT)]);

/// The offset of the elements of an array, or the number of attributes, as an operand.
const FIRST: Template = Line(&[Get(ENTRY), Memory(I32_LOAD, FIRST_AT)]);

/// The address of the attribute of `self`, as an operand.
const ATTRIBUTE: Template = Line(&[Get(SELF), TO_ADDRESS, Get(INDEX), Do(I32_ADD)]);

/// Reads the attribute.
const READ_ATTRIBUTE: Template = Sequence(&[
    ATTRIBUTE,
    Line(&[Memory(I64_LOAD, 0), SetGlobal(RESULT)]),
]);

/// Returns with the status of a body that has returned.
const RETURN_DONE: Template = Line(&[I32(RETURNED), Do(RETURN)]);

/// Forwards the fault of a void `self`.
const VOID_TEST: Template = Sequence(&[
    Line(&[Get(SELF), Do(I64_EQZ)]),
    If(&[
        Line(&[I32(VOID), SetGlobal(FAULT_KIND)]),
        Line(&[I32(FORWARDED), Do(RETURN)]),
    ]),
]);

/// Reads an attribute of an object.
const READ_OF_OBJECT: Template = Sequence(&[
    Line(&[Get(KIND), I32(GET_OF_OBJECT), Do(I32_EQ)]),
    If(&[VOID_TEST, READ_ATTRIBUTE, RETURN_DONE]),
]);

/// Reads an attribute of an immutable value: it is void where the value is.
const READ_OF_VALUE: Template = Sequence(&[
    Line(&[Get(KIND), I32(GET_OF_VALUE), Do(I32_EQ)]),
    If(&[
        Line(&[I64(0), SetGlobal(RESULT)]),
        Line(&[Get(SELF), I64(0), Do(I64_NE)]),
        If(&[READ_ATTRIBUTE]),
        RETURN_DONE,
    ]),
]);

/// Writes an attribute of an object.
const WRITE_OF_OBJECT: Template = Sequence(&[
    Line(&[Get(KIND), I32(SET_OF_OBJECT), Do(I32_EQ)]),
    If(&[
        VOID_TEST,
        ATTRIBUTE,
        FIRST_ARGUMENT,
        Line(&[Memory(I64_STORE, 0)]),
        RETURN_DONE,
    ]),
]);

/// Makes a copy of an immutable value with another attribute, and leaves the block with its status.
const WRITE_OF_VALUE: Template = Sequence(&[
    Line(&[Get(KIND), I32(SET_OF_VALUE), Do(I32_EQ)]),
    If(&[
        Line(&[Get(SELF)]),
        FIRST_ARGUMENT,
        CLASS,
        FIRST,
        Line(&[Get(INDEX), Call(CHANGED), Set(STATUS), Br(1)]),
    ]),
]);

/// Reads a shared.
const READ_SHARED: Template = Sequence(&[
    Line(&[Get(KIND), I32(GET_SHARED), Do(I32_EQ)]),
    If(&[
        Line(&[Get(INDEX), Memory(I64_LOAD, 0), SetGlobal(RESULT)]),
        RETURN_DONE,
    ]),
]);

/// Writes a shared.
const WRITE_SHARED: Template = Sequence(&[
    Line(&[Get(KIND), I32(SET_SHARED), Do(I32_EQ)]),
    If(&[
        Line(&[Get(INDEX)]),
        FIRST_ARGUMENT,
        Line(&[Memory(I64_STORE, 0)]),
        RETURN_DONE,
    ]),
]);

/// The features that aren't built in.
const ATTRIBUTES_AND_SHAREDS: &[Template] = &[
    READ_OF_OBJECT,
    READ_OF_VALUE,
    WRITE_OF_OBJECT,
    WRITE_OF_VALUE,
    READ_SHARED,
    WRITE_SHARED,
];

/// What a built-in feature takes after `self`, by the number of its type.
const OPERANDS: [&[Template]; 6] = [
    &[],
    &[FIRST_ARGUMENT],
    &[FIRST_ARGUMENT, SECOND_ARGUMENT],
    &[FIRST_ARGUMENT, FIRST],
    &[FIRST_ARGUMENT, SECOND_ARGUMENT, FIRST],
    &[FIRST_ARGUMENT, CLASS, FIRST],
];

/// Emits a block that calls the feature. After it the status is 0 or the number of a fault; features that end otherwise return at once.
pub(crate) fn emit_features(
    alloc: Global,
    tracing: Tracing,
    to: &mut Items<Instr>,
) -> Result<(), Failure> {
    let mut tests = instructions(alloc, ATTRIBUTES_AND_SHAREDS, tracing)?;
    for (number, function) in BUILTINS.iter().enumerate() {
        emit_builtin(alloc, tracing, &mut tests, number as u32, function.0)?;
    }
    emit_ops(&mut tests, &[Do(UNREACHABLE)])?;
    to.push(Instr::block_of(alloc, None, tests)?)?;
    Ok(())
}

/// Emits the call of the built-in feature with this number, where that is the form. It leaves the block with the status.
fn emit_builtin(
    alloc: Global,
    tracing: Tracing,
    to: &mut Items<Instr>,
    number: u32,
    ty: u32,
) -> Result<(), Failure> {
    let mut called = Items::new(alloc);
    emit_ops(&mut called, &[Get(SELF)])?;
    emit_templates(alloc, operands(ty)?, tracing, &mut called)?;
    let function = FIRST_BUILTIN.saturating_add(number);
    emit_ops(&mut called, &[Call(function), Set(STATUS), Br(1)])?;
    let kind = FIRST_BOUND_BUILTIN.saturating_add(number);
    emit_ops(to, &[Get(KIND), I32(kind), Do(I32_EQ)])?;
    to.push(Instr::if_of(alloc, None, called, Items::new(alloc))?)?;
    Ok(())
}

/// What a built-in feature of the type with this number takes after `self`.
fn operands(ty: u32) -> Result<&'static [Template], Failure> {
    match OPERANDS.get(ty as usize) {
        Some(parts) => Ok(parts),
        None => Err(no_such_type()),
    }
}

/// The error for a type that no built-in feature has.
fn no_such_type() -> Failure {
    Failure::Broken(Invariant::TableIndex)
}
