//! `BOUND_CALL`: the call of a bound value. The words of its bind say what it calls, so the function is the same in each program.

use crate::bound_features::emit_features;
use crate::bound_locals::{BEHIND_BOUND, DEPTH, ENTRY, FRAME, INDEX, KIND, OBJECT, SELF, STATUS};
use crate::fault_numbers::{TOO_DEEP, TOO_MANY_FRAMES};
use crate::layout::{
    BODY_TYPE, COUNT_AT, END_FRAME, FAULT_KIND, FIRST_ARGUMENT_AT, FORWARDED, FRAME_OUT, HALF_BITS,
    KIND_AT, LOW_HALF, MADE, NEW_FRAME, NUMBER_AT, RETURNED, ROUTINE, SUSPENDED,
};
use crate::operations::{LOAD_COUNT, TO_ADDRESS};
use crate::signatures::CALLS_BOUND;
use crate::spread::{GATHER, SPREAD};
use crate::template_ops::TemplateOp::{
    Br, Call, CallIndirect, Do, Get, I32, I64, Memory, Set, SetGlobal, Tee,
};
use crate::templates::Template::{self, Block, EmitEvent, EmitOutcome, If, IfElse, Line, Sequence};
use crate::templates::{emit_templates, instructions, locals};
use crate::trace::{TraceEvent, Tracing};
use failure::Failure;
use std::alloc::Global;
use wa_syntax::Func;
use wa_syntax::opcode::{
    I32_ADD, I32_EQ, I32_EQZ, I32_LE_U, I32_LOAD, I32_LT_U, I32_NE, I32_SUB, I64_AND, I64_LOAD,
    I64_SHR_U, RETURN,
};

/// The offset of the receiver in a bound value, in bytes.
const RECEIVER_AT: u32 = 8;

/// Reads the words of the bind and the receiver.
const READ_BIND: Template = Sequence(&[
    Line(&[Get(OBJECT), LOAD_COUNT, Tee(ENTRY)]),
    Line(&[Memory(I32_LOAD, KIND_AT), Set(KIND)]),
    Line(&[Get(ENTRY), Memory(I32_LOAD, NUMBER_AT), Set(INDEX)]),
    Line(&[Get(OBJECT), Memory(I64_LOAD, RECEIVER_AT), Set(SELF)]),
]);

/// Where the receiver's class chose what is called, takes its index in the table from the half word above the receiver's address. The forms
/// of what was chosen are in the same order as those of what is called by its index.
const READ_CHOSEN: Template = Sequence(&[
    Line(&[Get(KIND), I32(ROUTINE), Do(I32_LT_U)]),
    If(&[
        Line(&[Get(SELF), I64(HALF_BITS), Do(I64_SHR_U)]),
        Line(&[TO_ADDRESS, Set(INDEX)]),
        Line(&[Get(SELF), I64(LOW_HALF), Do(I64_AND), Set(SELF)]),
        Line(&[Get(KIND), I32(ROUTINE), Do(I32_ADD), Set(KIND)]),
    ]),
]);

/// Forwards the fault of an activation that would nest too deep.
const DEPTH_TEST: Template = Sequence(&[
    Line(&[Get(DEPTH), Do(I32_EQZ)]),
    If(&[
        Line(&[I32(TOO_DEEP), SetGlobal(FAULT_KIND)]),
        Line(&[I32(FORWARDED), Do(RETURN)]),
    ]),
]);

/// One activation more.
const DEEPER: Template = Line(&[Get(DEPTH), I32(1), Do(I32_SUB), Set(DEPTH)]);

/// `self`, how much deeper activations may nest, the frame, and the index in the table: the operands after the arguments.
const BEHIND_ARGUMENTS: Template = Line(&[Get(SELF), Get(DEPTH), Get(FRAME), Get(INDEX)]);

/// The number of arguments of what is called.
const COUNT: Template = Line(&[Get(ENTRY), Memory(I32_LOAD, COUNT_AT)]);

/// Reads the first argument, and those after it.
const FIRST: Template = Line(&[I32(0), Memory(I64_LOAD, FIRST_ARGUMENT_AT)]);

const SECOND: Template = Line(&[I32(0), Memory(I64_LOAD, FIRST_ARGUMENT_AT + 8)]);

const THIRD: Template = Line(&[I32(0), Memory(I64_LOAD, FIRST_ARGUMENT_AT + 16)]);

const FOURTH: Template = Line(&[I32(0), Memory(I64_LOAD, FIRST_ARGUMENT_AT + 24)]);

/// Calls a body through the table, with as many of its arguments as are parameters.
const CALL: Template = Block(&[
    COUNT,
    Line(&[Do(I32_EQZ)]),
    If(&[
        BEHIND_ARGUMENTS,
        Line(&[CallIndirect(BODY_TYPE), Set(STATUS), Br(1)]),
    ]),
    COUNT,
    Line(&[I32(1), Do(I32_EQ)]),
    If(&[
        FIRST,
        BEHIND_ARGUMENTS,
        Line(&[CallIndirect(BODY_TYPE + 1), Set(STATUS), Br(1)]),
    ]),
    COUNT,
    Line(&[I32(2), Do(I32_EQ)]),
    If(&[
        FIRST,
        SECOND,
        BEHIND_ARGUMENTS,
        Line(&[CallIndirect(BODY_TYPE + 2), Set(STATUS), Br(1)]),
    ]),
    COUNT,
    Line(&[I32(3), Do(I32_EQ)]),
    If(&[
        FIRST,
        SECOND,
        THIRD,
        BEHIND_ARGUMENTS,
        Line(&[CallIndirect(BODY_TYPE + 3), Set(STATUS), Br(1)]),
    ]),
    FIRST,
    SECOND,
    THIRD,
    FOURTH,
    BEHIND_ARGUMENTS,
    Line(&[CallIndirect(BODY_TYPE + 4), Set(STATUS)]),
]);

/// Calls a routine, where that is the form.
const CALL_ROUTINE: Template = Sequence(&[
    Line(&[Get(KIND), I32(ROUTINE), Do(I32_EQ)]),
    If(&[DEPTH_TEST, DEEPER, CALL, Line(&[Br(1)])]),
]);

/// Calls an adapter, where that is the form. It is no activation: it tests the depth itself where it enters one, and allocates and frees
/// the frame.
const CALL_MADE: Template = Sequence(&[
    Line(&[Get(KIND), I32(MADE), Do(I32_EQ)]),
    If(&[CALL, Line(&[Br(1)])]),
]);

/// Allocates a frame for an iter that begins, or forwards the fault that none is free. Where there is a frame already, the iter is resumed.
const TAKE_FRAME: Template = Sequence(&[
    Line(&[Get(FRAME), Do(I32_EQZ)]),
    IfElse(
        &[
            Line(&[Call(NEW_FRAME), Tee(FRAME), Do(I32_EQZ)]),
            If(&[
                Line(&[I32(TOO_MANY_FRAMES), SetGlobal(FAULT_KIND)]),
                Line(&[I32(FORWARDED), Do(RETURN)]),
            ]),
            EmitEvent(FRAME, TraceEvent::Start),
        ],
        &[EmitEvent(FRAME, TraceEvent::Resume)],
    ),
]);

/// Calls an iter, or resumes it. Its frame is freed where it isn't suspended, and nothing is copied out then.
const CALL_ITER: Template = Sequence(&[
    DEPTH_TEST,
    TAKE_FRAME,
    DEEPER,
    CALL,
    EmitOutcome(FRAME, STATUS),
    Line(&[Get(STATUS), I32(SUSPENDED), Do(I32_NE)]),
    If(&[Line(&[Get(FRAME), Call(END_FRAME), Get(STATUS), Do(RETURN)])]),
    Line(&[Get(FRAME), SetGlobal(FRAME_OUT)]),
]);

/// Calls a body and returns its status, where that is the form. Nobody reads the arguments after a raise, so they may be put back then too.
const CALL_BODY: Template = Sequence(&[
    Line(&[Get(KIND), I32(MADE), Do(I32_LE_U)]),
    If(&[
        Block(&[CALL_ROUTINE, CALL_MADE, CALL_ITER]),
        GATHER,
        Line(&[Get(STATUS), Do(RETURN)]),
    ]),
]);

/// Forwards the fault of a feature without a body, where its status isn't 0.
const ANSWER_STATUS: Template = Sequence(&[
    Line(&[Get(STATUS)]),
    If(&[
        Line(&[Get(STATUS), SetGlobal(FAULT_KIND)]),
        Line(&[I32(FORWARDED), Do(RETURN)]),
    ]),
    Line(&[I32(RETURNED)]),
]);

/// `BOUND_CALL`, of the depth of the calling activation, the frame to resume or 0, and the bound value. It returns the status of a body;
/// the faults of features without one are forwarded, and so are those of the depth and of the frames.
pub(crate) fn bound_call(alloc: Global, tracing: Tracing) -> Result<Func, Failure> {
    let mut body = instructions(alloc, &[READ_BIND, READ_CHOSEN, SPREAD, CALL_BODY], tracing)?;
    emit_features(alloc, tracing, &mut body)?;
    emit_templates(alloc, &[ANSWER_STATUS], tracing, &mut body)?;
    Ok(Func {
        ty: CALLS_BOUND,
        locals: locals(alloc, BEHIND_BOUND)?,
        body,
    })
}
