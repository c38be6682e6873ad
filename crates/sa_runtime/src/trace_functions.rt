//! The functions of a traced module that write trace records.

ghost use Rattle.std.specs.Prelude.{◌≡◌, length, IfOk};

use crate::layout::{PUT, RAISED, STARTED, STARTING_SITE, TRACED_SITE_AT};
use crate::signatures::{TRACES, TRACES_BY_NUMBER};
use crate::template_ops::TemplateOp::{Call, Do, Get, GetGlobal, I32, I64, Memory, SetGlobal};
use crate::template_ops::emit_ops;
use crate::trace::{TraceEvent, TraceFunctions};
use failure::Failure;
use sqlite_items::Items;
use std::alloc::Global;
use wa_syntax::opcode::{I32_EQ, I32_LOAD8_U, I32_STORE, I64_ADD, I64_STORE, SELECT};
use wa_syntax::{Func, Instr, Locals};

/// The first parameter of a function that reports an event of an instance: the frame in memory.
const FRAME: u32 = 0;

/// The second parameter: the number of the event, or the status.
const WHAT: u32 = 1;

/// The functions that write trace records, in the order of `TraceFunctions`.
pub(crate) fn event_functions(
    alloc: Global,
    tellers: TraceFunctions,
    slot_bytes: u32,
) -> Result<Items<Func>, Failure>
    ensures { IfOk result (λ funcs. length funcs ≡ 4) }
{
    let mut funcs = Items::new(alloc);
    funcs.push(byte_function(alloc)?)?;
    funcs.push(start_function(alloc, tellers, slot_bytes)?)?;
    funcs.push(event_function(alloc, slot_bytes)?)?;
    funcs.push(outcome_function(alloc, tellers)?)?;
    Ok(funcs)
}

/// The function that writes the record of a byte of the output.
fn byte_function(alloc: Global) -> Result<Func, Failure> {
    let mut body = Items::new(alloc);
    emit_ops(&mut body, &[I32(0), Call(PUT), Get(0), Call(PUT)])?;
    Ok(Func {
        ty: TRACES,
        locals: Locals::new(alloc),
        body,
    })
}

/// The function that makes a frame in memory that of a new instance, and writes the record of its start.
fn start_function(
    alloc: Global,
    tellers: TraceFunctions,
    slot_bytes: u32,
) -> Result<Func, Failure> {
    let mut body = Items::new(alloc);
    emit_identity(&mut body, slot_bytes)?;
    let line = [
        Get(FRAME),
        I32(TraceEvent::Start.number()),
        Call(tellers.event),
    ];
    emit_ops(&mut body, &line)?;
    Ok(Func {
        ty: TRACES,
        locals: Locals::new(alloc),
        body,
    })
}

/// Appends what stores the site and the number of a new instance in its frame, which has so many bytes.
fn emit_identity(to: &mut Items<Instr>, slot_bytes: u32) -> Result<(), Failure> {
    let line = [
        Get(FRAME),
        GetGlobal(STARTING_SITE),
        Memory(I32_STORE, TRACED_SITE_AT),
        Get(FRAME),
        GetGlobal(STARTED),
        Memory(I64_STORE, number_at(slot_bytes)),
        GetGlobal(STARTED),
        I64(1),
        Do(I64_ADD),
        SetGlobal(STARTED),
    ];
    emit_ops(to, &line)
}

/// The offset of the word with the number of the instance in a frame of so many bytes: the last one.
fn number_at(slot_bytes: u32) -> u32 {
    slot_bytes.saturating_sub(8)
}

/// The function that writes the record of an event. Memory is little-endian too, so the bytes are in their order.
fn event_function(alloc: Global, slot_bytes: u32) -> Result<Func, Failure> {
    let mut body = Items::new(alloc);
    emit_ops(&mut body, &[I32(1), Call(PUT), Get(WHAT), Call(PUT)])?;
    emit_bytes(&mut body, TRACED_SITE_AT, 4)?;
    emit_bytes(&mut body, number_at(slot_bytes), 8)?;
    Ok(Func {
        ty: TRACES_BY_NUMBER,
        locals: Locals::new(alloc),
        body,
    })
}

/// Appends what writes so many bytes of the frame in memory to the output.
fn emit_bytes(to: &mut Items<Instr>, first: u32, count: u32) -> Result<(), Failure> {
    for place in 0..count {
        let at = first.saturating_add(place);
        emit_ops(to, &[Get(FRAME), Memory(I32_LOAD8_U, at), Call(PUT)])?;
    }
    Ok(())
}

/// The function that writes the record of the event by which a body was left: a raise has abandoned the instance, and the other statuses of
/// an iter's body, `SUSPENDED` and `ENDED`, are the numbers of their events.
fn outcome_function(alloc: Global, tellers: TraceFunctions) -> Result<Func, Failure> {
    let mut body = Items::new(alloc);
    let line = [
        Get(FRAME),
        I32(TraceEvent::Abandon.number()),
        Get(WHAT),
        Get(WHAT),
        I32(RAISED),
        Do(I32_EQ),
        Do(SELECT),
        Call(tellers.event),
    ];
    emit_ops(&mut body, &line)?;
    Ok(Func {
        ty: TRACES_BY_NUMBER,
        locals: Locals::new(alloc),
        body,
    })
}
