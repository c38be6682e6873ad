//! Expressions (section 5.4.6) and the instructions that hold others (section 5.4.1).

ghost use Rattle.std.specs.Prelude.{◌<◌, ◌≤◌, ◌↔◌, length, IfOk, IsTrue};
ghost use Rattle.wa_syntax.specs.BinaryInstructions.{expr, instr};
ghost use Rattle.wa_syntax.specs.Formats.{each};
ghost use Rattle.wa_decode.specs.Places.{EndsIn, ReachesIn};
ghost use Rattle.wa_decode.specs.Reading.{Reads, ReadsUpTo, Stops, alternative, following};

use crate::fault::DecodeFault;
use crate::instruction::simple;
use crate::production::Decoded;
use crate::types::block_type;
use crate::value::{byte, expect};
use sqlite_items::Items;
use std::alloc::Global;
use wa_syntax::Instr;
use wa_syntax::opcode::{BLOCK, ELSE, END, IF, LOOP};

/// The most blocks that may be open at a point of a function.
const MAX_NESTING: u32 = 1000;

/// The instructions of a function, and their end (5.4.6).
pub fn expression(alloc: Global, bytes: &[u8], at: u32) -> Decoded<Items<Instr>>
    requires size { length bytes.now < u32.MAX }
    requires place { at ≤ length bytes.now }
    ensures reads { Reads expr bytes.now at result }
    ensures ends { IfOk result (λ read. EndsIn bytes.now at read.1) }
{
    let (body, at) = sequence(alloc, bytes, at, MAX_NESTING)?;
    let end = expect(bytes, at, END)?;
    Ok((body, end))
}

/// Whether a sequence of instructions stops at a position: at an `end` or an `else`.
fn stops(bytes: &[u8], at: u32) -> bool
    ensures within { IsTrue result → at < length bytes.now }
    ensures stops { IsTrue result ↔ Stops bytes.now at }
{
    matches!(bytes.get(at as usize), Some(&(END | ELSE)))
}

/// Instructions up to an `end` or an `else` that is none of theirs. Up to `levels` blocks may be open among them.
#[cycle(instructions)]
fn sequence(alloc: Global, bytes: &[u8], at: u32, levels: u32) -> Decoded<Items<Instr>>
    requires size { length bytes.now < u32.MAX }
    requires place { at ≤ length bytes.now }
    ensures reads { ReadsUpTo (instr levels) bytes.now at result }
    ensures reaches { IfOk result (λ read. ReachesIn bytes.now at read.1) }
{
    let mut instrs = Vec::new(alloc);
    let mut at = at;
    while !stops(bytes, at) {
        let (instr, next) = instruction(alloc, bytes, at, levels)?;
        instrs.push(instr)?;
        at = next;
    }
    instrs.shrink_to_fit();
    Ok((Items::from_vec(instrs), at))
}

/// An instruction (5.4).
#[cycle(instructions)]
fn instruction(alloc: Global, bytes: &[u8], at: u32, levels: u32) -> Decoded<Instr>
    requires { length bytes.now < u32.MAX }
    ensures reads { Reads (instr levels) bytes.now at result }
    ensures ends { IfOk result (λ read. EndsIn bytes.now at read.1) }
{
    let (opcode, at) = byte(bytes, at)?;
    match opcode {
        BLOCK | LOOP | IF => structured(alloc, opcode, bytes, at, levels),
        _ => simple(alloc, opcode, bytes, at),
    }
}

/// What follows the opcode of a `block`, a `loop` or an `if` (5.4.1).
#[cycle(instructions)]
fn structured(alloc: Global, opcode: u8, bytes: &[u8], at: u32, levels: u32) -> Decoded<Instr>
    requires size { length bytes.now < u32.MAX }
    requires opcode { (0x02 ≤ opcode) × (opcode ≤ 0x04) }
    ensures reads { Reads (following opcode (instr levels)) bytes.now at result }
    ensures ends { IfOk result (λ read. EndsIn bytes.now at read.1) }
{
    if levels == 0 {
        return Err(DecodeFault::Malformed);
    }
    let (ty, at) = block_type(bytes, at)?;
    let (body, at) = sequence(alloc, bytes, at, levels - 1)?;
    match opcode {
        BLOCK => Ok((Instr::block_of(alloc, ty, body)?, expect(bytes, at, END)?)),
        LOOP => Ok((Instr::loop_of(alloc, ty, body)?, expect(bytes, at, END)?)),
        _ => {
            let (otherwise, end) = alternative(alloc, bytes, at, levels - 1)?;
            Ok((Instr::if_of(alloc, ty, body, otherwise)?, end))
        }
    }
}

/// The second branch of an `if`, which may be omitted, and the end (5.4.1).
#[cycle(instructions)]
fn alternative(alloc: Global, bytes: &[u8], at: u32, levels: u32) -> Decoded<Items<Instr>>
    requires size { length bytes.now < u32.MAX }
    requires stops { Stops bytes.now at }
    ensures reads { Reads (alternative (each (instr levels))) bytes.now at result }
    ensures ends { IfOk result (λ read. EndsIn bytes.now at read.1) }
{
    let (mark, at) = byte(bytes, at)?;
    if mark == ELSE {
        let (body, at) = sequence(alloc, bytes, at, levels)?;
        let end = expect(bytes, at, END)?;
        Ok((body, end))
    } else {
        Ok((Items::new(alloc), at))
    }
}
