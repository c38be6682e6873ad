//! Instructions that hold no others (sections 5.4.1 to 5.4.5), by what follows their opcode.

ghost use Rattle.std.specs.Prelude.{ℕ, ◌<◌, ◌≤◌, ◌↔◌, ◌⊎◌, length, IfOk, IsTrue};
ghost use Rattle.wa_syntax.specs.BinaryInstructions.{IsBare, IsAccess, instr};
ghost use Rattle.wa_decode.specs.Places.{EndsIn, ReachesIn};
ghost use Rattle.wa_decode.specs.Reading.{Reads, following};

use crate::fault::DecodeFault;
use crate::production::{Decoded, vector};
use crate::value::{Index, expect, signed_32, signed_64, unsigned};
use std::alloc::Global;
use wa_syntax::Instr;
use wa_syntax::opcode::*;

/// The reserved byte after an instruction that works on the one table or memory without naming it (5.4.1, 5.4.4).
const RESERVED: u8 = 0;

/// An instruction whose opcode was read, up to the position after it.
pub fn simple(alloc: Global, opcode: u8, bytes: &[u8], at: u32) -> Decoded<Instr>
    requires size { length bytes.now < u32.MAX }
    requires place { at ≤ length bytes.now }
    requires opcode { (opcode < 0x02) ⊎ (0x04 < opcode) }
    ensures reaches { IfOk result (λ read. ReachesIn bytes.now at read.1) }
    ensures reads { (levels : ℕ) → Reads (following opcode (instr levels)) bytes.now at result }
{
    if is_bare(opcode) {
        return Ok((Instr::Plain(opcode), at));
    }
    match opcode {
        BR..=CALL_INDIRECT => control(alloc, opcode, bytes, at),
        LOCAL_GET..=GLOBAL_SET => variable(opcode, bytes, at),
        I32_LOAD..=MEMORY_GROW => memory(opcode, bytes, at),
        _ => constant(opcode, bytes, at),
    }
}

/// Whether an instruction is its opcode alone: `unreachable`, `nop`, `return` (5.4.1), `drop`, `select` (5.4.2), and the
/// numeric instructions but for constants (5.4.5).
fn is_bare(opcode: u8) -> bool
    ensures { IsTrue result ↔ IsBare opcode }
{
    matches!(
        opcode,
        UNREACHABLE
            | NOP
            | RETURN
            | DROP
            | SELECT
            | I32_EQZ..=I64_GE_U
            | I32_CLZ..=I64_ROTR
            | I32_WRAP_I64
            | I64_EXTEND_I32_S
            | I64_EXTEND_I32_U
    )
}

/// Whether an opcode is that of a load or a store (5.4.4).
fn is_access(opcode: u8) -> bool
    ensures { IsTrue result ↔ IsAccess opcode }
{
    matches!(
        opcode,
        I32_LOAD | I64_LOAD | I32_LOAD8_S..=I64_STORE | I32_STORE8..=I64_STORE32
    )
}

/// A branch or a call (5.4.1): labels or the index of a function or a type follow.
fn control(alloc: Global, opcode: u8, bytes: &[u8], at: u32) -> Decoded<Instr>
    requires size { length bytes.now < u32.MAX }
    requires opcode { (0x0c ≤ opcode) × (opcode ≤ 0x11) × (IsBare opcode → ⊥) }
    ensures reads { (levels : ℕ) → Reads (following opcode (instr levels)) bytes.now at result }
    ensures ends { IfOk result (λ read. EndsIn bytes.now at read.1) }
{
    if opcode == BR_TABLE {
        return branch_table(alloc, bytes, at);
    }
    let (index, end) = unsigned(bytes, at)?;
    match opcode {
        BR => Ok((Instr::Br(index), end)),
        BR_IF => Ok((Instr::BrIf(index), end)),
        CALL => Ok((Instr::Call(index), end)),
        CALL_INDIRECT => {
            let end = expect(bytes, end, RESERVED)?;
            Ok((Instr::CallIndirect(index), end))
        }
        _ => Err(DecodeFault::Malformed),
    }
}

/// `br_table` (5.4.1): its labels, and the default one.
fn branch_table(alloc: Global, bytes: &[u8], at: u32) -> Decoded<Instr>
    requires { length bytes.now < u32.MAX }
    ensures reads { (levels : ℕ) → Reads (following 0x0e (instr levels)) bytes.now at result }
    ensures ends { IfOk result (λ read. EndsIn bytes.now at read.1) }
{
    let (labels, at) = vector::<Index>(alloc, bytes, at)?;
    let (default, end) = unsigned(bytes, at)?;
    Ok((Instr::br_table_of(alloc, labels, default)?, end))
}

/// A variable instruction (5.4.3): the index of a local or a global follows.
fn variable(opcode: u8, bytes: &[u8], at: u32) -> Decoded<Instr>
    requires size { length bytes.now < u32.MAX }
    requires opcode { (0x20 ≤ opcode) × (opcode ≤ 0x24) }
    ensures reads { (levels : ℕ) → Reads (following opcode (instr levels)) bytes.now at result }
    ensures ends { IfOk result (λ read. EndsIn bytes.now at read.1) }
{
    let (index, end) = unsigned(bytes, at)?;
    match opcode {
        LOCAL_GET => Ok((Instr::LocalGet(index), end)),
        LOCAL_SET => Ok((Instr::LocalSet(index), end)),
        LOCAL_TEE => Ok((Instr::LocalTee(index), end)),
        GLOBAL_GET => Ok((Instr::GlobalGet(index), end)),
        GLOBAL_SET => Ok((Instr::GlobalSet(index), end)),
        _ => Err(DecodeFault::Malformed),
    }
}

/// A memory instruction (5.4.4): an alignment and an offset follow a load or a store, and a byte that is zero the others.
fn memory(opcode: u8, bytes: &[u8], at: u32) -> Decoded<Instr>
    requires size { length bytes.now < u32.MAX }
    requires opcode { (0x28 ≤ opcode) × (opcode ≤ 0x40) }
    ensures reads { (levels : ℕ) → Reads (following opcode (instr levels)) bytes.now at result }
    ensures ends { IfOk result (λ read. EndsIn bytes.now at read.1) }
{
    if is_access(opcode) {
        let (align, at) = unsigned(bytes, at)?;
        let (offset, end) = unsigned(bytes, at)?;
        return Ok((Instr::Memory(opcode, align, offset), end));
    }
    match opcode {
        MEMORY_SIZE | MEMORY_GROW => {
            let end = expect(bytes, at, RESERVED)?;
            Ok((Instr::Plain(opcode), end))
        }
        _ => Err(DecodeFault::Malformed),
    }
}

/// A constant (5.4.5).
fn constant(opcode: u8, bytes: &[u8], at: u32) -> Decoded<Instr>
    requires size { length bytes.now < u32.MAX }
    requires opcode { ((opcode < 0x02) ⊎ (0x04 < opcode)) × ((opcode < 0x0c) ⊎ (0x11 < opcode)) × ((opcode < 0x20) ⊎ (0x24 < opcode))
        × ((opcode < 0x28) ⊎ (0x40 < opcode)) × (IsBare opcode → ⊥) }
    ensures reads { (levels : ℕ) → Reads (following opcode (instr levels)) bytes.now at result }
    ensures ends { IfOk result (λ read. EndsIn bytes.now at read.1) }
{
    match opcode {
        I32_CONST => {
            let (bits, end) = signed_32(bytes, at)?;
            Ok((Instr::I32Const(bits), end))
        }
        I64_CONST => {
            let (bits, end) = signed_64(bytes, at)?;
            Ok((Instr::I64Const(bits), end))
        }
        _ => Err(DecodeFault::Malformed),
    }
}
