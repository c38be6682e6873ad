//! Instructions and expressions (section 5.4).

ghost use Rattle.std.specs.Prelude.{OnOk};
ghost use Rattle.wa_syntax.specs.Formats.{◌then◌, each, byte, vec, u32, i32, i64};
ghost use Rattle.wa_syntax.specs.BinaryInstructions as binary;
ghost use Rattle.wa_encode.specs.Spelling.{Adds, else_end};

use crate::types::block_type;
use crate::value::{byte, number, vector};
use wa_syntax::opcode::*;
use wa_syntax::{Init, Instr, NoMemory, ValTy, write_i32, write_i64};

/// An expression (5.4.6), and what a block holds (5.4.1): instructions, and `end`.
#[cycle(instructions)]
pub fn expression(out: &mut Vec<u8>, body: &[Instr]) -> Result<(), NoMemory>
    ensures { OnOk result ((levels : _) → Adds (each (binary.instr levels) body.now then byte 0x0b) out.old.items out.new.items) }
{
    sequence(out, body)?;
    byte(out, END)
}

/// A constant expression (5.4.6) of one instruction.
pub fn constant_expression(out: &mut Vec<u8>, init: Init) -> Result<(), NoMemory>
    ensures { OnOk result (Adds (binary.init init) out.old.items out.new.items) }
{
    match init {
        Init::Const32(bits) => {
            i32_const(out, bits)?;
            byte(out, END)
        }
        Init::Const64(bits) => {
            i64_const(out, bits)?;
            byte(out, END)
        }
        Init::Global(global) => {
            indexed(out, GLOBAL_GET, global)?;
            byte(out, END)
        }
    }
}

/// Instructions one after another (5.4.1).
#[cycle(instructions)]
fn sequence(out: &mut Vec<u8>, instrs: &[Instr]) -> Result<(), NoMemory>
    ensures { OnOk result ((levels : _) → Adds (each (binary.instr levels) instrs.now) out.old.items out.new.items) }
{
    for instr in instrs {
        instruction(out, instr)?;
    }
    Ok(())
}

/// An instruction (5.4).
#[cycle(instructions)]
fn instruction(out: &mut Vec<u8>, instr: &Instr) -> Result<(), NoMemory>
    ensures { OnOk result ((levels : _) → Adds (binary.instr levels instr.now) out.old.items out.new.items) }
{
    match instr {
        Instr::Block(ty, body) => {
            begin(out, BLOCK, *ty)?;
            expression(out, body.get().as_slice())
        }
        Instr::Loop(ty, body) => {
            begin(out, LOOP, *ty)?;
            expression(out, body.get().as_slice())
        }
        Instr::If(ty, arms) => {
            let (body, otherwise) = arms.get();
            begin(out, IF, *ty)?;
            sequence(out, body.as_slice())?;
            else_branch(out, otherwise.as_slice())
        }
        Instr::Plain(opcode) => plain(out, *opcode),
        Instr::Br(label) => indexed(out, BR, *label),
        Instr::BrIf(label) => indexed(out, BR_IF, *label),
        Instr::BrTable(table) => {
            let (labels, default) = table.get();
            br_table(out, labels.as_slice(), *default)
        }
        Instr::Call(func) => indexed(out, CALL, *func),
        Instr::CallIndirect(ty) => call_indirect(out, *ty),
        Instr::LocalGet(local) => indexed(out, LOCAL_GET, *local),
        Instr::LocalSet(local) => indexed(out, LOCAL_SET, *local),
        Instr::LocalTee(local) => indexed(out, LOCAL_TEE, *local),
        Instr::GlobalGet(global) => indexed(out, GLOBAL_GET, *global),
        Instr::GlobalSet(global) => indexed(out, GLOBAL_SET, *global),
        Instr::Memory(opcode, align, offset) => load_or_store(out, *opcode, *align, *offset),
        Instr::I32Const(bits) => i32_const(out, *bits),
        Instr::I64Const(bits) => i64_const(out, *bits),
    }
}

/// The beginning of a `block`, a `loop` or an `if` (5.4.1).
fn begin(out: &mut Vec<u8>, opcode: u8, ty: Option<ValTy>) -> Result<(), NoMemory>
    ensures { OnOk result (Adds (byte opcode then binary.blocktype ty) out.old.items out.new.items) }
{
    byte(out, opcode)?;
    block_type(out, ty)
}

/// The branch after `else` (5.4.1), which is omitted where it is empty, and the `end` of the `if`.
#[cycle(instructions)]
fn else_branch(out: &mut Vec<u8>, otherwise: &[Instr]) -> Result<(), NoMemory>
    ensures { OnOk result ((levels : _) → Adds (else_end (each (binary.instr levels)) otherwise.now) out.old.items out.new.items) }
{
    if otherwise.is_empty() {
        return byte(out, END);
    }
    byte(out, ELSE)?;
    expression(out, otherwise)
}

/// An instruction that is its opcode alone (5.4.1, 5.4.2, 5.4.5). After `memory.size` and `memory.grow` comes a byte 0,
/// the index of the memory in later versions of the standard (5.4.4).
fn plain(out: &mut Vec<u8>, opcode: u8) -> Result<(), NoMemory>
    ensures { OnOk result (Adds (binary.plain opcode) out.old.items out.new.items) }
{
    byte(out, opcode)?;
    if opcode == MEMORY_SIZE || opcode == MEMORY_GROW {
        return byte(out, 0x00);
    }
    Ok(())
}

/// An instruction that is its opcode and an index: of a label (5.4.1), a function, a local or a global (5.4.3).
fn indexed(out: &mut Vec<u8>, opcode: u8, index: u32) -> Result<(), NoMemory>
    ensures { OnOk result (Adds (byte opcode then u32 index) out.old.items out.new.items) }
{
    byte(out, opcode)?;
    number(out, &index)
}

/// `br_table` (5.4.1): the labels, and the default.
fn br_table(out: &mut Vec<u8>, labels: &[u32], default: u32) -> Result<(), NoMemory>
    ensures { OnOk result (Adds (byte 0x0e then vec u32 labels.now then u32 default) out.old.items out.new.items) }
{
    byte(out, BR_TABLE)?;
    vector(out, labels, number)?;
    number(out, &default)
}

/// `call_indirect` (5.4.1): the index of the type, and a byte 0, the index of the table in later versions of the standard.
fn call_indirect(out: &mut Vec<u8>, ty: u32) -> Result<(), NoMemory>
    ensures { OnOk result (Adds (byte 0x11 then u32 ty then byte 0x00) out.old.items out.new.items) }
{
    byte(out, CALL_INDIRECT)?;
    number(out, &ty)?;
    byte(out, 0x00)
}

/// A load or a store (5.4.4): its alignment, as a power of two, and its offset.
fn load_or_store(out: &mut Vec<u8>, opcode: u8, align: u32, offset: u32) -> Result<(), NoMemory>
    ensures { OnOk result (Adds (binary.access opcode align offset) out.old.items out.new.items) }
{
    byte(out, opcode)?;
    number(out, &align)?;
    number(out, &offset)
}

/// `i32.const` (5.4.5), whose bits are spelled as a number with a sign (5.2.2).
fn i32_const(out: &mut Vec<u8>, bits: u32) -> Result<(), NoMemory>
    ensures { OnOk result (Adds (byte 0x41 then i32 bits) out.old.items out.new.items) }
{
    byte(out, I32_CONST)?;
    write_i32(out, bits.cast_signed())
}

/// `i64.const` (5.4.5), whose bits are spelled as a number with a sign (5.2.2).
fn i64_const(out: &mut Vec<u8>, bits: u64) -> Result<(), NoMemory>
    ensures { OnOk result (Adds (byte 0x42 then i64 bits) out.old.items out.new.items) }
{
    byte(out, I64_CONST)?;
    write_i64(out, bits.cast_signed())
}
