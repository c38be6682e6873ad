//! Instructions.

ghost use Rattle.std.specs.Prelude.{codes, OnOk};
ghost use Rattle.wa_text.specs.Forms.{◌then◌, each};
ghost use Rattle.wa_text.specs.Instructions.{begin, else_end, end, indexed, instr, named};
ghost use Rattle.wa_text.specs.Instructions as form;
ghost use Rattle.wa_text.specs.Mnemonics.{access_names, plain_names};
ghost use Rattle.wa_text.specs.Words.{line, u32, u64, word};
ghost use Rattle.wa_text.specs.Writing.{AddsLines};

use crate::mnemonic::{access_name, plain_name};
use crate::writer::types::block_result;
use crate::writer::words::{each, end_line, first, index, number, word_line};
use wa_syntax::{Instr, NoMemory, ValTy};

/// What a function or a block holds: instructions, and `end`.
#[cycle(instructions)]
pub fn expression(out: &mut Vec<u8>, body: &[Instr]) -> Result<(), NoMemory>
    ensures { OnOk result ((levels : _) → AddsLines (each (instr levels) body.now then end) out.old.items out.new.items) }
{
    sequence(out, body)?;
    word_line(out, b"end")
}

/// Instructions one after another.
#[cycle(instructions)]
fn sequence(out: &mut Vec<u8>, instrs: &[Instr]) -> Result<(), NoMemory>
    ensures { OnOk result ((levels : _) → AddsLines (each (instr levels) instrs.now) out.old.items out.new.items) }
{
    for instr in instrs {
        instruction(out, instr)?;
    }
    Ok(())
}

/// An instruction.
#[cycle(instructions)]
fn instruction(out: &mut Vec<u8>, instr: &Instr) -> Result<(), NoMemory>
    ensures { OnOk result ((levels : _) → AddsLines (form.instr levels instr.now) out.old.items out.new.items) }
{
    match instr {
        Instr::Block(ty, body) => {
            begin(out, b"block", *ty)?;
            expression(out, body.get().as_slice())
        }
        Instr::Loop(ty, body) => {
            begin(out, b"loop", *ty)?;
            expression(out, body.get().as_slice())
        }
        Instr::If(ty, arms) => {
            let (body, otherwise) = arms.get();
            begin(out, b"if", *ty)?;
            sequence(out, body.as_slice())?;
            else_end(out, otherwise.as_slice())
        }
        Instr::Plain(opcode) => plain(out, *opcode),
        Instr::Br(label) => indexed(out, b"br", *label),
        Instr::BrIf(label) => indexed(out, b"br_if", *label),
        Instr::BrTable(table) => {
            let (labels, default) = table.get();
            br_table(out, labels.as_slice(), *default)
        }
        Instr::Call(func) => indexed(out, b"call", *func),
        Instr::CallIndirect(ty) => indexed(out, b"call_indirect", *ty),
        Instr::LocalGet(local) => indexed(out, b"local.get", *local),
        Instr::LocalSet(local) => indexed(out, b"local.set", *local),
        Instr::LocalTee(local) => indexed(out, b"local.tee", *local),
        Instr::GlobalGet(global) => indexed(out, b"global.get", *global),
        Instr::GlobalSet(global) => indexed(out, b"global.set", *global),
        Instr::Memory(opcode, align, offset) => access(out, *opcode, *align, *offset),
        Instr::I32Const(bits) => indexed(out, b"i32.const", *bits),
        Instr::I64Const(bits) => i64_const(out, *bits),
    }
}

/// The line that begins a `block`, a `loop` or an `if`.
fn begin(out: &mut Vec<u8>, kind: &[u8], ty: Option<ValTy>) -> Result<(), NoMemory>
    ensures { OnOk result (AddsLines (begin kind.now ty) out.old.items out.new.items) }
{
    first(out, kind)?;
    block_result(out, ty)?;
    end_line(out)
}

/// The branch after `else`, which is omitted where it is empty, and the `end` of the `if`.
#[cycle(instructions)]
fn else_end(out: &mut Vec<u8>, otherwise: &[Instr]) -> Result<(), NoMemory>
    ensures { OnOk result ((levels : _) → AddsLines (else_end (each (instr levels)) otherwise.now) out.old.items out.new.items) }
{
    if otherwise.is_empty() {
        return word_line(out, b"end");
    }
    word_line(out, b"else")?;
    expression(out, otherwise)
}

/// An instruction that is its opcode alone. An opcode of no such instruction has no line.
fn plain(out: &mut Vec<u8>, opcode: u8) -> Result<(), NoMemory>
    ensures { OnOk result (AddsLines (line (named plain_names opcode)) out.old.items out.new.items) }
{
    match plain_name(opcode) {
        Some(name) => word_line(out, name.as_bytes()),
        None => Ok(()),
    }
}

/// A word and a number: the index of a label, a function, a type, a local or a global, or the bits of an `i32`.
fn indexed(out: &mut Vec<u8>, word: &[u8], n: u32) -> Result<(), NoMemory>
    ensures { OnOk result (AddsLines (indexed word.now n) out.old.items out.new.items) }
{
    first(out, word)?;
    index(out, &n)?;
    end_line(out)
}

/// `br_table`: the labels, and the default after them.
fn br_table(out: &mut Vec<u8>, labels: &[u32], default: u32) -> Result<(), NoMemory>
    ensures { OnOk result (AddsLines (line (word (codes "br_table") then each u32 labels.now then u32 default))
        out.old.items out.new.items) }
{
    first(out, b"br_table")?;
    each(out, labels, index)?;
    index(out, &default)?;
    end_line(out)
}

/// A load or a store: its alignment, as a power of two, and its offset. An opcode that is that of neither has no line.
fn access(out: &mut Vec<u8>, opcode: u8, align: u32, offset: u32) -> Result<(), NoMemory>
    ensures { OnOk result (AddsLines (line (named access_names opcode then u32 align then u32 offset)) out.old.items out.new.items) }
{
    match access_name(opcode) {
        Some(name) => {
            first(out, name.as_bytes())?;
            index(out, &align)?;
            index(out, &offset)?;
            end_line(out)
        }
        None => Ok(()),
    }
}

/// `i64.const`, and the bits.
fn i64_const(out: &mut Vec<u8>, bits: u64) -> Result<(), NoMemory>
    ensures { OnOk result (AddsLines (line (word (codes "i64.const") then u64 bits)) out.old.items out.new.items) }
{
    first(out, b"i64.const")?;
    number(out, bits)?;
    end_line(out)
}
