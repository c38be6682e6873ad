//! Instructions, by the words of their first line.

ghost use Rattle.std.specs.Prelude.{◌≡◌, ◌≢◌, [], ◌∷◌, ◌++◌, codes, MatchOption, MatchResult};
ghost use Rattle.wa_text.specs.Reading.{Reads, Refuses, first_line, kind_word, texts, whole, with_index};

use crate::fault::LineFault;
use crate::mnemonic::{access_opcode, plain_opcode};
use crate::reader::types::block_result;
use crate::reader::words::{index, indices, number};
use std::alloc::Global;
use wa_syntax::{Instr, ValTy};

/// The instructions that hold others.
#[derive(Clone, Copy, Debug, PartialEq, Eq)]
pub enum BlockKind {
    Block,
    Loop,
    If,
}

/// What the first line of an instruction denotes.
#[derive(Drop)]
pub enum FirstLine {
    /// The whole instruction.
    Whole(Instr),
    /// The beginning of an instruction that holds others, with the type of its result, if it has one.
    Begin(BlockKind, Option<ValTy>),
}

/// The first line of an instruction.
pub fn first_words(alloc: Global, words: &[&[u8]]) -> Result<FirstLine, LineFault>
    ensures { Reads first_line (texts words.now) result }
{
    let [first, rest @ ..] = words else {
        return Err(LineFault::Wrong);
    };
    match block_kind(*first) {
        Some(kind) => Ok(FirstLine::Begin(kind, block_result(rest)?)),
        None => Ok(FirstLine::Whole(simple(alloc, *first, rest)?)),
    }
}

/// The instruction that holds others, by its word.
fn block_kind(word: &[u8]) -> Option<BlockKind>
    ensures { MatchOption result ((kind : BlockKind) → word.now ≢ kind_word kind) (λ kind. word.now ≡ kind_word kind) }
{
    match word {
        b"block" => Some(BlockKind::Block),
        b"loop" => Some(BlockKind::Loop),
        b"if" => Some(BlockKind::If),
        _ => None,
    }
}

/// An instruction that holds no others: its first word, and those after it.
fn simple(alloc: Global, first: &[u8], words: &[&[u8]]) -> Result<Instr, LineFault>
    ensures { Reads whole (first.now ∷ texts words.now) result }
{
    if first == b"br_table".as_slice() {
        return match words {
            [labels @ .., default] => br_table(alloc, labels, *default),
            [] => Err(LineFault::Wrong),
        };
    }
    match words {
        [] => plain(first),
        [value] => with_number(first, *value),
        [align, offset] => access(first, *align, *offset),
        _ => Err(LineFault::Wrong),
    }
}

/// An instruction that is its opcode alone.
fn plain(name: &[u8]) -> Result<Instr, LineFault>
    ensures { Reads whole (name.now ∷ []) result }
{
    match plain_opcode(name) {
        Some(opcode) => Ok(Instr::Plain(opcode)),
        None => Err(LineFault::Wrong),
    }
}

/// `br_table`: the labels, and the default after them.
fn br_table(alloc: Global, labels: &[&[u8]], default: &[u8]) -> Result<Instr, LineFault>
    ensures { Reads whole (codes "br_table" ∷ texts labels.now ++ default.now ∷ []) result }
{
    let default = index(default)?;
    let labels = indices(alloc, labels)?;
    Ok(Instr::br_table_of(alloc, labels, default)?)
}

/// An instruction of a word and a number.
fn with_number(first: &[u8], value: &[u8]) -> Result<Instr, LineFault>
    requires table { first.now ≢ codes "br_table" }
    ensures { Reads whole (first.now ∷ value.now ∷ []) result }
{
    if first == b"i64.const".as_slice() {
        return Ok(Instr::I64Const(number(value)?));
    }
    indexed(first, index(value)?)
}

/// An instruction of a word and a number of 32 bits: the index of a label, a function, a type, a local or a global, or the bits of an
/// `i32`.
fn indexed(first: &[u8], index: u32) -> Result<Instr, LineFault>
    requires table { first.now ≢ codes "br_table" }
    requires constant { first.now ≢ codes "i64.const" }
    ensures { MatchResult result (λ read. with_index read first.now index) (λ fault. (i : Instr) → with_index i first.now index → ⊥) }
{
    if first == b"br".as_slice() {
        return Ok(Instr::Br(index));
    }
    if first == b"br_if".as_slice() {
        return Ok(Instr::BrIf(index));
    }
    if first == b"call".as_slice() {
        return Ok(Instr::Call(index));
    }
    if first == b"call_indirect".as_slice() {
        return Ok(Instr::CallIndirect(index));
    }
    if first == b"local.get".as_slice() {
        return Ok(Instr::LocalGet(index));
    }
    if first == b"local.set".as_slice() {
        return Ok(Instr::LocalSet(index));
    }
    if first == b"local.tee".as_slice() {
        return Ok(Instr::LocalTee(index));
    }
    if first == b"global.get".as_slice() {
        return Ok(Instr::GlobalGet(index));
    }
    if first == b"global.set".as_slice() {
        return Ok(Instr::GlobalSet(index));
    }
    if first == b"i32.const".as_slice() {
        return Ok(Instr::I32Const(index));
    }
    Err(LineFault::Wrong)
}

/// A load or a store: its alignment, as a power of two, and its offset.
fn access(name: &[u8], align: &[u8], offset: &[u8]) -> Result<Instr, LineFault>
    requires table { name.now ≢ codes "br_table" }
    ensures { Reads whole (name.now ∷ align.now ∷ offset.now ∷ []) result }
{
    match access_opcode(name) {
        Some(opcode) => Ok(Instr::Memory(opcode, index(align)?, index(offset)?)),
        None => Err(LineFault::Wrong),
    }
}
