//! The bodies of functions, and the instructions that hold others.

ghost use Rattle.std.specs.Prelude.{◌<◌, ◌≤◌, ◌↔◌, length, IfErr, IfOk, IsTrue};
ghost use Rattle.wa_text.specs.Forms.{each};
ghost use Rattle.wa_text.specs.Instructions.{else_end, expr, instr};
ghost use Rattle.wa_text.specs.Places.{EndsIn, ReachesIn};
ghost use Rattle.wa_text.specs.Reading.{RefusesAt, Spelled, anything, following_first, first_line, halts, rows_at};
ghost use Rattle.wa_text.specs.Words.{line};

use crate::fault::TextFault;
use crate::reader::instruction::{BlockKind, FirstLine, first_words};
use crate::reader::line::{Listed, following_line, word_line, words};
use sqlite_items::Items;
use std::alloc::Global;
use wa_syntax::{Instr, ValTy};

/// The most blocks that may be open at a point of a function.
const MAX_NESTING: u32 = 1000;

/// The instructions of a function, and their end.
pub fn expression(alloc: Global, text: &[u8], at: u32) -> Listed<Items<Instr>>
    requires size { length text.now < u32.MAX }
    requires place { at ≤ length text.now }
    ensures ends { IfOk result (λ read. EndsIn text.now at read.1) }
    ensures found { IfOk result (λ read. Spelled (expr read.0) text.now at read.1) }
    ensures refused { IfErr result (RefusesAt expr anything text.now at) }
{
    let (body, at) = sequence(alloc, text, at, MAX_NESTING)?;
    let end = word_line(text, at, b"end")?;
    Ok((body, end))
}

/// Whether a sequence of instructions stops at a position: at an `end` or an `else`.
fn stops(text: &[u8], at: u32) -> bool
    requires size { length text.now < u32.MAX }
    requires place { at ≤ length text.now }
    ensures { IsTrue result ↔ halts (rows_at text.now at) }
{
    following_line(text, at, b"end").is_some() || following_line(text, at, b"else").is_some()
}

/// Instructions up to an `end` or an `else` that is none of theirs. Up to `levels` blocks may be open among them.
#[cycle(instructions)]
fn sequence(alloc: Global, text: &[u8], at: u32, levels: u32) -> Listed<Items<Instr>>
    requires size { length text.now < u32.MAX }
    requires place { at ≤ length text.now }
    ensures reaches { IfOk result (λ read. ReachesIn text.now at read.1) }
    ensures found { IfOk result (λ read. Spelled (each (instr levels) read.0) text.now at read.1) }
    ensures stops { IfOk result (λ read. halts (rows_at text.now read.1)) }
    ensures refused { IfErr result (RefusesAt (each (instr levels)) halts text.now at) }
{
    let mut instrs = Items::new(alloc);
    let mut at = at;
    while !stops(text, at) {
        let (instr, next) = instruction(alloc, text, at, levels)?;
        instrs.push(instr)?;
        at = next;
    }
    Ok((instrs, at))
}

/// An instruction.
#[cycle(instructions)]
fn instruction(alloc: Global, text: &[u8], at: u32, levels: u32) -> Listed<Instr>
    requires size { length text.now < u32.MAX }
    requires place { at ≤ length text.now }
    ensures ends { IfOk result (λ read. EndsIn text.now at read.1) }
    ensures found { IfOk result (λ read. Spelled (instr levels read.0) text.now at read.1) }
    ensures refused { IfErr result (RefusesAt (instr levels) anything text.now at) }
{
    let (first, next) = first_line(alloc, text, at)?;
    match first {
        FirstLine::Whole(instr) => Ok((instr, next)),
        FirstLine::Begin(kind, ty) => {
            if levels == 0 {
                return Err(TextFault::Wrong(at));
            }
            structured(alloc, kind, ty, text, next, levels - 1)
        }
    }
}

/// The first line of an instruction.
fn first_line(alloc: Global, text: &[u8], at: u32) -> Listed<FirstLine>
    requires size { length text.now < u32.MAX }
    requires place { at ≤ length text.now }
    ensures ends { IfOk result (λ read. EndsIn text.now at read.1) }
    ensures found { IfOk result (λ read. Spelled (line (first_line read.0)) text.now at read.1) }
    ensures refused { IfErr result (RefusesAt (λ first. line (first_line first)) anything text.now at) }
{
    let (words, end) = words(alloc, text, at)?;
    let first = match first_words(alloc, words.as_slice()) {
        Ok(first) => first,
        Err(fault) => return Err(fault.at(at)),
    };
    Ok((first, end))
}

/// What follows the first line of a `block`, a `loop` or an `if`.
#[cycle(instructions)]
fn structured(
    alloc: Global,
    kind: BlockKind,
    ty: Option<ValTy>,
    text: &[u8],
    at: u32,
    levels: u32,
) -> Listed<Instr>
    requires size { length text.now < u32.MAX }
    requires place { at ≤ length text.now }
    ensures ends { IfOk result (λ read. EndsIn text.now at read.1) }
    ensures found { IfOk result (λ read. Spelled (following_first kind ty (each (instr levels)) read.0) text.now at read.1) }
    ensures refused { IfErr result (RefusesAt (following_first kind ty (each (instr levels))) anything text.now at) }
{
    let (body, at) = sequence(alloc, text, at, levels)?;
    match kind {
        BlockKind::Block => Ok((
            Instr::block_of(alloc, ty, body)?,
            word_line(text, at, b"end")?,
        )),
        BlockKind::Loop => Ok((
            Instr::loop_of(alloc, ty, body)?,
            word_line(text, at, b"end")?,
        )),
        BlockKind::If => {
            let (otherwise, end) = else_end(alloc, text, at, levels)?;
            Ok((Instr::if_of(alloc, ty, body, otherwise)?, end))
        }
    }
}

/// The branch after `else`, which is there exactly where the branch holds instructions, and the end of the `if`.
#[cycle(instructions)]
fn else_end(alloc: Global, text: &[u8], at: u32, levels: u32) -> Listed<Items<Instr>>
    requires size { length text.now < u32.MAX }
    requires place { at ≤ length text.now }
    ensures ends { IfOk result (λ read. EndsIn text.now at read.1) }
    ensures found { IfOk result (λ read. Spelled (else_end (each (instr levels)) read.0) text.now at read.1) }
    ensures refused { IfErr result (RefusesAt (else_end (each (instr levels))) anything text.now at) }
{
    let Some(at) = following_line(text, at, b"else") else {
        return Ok((Items::new(alloc), word_line(text, at, b"end")?));
    };
    let (branch, at) = sequence(alloc, text, at, levels)?;
    if branch.is_empty() {
        return Err(TextFault::Wrong(at));
    }
    let end = word_line(text, at, b"end")?;
    Ok((branch, end))
}
