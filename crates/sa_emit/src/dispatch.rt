//! The superblocks of a body one after the other, and the dispatch between them by the number of the dispatch target in the local for it: a
//! `br_table` between up to eight, and around such tables `if`s that halve their number.

use crate::steps::Writer;
use crate::sums::{number, sum};
use crate::superblock::{emit_repeated_target, emit_target};
use failure::{Failure, Invariant, known};
use sa_templates::EmitContext;
use sqlite_items::Items;
use std::alloc::Global;
use wa_syntax::{Instr, opcode};

/// How many dispatch targets a table is between at most.
const FAN_OUT: u32 = 8;

/// How many bits of a number distinguish them.
const BITS: u32 = 3;

/// The body whose dispatch targets are placed, and the context of a position in it.
#[derive(Clone, Copy)]
pub(crate) struct BlockDispatch<'a> {
    pub around: EmitContext<'a>,
    /// The block of each dispatch target.
    pub targets: &'a [u32],
    /// For each dispatch target whether its superblock jumps to it.
    pub repeats: &'a [bool],
}

impl<'a> BlockDispatch<'a> {
    /// So many blocks further in.
    fn further_in(&self, blocks: u32) -> Result<BlockDispatch<'a>, Failure> {
        let nesting = self.around.nesting.further_in(blocks)?;
        let around = EmitContext {
            nesting,
            ..self.around
        };
        Ok(BlockDispatch { around, ..*self })
    }
}

/// Emits the code of a body whose dispatch targets are jumped to: a loop around the dispatch between them.
pub(crate) fn emit_loop(
    alloc: Global,
    code: &mut Items<Instr>,
    writer: &mut Writer<'_>,
    dispatch: &BlockDispatch<'_>,
) -> Result<(), Failure> {
    let mut body = Items::new(alloc);
    let level = level_of(dispatch.targets.len());
    emit_dispatch(alloc, &mut body, writer, &dispatch.further_in(1)?, 0, level)?;
    code.push(Instr::loop_of(alloc, None, body)?)?;
    code.push(Instr::Plain(opcode::UNREACHABLE))?;
    Ok(())
}

/// How many `if`s are at most around a table in the dispatch between so many dispatch targets: one for each bit that the greatest number
/// has more than those of a table.
fn level_of(targets: usize) -> u32 {
    match targets.saturating_sub(1).checked_ilog2() {
        Some(bits) => bits.saturating_add(1).saturating_sub(BITS),
        None => 0,
    }
}

/// Emits the dispatch between the dispatch targets from `first` on, as many as there are and up to `8 * 2^level`, and their code.
#[cycle(choice)]
fn emit_dispatch(
    alloc: Global,
    code: &mut Items<Instr>,
    writer: &mut Writer<'_>,
    dispatch: &BlockDispatch<'_>,
    first: u32,
    level: u32,
) -> Result<(), Failure> {
    if level == 0 {
        return emit_table(alloc, code, writer, dispatch, first);
    }
    let middle = sum(first, half_of(level)?)?;
    if middle as usize >= dispatch.targets.len() {
        return emit_dispatch(alloc, code, writer, dispatch, first, level - 1);
    }
    let inner = dispatch.further_in(1)?;
    let mut low = Items::new(alloc);
    emit_dispatch(alloc, &mut low, writer, &inner, first, level - 1)?;
    let mut high = Items::new(alloc);
    emit_dispatch(alloc, &mut high, writer, &inner, middle, level - 1)?;
    emit_is_less(code, &dispatch.around, middle)?;
    code.push(Instr::if_of(alloc, None, low, high)?)?;
    Ok(())
}

/// How many dispatch targets the first half of a dispatch of this level has.
fn half_of(level: u32) -> Result<u32, Failure> {
    let tables = known(
        2u32.checked_pow(level.saturating_sub(1)),
        Invariant::CfgNumber,
    )?;
    known(FAN_OUT.checked_mul(tables), Invariant::CfgNumber)
}

/// Emits the test whether the dispatch target in the local for it is before this one.
fn emit_is_less(
    code: &mut Items<Instr>,
    around: &EmitContext<'_>,
    target: u32,
) -> Result<(), Failure> {
    code.push(Instr::LocalGet(around.block()))?;
    code.push(Instr::I32Const(target))?;
    code.push(Instr::Plain(opcode::I32_LT_U))?;
    Ok(())
}

/// Emits the table of the dispatch targets from `first` on, up to eight, and their code.
fn emit_table(
    alloc: Global,
    code: &mut Items<Instr>,
    writer: &mut Writer<'_>,
    dispatch: &BlockDispatch<'_>,
    first: u32,
) -> Result<(), Failure> {
    let last = last_behind(dispatch.targets.len(), first)?;
    if last == 0 {
        return emit_superblock(alloc, code, writer, dispatch, first);
    }
    let mut before = choosing(alloc, &dispatch.around, first, last)?;
    for place in 0..last {
        let inner = dispatch.further_in(last - place)?;
        let mut following = Items::new(alloc);
        following.push(Instr::block_of(alloc, None, before)?)?;
        emit_superblock(alloc, &mut following, writer, &inner, sum(first, place)?)?;
        before = following;
    }
    code.push(Instr::block_of(alloc, None, before)?)?;
    emit_superblock(alloc, code, writer, dispatch, sum(first, last)?)
}

/// Emits the superblock of a dispatch target.
fn emit_superblock(
    alloc: Global,
    code: &mut Items<Instr>,
    writer: &mut Writer<'_>,
    dispatch: &BlockDispatch<'_>,
    target: u32,
) -> Result<(), Failure> {
    let block = *known(dispatch.targets.get(target as usize), Invariant::CfgNumber)?;
    if *known(dispatch.repeats.get(target as usize), Invariant::CfgNumber)? {
        return emit_repeated_target(alloc, code, writer, dispatch.around, block);
    }
    emit_target(alloc, code, writer, dispatch.around, block)
}

/// How many dispatch targets after `first` are in the table that begins with it.
fn last_behind(targets: usize, first: u32) -> Result<u32, Failure> {
    let following = number(targets)?.saturating_sub(first).saturating_sub(1);
    Ok(following.min(FAN_OUT - 1))
}

/// The code that goes to the end of the block after which the dispatch target in the local for it comes, one of those from `first` on.
fn choosing(
    alloc: Global,
    around: &EmitContext<'_>,
    first: u32,
    last: u32,
) -> Result<Items<Instr>, Failure> {
    let mut code = Items::new(alloc);
    code.push(Instr::LocalGet(around.block()))?;
    if first > 0 {
        code.push(Instr::I32Const(first))?;
        code.push(Instr::Plain(opcode::I32_SUB))?;
    }
    code.push(Instr::br_table_of(alloc, labels(alloc, last)?, last)?)?;
    Ok(code)
}

/// The labels of the dispatch targets of a table before the last.
fn labels(alloc: Global, last: u32) -> Result<Items<u32>, Failure> {
    let mut labels = Items::new(alloc);
    for label in 0..last {
        labels.push(label)?;
    }
    Ok(labels)
}
