//! The code of a superblock: of the block of a dispatch target, and of the blocks after it, each of which has one predecessor, up to jumps
//! to dispatch targets and to terminators that leave the body.

use crate::steps::{BackEdge, Writer};
use crate::targets::DEEPEST;
use failure::{Failure, Invariant, known};
use sa_cfg::Terminator;
use sa_templates::{EmitContext, LabelDepth, emit_jump, emit_leaving, emit_test};
use sqlite_items::Items;
use std::alloc::Global;
use wa_syntax::{Instr, opcode};

/// A position in the code of a superblock.
#[derive(Clone, Copy)]
struct CodePosition<'a> {
    around: EmitContext<'a>,
    /// The loop around this superblock alone, where there is one.
    own: Option<OwnLoop>,
}

/// A loop around a superblock alone.
#[derive(Clone, Copy, Debug)]
struct OwnLoop {
    /// The block that the superblock begins with.
    block: u32,
    /// How deep the position is in the loop.
    nesting: LabelDepth,
}

impl<'a> CodePosition<'a> {
    /// The position one block of code further in.
    fn further_in(&self) -> Result<CodePosition<'a>, Failure> {
        Ok(CodePosition {
            around: self.around.further_in()?,
            own: own_further_in(self.own)?,
        })
    }

    /// The label that begins the superblock of a dispatch target anew, where it is in a loop of its own.
    fn label_of(&self, target: u32) -> Option<u32> {
        let own = self.own?;
        if own.block == target {
            return Some(own.nesting.outer_label());
        }
        None
    }

    /// Whether a block is a dispatch target.
    fn is_target(&self, block: u32) -> Result<bool, Failure> {
        Ok(known(
            self.around.numbers.get(block as usize),
            Invariant::CfgNumber,
        )?
        .is_some())
    }
}

fn own_further_in(own: Option<OwnLoop>) -> Result<Option<OwnLoop>, Failure> {
    match own {
        Some(OwnLoop { block, nesting }) => {
            let nesting = nesting.further_in(1)?;
            Ok(Some(OwnLoop { block, nesting }))
        }
        None => Ok(None),
    }
}

/// Emits the superblock of a dispatch target that it jumps to itself: in a loop of its own, so that these jumps need no dispatch.
pub(crate) fn emit_repeated_target(
    alloc: Global,
    code: &mut Items<Instr>,
    writer: &mut Writer<'_>,
    around: EmitContext<'_>,
    block: u32,
) -> Result<(), Failure> {
    let spot = CodePosition {
        around: around.further_in()?,
        own: Some(OwnLoop {
            block,
            nesting: LabelDepth::outermost(),
        }),
    };
    let mut body = Items::new(alloc);
    emit_superblock(alloc, &mut body, writer, spot, block, DEEPEST)?;
    code.push(Instr::loop_of(alloc, None, body)?)?;
    Ok(())
}

/// Emits the superblock of a dispatch target that it doesn't jump to itself.
pub(crate) fn emit_target(
    alloc: Global,
    code: &mut Items<Instr>,
    writer: &mut Writer<'_>,
    around: EmitContext<'_>,
    block: u32,
) -> Result<(), Failure> {
    let spot = CodePosition { around, own: None };
    emit_superblock(alloc, code, writer, spot, block, DEEPEST)
}

/// What follows the code of a block.
#[derive(Clone, Copy, Debug)]
enum TableTail {
    Nothing,
    /// The code of this block.
    Block(u32),
    /// The code of `yes` where the test holds, and else of `no`.
    Sides { yes: u32, no: u32 },
}

/// Emits the code that begins with this block. `depth` is how deep branches may nest there.
#[cycle(superblock)]
fn emit_superblock(
    alloc: Global,
    code: &mut Items<Instr>,
    writer: &mut Writer<'_>,
    spot: CodePosition<'_>,
    first: u32,
    depth: u32,
) -> Result<(), Failure> {
    let mut next = first;
    for _ in 0..spot.around.body.blocks.len() {
        match emit_block(alloc, code, writer, spot, next)? {
            TableTail::Nothing => return Ok(()),
            TableTail::Block(block) => next = block,
            TableTail::Sides { yes, no } => {
                emit_side(alloc, code, writer, spot, yes, depth)?;
                next = no;
            }
        }
    }
    Err(endless())
}

/// Emits the code that begins with the block `yes` of a branch, for where the test holds.
#[cycle(superblock)]
fn emit_side(
    alloc: Global,
    code: &mut Items<Instr>,
    writer: &mut Writer<'_>,
    spot: CodePosition<'_>,
    yes: u32,
    depth: u32,
) -> Result<(), Failure> {
    if depth == 0 {
        return Err(too_deep());
    }
    let inner = spot.further_in()?;
    let mut side = Items::new(alloc);
    emit_superblock(alloc, &mut side, writer, inner, yes, depth - 1)?;
    code.push(Instr::if_of(alloc, None, side, Items::new(alloc))?)?;
    Ok(())
}

/// The error where a superblock has more blocks than the body, which can't be: a block that two terminators lead to is a dispatch target.
fn endless() -> Failure {
    Failure::Broken(Invariant::CfgNumber)
}

/// The error where branches nest too deep, which can't be: the block that would be there is a dispatch target.
fn too_deep() -> Failure {
    Failure::Broken(Invariant::LabelDepth)
}

/// Emits the code of a block, and says what follows it.
fn emit_block(
    alloc: Global,
    code: &mut Items<Instr>,
    writer: &mut Writer<'_>,
    spot: CodePosition<'_>,
    number: u32,
) -> Result<TableTail, Failure> {
    let block = known(
        spot.around.body.blocks.get(number as usize),
        Invariant::CfgNumber,
    )?;
    let turn = first_turn(spot, number)?;
    let decided = writer.emit_steps(alloc, code, &spot.around, number, block, turn)?;
    let here = EmitContext {
        readings: writer.readings(),
        labels: writer.labels(),
        ..spot.around
    };
    match &block.exit {
        Terminator::Jump(to) => emit_transfer(code, spot, *to),
        Terminator::Branch { no, .. } if decided => emit_transfer(code, spot, *no),
        Terminator::Branch { test, yes, no } => {
            emit_test(code, &here, *test)?;
            emit_branch(alloc, code, spot, *yes, *no)
        }
        exit => {
            emit_leaving(alloc, code, &here, exit)?;
            Ok(TableTail::Nothing)
        }
    }
}

/// What instruction a turn has that a block begins with: the jump where each edge into the block is one, which holds of the dispatch
/// targets but for the one that the body begins with.
fn first_turn(spot: CodePosition<'_>, block: u32) -> Result<BackEdge, Failure> {
    if block > 0 && spot.is_target(block)? {
        return Ok(BackEdge::Edge);
    }
    Ok(BackEdge::Nop)
}

/// Emits a jump to a block that is a dispatch target. The code of another one is emitted here.
fn emit_transfer(
    code: &mut Items<Instr>,
    spot: CodePosition<'_>,
    block: u32,
) -> Result<TableTail, Failure> {
    if !spot.is_target(block)? {
        return Ok(TableTail::Block(block));
    }
    emit_jump_to(code, spot, block)?;
    Ok(TableTail::Nothing)
}

/// Emits what follows the test of a branch: a jump for a side that is a dispatch target, so that the other side continues here.
fn emit_branch(
    alloc: Global,
    code: &mut Items<Instr>,
    spot: CodePosition<'_>,
    yes: u32,
    no: u32,
) -> Result<TableTail, Failure> {
    if spot.is_target(yes)? {
        emit_jump_where(alloc, code, spot, yes)?;
        return emit_transfer(code, spot, no);
    }
    if spot.is_target(no)? {
        code.push(Instr::Plain(opcode::I32_EQZ))?;
        emit_jump_where(alloc, code, spot, no)?;
        return Ok(TableTail::Block(yes));
    }
    Ok(TableTail::Sides { yes, no })
}

/// Emits a jump to a dispatch target, for where the test holds.
fn emit_jump_where(
    alloc: Global,
    code: &mut Items<Instr>,
    spot: CodePosition<'_>,
    target: u32,
) -> Result<(), Failure> {
    if let Some(label) = spot.label_of(target) {
        return Ok(code.push(Instr::BrIf(label))?);
    }
    let inner = spot.around.further_in()?;
    let mut jump = Items::new(alloc);
    emit_jump(&mut jump, &inner, target)?;
    code.push(Instr::if_of(alloc, None, jump, Items::new(alloc))?)?;
    Ok(())
}

/// Emits a jump to a dispatch target: back to its own loop, or to the dispatch.
fn emit_jump_to(
    code: &mut Items<Instr>,
    spot: CodePosition<'_>,
    target: u32,
) -> Result<(), Failure> {
    match spot.label_of(target) {
        Some(label) => Ok(code.push(Instr::Br(label))?),
        None => emit_jump(code, &spot.around, target),
    }
}
