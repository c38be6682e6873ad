//! The code of a body that has structured regions: blocks, loops and conditions as the regions have them.

use crate::negation::emit_negation;
use crate::resuming::{emit_dispatch, emit_dispatch_again};
use crate::steps::{BackEdge, Writer};
use failure::{Failure, Invariant, broken, known};
use sa_cfg::Terminator;
use sa_structure::{Region, StructuredBody, block_after, first_of};
use sa_templates::{EmitContext, Jump, emit_jump, emit_leaving, emit_test, jump_to};
use sqlite_items::Items;
use std::alloc::Global;
use wa_syntax::Instr;

/// The position of a piece among the regions.
#[derive(Clone, Copy)]
struct CodePosition<'a> {
    around: EmitContext<'a>,
    shaped: &'a StructuredBody,
    /// The block that begins after the piece, if one does.
    following: Option<u32>,
    /// What instruction a turn has that the piece begins with.
    turn: BackEdge,
}

/// Emits the code of a body that has structured regions.
pub(crate) fn emit_structured(
    alloc: Global,
    code: &mut Items<Instr>,
    around: &EmitContext<'_>,
    writer: &mut Writer<'_>,
    shaped: &StructuredBody,
) -> Result<(), Failure> {
    let spot = CodePosition {
        around: *around,
        shaped,
        following: None,
        turn: BackEdge::Nop,
    };
    emit_list(alloc, shaped.list.as_slice(), code, writer, spot)
}

/// Emits the code of a list, after which the block of the position begins.
#[cycle(structured)]
fn emit_list(
    alloc: Global,
    list: &[Region],
    code: &mut Items<Instr>,
    writer: &mut Writer<'_>,
    spot: CodePosition<'_>,
) -> Result<(), Failure> {
    let mut turn = spot.turn;
    for (place, shape) in list.iter().enumerate() {
        let rest = list.get(place.saturating_add(1)..).unwrap_or(&[]);
        let following = block_after(rest, spot.following);
        let here = CodePosition {
            following,
            turn,
            ..spot
        };
        emit_piece(alloc, shape, code, writer, here)?;
        turn = BackEdge::Nop;
    }
    Ok(())
}

#[cycle(structured)]
fn emit_piece(
    alloc: Global,
    shape: &Region,
    code: &mut Items<Instr>,
    writer: &mut Writer<'_>,
    spot: CodePosition<'_>,
) -> Result<(), Failure> {
    match shape {
        Region::Basic(block) => emit_block(alloc, code, writer, spot, *block),
        Region::If(block, list) => emit_if(alloc, list.as_slice(), code, writer, spot, *block),
        Region::LabelledBlock(list) => {
            let list = list.as_slice();
            let body = labelled(alloc, list, writer, spot, spot.following, spot.following)?;
            Ok(code.push(Instr::block_of(alloc, None, body)?)?)
        }
        Region::Loop(list) => {
            let list = list.as_slice();
            let body = labelled(alloc, list, writer, spot, first_of(list), None)?;
            Ok(code.push(Instr::loop_of(alloc, None, body)?)?)
        }
        Region::Dispatch => emit_entries(alloc, code, writer, spot),
    }
}

/// The code of a list inside something whose label is that of a block.
#[cycle(structured)]
fn labelled(
    alloc: Global,
    list: &[Region],
    writer: &mut Writer<'_>,
    spot: CodePosition<'_>,
    label: Option<u32>,
    following: Option<u32>,
) -> Result<Items<Instr>, Failure> {
    let depth = spot.around.nesting.depth();
    let before = writer.set_label(label, Some(depth))?;
    let code = inside(alloc, list, writer, spot, following)?;
    writer.set_label(label, before)?;
    Ok(code)
}

/// The code of a list one block of code further in.
#[cycle(structured)]
fn inside(
    alloc: Global,
    list: &[Region],
    writer: &mut Writer<'_>,
    spot: CodePosition<'_>,
    following: Option<u32>,
) -> Result<Items<Instr>, Failure> {
    let inner = CodePosition {
        around: spot.around.further_in()?,
        shaped: spot.shaped,
        following,
        turn: BackEdge::Edge,
    };
    let mut code = Items::new(alloc);
    emit_list(alloc, list, &mut code, writer, inner)?;
    Ok(code)
}

/// Emits a block with a branch whose side for where the test holds is inside.
#[cycle(structured)]
fn emit_if(
    alloc: Global,
    list: &[Region],
    code: &mut Items<Instr>,
    writer: &mut Writer<'_>,
    spot: CodePosition<'_>,
    number: u32,
) -> Result<(), Failure> {
    let block = known(
        spot.around.body.blocks.get(number as usize),
        Invariant::CfgNumber,
    )?;
    let Terminator::Branch { test, yes: _, no } = block.exit else {
        return broken(Invariant::ExcludedForm);
    };
    writer.emit_steps(alloc, code, &spot.around, number, block, spot.turn)?;
    let here = EmitContext {
        readings: writer.readings(),
        labels: writer.labels(),
        ..spot.around
    };
    emit_test(code, &here, test)?;
    let side = inside(alloc, list, writer, spot, None)?;
    code.push(Instr::if_of(alloc, None, side, Items::new(alloc))?)?;
    emit_transfer(code, writer, spot, no)
}

/// Emits a block.
fn emit_block(
    alloc: Global,
    code: &mut Items<Instr>,
    writer: &mut Writer<'_>,
    spot: CodePosition<'_>,
    number: u32,
) -> Result<(), Failure> {
    let block = known(
        spot.around.body.blocks.get(number as usize),
        Invariant::CfgNumber,
    )?;
    let decided = writer.emit_steps(alloc, code, &spot.around, number, block, spot.turn)?;
    let here = EmitContext {
        readings: writer.readings(),
        labels: writer.labels(),
        ..spot.around
    };
    match &block.exit {
        Terminator::Jump(to) => emit_transfer(code, writer, spot, *to),
        Terminator::Branch { no, .. } if decided => emit_transfer(code, writer, spot, *no),
        Terminator::Branch { test, yes, no } => {
            emit_test(code, &here, *test)?;
            emit_branch(alloc, code, writer, spot, *yes, *no)
        }
        exit => emit_leaving(alloc, code, &here, exit),
    }
}

/// Emits the transfer to a block: nothing where it begins after this point, and else a jump.
fn emit_transfer(
    code: &mut Items<Instr>,
    writer: &Writer<'_>,
    spot: CodePosition<'_>,
    block: u32,
) -> Result<(), Failure> {
    if spot.following == Some(block) {
        return Ok(());
    }
    let here = EmitContext {
        readings: writer.readings(),
        labels: writer.labels(),
        ..spot.around
    };
    emit_jump(code, &here, block)
}

/// Emits what follows the test of a branch: a jump for a side, so that the other one falls through.
fn emit_branch(
    alloc: Global,
    code: &mut Items<Instr>,
    writer: &Writer<'_>,
    spot: CodePosition<'_>,
    yes: u32,
    no: u32,
) -> Result<(), Failure> {
    let here = EmitContext {
        readings: writer.readings(),
        labels: writer.labels(),
        ..spot.around
    };
    if spot.following == Some(yes) {
        emit_negation(code)?;
        return emit_jump_where(alloc, code, &here, no);
    }
    emit_jump_where(alloc, code, &here, yes)?;
    emit_transfer(code, writer, spot, no)
}

/// Emits a jump to a block, for where the test holds.
fn emit_jump_where(
    alloc: Global,
    code: &mut Items<Instr>,
    around: &EmitContext<'_>,
    block: u32,
) -> Result<(), Failure> {
    if let Some(Jump::Label(depth)) = jump_to(around, block) {
        return Ok(code.push(Instr::BrIf(around.nesting.label(depth)?))?);
    }
    let mut jump = Items::new(alloc);
    emit_jump(&mut jump, &around.further_in()?, block)?;
    code.push(Instr::if_of(alloc, None, jump, Items::new(alloc))?)?;
    Ok(())
}

/// Emits the dispatch between the blocks in which the body begins and resumes.
fn emit_entries(
    alloc: Global,
    code: &mut Items<Instr>,
    writer: &Writer<'_>,
    spot: CodePosition<'_>,
) -> Result<(), Failure> {
    let around = EmitContext {
        readings: writer.readings(),
        labels: writer.labels(),
        ..spot.around
    };
    if spot.shaped.repeats() {
        return emit_dispatch_again(alloc, code, &around, spot.shaped, spot.following);
    }
    emit_dispatch(alloc, code, &around, spot.shaped)?;
    emit_transfer(code, writer, spot, 0)
}
