//! How the function of an iter's body begins or resumes: the dispatch between its blocks by the number in its frame.

use failure::{Failure, Invariant, broken, known};
use sa_cfg::{CfgBody, Terminator};
use sa_structure::StructuredBody;
use sa_templates::{
    EmitContext, emit_entry_prologue, emit_jump, emit_resume_prologue, emit_start_prologue,
    target_number,
};
use sqlite_items::Items;
use std::alloc::Global;
use wa_syntax::Instr;

/// Emits the prologue before code that is jumped back to: after it the number of the block in which the body continues is in its local, and
/// so is what a start or a resumption takes.
pub(crate) fn emit_before_dispatch(
    alloc: Global,
    code: &mut Items<Instr>,
    around: &EmitContext<'_>,
) -> Result<(), Failure> {
    emit_entry_prologue(code, around.body)?;
    code.push(Instr::LocalTee(around.block()))?;
    let mut resumption = Items::new(alloc);
    emit_resume_prologue(alloc, &mut resumption, around.body, around.keeping)?;
    let mut start = Items::new(alloc);
    emit_start_prologue(
        &mut start,
        around.body,
        around.keeping,
        only_resume(around)?,
    )?;
    code.push(Instr::if_of(alloc, None, resumption, start)?)?;
    Ok(())
}

/// Emits the dispatch that is made once: at a resumption it jumps to the block in which the body continues, and a start continues after it.
pub(crate) fn emit_dispatch(
    alloc: Global,
    code: &mut Items<Instr>,
    around: &EmitContext<'_>,
    shaped: &StructuredBody,
) -> Result<(), Failure> {
    let body = around.body;
    let inner = around.further_in()?;
    let mut resumption = Items::new(alloc);
    emit_resume_prologue(alloc, &mut resumption, body, around.keeping)?;
    emit_entry_prologue(code, body)?;
    match shaped.entries.as_slice() {
        [_, block] => emit_jump(&mut resumption, &inner, *block)?,
        _ => {
            code.push(Instr::LocalTee(around.block()))?;
            emit_table(alloc, &mut resumption, &inner, shaped, None)?;
        }
    }
    code.push(Instr::if_of(alloc, None, resumption, Items::new(alloc))?)?;
    emit_start_prologue(code, body, around.keeping, only_resume(around)?)
}

/// Emits the dispatch that is jumped back to. `following` is the block that begins after it.
pub(crate) fn emit_dispatch_again(
    alloc: Global,
    code: &mut Items<Instr>,
    around: &EmitContext<'_>,
    shaped: &StructuredBody,
    following: Option<u32>,
) -> Result<(), Failure> {
    let mut table = Items::new(alloc);
    emit_table(alloc, &mut table, &around.further_in()?, shaped, following)?;
    code.push(Instr::block_of(alloc, None, table)?)?;
    Ok(())
}

/// Emits the table of the blocks by their numbers. The one that begins after the block around it has the label 0.
fn emit_table(
    alloc: Global,
    code: &mut Items<Instr>,
    around: &EmitContext<'_>,
    shaped: &StructuredBody,
    following: Option<u32>,
) -> Result<(), Failure> {
    let mut labels = Items::new(alloc);
    let mut last = 0;
    for block in shaped.entries.as_slice() {
        last = label_of(around, *block, following)?;
        labels.push(last)?;
    }
    code.push(Instr::LocalGet(around.block()))?;
    code.push(Instr::br_table_of(alloc, labels, last)?)?;
    Ok(())
}

/// The label of a block in the table. Block 0 has none where a start doesn't reach the table.
fn label_of(around: &EmitContext<'_>, block: u32, following: Option<u32>) -> Result<u32, Failure> {
    if following == Some(block) {
        return Ok(0);
    }
    match known(
        around.labels.get(block as usize).copied(),
        Invariant::CfgNumber,
    )? {
        Some(depth) => around.nesting.label(depth),
        None if block == 0 => Ok(0),
        None => broken(Invariant::CfgNumber),
    }
}

/// The number of the block in which the body resumes after the suspension, where there is one alone.
fn only_resume(around: &EmitContext<'_>) -> Result<Option<u32>, Failure> {
    if around.keeping.suspensions != 1 {
        return Ok(None);
    }
    match resume_of(around.body) {
        Some(block) => Ok(Some(target_number(around, block)?)),
        None => Ok(None),
    }
}

fn resume_of(body: &CfgBody) -> Option<u32> {
    for block in body.blocks.as_slice() {
        if let Terminator::Suspend {
            value: _,
            resume: Some(to),
        } = block.exit
        {
            return Some(to);
        }
    }
    None
}
