//! The codes of functions.

use crate::blocks::{Blocks, ControlFrame};
use crate::entries::read_value_type;
use crate::error::{FormatError, FormatErrorKind, ModulePart};
use crate::instruction::read_simple;
use crate::reader::Reader;
use wa_syntax::opcode::{BLOCK, ELSE, END, IF, LOOP};

/// The most locals that a function may declare.
const MOST_LOCALS: u64 = 1_000_000;

/// The code section: the codes of so many functions.
pub(crate) fn read_bodies(reader: &mut Reader<'_>, functions: u32) -> Result<(), FormatError> {
    let wrong_count = reader.error(FormatErrorKind::CodeCount);
    if reader.number()? != functions {
        return Err(wrong_count);
    }
    for number in 0..functions {
        let cut = reader.error(FormatErrorKind::BodyEnd);
        let mut body = reader.sized(ModulePart::Body(number), cut)?;
        read_locals(&mut body)?;
        read_instructions(&mut body)?;
        body.end()?;
    }
    Ok(())
}

/// The locals of a function.
fn read_locals(reader: &mut Reader<'_>) -> Result<(), FormatError> {
    let too_many = reader.error(FormatErrorKind::Locals);
    let runs = reader.number()?;
    let mut locals = 0u64;
    for _ in 0..runs {
        locals = locals.saturating_add(u64::from(reader.number()?));
        read_value_type(reader)?;
    }
    if locals > MOST_LOCALS {
        return Err(too_many);
    }
    Ok(())
}

/// Instructions, and the end of the last block that is open.
fn read_instructions(reader: &mut Reader<'_>) -> Result<(), FormatError> {
    let mut blocks = Blocks::none();
    // An instruction takes a byte at least.
    for _ in 0..reader.left() {
        if is_last(reader, &mut blocks)? {
            return Ok(());
        }
    }
    Err(reader.error(FormatErrorKind::UnexpectedEnd))
}

/// Reads an instruction, or what begins or ends one that holds others, and gives whether it ends the function.
fn is_last(reader: &mut Reader<'_>, blocks: &mut Blocks) -> Result<bool, FormatError> {
    let at = reader.at();
    match reader.byte()? {
        BLOCK | LOOP => begin(reader, blocks, ControlFrame::Block, at)?,
        IF => begin(reader, blocks, ControlFrame::If, at)?,
        ELSE => {
            if blocks.finish() != Some(ControlFrame::If)
                || blocks.begin(ControlFrame::Block).is_none()
            {
                return Err(reader.error_at(at, FormatErrorKind::If));
            }
        }
        END => return Ok(blocks.finish().is_none()),
        opcode => read_simple(reader, opcode, at)?,
    }
    Ok(false)
}

/// Opens a block, whose type follows.
fn begin(
    reader: &mut Reader<'_>,
    blocks: &mut Blocks,
    block: ControlFrame,
    at: usize,
) -> Result<(), FormatError> {
    if blocks.begin(block).is_none() {
        return Err(reader.error_at(at, FormatErrorKind::Nesting));
    }
    read_block_type(reader)
}

fn read_block_type(reader: &mut Reader<'_>) -> Result<(), FormatError> {
    let at = reader.at();
    match reader.byte()? {
        0x40 | 0x7e | 0x7f => Ok(()),
        0x7c | 0x7d => Err(reader.error_at(at, FormatErrorKind::FloatingPoint)),
        _ => Err(reader.error_at(at, FormatErrorKind::BlockType)),
    }
}
