//! The structured regions of bodies: blocks, loops and conditions inside one another, with the blocks of the control-flow graph in them.

use crate::cfg_body::{prints_body, put_head};
use crate::cfg_call::Cfg;
use crate::cfg_terminator::put_terminator;
use crate::symbols::Symbols;
use crate::writer::Writer;
use failure::Failure;
use sa_cfg::{CfgBody, CfgProgram};
use sa_structure::{Region, StructuredBody, structure_of};
use std::alloc::{AllocError, Global};

/// The structured regions of a program's bodies.
///
/// # Errors
///
/// `NoMemory`; `Broken` where a number of a body names no block.
pub fn dump_regions(
    alloc: Global,
    symbols: Symbols<'_>,
    program: &CfgProgram,
) -> Result<String, Failure> {
    let mut to = Writer::new(alloc);
    let cfg = Cfg { symbols, program };
    for (place, body) in program.bodies.as_slice().iter().enumerate() {
        if prints_body(symbols, body) {
            put_head(&mut to, cfg, place, body)?;
            put_regions(alloc, &mut to, cfg, body)?;
        }
    }
    let Writer { text, .. } = to;
    Ok(text)
}

/// The regions of a body one level deeper.
fn put_regions(
    alloc: Global,
    to: &mut Writer,
    cfg: Cfg<'_>,
    body: &CfgBody,
) -> Result<(), Failure> {
    to.deeper();
    match structure_of(alloc, body)? {
        Some(shaped) => put_shaped(to, cfg, body, &shaped)?,
        None => to.line("none: a table leads to each block")?,
    }
    to.shallower();
    Ok(())
}

/// The blocks in which a body begins and goes on, where there are several, and its regions.
fn put_shaped(
    to: &mut Writer,
    cfg: Cfg<'_>,
    body: &CfgBody,
    shaped: &StructuredBody,
) -> Result<(), AllocError> {
    let within = Within {
        cfg,
        body,
        entries: shaped.entries.as_slice(),
    };
    put_list(to, within, shaped.list.as_slice())
}

/// What regions stand in: a body, and the blocks in which it begins and goes on.
#[derive(Clone, Copy)]
struct Within<'a> {
    cfg: Cfg<'a>,
    body: &'a CfgBody,
    entries: &'a [u32],
}

/// Regions, one after the other.
#[cycle(write_regions)]
fn put_list(to: &mut Writer, within: Within<'_>, list: &[Region]) -> Result<(), AllocError> {
    for region in list {
        put_region(to, within, region)?;
    }
    Ok(())
}

/// A region, with those inside it one level deeper.
#[cycle(write_regions)]
fn put_region(to: &mut Writer, within: Within<'_>, region: &Region) -> Result<(), AllocError> {
    match region {
        Region::Basic(block) => put_block(to, within, "b", *block),
        Region::If(block, list) => {
            put_block(to, within, "if b", *block)?;
            to.deeper();
            put_list(to, within, list.as_slice())?;
            to.shallower();
            Ok(())
        }
        Region::LabelledBlock(list) => {
            to.line("block")?;
            to.deeper();
            put_list(to, within, list.as_slice())?;
            to.shallower();
            Ok(())
        }
        Region::Loop(list) => {
            to.line("loop")?;
            to.deeper();
            put_list(to, within, list.as_slice())?;
            to.shallower();
            Ok(())
        }
        Region::Dispatch => {
            to.begin("dispatch")?;
            for block in within.entries {
                within.cfg.put_block(to, *block)?;
            }
            to.end()
        }
    }
}

/// A block of the control-flow graph by its number and its terminator.
fn put_block(
    to: &mut Writer,
    within: Within<'_>,
    word: &str,
    number: u32,
) -> Result<(), AllocError> {
    to.begin("")?;
    to.numbered(word, number)?;
    if let Some(block) = within.body.blocks.as_slice().get(number as usize) {
        to.put(": ")?;
        put_terminator(to, within.cfg, &block.exit)?;
    }
    to.end()
}
