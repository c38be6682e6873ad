//! The literal texts as they are in memory when a program begins: one segment, with a text object for each.

use crate::reachability::Reachable;
use crate::sums::number;
use failure::Failure;
use sa_ast::Name;
use sa_cfg::CfgProgram;
use sa_runtime::layout::{STR, TEXT, header};
use sqlite_items::Items;
use std::alloc::Global;
use wa_syntax::{DataSegment, Init};

/// The bytes of a word.
const WORD: usize = 8;

/// The segment of the texts that are reached, from this address on: none where there are none.
pub(crate) fn segments(
    alloc: Global,
    flat: &CfgProgram,
    reached: &Reachable,
    texts_at: u32,
) -> Result<Items<DataSegment>, Failure> {
    let mut segments = Items::new(alloc);
    let bytes = texts(alloc, flat.texts.as_slice(), &reached.texts)?;
    if !bytes.is_empty() {
        segments.push(DataSegment {
            memory: 0,
            offset: Init::Const32(texts_at),
            bytes,
        })?;
    }
    Ok(segments)
}

/// The objects of the texts that are reached, one after the other.
fn texts(alloc: Global, list: &[Name], reached: &[bool]) -> Result<Items<u8>, Failure> {
    let mut bytes = Vec::new(alloc);
    for (text, is_reached) in list.iter().zip(reached.iter()) {
        if *is_reached {
            add_text(&mut bytes, text.as_slice())?;
        }
    }
    Ok(Items::from_vec(bytes))
}

/// Appends a text object: its header, its bytes, and zeros up to a whole word.
fn add_text(to: &mut Vec<u8>, text: &[u8]) -> Result<(), Failure> {
    let header = header(STR, TEXT, number(text.len())?);
    to.extend_from_slice(&header.to_le_bytes())?;
    to.extend_from_slice(text)?;
    for _ in 0..(WORD - text.len() % WORD) % WORD {
        to.push(0)?;
    }
    Ok(())
}
