//! The linear memory: where the binds, the pool of frames, the literal texts and the objects are, and how many pages there are.

use crate::pool::pool_bytes;
use crate::reachability::Reachable;
use failure::{Failure, Invariant, known, limit};
use sa_ast::Name;
use sa_cfg::{BoundLayout, CfgProgram};
use sa_runtime::layout::{OPEN_AT, SHAREDS_AT};
use sqlite_items::Items;
use std::alloc::Global;
use wa_syntax::Limits;

/// The bytes of a word.
const WORD: u64 = 8;

/// The bytes of a page.
const PAGE: u64 = 65_536;

/// How many pages addresses of 32 bits reach.
const MOST_PAGES: u64 = 65_536;

/// The bytes of a unit of the room.
const KIB: u64 = 1024;

/// The layout of the memory. All addresses are multiples of 8.
#[derive(Drop)]
pub(crate) struct Memory {
    /// The address of each bind.
    pub entries: Items<u32>,
    /// The address of the pool of frames.
    pub pool: u32,
    /// How many bytes a frame takes.
    pub slot_bytes: u32,
    /// The address of the first text.
    pub texts_at: u32,
    /// The address of each text.
    pub texts: Items<u32>,
    /// The address of the first object.
    pub base: u32,
    /// The size of the memory.
    pub pages: Limits,
}

/// The memory of a program: the shareds after the arguments, then the binds, the pool of frames of so many bytes each, the texts, and the
/// objects, which have so many KiB.
pub(crate) fn memory_of(
    alloc: Global,
    flat: &CfgProgram,
    reached: &Reachable,
    slot_bytes: u32,
    room: u32,
) -> Result<Memory, Failure> {
    let shareds = known(
        (flat.shareds.len() as u64).checked_mul(WORD),
        Invariant::CfgNumber,
    )?;
    let shareds_end = known(
        shareds.checked_add(u64::from(SHAREDS_AT)),
        Invariant::CfgNumber,
    )?;
    let entries = laid_binds(alloc, shareds_end, flat.binds.as_slice())?;
    let texts_at = known(
        entries.end.checked_add(pool_bytes(slot_bytes)),
        Invariant::CfgNumber,
    )?;
    let texts = laid_texts(alloc, texts_at, flat.texts.as_slice(), &reached.texts)?;
    Ok(Memory {
        pool: address(entries.end)?,
        entries: entries.addresses,
        slot_bytes,
        texts_at: address(texts_at)?,
        base: address(texts.end)?,
        pages: pages(texts.end, room)?,
        texts: texts.addresses,
    })
}

/// A sequence of things in memory, one after the other.
#[derive(Drop)]
struct Run {
    /// The address of each.
    addresses: Items<u32>,
    /// The address after the last.
    end: u64,
}

impl Run {
    /// Adds a thing of so many bytes.
    fn add(&mut self, bytes: u64) -> Result<(), Failure> {
        self.addresses.push(address(self.end)?)?;
        self.end = known(self.end.checked_add(bytes), Invariant::CfgNumber)?;
        Ok(())
    }
}

/// A run of nothing at this address.
fn run_at(alloc: Global, at: u64) -> Run {
    Run {
        addresses: Items::new(alloc),
        end: at,
    }
}

/// The binds from this address on.
fn laid_binds(alloc: Global, at: u64, binds: &[BoundLayout]) -> Result<Run, Failure> {
    let mut run = run_at(alloc, at);
    for bind in binds {
        run.add(size_of(u64::from(OPEN_AT), bind.open.len())?)?;
    }
    Ok(run)
}

/// The texts that are reached from this address on. The others take no room.
fn laid_texts(alloc: Global, at: u64, texts: &[Name], reached: &[bool]) -> Result<Run, Failure> {
    let mut run = run_at(alloc, at);
    for (text, is_reached) in texts.iter().zip(reached.iter()) {
        let size = size_of(WORD, text.as_slice().len())?;
        run.add(if *is_reached { size } else { 0 })?;
    }
    Ok(run)
}

/// An address as a number of the module.
fn address(at: u64) -> Result<u32, Failure> {
    match u32::try_from(at) {
        Ok(at) => Ok(at),
        Err(_) => limit(),
    }
}

/// How many bytes a head of so many bytes takes with the bytes after it in whole words.
fn size_of(head: u64, length: usize) -> Result<u64, Failure> {
    let bytes = known(
        (length as u64).checked_next_multiple_of(WORD),
        Invariant::CfgNumber,
    )?;
    known(bytes.checked_add(head), Invariant::CfgNumber)
}

/// The pages that contain the objects from `base` on. The memory never grows.
fn pages(base: u64, room: u32) -> Result<Limits, Failure> {
    let end = known(
        base.checked_add(u64::from(room) * KIB),
        Invariant::CfgNumber,
    )?;
    let count = end.div_ceil(PAGE);
    if count > MOST_PAGES {
        return limit();
    }
    Ok(Limits {
        min: count as u32,
        max: Some(count as u32),
    })
}
