//! Sources that are nearly right: each prefix of a source, and the source with each byte changed, left out or doubled. Each is checked, and
//! has to be accepted, or refused at a position in it, and nothing else.

use anyhow::Result;
use host_io::{MemSink, MemSource, MemStore};
use sa_driver::{Cause, sather};
use std::alloc::{AllocError, Global};

/// The bytes to which others are changed.
const SIGNS: &'static [u8] = b" \n()[]{},;:.=/<>+-*^~#|_$!\"'\\@\x00\xff0189aAzZ";

/// How many neighbours of a source are neither accepted nor refused at a position in them.
pub fn try_neighbours(alloc: Global, source: &[u8]) -> Result<u64> {
    let mut failed = 0u64;
    for at in 0..source.len() {
        let (front, rest) = source.split_at(at);
        let (byte, following) = rest.split_at(1);
        let sign = SIGNS.get(at % SIGNS.len()).copied().unwrap_or(b' ');
        let texts = [
            joined(alloc, [front, &[], &[]])?,
            joined(alloc, [front, &[sign], following])?,
            joined(alloc, [front, &[], following])?,
            joined(alloc, [front, byte, rest])?,
        ];
        for text in texts {
            if !is_answered(alloc, text)? {
                failed = failed.saturating_add(1);
            }
        }
    }
    Ok(failed)
}

fn joined(alloc: Global, parts: [&[u8]; 3]) -> Result<Vec<u8>, AllocError> {
    let mut text = Vec::new(alloc);
    for part in parts {
        text.extend_from_slice(part)?;
    }
    Ok(text)
}

/// Whether a source is accepted, or refused at a position in it.
fn is_answered(alloc: Global, source: Vec<u8>) -> Result<bool> {
    let length = source.len();
    let mut words = Vec::new(alloc);
    words.push(String::from_str(alloc, "check")?)?;
    words.push(String::from_str(alloc, "f.sa")?)?;
    let mut files = Vec::new(alloc);
    files.push((String::from_str(alloc, "f.sa")?, source))?;
    if !MemStore::names_differ(files.as_slice()) {
        return Ok(false);
    }
    let mut store = MemStore::new(files, Vec::new(alloc));
    let mut input = MemSource::new(Vec::new(alloc), Vec::new(alloc));
    let mut out = MemSink::new(alloc, Vec::new(alloc));
    let mut err = MemSink::new(alloc, Vec::new(alloc));
    let exit = sather(
        alloc,
        words.as_slice(),
        &mut store,
        &mut input,
        &mut out,
        &mut err,
    );
    Ok(match exit.cause {
        Cause::Done => true,
        Cause::Refused(refusal) => refusal.pos.file == 1 && refusal.pos.at as usize <= length,
        _ => false,
    })
}
