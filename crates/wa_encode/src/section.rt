//! Sections (section 5.5.2).

ghost use Rattle.std.specs.Prelude.{OnOk};
ghost use Rattle.wa_syntax.specs.Leb128.{Appends};
ghost use Rattle.wa_encode.specs.Spelling.{IsSection, AddsVectorSection, Leaves};

use crate::value::{bytes, vector};
use std::alloc::Global;
use wa_syntax::NoMemory;

/// A section: its id, the length of its content, and the content.
pub fn section(out: &mut Vec<u8>, id: u8, content: &[u8]) -> Result<(), NoMemory>
    ensures { OnOk result (Appends (IsSection id) out.old.items out.new.items content.now) }
{
    out.push(id)?;
    bytes(out, content)
}

/// A section whose content is a vector. One without entries is omitted.
pub fn vector_section<T, F>(
    alloc: Global,
    out: &mut Vec<u8>,
    id: u8,
    entries: &[T],
    entry: F,
) -> Result<(), NoMemory>
where
    F: Fn(&mut Vec<u8>, &T) -> Result<(), NoMemory>,
    requires callable { F.IsAlwaysCallable entry }
    ensures { OnOk result (AddsVectorSection (Leaves (F.post entry)) id out.old.items out.new.items entries.now) }
{
    if entries.is_empty() {
        return Ok(());
    }
    let mut content = Vec::new(alloc);
    vector(&mut content, entries, entry)?;
    section(out, id, content.as_slice())
}
