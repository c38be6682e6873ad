//! Values (section 5.2) and vectors (section 5.1.3).

ghost use Rattle.std.specs.Prelude.{OnOk};
ghost use Rattle.wa_syntax.specs.Formats.{byte, u32};
ghost use Rattle.wa_syntax.specs.Leb128.{Appends};
ghost use Rattle.wa_encode.specs.Spelling.{IsNumber, IsCounted, Adds, AddsVector, Leaves};

use wa_syntax::{NoMemory, WasmName, write_u32};

/// A byte (5.2.1), as an opcode (5.4).
pub fn byte(out: &mut Vec<u8>, value: u8) -> Result<(), NoMemory>
    ensures { OnOk result (Adds (byte value) out.old.items out.new.items) }
{
    out.push(value)?;
    Ok(())
}

/// A number without a sign (5.2.2), as the index of a type, a function or a label (5.4.1, 5.5.1).
pub fn number(out: &mut Vec<u8>, n: &u32) -> Result<(), NoMemory>
    ensures { OnOk result (Adds (u32 n.now) out.old.items out.new.items) }
{
    write_u32(out, *n)
}

/// How many entries or bytes follow. `NoMemory` comes too where 32 bits can't hold it.
pub fn count(out: &mut Vec<u8>, n: usize) -> Result<(), NoMemory>
    ensures { OnOk result (Appends IsNumber out.old.items out.new.items n) }
{
    let n = u32::try_from(n).map_err(|_| NoMemory)?;
    write_u32(out, n)
}

/// A vector (5.1.3): how many entries there are, and the entries one after another.
pub fn vector<T, F>(out: &mut Vec<u8>, entries: &[T], entry: F) -> Result<(), NoMemory>
where
    F: Fn(&mut Vec<u8>, &T) -> Result<(), NoMemory>,
    requires callable { F.IsAlwaysCallable entry }
    ensures { OnOk result (AddsVector (Leaves (F.post entry)) out.old.items out.new.items entries.now) }
{
    count(out, entries.len())?;
    for value in entries {
        entry(out, value)?;
    }
    Ok(())
}

/// Bytes after their count: a vector of bytes (5.2.1), or a part with its size before it (5.5.2, 5.5.13).
pub fn bytes(out: &mut Vec<u8>, content: &[u8]) -> Result<(), NoMemory>
    ensures { OnOk result (Appends IsCounted out.old.items out.new.items content.now) }
{
    count(out, content.len())?;
    out.extend_from_slice(content)?;
    Ok(())
}

/// A name (5.2.4).
pub fn name(out: &mut Vec<u8>, name: &WasmName) -> Result<(), NoMemory>
    ensures { OnOk result (Appends IsCounted out.old.items out.new.items name.now) }
{
    bytes(out, name.as_slice())
}
