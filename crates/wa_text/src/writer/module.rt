//! Modules.

ghost use Rattle.std.specs.Prelude.{◌≡◌, ℕ, ◌<◌, List, slice_index, IfOk, OnOk};
ghost use Rattle.wa_syntax.specs.Binary.{SpellsModule};
ghost use Rattle.wa_text.specs.Listing.{IsListing, module_lines};
ghost use Rattle.wa_text.specs.Writing.{AddsLines};

use crate::writer::items::{
    element, export, function, global, import, memory, segment, start, table,
};
use crate::writer::types::function_type;
use crate::writer::words::each;
use std::alloc::Global;
use wa_syntax::{Module, NoMemory};

/// The listing of a module: a line for each item, in the order of the module's fields, and one for each instruction.
///
/// `NoMemory` comes where memory runs out.
pub fn write(alloc: Global, m: &Module) -> Result<Vec<u8>, NoMemory>
    // The text is the listing of the module, if some bytes spell this.
    ensures listed { IfOk result (λ text. (bytes : List ℕ) → ((i : ℕ) → slice_index bytes i < 256) → SpellsModule bytes m.now
        → IsListing text.items m.now) }
    // No other text is.
    ensures only { IfOk result (λ text. (other : List ℕ) → IsListing other m.now → other ≡ text.items) }
{
    let mut out = Vec::new(alloc);
    module(&mut out, m)?;
    Ok(out)
}

/// The lines of a module.
fn module(out: &mut Vec<u8>, m: &Module) -> Result<(), NoMemory>
    ensures { OnOk result (AddsLines (module_lines m.now) out.old.items out.new.items) }
{
    each(out, m.types.as_slice(), function_type)?;
    each(out, m.imports.as_slice(), import)?;
    each(out, m.funcs.as_slice(), function)?;
    each(out, m.tables.as_slice(), table)?;
    each(out, m.memories.as_slice(), memory)?;
    each(out, m.globals.as_slice(), global)?;
    each(out, m.exports.as_slice(), export)?;
    start(out, m.start)?;
    each(out, m.elems.as_slice(), element)?;
    each(out, m.segments.as_slice(), segment)
}
