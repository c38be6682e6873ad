//! Whether a module is confined: how much memory it can take, and which of its parts the host can reach.

ghost use Rattle.std.specs.Prelude.{◌≡◌, ◌≤◌, ◌*◌, true, Some};
ghost use Rattle.sa_correctness.specs.Confined as are;

use wa_syntax::{Export, ExportKind, Limits, Module};

/// The size of a page in KiB.
const PAGE: u64 = 64;

/// Whether the memory of a module has at least this room in KiB and never grows, nothing runs before `main`, and nothing but `main` and the
/// memory is exported.
pub(crate) fn is_confined(module: &Module, room: u32) -> bool
    ensures { result ≡ true → are.IsConfined room «module».now }
{
    has_room(module, room) && module.start.is_none() && exports_main(module)
}

/// Whether a module has exactly one memory, which never grows, and which has at least this room in KiB.
fn has_room(module: &Module, room: u32) -> bool
    ensures { result ≡ true → are.HasRoom room «module».now }
{
    match module.memories.as_slice() {
        [memory] => is_fixed(memory) && holds(memory, room),
        _ => false,
    }
}

/// Whether a memory has as many pages at its start as it may ever have.
fn is_fixed(memory: &Limits) -> bool
    ensures { result ≡ true → memory.now.max ≡ Some memory.now.min }
{
    memory.max == Some(memory.min)
}

/// Whether a memory has at least this room in KiB at its start.
fn holds(memory: &Limits, room: u32) -> bool
    ensures { result ≡ true → room ≤ memory.now.min * 64 }
{
    u64::from(room) <= u64::from(memory.min) * PAGE
}

/// Whether a module exports `main` and its memory, and nothing else.
fn exports_main(module: &Module) -> bool
    ensures { result ≡ true → are.ExportsMain «module».now }
{
    match module.exports.as_slice() {
        [first, second] => is_main(first) && is_memory(second),
        _ => false,
    }
}

/// Whether an export is `main`, a function.
fn is_main(export: &Export) -> bool
    ensures { result ≡ true → are.IsMain export.now }
{
    match export.kind {
        ExportKind::Func(_) => export.name.as_slice() == b"main".as_slice(),
        _ => false,
    }
}

/// Whether an export is `memory`, the memory.
fn is_memory(export: &Export) -> bool
    ensures { result ≡ true → are.IsMemory export.now }
{
    match export.kind {
        ExportKind::Memory(0) => export.name.as_slice() == b"memory".as_slice(),
        _ => false,
    }
}
