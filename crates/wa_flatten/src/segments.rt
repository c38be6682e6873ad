//! Where segments begin, and whether they fit (section 4.5.4 of the WebAssembly Core Specification 1.0): none is written
//! unless all do.

ghost use Rattle.std.specs.Prelude.{◌≡◌, ◌↔◌, ◌+◌, ◌^◌, ◌<◌, ◌≤◌, All, IsTrue, [], length, slice_get};
ghost use Rattle.wa_syntax.specs.Runs.{SegmentsFit, init_value, least, memory_size, offset_of, table_size};

use crate::instance::PAGE;
use wa_syntax::{Init, Limits, Module};

/// The value of a constant expression, as the bits of its type. One that reads a global reads an imported one, and there is
/// none.
pub(crate) fn value(init: Init) -> u64
    ensures { result ≡ init_value [] init }
{
    match init {
        Init::Const32(bits) => u64::from(bits),
        Init::Const64(bits) => bits,
        Init::Global(_) => 0,
    }
}

/// Where a segment begins: its offset may read a global of the module's own, and is 0 where there is none of this index.
pub(crate) fn offset(m: &Module, init: Init) -> usize
    ensures { result ≡ offset_of m.now init }
{
    match init {
        Init::Const32(bits) => bits as usize,
        Init::Const64(bits) => bits as usize,
        Init::Global(at) => match m.globals.get(at as usize) {
            Some(global) => value(global.init) as usize,
            None => 0,
        },
    }
}

/// The least number of elements or pages, and 0 where there is no table or memory.
pub(crate) fn least(limits: &[Limits]) -> usize
    ensures least { result ≡ least (slice_get limits.now 0) }
    ensures below { result < 2 ^ 32 }
{
    match limits.first() {
        Some(limits) => limits.min as usize,
        None => 0,
    }
}

/// Whether no segment of a valid module goes past the end of its table or its memory. Neither is made for it.
pub fn segments_fit(m: &Module) -> bool
    ensures { IsTrue result ↔ SegmentsFit m.now }
{
    elems_fit(m) && data_fits(m)
}

/// Whether so many entries fit into an array of this length, from an index on.
fn fits(from: usize, count: usize, len: usize) -> bool
    ensures { IsTrue result ↔ (from + count ≤ len) }
{
    match from.checked_add(count) {
        Some(end) => end <= len,
        None => false,
    }
}

/// Whether the segments of the table fit.
fn elems_fit(m: &Module) -> bool
    ensures { IsTrue result ↔ All (λ elem. offset_of m.now elem.offset + length elem.funcs ≤ table_size m.now) m.now.elems }
{
    let size = least(m.tables.as_slice());
    for elem in m.elems.as_slice() {
        if !fits(offset(m, elem.offset), elem.funcs.len(), size) {
            return false;
        }
    }
    true
}

/// Whether the segments of the memory fit.
fn data_fits(m: &Module) -> bool
    ensures { IsTrue result ↔ All (λ segment. offset_of m.now segment.offset + length segment.bytes ≤ memory_size m.now) m.now.segments }
{
    let size = least(m.memories.as_slice()) * PAGE;
    for segment in m.segments.as_slice() {
        if !fits(offset(m, segment.offset), segment.bytes.len(), size) {
            return false;
        }
    }
    true
}
