//! Instantiation (section 4.5.4 of the WebAssembly Core Specification 1.0): what the globals, the table and the memory of a
//! module begin with.

ghost use Rattle.std.specs.Prelude.{◌≡◌, ◌+◌, ◌≤◌, IfOk, OnOk, Err, Some, [], length, map};
ghost use Rattle.wa_flatten.specs.declared.instance.InstanceFault.{InstanceFault};
ghost use Rattle.wa_syntax.specs.Operations.{overwritten};
ghost use Rattle.wa_syntax.specs.Runs.{SegmentsFit, first_globals, first_memory, first_table, init_value};
ghost use Rattle.wa_syntax.specs.Steps.{most_pages};

use crate::segments::{least, offset, segments_fit, value};
use crate::table::TableInstance;
use std::alloc::{AllocError, AllocFailed, Global};
use thiserror::Error;
use wa_syntax::{ElemSegment, GlobalDef, Module, NoMemory};
use wa_valid::Valid;

/// Bytes in a page of the linear memory.
pub const PAGE: usize = 65_536;

/// What the globals, the table and the memory of a module begin with. A module without a table or a memory has an empty one.
#[derive(Drop)]
pub struct ModuleInstance {
    /// The values of the module's own globals, each as the bits of its type.
    pub globals: Vec<u64>,
    /// The functions in the table.
    pub table: TableInstance,
    /// The bytes of the memory.
    pub bytes: Vec<u8>,
    /// The most pages that the memory may have.
    pub most_pages: usize,
}

/// Why a module has no instance.
#[derive(Clone, Copy, Debug, PartialEq, Eq, Error)]
pub enum InstanceFault {
    /// A segment goes past the end of the table or the memory.
    #[error("a segment doesn't fit")]
    Segment,
    #[error("out of memory")]
    NoMemory,
}

impl From<AllocError> for InstanceFault {
    ghost from_gives = { λ _ e. e ≡ InstanceFault.NoMemory };

    fn from(_: AllocError) -> InstanceFault {
        InstanceFault::NoMemory
    }
}

impl<T: Drop> From<AllocFailed<T>> for InstanceFault {
    ghost from_gives = { λ _ e. e ≡ InstanceFault.NoMemory };

    fn from(_: AllocFailed<T>) -> InstanceFault {
        InstanceFault::NoMemory
    }
}

impl From<NoMemory> for InstanceFault {
    ghost from_gives = { λ _ e. e ≡ InstanceFault.NoMemory };

    fn from(_: NoMemory) -> InstanceFault {
        InstanceFault::NoMemory
    }
}

impl ModuleInstance {
    /// What a module begins with. It has no imported table, memory or global.
    ///
    /// # Errors
    ///
    /// `Segment` where a segment goes past the end of the table or the memory, and `NoMemory`.
    pub fn new(alloc: Global, v: &Valid) -> Result<ModuleInstance, InstanceFault>
        ensures globals { IfOk result (λ instance. instance.globals.items ≡ first_globals v.now) }
        ensures table { IfOk result (λ instance. instance.table ≡ first_table v.now) }
        ensures memory { IfOk result (λ instance. instance.bytes.items ≡ first_memory v.now) }
        ensures most_pages { IfOk result (λ instance. instance.most_pages ≡ most_pages v.now) }
        ensures fit { IfOk result (λ instance. SegmentsFit v.now) }
        ensures segment { result ≡ Err InstanceFault.Segment → ¬ SegmentsFit v.now }
    {
        let module = v.module();
        if !segments_fit(module) {
            return Err(InstanceFault::Segment);
        }
        Ok(ModuleInstance {
            globals: globals(alloc, module.globals.as_slice())?,
            table: table(alloc, module)?,
            bytes: memory(alloc, module)?,
            most_pages: most_pages(module),
        })
    }
}

/// The globals with their initial values, none of which reads another one: only imported globals may be read there.
fn globals(alloc: Global, defs: &[GlobalDef]) -> Result<Vec<u64>, AllocError>
    ensures { IfOk result (λ globals. globals.items ≡ map (λ global. init_value [] global.init) defs.now) }
{
    let mut globals = Vec::new(alloc);
    for def in defs {
        globals.push(value(def.init))?;
    }
    Ok(globals)
}

/// The most pages that the memory may have, and 0 where there is none.
fn most_pages(m: &Module) -> usize
    ensures { result ≡ most_pages m.now }
{
    match m.memories.as_slice().first() {
        Some(limits) => (limits.max.unwrap_or(65_536) as usize).min(PAGE),
        None => 0,
    }
}

/// The number of the place that is so far behind another one. One that no `u32` numbers is taken as want of memory.
fn place_behind(from: usize, i: usize) -> Result<u32, NoMemory>
    ensures { IfOk result (λ at. at ≡ from + i) }
{
    let Some(place) = from.checked_add(i) else {
        return Err(NoMemory);
    };
    u32::try_from(place).map_err(|_| NoMemory)
}

/// Puts functions into the table, from an index on.
fn put_all(table: &mut TableInstance, from: usize, funcs: &[u32]) -> Result<(), NoMemory>
    requires { from + length funcs.now ≤ length table.old }
    ensures put { OnOk result (table.new ≡ overwritten table.old from (map (λ func. Some func) funcs.now)) }
    ensures size { length table.new ≡ length table.old }
{
    for (i, func) in funcs.iter().enumerate() {
        table.put(place_behind(from, i)?, *func)?;
    }
    Ok(())
}

/// How many elements the segments fill, those that are filled twice counted twice.
fn filled(elems: &[ElemSegment]) -> usize {
    let mut filled: usize = 0;
    for elem in elems {
        filled = filled.saturating_add(elem.funcs.len());
    }
    filled
}

/// The table with the functions of its segments.
fn table(alloc: Global, m: &Module) -> Result<TableInstance, NoMemory>
    requires { SegmentsFit m.now }
    ensures { IfOk result (λ table. table ≡ first_table m.now) }
{
    let elems = m.elems.as_slice();
    let mut table = TableInstance::new(alloc, least(m.tables.as_slice()), filled(elems))?;
    for elem in elems {
        put_all(&mut table, offset(m, elem.offset), elem.funcs.as_slice())?;
    }
    Ok(table)
}

/// Puts bytes into the memory, from an address on.
fn put_bytes(memory: &mut [u8], from: usize, bytes: &[u8])
    requires { from + length bytes.now ≤ length memory.old }
    ensures { memory.new ≡ overwritten memory.old from bytes.now }
{
    memory[from..from + bytes.len()].copy_from_slice(bytes);
}

/// The memory with the bytes of its segments.
fn memory(alloc: Global, m: &Module) -> Result<Vec<u8>, AllocError>
    requires { SegmentsFit m.now }
    ensures { IfOk result (λ bytes. bytes.items ≡ first_memory m.now) }
{
    let mut bytes = Vec::new(alloc);
    bytes.resize(least(m.memories.as_slice()) * PAGE, 0)?;
    for segment in m.segments.as_slice() {
        let from = offset(m, segment.offset);
        put_bytes(bytes.as_mut_slice(), from, segment.bytes.as_slice());
    }
    Ok(bytes)
}
