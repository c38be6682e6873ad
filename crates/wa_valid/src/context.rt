//! Contexts (section 3.1.1): what the parts of a module may name by index.

ghost use Rattle.std.specs.Prelude.{◌≡◌, ◌+◌, ◌≤◌, ◌++◌, length, map, filter_map, slice_get, Some, None, IfOk, IfErr, OnOk, option_to_list};
ghost use Rattle.wa_syntax.specs.ValidModule.{context_of, imported_function, imported_table, imported_memory, imported_global};
ghost use Rattle.wa_valid.specs.Names.{names};

use crate::fault::{Fault, ValidationRule};
use sqlite_items::Items;
use std::alloc::Global;
use wa_syntax::{Func, FuncTy, GlobalDef, GlobalTy, Import, ImportKind, Module};

/// What the parts of a module may name, the imported things first.
#[derive(Drop)]
pub struct Context<'m> {
    pub types: &'m [FuncTy],
    /// The type of each function, by its index.
    pub funcs: Items<u32>,
    /// How many tables there are.
    pub tables: usize,
    /// How many memories there are.
    pub memories: usize,
    pub globals: Items<GlobalTy>,
}

impl<'m> Context<'m> {
    /// What the parts of a module may name. Fails where memory runs out.
    pub fn new(alloc: Global, m: &'m Module) -> Result<Context<'m>, Fault>
        ensures ok { IfOk result (λ context. names context ≡ context_of m.now) }
        ensures err { IfErr result (λ fault. fault ≡ Fault.NoMemory) }
    {
        let imports = m.imports.as_slice();
        Ok(Context {
            types: m.types.as_slice(),
            funcs: functions(alloc, imports, m.funcs.as_slice())?,
            tables: together(imported_tables(imports), m.tables.len())?,
            memories: together(imported_memories(imports), m.memories.len())?,
            globals: globals(alloc, imports, m.globals.as_slice())?,
        })
    }

    /// The type with this index, if there is one.
    pub fn type_at(&self, ty: u32) -> Result<&'m FuncTy, Fault>
        ensures ok { IfOk result (λ found. slice_get self.now.types.now ty ≡ Some found.now) }
        ensures err { IfErr result (λ fault. (fault ≡ Fault.Invalid) × (slice_get self.now.types.now ty ≡ None)) }
    {
        match sqlite_items::at(self.types, ty as usize) {
            Some(found) => Ok(found),
            None => Err(Fault::Invalid),
        }
    }

    /// The index of the type of the function with this index, if there is one.
    pub fn func_type_number(&self, func: u32) -> Result<u32, Fault>
        ensures ok { IfOk result (λ found. slice_get self.now.funcs func ≡ Some found) }
        ensures err { IfErr result (λ fault. (fault ≡ Fault.Invalid) × (slice_get self.now.funcs func ≡ None)) }
    {
        match self.funcs.get(func as usize) {
            Some(found) => Ok(*found),
            None => Err(Fault::Invalid),
        }
    }

    /// The type of the global with this index, if there is one.
    pub fn global_type(&self, global: u32) -> Result<GlobalTy, Fault>
        ensures ok { IfOk result (λ found. slice_get self.now.globals global ≡ Some found) }
        ensures err { IfErr result (λ fault. (fault ≡ Fault.Invalid) × (slice_get self.now.globals global ≡ None)) }
    {
        match self.globals.get(global as usize) {
            Some(found) => Ok(*found),
            None => Err(Fault::Invalid),
        }
    }
}

/// How many there are together. A count that no memory holds is taken as want of memory.
fn together(imported: usize, own: usize) -> Result<usize, Fault>
    ensures ok { IfOk result (λ count. count ≡ imported + own) }
    ensures err { IfErr result (λ fault. fault ≡ Fault.NoMemory) }
{
    match imported.checked_add(own) {
        Some(count) => Ok(count),
        None => Err(Fault::NoMemory),
    }
}

/// The types of the functions, the imported ones first.
fn functions(alloc: Global, imports: &[Import], own: &[Func]) -> Result<Items<u32>, Fault>
    ensures ok { IfOk result (λ found. found
        ≡ filter_map (λ import. imported_function import.kind) imports.now ++ map (λ func. func.ty) own.now) }
    ensures err { IfErr result (λ fault. fault ≡ Fault.NoMemory) }
{
    let mut found = imported_functions(alloc, imports)?;
    for func in own {
        found.push(func.ty)?;
    }
    Ok(found)
}

/// The types of the globals, the imported ones first.
fn globals(alloc: Global, imports: &[Import], own: &[GlobalDef]) -> Result<Items<GlobalTy>, Fault>
    ensures ok { IfOk result (λ found. found
        ≡ filter_map (λ import. imported_global import.kind) imports.now ++ map (λ global. global.ty) own.now) }
    ensures err { IfErr result (λ fault. fault ≡ Fault.NoMemory) }
{
    let mut found = imported_globals(alloc, imports)?;
    for global in own {
        found.push(global.ty)?;
    }
    Ok(found)
}

/// The types of the imported functions, in order.
fn imported_functions(alloc: Global, imports: &[Import]) -> Result<Items<u32>, Fault>
    ensures ok { IfOk result (λ found. found ≡ filter_map (λ import. imported_function import.kind) imports.now) }
    ensures err { IfErr result (λ fault. fault ≡ Fault.NoMemory) }
{
    let mut found = Items::new(alloc);
    for import in imports {
        add_function(&mut found, import.kind)?;
    }
    Ok(found)
}

/// Adds the type of an imported function, if it is one.
fn add_function(found: &mut Items<u32>, kind: ImportKind) -> ValidationRule
    ensures ok { OnOk result (found.new ≡ found.old ++ option_to_list (imported_function kind)) }
    ensures err { IfErr result (λ fault. fault ≡ Fault.NoMemory) }
{
    match kind {
        ImportKind::Func(ty) => {
            found.push(ty)?;
            Ok(())
        }
        ImportKind::Table(_) => Ok(()),
        ImportKind::Memory(_) => Ok(()),
        ImportKind::Global(_) => Ok(()),
    }
}

/// The types of the imported globals, in order.
pub fn imported_globals(alloc: Global, imports: &[Import]) -> Result<Items<GlobalTy>, Fault>
    ensures ok { IfOk result (λ found. found ≡ filter_map (λ import. imported_global import.kind) imports.now) }
    ensures err { IfErr result (λ fault. fault ≡ Fault.NoMemory) }
{
    let mut found = Items::new(alloc);
    for import in imports {
        add_global(&mut found, import.kind)?;
    }
    Ok(found)
}

/// Adds the type of an imported global, if it is one.
fn add_global(found: &mut Items<GlobalTy>, kind: ImportKind) -> ValidationRule
    ensures ok { OnOk result (found.new ≡ found.old ++ option_to_list (imported_global kind)) }
    ensures err { IfErr result (λ fault. fault ≡ Fault.NoMemory) }
{
    match kind {
        ImportKind::Func(_) => Ok(()),
        ImportKind::Table(_) => Ok(()),
        ImportKind::Memory(_) => Ok(()),
        ImportKind::Global(ty) => {
            found.push(ty)?;
            Ok(())
        }
    }
}

/// How many tables are imported.
fn imported_tables(imports: &[Import]) -> usize
    ensures { result ≡ length (filter_map (λ import. imported_table import.kind) imports.now) }
{
    let mut count = 0;
    for import in imports {
        count += table_count(import.kind);
    }
    count
}

/// 1 for an imported table, and 0 for others.
fn table_count(kind: ImportKind) -> usize
    ensures count { result ≡ length (option_to_list (imported_table kind)) }
    ensures most { result ≤ 1 }
{
    match kind {
        ImportKind::Func(_) => 0,
        ImportKind::Table(_) => 1,
        ImportKind::Memory(_) => 0,
        ImportKind::Global(_) => 0,
    }
}

/// How many memories are imported.
fn imported_memories(imports: &[Import]) -> usize
    ensures { result ≡ length (filter_map (λ import. imported_memory import.kind) imports.now) }
{
    let mut count = 0;
    for import in imports {
        count += memory_count(import.kind);
    }
    count
}

/// 1 for an imported memory, and 0 for others.
fn memory_count(kind: ImportKind) -> usize
    ensures count { result ≡ length (option_to_list (imported_memory kind)) }
    ensures most { result ≤ 1 }
{
    match kind {
        ImportKind::Func(_) => 0,
        ImportKind::Table(_) => 0,
        ImportKind::Memory(_) => 1,
        ImportKind::Global(_) => 0,
    }
}
