//! The parts of a module outside the bodies of functions (section 3.4).

ghost use Rattle.std.specs.Prelude.{◌≤◌, ◌<◌, ◌≢◌, All, AllPairs, IfSome, length, map};
ghost use Rattle.wa_syntax.specs.ValidModule.{IsValidOutside, IsConstant, IsElem, IsExport, IsImport};
ghost use Rattle.wa_syntax.specs.ValidModule.{IsMemory, IsSegment, IsStart, IsTable, imported, imported_global};
ghost use Rattle.wa_valid.specs.Names.{names};
ghost use Rattle.wa_valid.specs.Rules.{Says};

use crate::context::{Context, imported_globals};
use crate::fault::{Fault, ValidationRule, require};
use crate::types::{external_type, function_type, memory_type, table_type};
use indexmap::IndexSet;
use std::alloc::Global;
use wa_syntax::{
    DataSegment, ElemSegment, Export, ExportKind, Func, FuncTy, GlobalDef, GlobalTy, Import, Init,
    Limits, Module, ValTy,
};

/// All rules of a module outside the bodies (3.4.10).
pub fn outside_bodies(alloc: Global, context: &Context, m: &Module) -> ValidationRule
    ensures { Says (IsValidOutside m.now (names context.now)) result }
{
    require(context.tables <= 1)?;
    require(context.memories <= 1)?;
    function_types(m.types.as_slice())?;
    functions(m.types.as_slice(), m.funcs.as_slice())?;
    tables(m.tables.as_slice())?;
    memories(m.memories.as_slice())?;
    globals(alloc, m)?;
    element_segments(context, m.elems.as_slice())?;
    data_segments(context, m.segments.as_slice())?;
    start(context, m.start)?;
    exports(context, m.exports.as_slice())?;
    export_names(alloc, m.exports.as_slice())?;
    imports(context, m.imports.as_slice())
}

/// The types of functions (3.2.3).
fn function_types(types: &[FuncTy]) -> ValidationRule
    ensures { Says (All (λ ty. length ty.results ≤ 1) types.now) result }
{
    for ty in types {
        function_type(ty)?;
    }
    Ok(())
}

/// Functions without their bodies (3.4.1): the type of each exists.
fn functions(types: &[FuncTy], funcs: &[Func]) -> ValidationRule
    ensures { Says (All (λ func. func.ty < length types.now) funcs.now) result }
{
    for func in funcs {
        type_exists(types, func.ty)?;
    }
    Ok(())
}

/// There is a type with this index.
fn type_exists(types: &[FuncTy], ty: u32) -> ValidationRule
    ensures { Says (ty < length types.now) result }
{
    require((ty as usize) < types.len())
}

/// Tables (3.4.2).
fn tables(tables: &[Limits]) -> ValidationRule
    ensures { Says (All IsTable tables.now) result }
{
    for table in tables {
        table_type(*table)?;
    }
    Ok(())
}

/// Memories (3.4.3).
fn memories(memories: &[Limits]) -> ValidationRule
    ensures { Says (All IsMemory memories.now) result }
{
    for memory in memories {
        memory_type(*memory)?;
    }
    Ok(())
}

/// Globals (3.4.4): the initial value of each has its type, and reads imported globals alone.
fn globals(alloc: Global, m: &Module) -> ValidationRule
    ensures { Says (All (λ global. IsConstant (imported imported_global m.now) global.ty.val global.init) m.now.globals) result }
{
    let known = imported_globals(alloc, m.imports.as_slice())?;
    initial_values(known.as_slice(), m.globals.as_slice())
}

/// The initial values of globals, which may read the constant ones of the known globals.
fn initial_values(known: &[GlobalTy], globals: &[GlobalDef]) -> ValidationRule
    ensures { Says (All (λ global. IsConstant known.now global.ty.val global.init) globals.now) result }
{
    for global in globals {
        constant_expression(known, global.init, global.ty.val)?;
    }
    Ok(())
}

/// A constant expression of a type (3.3.7), which may read the constant ones of these globals.
fn constant_expression(globals: &[GlobalTy], init: Init, ty: ValTy) -> ValidationRule
    ensures { Says (IsConstant globals.now ty init) result }
{
    match init {
        Init::Const32(_) => require(ty == ValTy::I32),
        Init::Const64(_) => require(ty == ValTy::I64),
        Init::Global(global) => match globals.get(global as usize) {
            Some(global) => require(!global.mutable && global.val == ty),
            None => Err(Fault::Invalid),
        },
    }
}

/// Element segments (3.4.5).
fn element_segments(context: &Context, elems: &[ElemSegment]) -> ValidationRule
    ensures { Says (All (IsElem (names context.now)) elems.now) result }
{
    for elem in elems {
        element_segment(context, elem)?;
    }
    Ok(())
}

/// An element segment (3.4.5): the table and the functions exist, and the offset is an i32.
fn element_segment(context: &Context, elem: &ElemSegment) -> ValidationRule
    ensures { Says (IsElem (names context.now) elem.now) result }
{
    require((elem.table as usize) < context.tables)?;
    constant_expression(context.globals.as_slice(), elem.offset, ValTy::I32)?;
    functions_exist(context, elem.funcs.as_slice())
}

/// The functions of an element segment exist.
fn functions_exist(context: &Context, funcs: &[u32]) -> ValidationRule
    ensures { Says (All (λ func. func < length context.now.funcs) funcs.now) result }
{
    for func in funcs {
        function_exists(context, *func)?;
    }
    Ok(())
}

/// There is a function with this index.
fn function_exists(context: &Context, func: u32) -> ValidationRule
    ensures { Says (func < length context.now.funcs) result }
{
    require((func as usize) < context.funcs.len())
}

/// Data segments (3.4.6).
fn data_segments(context: &Context, segments: &[DataSegment]) -> ValidationRule
    ensures { Says (All (IsSegment (names context.now)) segments.now) result }
{
    for segment in segments {
        data_segment(context, segment)?;
    }
    Ok(())
}

/// A data segment (3.4.6): the memory exists, and the offset is an i32.
fn data_segment(context: &Context, segment: &DataSegment) -> ValidationRule
    ensures { Says (IsSegment (names context.now) segment.now) result }
{
    require((segment.memory as usize) < context.memories)?;
    constant_expression(context.globals.as_slice(), segment.offset, ValTy::I32)
}

/// The start function (3.4.7): it exists, and has no argument and no result.
fn start(context: &Context, start: Option<u32>) -> ValidationRule
    ensures { Says (IfSome start (IsStart (names context.now))) result }
{
    match start {
        Some(func) => start_function(context, func),
        None => Ok(()),
    }
}

/// The function with this index exists, and has no argument and no result.
fn start_function(context: &Context, func: u32) -> ValidationRule
    ensures { Says (IsStart (names context.now) func) result }
{
    let number = context.func_type_number(func)?;
    let ty = context.type_at(number)?;
    require(ty.params.is_empty() && ty.results.is_empty())
}

/// Exports (3.4.8): what each names exists.
fn exports(context: &Context, exports: &[Export]) -> ValidationRule
    ensures { Says (All (λ export. IsExport (names context.now) export.kind) exports.now) result }
{
    for export in exports {
        export_kind(context, export.kind)?;
    }
    Ok(())
}

/// What is exported exists (3.4.8).
fn export_kind(context: &Context, kind: ExportKind) -> ValidationRule
    ensures { Says (IsExport (names context.now) kind) result }
{
    match kind {
        ExportKind::Func(func) => require((func as usize) < context.funcs.len()),
        ExportKind::Table(table) => require((table as usize) < context.tables),
        ExportKind::Memory(memory) => require((memory as usize) < context.memories),
        ExportKind::Global(global) => require((global as usize) < context.globals.len()),
    }
}

/// The names of exports differ (3.4.10).
fn export_names(alloc: Global, exports: &[Export]) -> ValidationRule
    ensures { Says (AllPairs ◌≢◌ (map (λ export. export.name) exports.now)) result }
{
    let mut names: IndexSet<&[u8]> = IndexSet::new(alloc);
    for export in exports {
        let added = names.insert(export.name.as_slice())?;
        require(added)?;
    }
    Ok(())
}

/// Imports (3.4.9): the type of each is valid.
fn imports(context: &Context, imports: &[Import]) -> ValidationRule
    ensures { Says (All (λ import. IsImport (names context.now) import.kind) imports.now) result }
{
    for import in imports {
        external_type(context, import.kind)?;
    }
    Ok(())
}
