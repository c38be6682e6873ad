//! The module: imports, the runtime's functions, those of the bodies, `main`, and what they work on.

ghost use Rattle.std.specs.Prelude.{IfOk};
ghost use Rattle.sa_emit.specs.Tables.{AreFunctionsOf};

use crate::functions::emit_functions;
use crate::globals::globals;
use crate::memory::Memory;
use crate::places::Places;
use crate::reachability::Reachable;
use crate::sums::{number, sum};
use crate::table::{elements, tables};
use crate::texts::segments;
use crate::types::{GET_TYPE, PUT_TYPE, STOP_TYPE};
use failure::Failure;
use sa_runtime::layout::FIRST_BUILTIN;
use sa_templates::EmitProgram;
use sqlite_items::Items;
use std::alloc::Global;
use wa_syntax::{Export, ExportKind, Func, FuncTy, Import, ImportKind, Limits, Module, WasmName};

/// The module of a program, with the functions of the runtime that it needs, and the types so far.
pub(crate) fn module(
    alloc: Global,
    program: EmitProgram<'_>,
    reached: &Reachable,
    memory: &Memory,
    places: &Places,
    mut funcs: Items<Func>,
    types: Items<FuncTy>,
) -> Result<Module, Failure>
    ensures { IfOk result (λ made. AreFunctionsOf program.entry.flat.now.bodies made.funcs) }
{
    emit_functions(alloc, &mut funcs, program, reached)?;
    let main = sum(FIRST_BUILTIN, number(funcs.len().saturating_sub(1))?)?;
    Ok(Module {
        types,
        imports: imports(alloc)?,
        funcs,
        tables: tables(alloc, places)?,
        memories: memories(alloc, memory.pages)?,
        globals: globals(alloc, memory.base, program.tracing)?,
        exports: exports(alloc, main)?,
        start: None,
        elems: elements(alloc, program, reached, places)?,
        segments: segments(alloc, program.flat, reached, memory.texts_at)?,
    })
}

/// For each body the number of its function, after so many others, if it is reached.
pub(crate) fn functions_of(
    alloc: Global,
    reached: &Reachable,
    before: usize,
) -> Result<Items<Option<u32>>, Failure> {
    let mut functions = Items::new(alloc);
    let mut next = sum(FIRST_BUILTIN, number(before)?)?;
    for is_reached in reached.bodies.iter() {
        if *is_reached {
            functions.push(Some(next))?;
            next = sum(next, 1)?;
        } else {
            functions.push(None)?;
        }
    }
    Ok(functions)
}

/// The host's three functions.
fn imports(alloc: Global) -> Result<Items<Import>, Failure> {
    let mut imports = Items::new(alloc);
    imports.push(import(alloc, b"put", PUT_TYPE)?)?;
    imports.push(import(alloc, b"get", GET_TYPE)?)?;
    imports.push(import(alloc, b"stop", STOP_TYPE)?)?;
    Ok(imports)
}

fn import(alloc: Global, name: &[u8], ty: u32) -> Result<Import, Failure> {
    Ok(Import {
        module: WasmName::from_slice(alloc, b"env")?,
        name: WasmName::from_slice(alloc, name)?,
        kind: ImportKind::Func(ty),
    })
}

fn memories(alloc: Global, pages: Limits) -> Result<Items<Limits>, Failure> {
    Ok(Items::from_slice(alloc, &[pages])?)
}

fn exports(alloc: Global, main: u32) -> Result<Items<Export>, Failure> {
    let mut exports = Items::new(alloc);
    exports.push(export(alloc, b"main", ExportKind::Func(main))?)?;
    exports.push(export(alloc, b"memory", ExportKind::Memory(0))?)?;
    Ok(exports)
}

fn export(alloc: Global, name: &[u8], kind: ExportKind) -> Result<Export, Failure> {
    Ok(Export {
        name: WasmName::from_slice(alloc, name)?,
        kind,
    })
}
