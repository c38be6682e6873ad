//! Modules (section 5.5).

ghost use Rattle.std.specs.Prelude.{OnOk, IfOk};
ghost use Rattle.wa_syntax.specs.Formats.{u32};
ghost use Rattle.wa_syntax.specs.Binary as binary;
ghost use Rattle.wa_encode.specs.Spelling.{Extends, IsLeast, Adds, sections};

use crate::instruction::{constant_expression, expression};
use crate::locals::locals;
use crate::section::{section, vector_section};
use crate::types::{function_type, global_type, limits, table_type};
use crate::value::{byte, bytes, name, number, vector};
use std::alloc::Global;
use wa_syntax::{
    DataSegment, ElemSegment, Export, ExportKind, Func, GlobalDef, Import, ImportKind, Module,
    NoMemory,
};

/// The magic number and the version (5.5.15).
const PREAMBLE: [u8; 8] = [0x00, 0x61, 0x73, 0x6d, 0x01, 0x00, 0x00, 0x00];

// The ids of the sections (5.5.2).

const TYPE: u8 = 1;

const IMPORT: u8 = 2;

const FUNCTION: u8 = 3;

const TABLE: u8 = 4;

const MEMORY: u8 = 5;

const GLOBAL: u8 = 6;

const EXPORT: u8 = 7;

const START: u8 = 8;

const ELEMENT: u8 = 9;

const CODE: u8 = 10;

const DATA: u8 = 11;

/// The bytes of a module (5.5.15), in the shortest spelling of each number, with the locals of a function in the longest
/// runs of one type, without custom sections, and without sections and `else` branches that are empty.
///
/// `NoMemory` comes where memory runs out, and where a count or a length doesn't fit 32 bits, that of the whole among them.
pub fn encode(alloc: Global, m: &Module) -> Result<Vec<u8>, NoMemory>
    ensures begins { IfOk result (λ bytes. Extends PREAMBLE bytes.items) }
    // If any bytes spell the module, these do, and any others that do are longer.
    ensures shortest { IfOk result (λ bytes. IsLeast (λ spelling. binary.SpellsModule spelling m.now) bytes.items) }
{
    let mut out = Vec::from_slice(alloc, &PREAMBLE)?;
    sections(alloc, &mut out, m)?;
    if out.len() > u32::MAX as usize {
        return Err(NoMemory);
    }
    Ok(out)
}

/// The sections of a module (5.5.15), in the order of their ids.
fn sections(alloc: Global, out: &mut Vec<u8>, m: &Module) -> Result<(), NoMemory>
    ensures { OnOk result (Adds (sections m.now) out.old.items out.new.items) }
{
    vector_section(alloc, out, TYPE, m.types.as_slice(), function_type)?;
    vector_section(alloc, out, IMPORT, m.imports.as_slice(), import)?;
    vector_section(alloc, out, FUNCTION, m.funcs.as_slice(), function)?;
    vector_section(alloc, out, TABLE, m.tables.as_slice(), table_type)?;
    vector_section(alloc, out, MEMORY, m.memories.as_slice(), limits)?;
    vector_section(alloc, out, GLOBAL, m.globals.as_slice(), global)?;
    vector_section(alloc, out, EXPORT, m.exports.as_slice(), export)?;
    start(alloc, out, m.start)?;
    vector_section(alloc, out, ELEMENT, m.elems.as_slice(), element_segment)?;
    vector_section(
        alloc,
        out,
        CODE,
        m.funcs.as_slice(),
        |out, func|
            ensures { OnOk result (Adds (binary.code func.now) out.old.items out.new.items) }
        { code(alloc, out, func) },
    )?;
    vector_section(alloc, out, DATA, m.segments.as_slice(), data_segment)
}

/// An import (5.5.5).
fn import(out: &mut Vec<u8>, import: &Import) -> Result<(), NoMemory>
    ensures { OnOk result (Adds (binary.import import.now) out.old.items out.new.items) }
{
    name(out, &import.module)?;
    name(out, &import.name)?;
    import_kind(out, &import.kind)
}

/// What an import asks for (5.5.5).
fn import_kind(out: &mut Vec<u8>, kind: &ImportKind) -> Result<(), NoMemory>
    ensures { OnOk result (Adds (binary.importdesc kind.now) out.old.items out.new.items) }
{
    match kind {
        ImportKind::Func(ty) => {
            byte(out, 0x00)?;
            number(out, ty)
        }
        ImportKind::Table(ty) => {
            byte(out, 0x01)?;
            table_type(out, ty)
        }
        ImportKind::Memory(ty) => {
            byte(out, 0x02)?;
            limits(out, ty)
        }
        ImportKind::Global(ty) => {
            byte(out, 0x03)?;
            global_type(out, *ty)
        }
    }
}

/// An entry of the function section (5.5.6): the index of a function's type.
fn function(out: &mut Vec<u8>, func: &Func) -> Result<(), NoMemory>
    ensures { OnOk result (Adds (u32 func.now.ty) out.old.items out.new.items) }
{
    number(out, &func.ty)
}

/// A global (5.5.9).
fn global(out: &mut Vec<u8>, global: &GlobalDef) -> Result<(), NoMemory>
    ensures { OnOk result (Adds (binary.global global.now) out.old.items out.new.items) }
{
    global_type(out, global.ty)?;
    constant_expression(out, global.init)
}

/// An export (5.5.10).
fn export(out: &mut Vec<u8>, export: &Export) -> Result<(), NoMemory>
    ensures { OnOk result (Adds (binary.export export.now) out.old.items out.new.items) }
{
    name(out, &export.name)?;
    export_kind(out, &export.kind)
}

/// What is exported (5.5.10).
fn export_kind(out: &mut Vec<u8>, kind: &ExportKind) -> Result<(), NoMemory>
    ensures { OnOk result (Adds (binary.exportdesc kind.now) out.old.items out.new.items) }
{
    match kind {
        ExportKind::Func(index) => {
            byte(out, 0x00)?;
            number(out, index)
        }
        ExportKind::Table(index) => {
            byte(out, 0x01)?;
            number(out, index)
        }
        ExportKind::Memory(index) => {
            byte(out, 0x02)?;
            number(out, index)
        }
        ExportKind::Global(index) => {
            byte(out, 0x03)?;
            number(out, index)
        }
    }
}

/// The start section (5.5.11), where there is a start function.
fn start(alloc: Global, out: &mut Vec<u8>, func: Option<u32>) -> Result<(), NoMemory>
    ensures { OnOk result (Adds (binary.startsec func) out.old.items out.new.items) }
{
    let Some(func) = func else {
        return Ok(());
    };
    let mut content = Vec::new(alloc);
    number(&mut content, &func)?;
    section(out, START, content.as_slice())
}

/// An element segment (5.5.12).
fn element_segment(out: &mut Vec<u8>, elem: &ElemSegment) -> Result<(), NoMemory>
    ensures { OnOk result (Adds (binary.elem elem.now) out.old.items out.new.items) }
{
    number(out, &elem.table)?;
    constant_expression(out, elem.offset)?;
    vector(out, elem.funcs.as_slice(), number)
}

/// An entry of the code section (5.5.13): the size of a function's locals and body, and these.
fn code(alloc: Global, out: &mut Vec<u8>, func: &Func) -> Result<(), NoMemory>
    ensures { OnOk result (Adds (binary.code func.now) out.old.items out.new.items) }
{
    let mut content = Vec::new(alloc);
    locals(alloc, &mut content, &func.locals)?;
    expression(&mut content, func.body.as_slice())?;
    bytes(out, content.as_slice())
}

/// A data segment (5.5.14).
fn data_segment(out: &mut Vec<u8>, segment: &DataSegment) -> Result<(), NoMemory>
    ensures { OnOk result (Adds (binary.segment segment.now) out.old.items out.new.items) }
{
    number(out, &segment.memory)?;
    constant_expression(out, segment.offset)?;
    bytes(out, segment.bytes.as_slice())
}
