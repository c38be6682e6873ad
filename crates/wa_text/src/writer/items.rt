//! The items of a module.

ghost use Rattle.std.specs.Prelude.{replicate, OnOk};
ghost use Rattle.wa_text.specs.Forms.{each};
ghost use Rattle.wa_text.specs.Listing as listing;
ghost use Rattle.wa_text.specs.Words.{line, val};
ghost use Rattle.wa_text.specs.Writing.{AddsLines, AddsWords};

use crate::writer::instruction::expression;
use crate::writer::types::{global_type, limits, value_type};
use crate::writer::words::{bytes, each, end_line, first, index, name, number, word};
use wa_syntax::{
    DataSegment, ElemSegment, Export, ExportKind, Func, GlobalDef, Import, ImportKind, Init,
    Limits, LocalRun, NoMemory,
};

/// An import.
pub fn import(out: &mut Vec<u8>, import: &Import) -> Result<(), NoMemory>
    ensures { OnOk result (AddsLines (line (listing.import import.now)) out.old.items out.new.items) }
{
    first(out, b"import")?;
    name(out, &import.module)?;
    name(out, &import.name)?;
    import_kind(out, &import.kind)?;
    end_line(out)
}

/// What an import asks for.
fn import_kind(out: &mut Vec<u8>, kind: &ImportKind) -> Result<(), NoMemory>
    ensures { OnOk result (AddsWords (listing.importdesc kind.now) out.old.items out.new.items) }
{
    match kind {
        ImportKind::Func(ty) => {
            word(out, b"func")?;
            index(out, ty)
        }
        ImportKind::Table(ty) => {
            word(out, b"table")?;
            limits(out, ty)
        }
        ImportKind::Memory(ty) => {
            word(out, b"memory")?;
            limits(out, ty)
        }
        ImportKind::Global(ty) => {
            word(out, b"global")?;
            global_type(out, *ty)
        }
    }
}

/// A function: its type and its locals on a line, and its body.
pub fn function(out: &mut Vec<u8>, func: &Func) -> Result<(), NoMemory>
    ensures { OnOk result (AddsLines (listing.func func.now) out.old.items out.new.items) }
{
    first(out, b"func")?;
    index(out, &func.ty)?;
    each(out, func.locals.runs(), run)?;
    end_line(out)?;
    expression(out, func.body.as_slice())
}

/// A run of locals: its type, once for each.
fn run(out: &mut Vec<u8>, run: &LocalRun) -> Result<(), NoMemory>
    ensures { OnOk result (AddsWords (each val (replicate run.now.count run.now.ty)) out.old.items out.new.items) }
{
    for _written in 0..run.count {
        value_type(out, &run.ty)?;
    }
    Ok(())
}

/// A table.
pub fn table(out: &mut Vec<u8>, ty: &Limits) -> Result<(), NoMemory>
    ensures { OnOk result (AddsLines (line (listing.table ty.now)) out.old.items out.new.items) }
{
    first(out, b"table")?;
    limits(out, ty)?;
    end_line(out)
}

/// A memory.
pub fn memory(out: &mut Vec<u8>, ty: &Limits) -> Result<(), NoMemory>
    ensures { OnOk result (AddsLines (line (listing.memory ty.now)) out.old.items out.new.items) }
{
    first(out, b"memory")?;
    limits(out, ty)?;
    end_line(out)
}

/// A global.
pub fn global(out: &mut Vec<u8>, global: &GlobalDef) -> Result<(), NoMemory>
    ensures { OnOk result (AddsLines (line (listing.global global.now)) out.old.items out.new.items) }
{
    first(out, b"global")?;
    global_type(out, global.ty)?;
    initial_value(out, global.init)?;
    end_line(out)
}

/// The initial value of a global, or the offset of a segment.
fn initial_value(out: &mut Vec<u8>, init: Init) -> Result<(), NoMemory>
    ensures { OnOk result (AddsWords (listing.init init) out.old.items out.new.items) }
{
    match init {
        Init::Const32(bits) => {
            word(out, b"i32")?;
            index(out, &bits)
        }
        Init::Const64(bits) => {
            word(out, b"i64")?;
            number(out, bits)
        }
        Init::Global(global) => {
            word(out, b"get")?;
            index(out, &global)
        }
    }
}

/// An export.
pub fn export(out: &mut Vec<u8>, export: &Export) -> Result<(), NoMemory>
    ensures { OnOk result (AddsLines (line (listing.export export.now)) out.old.items out.new.items) }
{
    first(out, b"export")?;
    name(out, &export.name)?;
    export_kind(out, &export.kind)?;
    end_line(out)
}

/// What is exported.
fn export_kind(out: &mut Vec<u8>, kind: &ExportKind) -> Result<(), NoMemory>
    ensures { OnOk result (AddsWords (listing.exportdesc kind.now) out.old.items out.new.items) }
{
    match kind {
        ExportKind::Func(func) => {
            word(out, b"func")?;
            index(out, func)
        }
        ExportKind::Table(table) => {
            word(out, b"table")?;
            index(out, table)
        }
        ExportKind::Memory(memory) => {
            word(out, b"memory")?;
            index(out, memory)
        }
        ExportKind::Global(global) => {
            word(out, b"global")?;
            index(out, global)
        }
    }
}

/// The start function, if there is one.
pub fn start(out: &mut Vec<u8>, func: Option<u32>) -> Result<(), NoMemory>
    ensures { OnOk result (AddsLines (listing.start func) out.old.items out.new.items) }
{
    match func {
        Some(func) => {
            first(out, b"start")?;
            index(out, &func)?;
            end_line(out)
        }
        None => Ok(()),
    }
}

/// A segment of a table.
pub fn element(out: &mut Vec<u8>, elem: &ElemSegment) -> Result<(), NoMemory>
    ensures { OnOk result (AddsLines (line (listing.elem elem.now)) out.old.items out.new.items) }
{
    first(out, b"elem")?;
    index(out, &elem.table)?;
    initial_value(out, elem.offset)?;
    each(out, elem.funcs.as_slice(), index)?;
    end_line(out)
}

/// A segment of a memory.
pub fn segment(out: &mut Vec<u8>, segment: &DataSegment) -> Result<(), NoMemory>
    ensures { OnOk result (AddsLines (line (listing.segment segment.now)) out.old.items out.new.items) }
{
    first(out, b"data")?;
    index(out, &segment.memory)?;
    initial_value(out, segment.offset)?;
    bytes(out, segment.bytes.as_slice())?;
    end_line(out)
}
