//! The items of a module that are a line.

ghost use Rattle.std.specs.Prelude.{◌≡◌, [], ◌∷◌, MatchResult};
ghost use Rattle.wa_text.specs.Forms.{◌then◌, each};
ghost use Rattle.wa_text.specs.Listing.{exportdesc, globaltype, importdesc, init, locals};
ghost use Rattle.wa_text.specs.Reading.{Reads, texts};
ghost use Rattle.wa_text.specs.Words.{bytes, name, u32};
ghost use Rattle.wa_text.specs.declared.fault.LineFault.TheVariants.{NoMemory};

use crate::fault::LineFault;
use crate::reader::line::LineForm;
use crate::reader::types::{global_type, limits, only_global_type, value_types};
use crate::reader::words::{bytes, index, indices, name, number, only_index};
use sqlite_items::Items;
use std::alloc::Global;
use wa_syntax::{
    DataSegment, ElemSegment, Export, ExportKind, GlobalDef, Import, ImportKind, Init, Locals,
    ValTy,
};

/// The most locals that a function may declare.
const MAX_LOCALS: usize = 1_000_000;

/// An import.
pub struct ImportItem;

impl LineForm for ImportItem {
    type Value = Import;

    ghost form = { λ i. name i.module then name i.name then importdesc i.kind };

    fn read(alloc: Global, words: &[&[u8]]) -> Result<Import, LineFault> {
        let [module, own, kind, rest @ ..] = words else {
            return Err(LineFault::Wrong);
        };
        let kind = import_kind(*kind, rest)?;
        let module = name(alloc, *module)?;
        let name = name(alloc, *own)?;
        Ok(Import { module, name, kind })
    }
}

/// What an import asks for.
fn import_kind(kind: &[u8], words: &[&[u8]]) -> Result<ImportKind, LineFault>
    ensures { Reads importdesc (kind.now ∷ texts words.now) result }
{
    match kind {
        b"func" => Ok(ImportKind::Func(only_index(words)?)),
        b"table" => Ok(ImportKind::Table(limits(words)?)),
        b"memory" => Ok(ImportKind::Memory(limits(words)?)),
        b"global" => Ok(ImportKind::Global(only_global_type(words)?)),
        _ => Err(LineFault::Wrong),
    }
}

/// The first line of a function.
#[derive(Drop)]
pub struct FunctionHead {
    pub ty: u32,
    pub locals: Locals,
}

impl LineForm for FunctionHead {
    type Value = FunctionHead;

    ghost form = { λ f. u32 f.ty then locals f.locals };

    fn read(alloc: Global, words: &[&[u8]]) -> Result<FunctionHead, LineFault> {
        let [ty, types @ ..] = words else {
            return Err(LineFault::Wrong);
        };
        let ty = index(*ty)?;
        let locals = locals(alloc, types)?;
        Ok(FunctionHead { ty, locals })
    }
}

/// The locals of a function, one word for each.
fn locals(alloc: Global, words: &[&[u8]]) -> Result<Locals, LineFault>
    ensures { Reads locals (texts words.now) result }
{
    let (types, rest) = value_types(alloc, words)?;
    if !rest.is_empty() {
        return Err(LineFault::Wrong);
    }
    if types.len() > MAX_LOCALS {
        return Err(LineFault::Wrong);
    }
    in_runs(alloc, types.as_slice())
}

/// Consecutive types as runs of one type.
fn in_runs(alloc: Global, types: &[ValTy]) -> Result<Locals, LineFault>
    ensures { MatchResult result (λ read. read ≡ types.now) (λ fault. fault ≡ NoMemory) }
{
    let mut locals = Locals::new(alloc);
    for ty in types {
        locals.push(1, *ty)?;
    }
    Ok(locals)
}

/// The initial value of a global, or the offset of a segment, of two words.
fn initial_value(kind: &[u8], value: &[u8]) -> Result<Init, LineFault>
    ensures { Reads init (kind.now ∷ value.now ∷ []) result }
{
    match kind {
        b"i32" => Ok(Init::Const32(index(value)?)),
        b"i64" => Ok(Init::Const64(number(value)?)),
        b"get" => Ok(Init::Global(index(value)?)),
        _ => Err(LineFault::Wrong),
    }
}

/// A global.
pub struct GlobalItem;

impl LineForm for GlobalItem {
    type Value = GlobalDef;

    ghost form = { λ g. globaltype g.ty then init g.init };

    fn read(_alloc: Global, words: &[&[u8]]) -> Result<GlobalDef, LineFault> {
        let [val, mutability, kind, value] = words else {
            return Err(LineFault::Wrong);
        };
        Ok(GlobalDef {
            ty: global_type(*val, *mutability)?,
            init: initial_value(*kind, *value)?,
        })
    }
}

/// An export.
pub struct ExportItem;

impl LineForm for ExportItem {
    type Value = Export;

    ghost form = { λ e. name e.name then exportdesc e.kind };

    fn read(alloc: Global, words: &[&[u8]]) -> Result<Export, LineFault> {
        let [own, kind, value] = words else {
            return Err(LineFault::Wrong);
        };
        let kind = export_kind(*kind, *value)?;
        let name = name(alloc, *own)?;
        Ok(Export { name, kind })
    }
}

/// What is exported.
fn export_kind(kind: &[u8], value: &[u8]) -> Result<ExportKind, LineFault>
    ensures { Reads exportdesc (kind.now ∷ value.now ∷ []) result }
{
    let value = index(value)?;
    match kind {
        b"func" => Ok(ExportKind::Func(value)),
        b"table" => Ok(ExportKind::Table(value)),
        b"memory" => Ok(ExportKind::Memory(value)),
        b"global" => Ok(ExportKind::Global(value)),
        _ => Err(LineFault::Wrong),
    }
}

/// The index of the start function.
pub struct StartItem;

impl LineForm for StartItem {
    type Value = u32;

    ghost form = { u32 };

    fn read(_alloc: Global, words: &[&[u8]]) -> Result<u32, LineFault> {
        only_index(words)
    }
}

/// A segment of a table.
pub struct ElementItem;

impl LineForm for ElementItem {
    type Value = ElemSegment;

    ghost form = { λ e. u32 e.table then init e.offset then each u32 e.funcs };

    fn read(alloc: Global, words: &[&[u8]]) -> Result<ElemSegment, LineFault> {
        let [table, kind, value, rest @ ..] = words else {
            return Err(LineFault::Wrong);
        };
        let table = index(*table)?;
        let offset = initial_value(*kind, *value)?;
        let funcs = indices(alloc, rest)?;
        Ok(ElemSegment {
            table,
            offset,
            funcs,
        })
    }
}

/// A segment of a memory.
pub struct SegmentItem;

impl LineForm for SegmentItem {
    type Value = DataSegment;

    ghost form = { λ s. u32 s.memory then init s.offset then bytes s.bytes };

    fn read(alloc: Global, words: &[&[u8]]) -> Result<DataSegment, LineFault> {
        let [memory, kind, value, content] = words else {
            return Err(LineFault::Wrong);
        };
        let memory = index(*memory)?;
        let offset = initial_value(*kind, *value)?;
        let bytes = Items::from_vec(bytes(alloc, *content)?);
        Ok(DataSegment {
            memory,
            offset,
            bytes,
        })
    }
}
