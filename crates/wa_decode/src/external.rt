//! Imports (section 5.5.5) and exports (section 5.5.10).

ghost use Rattle.std.specs.Prelude.{◌<◌, length, IfOk};
ghost use Rattle.wa_syntax.specs.Binary.{export, exportdesc, import, importdesc};
ghost use Rattle.wa_decode.specs.Places.{EndsIn};
ghost use Rattle.wa_decode.specs.Reading.{Reads};

use crate::fault::DecodeFault;
use crate::production::{Decoded, Production};
use crate::types::{MemoryType, TableType, global_type};
use crate::value::{byte, name, unsigned};
use std::alloc::Global;
use wa_syntax::{Export, ExportKind, Import, ImportKind};

/// The bytes of the kinds of what is imported and exported.
const FUNCTION: u8 = 0;

const TABLE: u8 = 1;

const MEMORY: u8 = 2;

const GLOBAL: u8 = 3;

/// An import (5.5.5).
pub struct ImportEntry;

impl Production for ImportEntry {
    type Value = Import;

    ghost format = { import };

    fn read(alloc: Global, bytes: &[u8], at: u32) -> Decoded<Import> {
        let (module, at) = name(alloc, bytes, at)?;
        let (name, at) = name(alloc, bytes, at)?;
        let (kind, end) = import_kind(alloc, bytes, at)?;
        Ok((Import { module, name, kind }, end))
    }
}

/// What is imported (5.5.5).
fn import_kind(alloc: Global, bytes: &[u8], at: u32) -> Decoded<ImportKind>
    requires { length bytes.now < u32.MAX }
    ensures ends { IfOk result (λ read. EndsIn bytes.now at read.1) }
    ensures reads { Reads importdesc bytes.now at result }
{
    let (kind, at) = byte(bytes, at)?;
    match kind {
        FUNCTION => {
            let (ty, end) = unsigned(bytes, at)?;
            Ok((ImportKind::Func(ty), end))
        }
        TABLE => {
            let (limits, end) = TableType::read(alloc, bytes, at)?;
            Ok((ImportKind::Table(limits), end))
        }
        MEMORY => {
            let (limits, end) = MemoryType::read(alloc, bytes, at)?;
            Ok((ImportKind::Memory(limits), end))
        }
        GLOBAL => {
            let (ty, end) = global_type(alloc, bytes, at)?;
            Ok((ImportKind::Global(ty), end))
        }
        _ => Err(DecodeFault::Malformed),
    }
}

/// An export (5.5.10).
pub struct ExportEntry;

impl Production for ExportEntry {
    type Value = Export;

    ghost format = { export };

    fn read(alloc: Global, bytes: &[u8], at: u32) -> Decoded<Export> {
        let (name, at) = name(alloc, bytes, at)?;
        let (kind, end) = export_kind(bytes, at)?;
        Ok((Export { name, kind }, end))
    }
}

/// What is exported (5.5.10).
fn export_kind(bytes: &[u8], at: u32) -> Decoded<ExportKind>
    requires { length bytes.now < u32.MAX }
    ensures ends { IfOk result (λ read. EndsIn bytes.now at read.1) }
    ensures reads { Reads exportdesc bytes.now at result }
{
    let (kind, at) = byte(bytes, at)?;
    let (index, end) = unsigned(bytes, at)?;
    match kind {
        FUNCTION => Ok((ExportKind::Func(index), end)),
        TABLE => Ok((ExportKind::Table(index), end)),
        MEMORY => Ok((ExportKind::Memory(index), end)),
        GLOBAL => Ok((ExportKind::Global(index), end)),
        _ => Err(DecodeFault::Malformed),
    }
}
