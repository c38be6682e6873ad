//! The structure of modules (section 2.5) and of their types (section 2.3).

use crate::instr::Instr;
use crate::locals::Locals;
use crate::name::WasmName;
use sqlite_items::Items;

/// The type of a value (2.3.1). The profile has no floats.
#[derive(Clone, Copy, Debug, PartialEq, Eq, Hash)]
pub enum ValTy {
    I32,
    I64,
}

/// The type of a function (2.3.3).
#[derive(Drop)]
pub struct FuncTy {
    pub params: Items<ValTy>,
    pub results: Items<ValTy>,
}

/// The limits of a table, in elements, or of a memory, in pages of 65,536 bytes (2.3.4).
#[derive(Clone, Copy, Debug, PartialEq, Eq, Hash)]
pub struct Limits {
    pub min: u32,
    pub max: Option<u32>,
}

/// The type of a global (2.3.7).
#[derive(Clone, Copy, Debug, PartialEq, Eq, Hash)]
pub struct GlobalTy {
    pub val: ValTy,
    pub mutable: bool,
}

/// The initial value of a global, or the offset of a segment (2.5.5): a constant's bits, or the index of a global.
#[derive(Clone, Copy, Debug, PartialEq, Eq, Hash)]
pub enum Init {
    Const32(u32),
    Const64(u64),
    Global(u32),
}

/// What an import asks for (2.5.11): a function by the index of its type, or a table, a memory or a global by its type.
#[derive(Clone, Copy, Debug, PartialEq, Eq, Hash)]
pub enum ImportKind {
    Func(u32),
    Table(Limits),
    Memory(Limits),
    Global(GlobalTy),
}

/// An import (2.5.11).
#[derive(Drop)]
pub struct Import {
    pub module: WasmName,
    pub name: WasmName,
    pub kind: ImportKind,
}

/// What is exported (2.5.10), by its index, the imports of its kind first.
#[derive(Clone, Copy, Debug, PartialEq, Eq, Hash)]
pub enum ExportKind {
    Func(u32),
    Table(u32),
    Memory(u32),
    Global(u32),
}

/// An export (2.5.10).
#[derive(Drop)]
pub struct Export {
    pub name: WasmName,
    pub kind: ExportKind,
}

/// A function of the module's own (2.5.3): the index of its type, its locals without the parameters, and its body.
#[derive(Drop)]
pub struct Func {
    pub ty: u32,
    pub locals: Locals,
    pub body: Items<Instr>,
}

/// A global of the module's own (2.5.6).
#[derive(Clone, Copy, Debug, PartialEq, Eq, Hash)]
pub struct GlobalDef {
    pub ty: GlobalTy,
    pub init: Init,
}

/// A segment of a table (2.5.7): the indices of functions, from the offset on.
#[derive(Drop)]
pub struct ElemSegment {
    pub table: u32,
    pub offset: Init,
    pub funcs: Items<u32>,
}

/// A segment of a memory (2.5.8): bytes, from the offset on.
#[derive(Drop)]
pub struct DataSegment {
    pub memory: u32,
    pub offset: Init,
    pub bytes: Items<u8>,
}

/// A module (2.5). Tables, memories and globals are the module's own, without the imported ones.
#[derive(Drop)]
pub struct Module {
    pub types: Items<FuncTy>,
    pub imports: Items<Import>,
    pub funcs: Items<Func>,
    pub tables: Items<Limits>,
    pub memories: Items<Limits>,
    pub globals: Items<GlobalDef>,
    pub exports: Items<Export>,
    /// The index of the start function (2.5.9).
    pub start: Option<u32>,
    pub elems: Items<ElemSegment>,
    pub segments: Items<DataSegment>,
}
