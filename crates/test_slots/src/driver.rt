//! A module that calls a pool as its input says. A byte 0 takes a slot, whose number is put as two bytes; a byte 1 gives the slot back
//! whose number is in the next two bytes. The lower byte is the first.

use failure::Failure;
use sa_pool::code;
use sa_runtime::template_ops::TemplateOp::{Br, Call, Do, Get, I32, Tee};
use sa_runtime::templates::Template::{self, If, Line, Loop};
use sa_runtime::templates::{Function, LocalCounts, functions};
use sa_runtime::trace::Tracing;
use sqlite_items::Items;
use std::alloc::Global;
use wa_syntax::opcode::{
    I32_ADD, I32_AND, I32_EQ, I32_EQZ, I32_SHL, I32_SHR_S, I32_SHR_U, I32_SUB,
};
use wa_syntax::{
    Export, ExportKind, Func, FuncTy, Import, ImportKind, Limits, Module, ValTy, WasmName,
};

/// The type of `get`, of `take` and of `main`.
const GETS: u32 = 0;

/// The type of `put` and of `give`.
const PUTS: u32 = 1;

/// The host's function that puts a byte.
const PUT: u32 = 0;

/// The host's function that gets a byte, or -1 at the end.
const GET: u32 = 1;

/// The function that makes the calls.
const MAIN: u32 = 2;

/// The pool's functions.
const TAKE: u32 = 3;

const GIVE: u32 = 4;

/// The one local of `main`.
const BYTE: u32 = 0;

/// The address of the pool.
const BASE: u32 = 8;

/// How many bytes a slot has.
const SLOT_BYTES: u32 = 16;

/// The address of the first slot. The address 0 is one slot less, to which the number -1 belongs.
const FIRST: u32 = BASE + 8;

/// How many pages the pool takes.
const PAGES: u32 = 3;

/// The body of `main`.
const BODY: &[Template] = &[
    Loop(&[
        Line(&[Call(GET), Tee(BYTE), Do(I32_EQZ)]),
        If(&[
            Line(&[Call(TAKE), I32(FIRST), Do(I32_SUB), I32(4), Do(I32_SHR_S)]),
            Line(&[Tee(BYTE), I32(0xff), Do(I32_AND), Call(PUT)]),
            Line(&[Get(BYTE), I32(8), Do(I32_SHR_U)]),
            Line(&[I32(0xff), Do(I32_AND), Call(PUT), Br(1)]),
        ]),
        Line(&[Get(BYTE), I32(1), Do(I32_EQ)]),
        If(&[
            Line(&[Call(GET), Call(GET), I32(8), Do(I32_SHL)]),
            Line(&[Do(I32_ADD), I32(4), Do(I32_SHL), I32(FIRST), Do(I32_ADD)]),
            Line(&[Call(GIVE), Br(1)]),
        ]),
    ]),
    Line(&[I32(0)]),
];

/// The functions before those of the pool.
const FUNCTIONS: [Function; 1] = [Function(GETS, LocalCounts(0, 1), BODY)];

/// The module.
pub fn driver(alloc: Global) -> Result<Module, Failure> {
    Ok(Module {
        types: types(alloc)?,
        imports: imports(alloc)?,
        funcs: funcs(alloc)?,
        tables: Items::new(alloc),
        memories: memories(alloc)?,
        globals: Items::new(alloc),
        exports: exports(alloc)?,
        start: None,
        elems: Items::new(alloc),
        segments: Items::new(alloc),
    })
}

fn types(alloc: Global) -> Result<Items<FuncTy>, Failure> {
    let mut types = Items::new(alloc);
    types.push(FuncTy {
        params: Items::new(alloc),
        results: Items::from_slice(alloc, &[ValTy::I32])?,
    })?;
    types.push(FuncTy {
        params: Items::from_slice(alloc, &[ValTy::I32])?,
        results: Items::new(alloc),
    })?;
    Ok(types)
}

fn imports(alloc: Global) -> Result<Items<Import>, Failure> {
    let mut imports = Items::new(alloc);
    imports.push(import(alloc, b"put", PUTS)?)?;
    imports.push(import(alloc, b"get", GETS)?)?;
    Ok(imports)
}

fn import(alloc: Global, name: &[u8], ty: u32) -> Result<Import, Failure> {
    Ok(Import {
        module: WasmName::from_slice(alloc, b"env")?,
        name: WasmName::from_slice(alloc, name)?,
        kind: ImportKind::Func(ty),
    })
}

fn funcs(alloc: Global) -> Result<Items<Func>, Failure> {
    let pool = code(alloc, BASE, SLOT_BYTES)?;
    let mut funcs = functions(alloc, &FUNCTIONS, Tracing::Off)?;
    funcs.push(pool.take)?;
    funcs.push(pool.give)?;
    Ok(funcs)
}

fn memories(alloc: Global) -> Result<Items<Limits>, Failure> {
    let mut memories = Items::new(alloc);
    memories.push(Limits {
        min: PAGES,
        max: None,
    })?;
    Ok(memories)
}

fn exports(alloc: Global) -> Result<Items<Export>, Failure> {
    let mut exports = Items::new(alloc);
    exports.push(Export {
        name: WasmName::from_slice(alloc, b"main")?,
        kind: ExportKind::Func(MAIN),
    })?;
    Ok(exports)
}
