//! Builds the modules of tests from a list of their parts.

use sqlite_items::Items;
use std::alloc::Global;
use std::test::Fail;
use wa_syntax::*;

/// A part of a module. Names of imports are empty.
#[derive(Clone, Copy)]
pub enum ModuleField<'a> {
    Type(&'a [ValTy], &'a [ValTy]),
    ImportFunc(u32),
    ImportTable(u32, Option<u32>),
    ImportMemory(u32, Option<u32>),
    ImportGlobal(ValTy, bool),
    /// A function with two locals of 32 bits and one of 64.
    Func(u32, &'a [FlatInstr<'a>]),
    Table(u32, Option<u32>),
    Memory(u32, Option<u32>),
    OwnGlobal(ValTy, bool, Init),
    ExportFunc(&'a [u8], u32),
    ExportMemory(&'a [u8], u32),
    ExportGlobal(&'a [u8], u32),
    Start(u32),
    Elem(u32, Init, &'a [u32]),
    Data(u32, Init),
}

/// An instruction of a body in flat form, as the binary format has them. Each `If` has its `Else`.
#[derive(Clone, Copy)]
pub enum FlatInstr<'a> {
    Op(u8),
    Block(Option<ValTy>),
    Loop(Option<ValTy>),
    If(Option<ValTy>),
    Else,
    End,
    Br(u32),
    BrIf(u32),
    BrTable(&'a [u32], u32),
    Call(u32),
    CallIndirect(u32),
    Get(u32),
    Set(u32),
    Tee(u32),
    GlobalGet(u32),
    GlobalSet(u32),
    Access(u8, u32),
    Const32,
    Const64,
}

/// The module of these parts.
pub fn module(alloc: Global, parts: &[ModuleField]) -> Result<Module, Fail> {
    let mut m = Module {
        types: Items::new(alloc),
        imports: Items::new(alloc),
        funcs: Items::new(alloc),
        tables: Items::new(alloc),
        memories: Items::new(alloc),
        globals: Items::new(alloc),
        exports: Items::new(alloc),
        start: None,
        elems: Items::new(alloc),
        segments: Items::new(alloc),
    };
    for part in parts {
        add(alloc, &mut m, *part)?;
    }
    Ok(m)
}

/// Adds a part.
fn add(alloc: Global, m: &mut Module, part: ModuleField) -> Result<(), Fail> {
    match part {
        ModuleField::Type(params, results) => m.types.push(FuncTy {
            params: Items::from_slice(alloc, params)?,
            results: Items::from_slice(alloc, results)?,
        })?,
        ModuleField::Func(ty, steps) => m.funcs.push(func(alloc, ty, steps)?)?,
        ModuleField::Table(min, max) => m.tables.push(Limits { min, max })?,
        ModuleField::Memory(min, max) => m.memories.push(Limits { min, max })?,
        ModuleField::OwnGlobal(val, mutable, init) => m.globals.push(GlobalDef {
            ty: GlobalTy { val, mutable },
            init,
        })?,
        ModuleField::Start(func) => m.start = Some(func),
        ModuleField::Elem(table, offset, funcs) => m.elems.push(ElemSegment {
            table,
            offset,
            funcs: Items::from_slice(alloc, funcs)?,
        })?,
        ModuleField::Data(memory, offset) => m.segments.push(DataSegment {
            memory,
            offset,
            bytes: Items::new(alloc),
        })?,
        _ => {
            add_import(alloc, m, part)?;
            add_export(alloc, m, part)?;
        }
    }
    Ok(())
}

/// Adds a part that is an import.
fn add_import(alloc: Global, m: &mut Module, part: ModuleField) -> Result<(), Fail> {
    let kind = match part {
        ModuleField::ImportFunc(ty) => ImportKind::Func(ty),
        ModuleField::ImportTable(min, max) => ImportKind::Table(Limits { min, max }),
        ModuleField::ImportMemory(min, max) => ImportKind::Memory(Limits { min, max }),
        ModuleField::ImportGlobal(val, mutable) => ImportKind::Global(GlobalTy { val, mutable }),
        _ => return Ok(()),
    };
    m.imports.push(Import {
        module: WasmName::from_slice(alloc, b"")?,
        name: WasmName::from_slice(alloc, b"")?,
        kind,
    })?;
    Ok(())
}

/// Adds a part that is an export.
fn add_export(alloc: Global, m: &mut Module, part: ModuleField) -> Result<(), Fail> {
    let (name, kind) = match part {
        ModuleField::ExportFunc(name, func) => (name, ExportKind::Func(func)),
        ModuleField::ExportMemory(name, memory) => (name, ExportKind::Memory(memory)),
        ModuleField::ExportGlobal(name, global) => (name, ExportKind::Global(global)),
        _ => return Ok(()),
    };
    let name = WasmName::from_slice(alloc, name)?;
    m.exports.push(Export { name, kind })?;
    Ok(())
}

/// A function of a type, with its body.
fn func(alloc: Global, ty: u32, steps: &[FlatInstr]) -> Result<Func, Fail> {
    let mut locals = Locals::new(alloc);
    locals.push(2, ValTy::I32)?;
    locals.push(1, ValTy::I64)?;
    Ok(Func {
        ty,
        locals,
        body: body(alloc, steps)?,
    })
}

/// An open block.
#[derive(Drop)]
struct PendingBlock<'a> {
    before: Items<Instr>,
    start: FlatInstr<'a>,
    then: Items<Instr>,
}

/// The instructions that this flat list denotes.
fn body(alloc: Global, steps: &[FlatInstr]) -> Result<Items<Instr>, Fail> {
    let mut open: Vec<PendingBlock> = Vec::new(alloc);
    let mut body = Items::new(alloc);
    for step in steps {
        match step {
            FlatInstr::Block(_) | FlatInstr::Loop(_) | FlatInstr::If(_) => {
                open.push(PendingBlock {
                    before: body,
                    start: *step,
                    then: Items::new(alloc),
                })?;
                body = Items::new(alloc);
            }
            FlatInstr::Else => {
                if let Some(PendingBlock { before, start, .. }) = open.pop() {
                    open.push(PendingBlock {
                        before,
                        start,
                        then: body,
                    })?;
                    body = Items::new(alloc);
                }
            }
            FlatInstr::End => {
                if let Some(block) = open.pop() {
                    body = closed(alloc, block, body)?;
                }
            }
            _ => body.push(simple(alloc, *step)?)?,
        }
    }
    Ok(body)
}

/// The instructions before a block, and the block, which ends with these.
fn closed(alloc: Global, block: PendingBlock, body: Items<Instr>) -> Result<Items<Instr>, Fail> {
    let PendingBlock {
        mut before,
        start,
        then,
    } = block;
    before.push(match start {
        FlatInstr::If(ty) => Instr::if_of(alloc, ty, then, body)?,
        FlatInstr::Loop(ty) => Instr::loop_of(alloc, ty, body)?,
        FlatInstr::Block(ty) => Instr::block_of(alloc, ty, body)?,
        _ => Instr::block_of(alloc, None, body)?,
    })?;
    Ok(before)
}

/// An instruction that holds no others.
fn simple(alloc: Global, step: FlatInstr) -> Result<Instr, Fail> {
    Ok(match step {
        FlatInstr::Op(opcode) => Instr::Plain(opcode),
        FlatInstr::Br(label) => Instr::Br(label),
        FlatInstr::BrIf(label) => Instr::BrIf(label),
        FlatInstr::BrTable(labels, default) => {
            Instr::br_table_of(alloc, Items::from_slice(alloc, labels)?, default)?
        }
        FlatInstr::Call(func) => Instr::Call(func),
        FlatInstr::CallIndirect(ty) => Instr::CallIndirect(ty),
        FlatInstr::Get(local) => Instr::LocalGet(local),
        FlatInstr::Set(local) => Instr::LocalSet(local),
        FlatInstr::Tee(local) => Instr::LocalTee(local),
        FlatInstr::GlobalGet(global) => Instr::GlobalGet(global),
        FlatInstr::GlobalSet(global) => Instr::GlobalSet(global),
        FlatInstr::Access(opcode, align) => Instr::Memory(opcode, align, 0),
        FlatInstr::Const32 => Instr::I32Const(0),
        FlatInstr::Const64 => Instr::I64Const(0),
        _ => Instr::Plain(opcode::NOP),
    })
}
