//! Instructions that contain no others, as data, and how they are appended to a list: the operations of templates.

use failure::Failure;
use sqlite_items::Items;
use wa_syntax::Instr;

/// An instruction that contains no others.
#[derive(Clone, Copy)]
pub enum TemplateOp {
    /// None: its value is an operand already.
    Here,
    /// An instruction that is its opcode alone.
    Do(u8),
    /// Reads a local.
    Get(u32),
    /// Writes a local.
    Set(u32),
    /// Writes a local and keeps the operand.
    Tee(u32),
    /// Reads a global.
    GetGlobal(u32),
    /// Writes a global.
    SetGlobal(u32),
    /// A constant of 32 bits.
    I32(u32),
    /// A constant of 64 bits.
    I64(u64),
    /// A load or a store by its opcode, with its offset in bytes. It promises no alignment.
    Memory(u8, u32),
    /// A call of a function.
    Call(u32),
    /// An indirect call of a function of the type with this number.
    CallIndirect(u32),
    /// A branch to a label.
    Br(u32),
    /// A branch to a label where the operand isn't 0.
    BrIf(u32),
}

/// Appends these instructions.
pub fn emit_ops(to: &mut Items<Instr>, ops: &[TemplateOp]) -> Result<(), Failure> {
    for op in ops {
        if let Some(instruction) = instruction(*op) {
            to.push(instruction)?;
        }
    }
    Ok(())
}

/// The instruction, if it is one.
fn instruction(op: TemplateOp) -> Option<Instr> {
    Some(match op {
        TemplateOp::Here => return None,
        TemplateOp::Do(opcode) => Instr::Plain(opcode),
        TemplateOp::Get(local) => Instr::LocalGet(local),
        TemplateOp::Set(local) => Instr::LocalSet(local),
        TemplateOp::Tee(local) => Instr::LocalTee(local),
        TemplateOp::GetGlobal(global) => Instr::GlobalGet(global),
        TemplateOp::SetGlobal(global) => Instr::GlobalSet(global),
        TemplateOp::I32(bits) => Instr::I32Const(bits),
        TemplateOp::I64(bits) => Instr::I64Const(bits),
        TemplateOp::Memory(opcode, offset) => Instr::Memory(opcode, 0, offset),
        TemplateOp::Call(func) => Instr::Call(func),
        TemplateOp::CallIndirect(ty) => Instr::CallIndirect(ty),
        TemplateOp::Br(label) => Instr::Br(label),
        TemplateOp::BrIf(label) => Instr::BrIf(label),
    })
}
