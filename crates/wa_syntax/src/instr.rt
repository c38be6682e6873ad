//! Instructions (section 2.4).

ghost use Rattle.std.specs.Prelude.{◌≡◌, IfOk};
ghost use Rattle.wa_syntax.specs.declared.instr.Instr.TheVariants as instr;

use crate::module::ValTy;
use sqlite_items::{Boxed, Items};
use std::alloc::{AllocError, Global};

/// An instruction. Blocks hold their instructions and have the type of their result, if they have one. Labels are relative to
/// the nesting: 0 is the innermost block (2.4.5).
///
/// What an instruction holds is behind one pointer, so that an instruction takes 16 bytes.
#[derive(Drop)]
pub enum Instr {
    /// An instruction that is its opcode alone: `unreachable`, `nop`, `return`, `drop`, `select`, `memory.size`,
    /// `memory.grow` and the numeric instructions (2.4.1, 2.4.2, 2.4.4, 2.4.5).
    Plain(u8),
    /// A `block` of these instructions; a branch to its label goes to its end (2.4.5).
    Block(Option<ValTy>, Boxed<Items<Instr>>),
    /// A `loop` of these instructions; a branch to its label goes to its beginning (2.4.5).
    Loop(Option<ValTy>, Boxed<Items<Instr>>),
    /// An `if`: the instructions for an operand that isn't 0, and those for 0 (2.4.5).
    If(Option<ValTy>, Boxed<(Items<Instr>, Items<Instr>)>),
    /// A branch to a label (2.4.5).
    Br(u32),
    /// A branch to a label where the operand isn't 0 (2.4.5).
    BrIf(u32),
    /// A branch to the label that the operand chooses from these, or to the default where it is past them (2.4.5).
    BrTable(Boxed<(Items<u32>, u32)>),
    /// A call of the function with this index, the imported ones first (2.4.5).
    Call(u32),
    /// An indirect call of a function of the type with this index (2.4.5).
    CallIndirect(u32),
    /// Reads the local with this index, the parameters first (2.4.3).
    LocalGet(u32),
    /// Writes a local (2.4.3).
    LocalSet(u32),
    /// Writes a local and keeps the operand (2.4.3).
    LocalTee(u32),
    /// Reads the global with this index, the imported ones first (2.4.3).
    GlobalGet(u32),
    /// Writes a global (2.4.3).
    GlobalSet(u32),
    /// A load or a store by its opcode, with its alignment, as a power of two, and its offset in bytes (2.4.4).
    Memory(u8, u32, u32),
    /// A constant of 32 bits (2.4.1).
    I32Const(u32),
    /// A constant of 64 bits (2.4.1).
    I64Const(u64),
}

impl Instr {
    /// A `block` of these instructions. Fails where memory runs out.
    pub fn block_of(
        alloc: Global,
        ty: Option<ValTy>,
        body: Items<Instr>,
    ) -> Result<Instr, AllocError>
        ensures { IfOk result (λ made. made ≡ instr.Block ty body) }
    {
        Ok(Instr::Block(ty, Boxed::new(alloc, body)?))
    }

    /// A `loop` of these instructions. Fails where memory runs out.
    pub fn loop_of(
        alloc: Global,
        ty: Option<ValTy>,
        body: Items<Instr>,
    ) -> Result<Instr, AllocError>
        ensures { IfOk result (λ made. made ≡ instr.Loop ty body) }
    {
        Ok(Instr::Loop(ty, Boxed::new(alloc, body)?))
    }

    /// An `if` of what is done where the operand isn't 0, and where it is. Fails where memory runs out.
    pub fn if_of(
        alloc: Global,
        ty: Option<ValTy>,
        then: Items<Instr>,
        otherwise: Items<Instr>,
    ) -> Result<Instr, AllocError>
        ensures { IfOk result (λ made. made ≡ instr.If ty (then, otherwise)) }
    {
        Ok(Instr::If(ty, Boxed::new(alloc, (then, otherwise))?))
    }

    /// A `br_table` with these labels, and the one for an operand past them. Fails where memory runs out.
    pub fn br_table_of(alloc: Global, labels: Items<u32>, default: u32) -> Result<Instr, AllocError>
        ensures { IfOk result (λ made. made ≡ instr.BrTable (labels, default)) }
    {
        Ok(Instr::BrTable(Boxed::new(alloc, (labels, default))?))
    }
}
