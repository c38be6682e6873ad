//! Memory instructions (section 3.3.4).

ghost use Rattle.std.specs.Prelude.{◌≡◌, ℕ, ◌<◌, ◌≤◌, [], ◌∷◌, Some, None, MatchOption};
ghost use Rattle.wa_syntax.specs.Instructions.{Memory, MemorySize, MemoryGrow, load_of, store_of};
ghost use Rattle.wa_syntax.specs.Instructions as instructions;
ghost use Rattle.wa_syntax.specs.Validity.{IsTyped};
ghost use Rattle.wa_syntax.specs.Validity as validity;
ghost use Rattle.wa_valid.specs.Effects.{IsAccess};
ghost use Rattle.wa_valid.specs.Operands.{stack, Answers};
ghost use Rattle.wa_valid.specs.Rules.{Says};

use crate::context::Context;
use crate::fault::{Fault, ValidationRule, require};
use crate::operands::Operands;
use wa_syntax::ValTy::{self, I32, I64};
use wa_syntax::opcode::*;

/// What a load or a store moves.
#[derive(Clone, Copy)]
pub struct MemoryAccess {
    /// The type of the value.
    ty: ValTy,
    /// The greatest alignment, as a power of two of bytes.
    align: u32,
}

/// An access of a type and a greatest alignment.
fn some_access(ty: ValTy, align: u32) -> Option<MemoryAccess>
    ensures { result ≡ Some (record { ty = ty; align = align }) }
{
    Some(MemoryAccess { ty, align })
}

/// The load with an opcode, if there is one.
fn load(opcode: u8) -> Option<MemoryAccess>
    ensures load { MatchOption result (load_of opcode ≡ None) (λ held. (a : instructions.Access) × (load_of opcode ≡ Some a)
        × IsAccess held a) }
    ensures apart { MatchOption result (Unit {0}) (λ held. store_of opcode ≡ None) }
{
    match opcode {
        I32_LOAD => some_access(I32, 2),
        I64_LOAD => some_access(I64, 3),
        I32_LOAD8_S => some_access(I32, 0),
        I32_LOAD8_U => some_access(I32, 0),
        I32_LOAD16_S => some_access(I32, 1),
        I32_LOAD16_U => some_access(I32, 1),
        I64_LOAD8_S => some_access(I64, 0),
        I64_LOAD8_U => some_access(I64, 0),
        I64_LOAD16_S => some_access(I64, 1),
        I64_LOAD16_U => some_access(I64, 1),
        I64_LOAD32_S => some_access(I64, 2),
        I64_LOAD32_U => some_access(I64, 2),
        _ => None,
    }
}

/// The store with an opcode, if there is one.
fn store(opcode: u8) -> Option<MemoryAccess>
    ensures { MatchOption result (store_of opcode ≡ None) (λ held. (a : instructions.Access) × (store_of opcode ≡ Some a)
        × IsAccess held a) }
{
    match opcode {
        I32_STORE => some_access(I32, 2),
        I64_STORE => some_access(I64, 3),
        I32_STORE8 => some_access(I32, 0),
        I32_STORE16 => some_access(I32, 1),
        I64_STORE8 => some_access(I64, 0),
        I64_STORE16 => some_access(I64, 1),
        I64_STORE32 => some_access(I64, 2),
        _ => None,
    }
}

/// There is a memory, and the alignment, as a power of two, isn't greater than the width.
fn aligned(context: &Context, access: MemoryAccess, align: u32) -> ValidationRule
    ensures { Says ((0 < context.now.memories) × (align ≤ access.align)) result }
{
    require(0 < context.memories && align <= access.align)
}

/// A load, [i32] → [t], or a store, [i32 t] → [].
pub fn load_or_store(
    context: &Context,
    operands: &mut Operands,
    opcode: u8,
    align: u32,
) -> ValidationRule
    ensures { (c : validity.Context) (offset : ℕ) → c.memories ≡ context.now.memories
        → Answers (IsTyped c (Memory opcode align offset)) (stack operands.old) (stack operands.new) result }
{
    if let Some(access) = load(opcode) {
        aligned(context, access, align)?;
        return operands.apply(Some(I32), None, Some(access.ty));
    }
    match store(opcode) {
        Some(access) => {
            aligned(context, access, align)?;
            operands.apply(Some(I32), Some(access.ty), None)
        }
        None => Err(Fault::Invalid),
    }
}

/// `memory.size`: [] → [i32].
pub fn memory_size(context: &Context, operands: &mut Operands) -> ValidationRule
    ensures { (c : validity.Context) → c.memories ≡ context.now.memories
        → Answers (IsTyped c MemorySize) (stack operands.old) (stack operands.new) result }
{
    require(0 < context.memories)?;
    operands.apply(None, None, Some(I32))
}

/// `memory.grow`: [i32] → [i32].
pub fn memory_grow(context: &Context, operands: &mut Operands) -> ValidationRule
    ensures { (c : validity.Context) → c.memories ≡ context.now.memories
        → Answers (IsTyped c MemoryGrow) (stack operands.old) (stack operands.new) result }
{
    require(0 < context.memories)?;
    operands.apply(Some(I32), None, Some(I32))
}
