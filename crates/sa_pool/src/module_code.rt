//! The pool as two functions of a WebAssembly module: the same slots in the same order. Slots are named by their addresses, and so are
//! they on the chain.

ghost use Rattle.std.specs.Prelude.{◌≡◌, IfOk};

use failure::{Failure, Invariant, known};
use sa_runtime::template_ops::TemplateOp::{self, Do, Get, I32, I64, Memory, Tee};
use sa_runtime::template_ops::emit_ops;
use sqlite_items::Items;
use std::alloc::Global;
use wa_syntax::opcode::{I32_ADD, I32_EQ, I32_LOAD, I32_STORE, I64_STORE, RETURN};
use wa_syntax::{Func, Instr, Locals, ValTy};

/// The functions of a module that allocate a slot and free one.
#[derive(Drop)]
pub struct PoolCode {
    pub take: Func,
    pub give: Func,
}

/// The address of the slot: the parameter of `give`, and the local of `take`, where it is also how many bytes were ever taken.
const SLOT: u32 = 0;

/// The type of `take`: no parameter, and a result of the type `i32`.
const TAKES: u32 = 0;

/// The type of `give`: a parameter of the type `i32`, and no result.
const GIVES: u32 = 1;

/// How many slots there are.
const SLOTS: u32 = 10_000;

/// The bytes of the head, which the slots follow: the address of the first slot of the chain, or 0, and after it how many bytes the slots
/// have that were ever taken.
const HEAD_BYTES: u32 = 8;

/// The addresses of a pool.
#[derive(Clone, Copy)]
struct PoolAddresses {
    /// The address of the first slot of the chain.
    chain: u32,
    /// The address of how many bytes were ever taken.
    taken: u32,
    /// The address of the first slot.
    first: u32,
    slot_bytes: u32,
    /// The bytes of all slots.
    all_bytes: u32,
}

/// The functions of a pool in the memory from the address `base` on, with slots of so many bytes: both are multiples of 8, a slot has 16
/// bytes or more, and the memory has `8 + 10000 * slot_bytes` bytes from there on. Memory that is 0 is a new pool.
///
/// `take` returns the address of the slot that it has allocated, whose second word is 0, or 0 where all are live; its type has the number
/// 0, which is no parameter and a result of the type `i32`. `give` takes the address of a slot that is live; its type has the number 1,
/// which is a parameter of the type `i32` and no result.
///
/// # Errors
///
/// `NoMemory` where memory runs out, `Broken` where 32 bits don't hold the addresses.
pub fn code(alloc: Global, base: u32, slot_bytes: u32) -> Result<PoolCode, Failure>
    ensures { IfOk result (λ code. (code.take.ty ≡ 0) × (code.give.ty ≡ 1)) }
{
    let place = place_of(base, slot_bytes)?;
    let mut locals = Locals::new(alloc);
    locals.push(1, ValTy::I32)?;
    Ok(PoolCode {
        take: Func {
            ty: TAKES,
            locals,
            body: take(alloc, place)?,
        },
        give: Func {
            ty: GIVES,
            locals: Locals::new(alloc),
            body: give(alloc, place)?,
        },
    })
}

/// The addresses of a pool.
fn place_of(base: u32, slot_bytes: u32) -> Result<PoolAddresses, Failure> {
    let first = known(base.checked_add(HEAD_BYTES), Invariant::CheckedCount)?;
    Ok(PoolAddresses {
        chain: base,
        taken: first - 4,
        first,
        slot_bytes,
        all_bytes: known(slot_bytes.checked_mul(SLOTS), Invariant::CheckedCount)?,
    })
}

/// The body of `take`.
fn take(alloc: Global, place: PoolAddresses) -> Result<Items<Instr>, Failure> {
    let mut body = Items::new(alloc);
    let first_of_chain = [I32(0), Memory(I32_LOAD, place.chain), Tee(SLOT)];
    emit_ops(&mut body, &first_of_chain)?;
    emit_if(alloc, &mut body, chained(alloc, place)?)?;
    let is_all_taken = [
        I32(0),
        Memory(I32_LOAD, place.taken),
        Tee(SLOT),
        I32(place.all_bytes),
        Do(I32_EQ),
    ];
    emit_ops(&mut body, &is_all_taken)?;
    emit_if(alloc, &mut body, line(alloc, &[I32(0), Do(RETURN)])?)?;
    let take_unused = [
        I32(0),
        Get(SLOT),
        I32(place.slot_bytes),
        Do(I32_ADD),
        Memory(I32_STORE, place.taken),
        Get(SLOT),
        I32(place.first),
        Do(I32_ADD),
    ];
    emit_ops(&mut body, &take_unused)?;
    Ok(body)
}

/// What `take` does where the chain has a slot.
fn chained(alloc: Global, place: PoolAddresses) -> Result<Items<Instr>, Failure> {
    let take_chained = [
        I32(0),
        Get(SLOT),
        Memory(I32_LOAD, 0),
        Memory(I32_STORE, place.chain),
        Get(SLOT),
        I64(0),
        Memory(I64_STORE, 8),
        Get(SLOT),
        Do(RETURN),
    ];
    line(alloc, &take_chained)
}

/// The body of `give`: the slot goes to the beginning of the chain.
fn give(alloc: Global, place: PoolAddresses) -> Result<Items<Instr>, Failure> {
    let give = [
        Get(SLOT),
        I32(0),
        Memory(I32_LOAD, place.chain),
        Memory(I32_STORE, 0),
        I32(0),
        Get(SLOT),
        Memory(I32_STORE, place.chain),
    ];
    line(alloc, &give)
}

/// These instructions.
fn line(alloc: Global, ops: &[TemplateOp]) -> Result<Items<Instr>, Failure> {
    let mut line = Items::new(alloc);
    emit_ops(&mut line, ops)?;
    Ok(line)
}

/// Appends what is done where the operand isn't 0.
fn emit_if(alloc: Global, to: &mut Items<Instr>, then: Items<Instr>) -> Result<(), Failure> {
    to.push(Instr::if_of(alloc, None, then, Items::new(alloc))?)?;
    Ok(())
}
