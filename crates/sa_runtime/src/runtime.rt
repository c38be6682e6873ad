//! The functions of a module that this crate gives, with their types.

ghost use Rattle.std.specs.Prelude.{◌≡◌, length, IfOk};

use crate::bound::bound_call;
use crate::builtins::{BUILTINS, SUPPORT};
use crate::frame::RELEASE;
use crate::room::allocate;
use crate::signatures::{BUILTIN_TYPES, FRAME_TYPES, SUPPORT_TYPES, TRACE_TYPES};
use crate::templates::{func, functions, types};
use crate::trace::{TraceFunctions, Tracing};
use crate::trace_functions::event_functions;
use failure::Failure;
use sqlite_items::Items;
use std::alloc::Global;
use wa_syntax::{Func, FuncTy};

/// Functions and their types. The number of a function's type is its index in these types; calls and globals have the numbers that `layout`
/// gives.
#[derive(Drop)]
pub struct RuntimeCode {
    pub types: Items<FuncTy>,
    pub funcs: Items<Func>,
}

/// The functions of the 33 built-in features in the order of their numbers, and then `ALLOCATE`. Objects are from the address
/// `base` on, a multiple of 8 up to 2,147,483,648, in a room of so many KiB, from 64 to 1,048,576. Fails where memory runs out.
pub fn code(alloc: Global, base: u32, room: u32, tracing: Tracing) -> Result<RuntimeCode, Failure>
    ensures { IfOk result (λ code. length code.funcs ≡ 34) }
{
    let types = types(alloc, &BUILTIN_TYPES)?;
    let mut funcs = functions(alloc, &BUILTINS, tracing)?;
    let room_end = u64::from(base) + 1024 * u64::from(room);
    funcs.push(allocate(alloc, room_end, tracing)?)?;
    Ok(RuntimeCode { types, funcs })
}

/// The functions `FAULT`, `CHANGED`, `BOX_IMMUTABLE`, `BOX_WORD` and `UNBOX`, in this order. Fails where memory runs out.
pub fn support(alloc: Global, tracing: Tracing) -> Result<RuntimeCode, Failure>
    ensures { IfOk result (λ code. length code.funcs ≡ 5) }
{
    Ok(RuntimeCode {
        types: types(alloc, &SUPPORT_TYPES)?,
        funcs: functions(alloc, &SUPPORT, tracing)?,
    })
}

/// The functions `RELEASE` and `BOUND_CALL`, in this order. Fails where memory runs out.
pub fn frames(alloc: Global, tracing: Tracing) -> Result<RuntimeCode, Failure>
    ensures { IfOk result (λ code. length code.funcs ≡ 2) }
{
    let types = types(alloc, &FRAME_TYPES)?;
    let mut funcs = Items::new(alloc);
    funcs.push(func(alloc, &RELEASE, tracing)?)?;
    funcs.push(bound_call(alloc, tracing)?)?;
    Ok(RuntimeCode { types, funcs })
}

/// The functions of a traced module that write trace records, in the order of `TraceFunctions`, whose numbers they have, where the slots of
/// the pool have so many bytes. Fails where memory runs out.
pub fn trace_code(
    alloc: Global,
    tellers: TraceFunctions,
    slot_bytes: u32,
) -> Result<RuntimeCode, Failure>
    ensures { IfOk result (λ code. length code.funcs ≡ 4) }
{
    Ok(RuntimeCode {
        types: types(alloc, &TRACE_TYPES)?,
        funcs: event_functions(alloc, tellers, slot_bytes)?,
    })
}
