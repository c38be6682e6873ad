//! Types (section 5.3).

ghost use Rattle.std.specs.Prelude.{◌≡◌, ◌<◌, [], ◌∷◌, length, IfOk, IfSome};
ghost use Rattle.wa_syntax.specs.declared.module.ValTy.{ValTy};
ghost use Rattle.wa_syntax.specs.Binary.{functype, globaltype, limits, memtype, mut, tabletype};
ghost use Rattle.wa_syntax.specs.BinaryInstructions.{blocktype, valtype};
ghost use Rattle.wa_decode.specs.Places.{EndsIn};
ghost use Rattle.wa_decode.specs.Reading.{Reads};

use crate::fault::DecodeFault;
use crate::production::{Decoded, Production, vector};
use crate::value::{byte, expect, unsigned};
use std::alloc::Global;
use wa_syntax::{FuncTy, GlobalTy, Limits, ValTy};

/// The byte of i32.
const I32: u8 = 0x7f;
/// The byte of i64.
const I64: u8 = 0x7e;
/// The byte of a block without a result.
const EMPTY: u8 = 0x40;
/// The byte that begins the type of a function.
const FUNCTION: u8 = 0x60;
/// The byte of a table's elements, which are functions.
const FUNCTION_REFERENCE: u8 = 0x70;

/// The type of a value that a byte denotes (5.3.1).
fn value_type(byte: u8) -> Option<ValTy>
    ensures found { IfSome result (λ ty. valtype ty (byte ∷ [])) }
    ensures complete { (ty : ValTy) → valtype ty (byte ∷ []) → result ≡ Some ty }
{
    match byte {
        I32 => Some(ValTy::I32),
        I64 => Some(ValTy::I64),
        _ => None,
    }
}

/// The type of a value (5.3.1).
pub struct ValueType;

impl Production for ValueType {
    type Value = ValTy;

    ghost format = { valtype };

    fn read(_alloc: Global, bytes: &[u8], at: u32) -> Decoded<ValTy> {
        let (byte, end) = byte(bytes, at)?;
        match value_type(byte) {
            Some(ty) => Ok((ty, end)),
            None => Err(DecodeFault::Malformed),
        }
    }
}

/// The type of a block's result, if it has one (5.3.2).
pub fn block_type(bytes: &[u8], at: u32) -> Decoded<Option<ValTy>>
    requires { length bytes.now < u32.MAX }
    ensures ends { IfOk result (λ read. EndsIn bytes.now at read.1) }
    ensures reads { Reads blocktype bytes.now at result }
{
    let (byte, end) = byte(bytes, at)?;
    let ty = value_type(byte);
    if ty.is_some() || byte == EMPTY {
        Ok((ty, end))
    } else {
        Err(DecodeFault::Malformed)
    }
}

/// The type of a function (5.3.3).
pub struct FunctionType;

impl Production for FunctionType {
    type Value = FuncTy;

    ghost format = { functype };

    fn read(alloc: Global, bytes: &[u8], at: u32) -> Decoded<FuncTy> {
        let at = expect(bytes, at, FUNCTION)?;
        let (params, at) = vector::<ValueType>(alloc, bytes, at)?;
        let (results, end) = vector::<ValueType>(alloc, bytes, at)?;
        Ok((FuncTy { params, results }, end))
    }
}

/// Limits (5.3.4).
fn limits(bytes: &[u8], at: u32) -> Decoded<Limits>
    requires { length bytes.now < u32.MAX }
    ensures ends { IfOk result (λ read. EndsIn bytes.now at read.1) }
    ensures reads { Reads limits bytes.now at result }
{
    let (bounded, at) = flag(bytes, at)?;
    let (min, at) = unsigned(bytes, at)?;
    if !bounded {
        return Ok((Limits { min, max: None }, at));
    }
    let (max, end) = unsigned(bytes, at)?;
    let max = Some(max);
    Ok((Limits { min, max }, end))
}

/// A byte that is 0 or 1: whether limits have a maximum (5.3.4), or a global may be changed (5.3.7).
fn flag(bytes: &[u8], at: u32) -> Decoded<bool>
    requires { length bytes.now < u32.MAX }
    ensures ends { IfOk result (λ read. EndsIn bytes.now at read.1) }
    ensures reads { Reads mut bytes.now at result }
{
    let (byte, end) = byte(bytes, at)?;
    match byte {
        0 => Ok((false, end)),
        1 => Ok((true, end)),
        _ => Err(DecodeFault::Malformed),
    }
}

/// The type of a memory (5.3.5).
pub struct MemoryType;

impl Production for MemoryType {
    type Value = Limits;

    ghost format = { memtype };

    fn read(_alloc: Global, bytes: &[u8], at: u32) -> Decoded<Limits> {
        limits(bytes, at)
    }
}

/// The type of a table (5.3.6).
pub struct TableType;

impl Production for TableType {
    type Value = Limits;

    ghost format = { tabletype };

    fn read(_alloc: Global, bytes: &[u8], at: u32) -> Decoded<Limits> {
        let at = expect(bytes, at, FUNCTION_REFERENCE)?;
        limits(bytes, at)
    }
}

/// The type of a global (5.3.7).
pub fn global_type(alloc: Global, bytes: &[u8], at: u32) -> Decoded<GlobalTy>
    requires { length bytes.now < u32.MAX }
    ensures ends { IfOk result (λ read. EndsIn bytes.now at read.1) }
    ensures reads { Reads globaltype bytes.now at result }
{
    let (val, at) = ValueType::read(alloc, bytes, at)?;
    let (mutable, end) = flag(bytes, at)?;
    Ok((GlobalTy { val, mutable }, end))
}
