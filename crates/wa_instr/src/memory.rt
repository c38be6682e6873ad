//! Loads and stores (section 4.4.4 of the WebAssembly Core Specification 1.0) on the bytes of the linear memory. The address
//! and the offset are added without wrapping, and an access that goes past the end traps.

ghost use Rattle.std.specs.Prelude.{◌≡◌, ◌+◌, ◌%◌, ◌^◌, ◌<◌, ℕ, List, ◌∷◌, Some, length};
ghost use Rattle.std.specs.Int.{w8, w16, w32, w64, to_le_bytes};
ghost use Rattle.wa_instr.specs.Access.{number_at, with_number, load_result, store_result, Sets};
ghost use Rattle.wa_instr.specs.Stack.{Holds, Puts};
ghost use Rattle.wa_syntax.specs.Instructions.{Access, load_of, store_of};
ghost use Rattle.wa_syntax.specs.Numeric.{extend_s};

use crate::words::{low, read, write};
use wa_syntax::{TrapKind, opcode};

/// The address at which an access begins.
#[inline(always)]
fn place(base: u64, offset: u32) -> usize
    ensures at { result ≡ base % 2 ^ 32 + offset }
    ensures small { result < 2 ^ 63 }
{
    low(base) as usize + offset as usize
}

// ---- the number at an address

#[inline(always)]
fn byte_at(bytes: &[u8], at: usize) -> Result<u8, TrapKind>
    requires { at < 2 ^ 63 }
    ensures { result ≡ number_at w8 bytes.now at }
{
    if at + 1 > bytes.len() {
        return Err(TrapKind::Memory);
    }
    match bytes[at..at + 1].as_array::<1>() {
        Some(chunk) => Ok(u8::from_le_bytes(*chunk)),
        None => Err(TrapKind::Memory),
    }
}

#[inline(always)]
fn two_bytes_at(bytes: &[u8], at: usize) -> Result<u16, TrapKind>
    requires { at < 2 ^ 63 }
    ensures { result ≡ number_at w16 bytes.now at }
{
    if at + 2 > bytes.len() {
        return Err(TrapKind::Memory);
    }
    match bytes[at..at + 2].as_array::<2>() {
        Some(chunk) => Ok(u16::from_le_bytes(*chunk)),
        None => Err(TrapKind::Memory),
    }
}

#[inline(always)]
fn four_bytes_at(bytes: &[u8], at: usize) -> Result<u32, TrapKind>
    requires { at < 2 ^ 63 }
    ensures { result ≡ number_at w32 bytes.now at }
{
    if at + 4 > bytes.len() {
        return Err(TrapKind::Memory);
    }
    match bytes[at..at + 4].as_array::<4>() {
        Some(chunk) => Ok(u32::from_le_bytes(*chunk)),
        None => Err(TrapKind::Memory),
    }
}

#[inline(always)]
fn eight_bytes_at(bytes: &[u8], at: usize) -> Result<u64, TrapKind>
    requires { at < 2 ^ 63 }
    ensures { result ≡ number_at w64 bytes.now at }
{
    if at + 8 > bytes.len() {
        return Err(TrapKind::Memory);
    }
    match bytes[at..at + 8].as_array::<8>() {
        Some(chunk) => Ok(u64::from_le_bytes(*chunk)),
        None => Err(TrapKind::Memory),
    }
}

// ---- the number with its sign in the upper bits of an i32 or an i64

#[inline(always)]
fn byte_as_i32(byte: u8) -> u64
    ensures { result ≡ extend_s w8 w32 byte }
{
    u64::from(i32::from(byte.cast_signed()).cast_unsigned())
}

#[inline(always)]
fn two_bytes_as_i32(half: u16) -> u64
    ensures { result ≡ extend_s w16 w32 half }
{
    u64::from(i32::from(half.cast_signed()).cast_unsigned())
}

#[inline(always)]
fn byte_as_i64(byte: u8) -> u64
    ensures { result ≡ extend_s w8 w64 byte }
{
    i64::from(byte.cast_signed()).cast_unsigned()
}

#[inline(always)]
fn two_bytes_as_i64(half: u16) -> u64
    ensures { result ≡ extend_s w16 w64 half }
{
    i64::from(half.cast_signed()).cast_unsigned()
}

#[inline(always)]
fn four_bytes_as_i64(word: u32) -> u64
    ensures { result ≡ extend_s w32 w64 word }
{
    i64::from(word.cast_signed()).cast_unsigned()
}

// ---- loads

/// What the load of this opcode gives, as the bits of its type.
#[inline(always)]
fn loaded(op: u8, bytes: &[u8], at: usize) -> Result<u64, TrapKind>
    requires { at < 2 ^ 63 }
    ensures { (a : Access) → load_of op ≡ Some a → result ≡ load_result a bytes.now at }
{
    match op {
        opcode::I32_LOAD => Ok(u64::from(four_bytes_at(bytes, at)?)),
        opcode::I64_LOAD => eight_bytes_at(bytes, at),
        opcode::I32_LOAD8_S => Ok(byte_as_i32(byte_at(bytes, at)?)),
        opcode::I32_LOAD8_U => Ok(u64::from(byte_at(bytes, at)?)),
        opcode::I32_LOAD16_S => Ok(two_bytes_as_i32(two_bytes_at(bytes, at)?)),
        opcode::I32_LOAD16_U => Ok(u64::from(two_bytes_at(bytes, at)?)),
        opcode::I64_LOAD8_S => Ok(byte_as_i64(byte_at(bytes, at)?)),
        opcode::I64_LOAD8_U => Ok(u64::from(byte_at(bytes, at)?)),
        opcode::I64_LOAD16_S => Ok(two_bytes_as_i64(two_bytes_at(bytes, at)?)),
        opcode::I64_LOAD16_U => Ok(u64::from(two_bytes_at(bytes, at)?)),
        opcode::I64_LOAD32_S => Ok(four_bytes_as_i64(four_bytes_at(bytes, at)?)),
        _ => Ok(u64::from(four_bytes_at(bytes, at)?)),
    }
}

/// Replaces the address on top of the operands by what the load of this opcode gives.
///
/// # Errors
///
/// `Memory` where a byte past the end would be read. The operands are then unspecified.
#[inline(always)]
pub fn load(
    op: u8,
    offset: u32,
    bytes: &[u8],
    words: &mut [u64],
    height: usize,
) -> Result<(), TrapKind>
    ensures { (base : ℕ) (stack : List ℕ) → Holds words.old height (base ∷ stack) → (a : Access) → load_of op ≡ Some a
        → Puts (load_result a bytes.now (base % 2 ^ 32 + offset)) result words.new height stack }
{
    let at = height.wrapping_sub(1);
    let word = loaded(op, bytes, place(read(words, at), offset))?;
    write(words, at, word);
    Ok(())
}

// ---- stores

/// Sets all of two bytes.
#[inline(always)]
fn put_two_bytes(part: &mut [u8], half: u16)
    requires { length part.old ≡ 2 }
    ensures { part.new ≡ to_le_bytes w16 half }
{
    if let Some(chunk) = part.as_mut_array::<2>() {
        *chunk = half.to_le_bytes();
    }
}

/// Sets all of four bytes.
#[inline(always)]
fn put_four_bytes(part: &mut [u8], word: u32)
    requires { length part.old ≡ 4 }
    ensures { part.new ≡ to_le_bytes w32 word }
{
    if let Some(chunk) = part.as_mut_array::<4>() {
        *chunk = word.to_le_bytes();
    }
}

/// Sets all of eight bytes.
#[inline(always)]
fn put_eight_bytes(part: &mut [u8], word: u64)
    requires { length part.old ≡ 8 }
    ensures { part.new ≡ to_le_bytes w64 word }
{
    if let Some(chunk) = part.as_mut_array::<8>() {
        *chunk = word.to_le_bytes();
    }
}

#[inline(always)]
fn set_byte(bytes: &mut [u8], at: usize, byte: u8) -> Result<(), TrapKind>
    ensures { Sets (with_number w8 bytes.old at byte) result bytes.new }
{
    if at >= bytes.len() {
        return Err(TrapKind::Memory);
    }
    bytes[at] = byte;
    Ok(())
}

#[inline(always)]
fn set_two_bytes(bytes: &mut [u8], at: usize, half: u16) -> Result<(), TrapKind>
    requires { at < 2 ^ 63 }
    ensures { Sets (with_number w16 bytes.old at half) result bytes.new }
{
    if at + 2 > bytes.len() {
        return Err(TrapKind::Memory);
    }
    put_two_bytes(&mut bytes[at..at + 2], half);
    Ok(())
}

#[inline(always)]
fn set_four_bytes(bytes: &mut [u8], at: usize, word: u32) -> Result<(), TrapKind>
    requires { at < 2 ^ 63 }
    ensures { Sets (with_number w32 bytes.old at word) result bytes.new }
{
    if at + 4 > bytes.len() {
        return Err(TrapKind::Memory);
    }
    put_four_bytes(&mut bytes[at..at + 4], word);
    Ok(())
}

#[inline(always)]
fn set_eight_bytes(bytes: &mut [u8], at: usize, word: u64) -> Result<(), TrapKind>
    requires { at < 2 ^ 63 }
    ensures { Sets (with_number w64 bytes.old at word) result bytes.new }
{
    if at + 8 > bytes.len() {
        return Err(TrapKind::Memory);
    }
    put_eight_bytes(&mut bytes[at..at + 8], word);
    Ok(())
}

/// Does the store of this opcode at an address.
#[inline(always)]
fn set(op: u8, bytes: &mut [u8], at: usize, word: u64) -> Result<(), TrapKind>
    requires { at < 2 ^ 63 }
    ensures { (a : Access) → store_of op ≡ Some a → Sets (store_result a bytes.old at word) result bytes.new }
{
    match op {
        opcode::I64_STORE => set_eight_bytes(bytes, at, word),
        opcode::I32_STORE8 | opcode::I64_STORE8 => set_byte(bytes, at, (word % (1 << 8)) as u8),
        opcode::I32_STORE16 | opcode::I64_STORE16 => set_two_bytes(
            bytes,
            at,
            (word % (1 << 16)) as u16,
        ),
        _ => set_four_bytes(bytes, at, low(word)),
    }
}

/// Takes a value and an address below it from the operands, and does the store of this opcode.
///
/// # Errors
///
/// `Memory` where a byte past the end would be set; no byte is set then.
#[inline(always)]
pub fn store(
    op: u8,
    offset: u32,
    bytes: &mut [u8],
    words: &[u64],
    height: usize,
) -> Result<(), TrapKind>
    ensures { (n base : ℕ) (stack : List ℕ) → Holds words.now height (n ∷ base ∷ stack) → (a : Access) → store_of op ≡ Some a
        → Sets (store_result a bytes.old (base % 2 ^ 32 + offset) n) result bytes.new }
{
    let word = read(words, height.wrapping_sub(1));
    let at = place(read(words, height.wrapping_sub(2)), offset);
    set(op, bytes, at, word)
}
