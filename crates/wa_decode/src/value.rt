//! Values (section 5.2).

ghost use Rattle.std.specs.Prelude.{◌≡◌, ◌≢◌, ℕ, ◌<◌, List, length, drop, IfOk, MatchResult};
ghost use Rattle.wa_syntax.specs.Formats.{byte, vec};
ghost use Rattle.wa_syntax.specs.Formats as formats;
ghost use Rattle.wa_decode.specs.Places.{EndsIn, HoldsContent};
ghost use Rattle.wa_decode.specs.Reading.{Reads, Passes, Spelled, counted};
ghost use Rattle.wa_decode.specs.declared.fault.DecodeFault.TheVariants.{Malformed, NoMemory};

use crate::fault::DecodeFault;
use crate::production::{Decoded, Production};
use std::alloc::Global;
use wa_syntax::{WasmName, read_i32, read_i64, read_u32};

/// A byte (5.2.1).
pub fn byte(bytes: &[u8], at: u32) -> Decoded<u8>
    requires { length bytes.now < u32.MAX }
    ensures ends { IfOk result (λ read. EndsIn bytes.now at read.1) }
    ensures reads { Reads byte bytes.now at result }
{
    match bytes.get(at as usize) {
        Some(byte) => Ok((*byte, at + 1)),
        None => Err(DecodeFault::Malformed),
    }
}

/// This byte and no other.
pub fn expect(bytes: &[u8], at: u32, wanted: u8) -> Result<u32, DecodeFault>
    requires { length bytes.now < u32.MAX }
    ensures ends { IfOk result (EndsIn bytes.now at) }
    ensures reads { Passes (byte wanted) bytes.now at result }
{
    let (byte, end) = byte(bytes, at)?;
    if byte == wanted {
        Ok(end)
    } else {
        Err(DecodeFault::Malformed)
    }
}

/// A number of 32 bits without a sign (5.2.2).
pub fn unsigned(bytes: &[u8], at: u32) -> Decoded<u32>
    requires { length bytes.now < u32.MAX }
    ensures ends { IfOk result (λ read. EndsIn bytes.now at read.1) }
    ensures reads { Reads formats.u32 bytes.now at result }
{
    match read_u32(bytes, at) {
        Some((number, end)) => Ok((number, end)),
        None => Err(DecodeFault::Malformed),
    }
}

/// The bits of a number of 32 bits with a sign (5.2.2).
pub fn signed_32(bytes: &[u8], at: u32) -> Decoded<u32>
    requires { length bytes.now < u32.MAX }
    ensures reads { Reads formats.i32 bytes.now at result }
    ensures ends { IfOk result (λ read. EndsIn bytes.now at read.1) }
{
    match read_i32(bytes, at) {
        Some((number, end)) => Ok((number.cast_unsigned(), end)),
        None => Err(DecodeFault::Malformed),
    }
}

/// The bits of a number of 64 bits with a sign (5.2.2).
pub fn signed_64(bytes: &[u8], at: u32) -> Decoded<u64>
    requires { length bytes.now < u32.MAX }
    ensures reads { Reads formats.i64 bytes.now at result }
    ensures ends { IfOk result (λ read. EndsIn bytes.now at read.1) }
{
    match read_i64(bytes, at) {
        Some((number, end)) => Ok((number.cast_unsigned(), end)),
        None => Err(DecodeFault::Malformed),
    }
}

/// The index of a type, a function, a table, a memory, a global, a local or a label (5.4.1, 5.5.1).
pub struct Index;

impl Production for Index {
    type Value = u32;

    ghost format = { formats.u32 };

    fn read(_alloc: Global, bytes: &[u8], at: u32) -> Decoded<u32> {
        unsigned(bytes, at)
    }
}

/// A vector of bytes (5.1.3).
pub fn byte_vector(bytes: &[u8], at: u32) -> Decoded<&[u8]>
    requires { length bytes.now < u32.MAX }
    ensures ends { IfOk result (λ read. EndsIn bytes.now at read.1) }
    ensures found { IfOk result (λ read. Spelled (vec byte read.0.now) bytes.now at read.1) }
    ensures complete { (content : List ℕ) (end : ℕ) → Spelled (vec byte content) bytes.now at end
        → MatchResult result (λ read. (read.0.now ≡ content) × (read.1 ≡ end)) (λ fault. fault ≡ NoMemory) }
{
    let (content, start) = sized(bytes, at)?;
    Ok((&content[start as usize..], content.len() as u32))
}

/// Content after its size (5.5.2, 5.5.13): the bytes up to its end, and the position of its first.
pub fn sized(bytes: &[u8], at: u32) -> Decoded<&[u8]>
    requires { length bytes.now < u32.MAX }
    ensures holds { IfOk result (λ read. HoldsContent bytes.now at read.0.now read.1) }
    ensures found { IfOk result (λ read. Spelled (counted (drop read.1 read.0.now)) bytes.now at (length read.0.now)) }
    ensures complete { (content : List ℕ) (end : ℕ) → Spelled (counted content) bytes.now at end
        → MatchResult result (λ read. (drop read.1 read.0.now ≡ content) × (length read.0.now ≡ end)) (λ fault. fault ≡ NoMemory) }
{
    let (size, start) = unsigned(bytes, at)?;
    let end = start as usize + size as usize;
    match bytes.get(..end) {
        Some(content) => Ok((content, start)),
        None => Err(DecodeFault::Malformed),
    }
}

/// Sized content ends exactly where its size says.
pub fn ends(content: &[u8], at: u32) -> Result<(), DecodeFault>
    ensures { MatchResult result (λ _. at ≡ length content.now) (λ fault. (at ≢ length content.now) × (fault ≡ Malformed)) }
{
    if at as usize == content.len() {
        Ok(())
    } else {
        Err(DecodeFault::Malformed)
    }
}

/// The bytes of a name (5.2.4), which are UTF-8.
pub fn name_bytes(bytes: &[u8], at: u32) -> Decoded<&[u8]>
    requires { length bytes.now < u32.MAX }
    ensures ends { IfOk result (λ read. EndsIn bytes.now at read.1) }
    ensures found { IfOk result (λ read. Spelled (formats.name read.0.now) bytes.now at read.1) }
    ensures complete { (text : List ℕ) (end : ℕ) → Spelled (formats.name text) bytes.now at end
        → MatchResult result (λ read. (read.0.now ≡ text) × (read.1 ≡ end)) (λ fault. fault ≡ NoMemory) }
{
    let (text, end) = byte_vector(bytes, at)?;
    match str::from_utf8(text) {
        Ok(_) => Ok((text, end)),
        Err(_) => Err(DecodeFault::Malformed),
    }
}

/// A name (5.2.4).
pub fn name(alloc: Global, bytes: &[u8], at: u32) -> Decoded<WasmName>
    requires { length bytes.now < u32.MAX }
    ensures ends { IfOk result (λ read. EndsIn bytes.now at read.1) }
    ensures reads { Reads formats.name bytes.now at result }
{
    let (text, end) = name_bytes(bytes, at)?;
    Ok((WasmName::from_slice(alloc, text)?, end))
}
