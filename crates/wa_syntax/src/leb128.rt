//! Numbers of the binary format in LEB128 (section 5.2.2): which bytes spell a number, and which are written.
//!
//! A byte from 128 on has seven bits of the number, the lowest first, and more bytes follow it. The byte below 128 is the
//! last. Longer spellings than needed are read too, up to five bytes for 32 bits and ten for 64. The last of so many
//! bytes has bits that the number has no room for: they are zero or, in a number with a sign, copies of the sign.

ghost use Rattle.std.specs.Prelude.{◌≡◌, ℕ, ◌+◌, ◌-◌, ◌^◌, ◌<◌, ◌≤◌, ℤ, pos, neg_ℤ, ◌+ℤ◌, ◌*ℤ◌};
ghost use Rattle.std.specs.Prelude.{◌≤ℤ◌, ◌<ℤ◌, List, ◌++◌, length, take, IfSome, OnOk, OnErr};
ghost use Rattle.wa_syntax.specs.Leb128.{IsUnsigned, IsLastSigned, IsSigned, Spells, IsShortest, Appends};

use failure::NoMemory;

/// Reads a `u32` (5.2.2) at a position, and gives it with the position after it. `None` says that no `u32` is spelled there, as
/// where the position is past the end.
pub fn read_u32(b: &[u8], at: u32) -> Option<(u32, u32)>
    requires { length b.now < u32.MAX }
    // What is read is spelled there.
    ensures found { IfSome result (λ read. Spells (IsUnsigned 32) b.now at read.1 read.0) }
    // What is spelled there is read: so `None` comes only where nothing is.
    ensures complete { (n end : ℕ) → Spells (IsUnsigned 32) b.now at end n → result ≡ Some (n, end) }
{
    unsigned(b, at, 32)
}

/// Reads an `i32` (5.2.2) at a position, and gives it with the position after it. `None` says that no `i32` is spelled there, as
/// where the position is past the end.
pub fn read_i32(b: &[u8], at: u32) -> Option<(i32, u32)>
    requires { length b.now < u32.MAX }
    // What is read is spelled there.
    ensures found { IfSome result (λ read. Spells (IsSigned 32) b.now at read.1 read.0) }
    // What is spelled there is read: so `None` comes only where nothing is.
    ensures complete { (z : ℤ) (end : ℕ) → Spells (IsSigned 32) b.now at end z → result ≡ Some (z, end) }
{
    let (number, end) = signed(b, at, 32)?;
    Some((number as i32, end))
}

/// Reads an `i64` (5.2.2) at a position, and gives it with the position after it. `None` says that no `i64` is spelled there, as
/// where the position is past the end.
pub fn read_i64(b: &[u8], at: u32) -> Option<(i64, u32)>
    requires { length b.now < u32.MAX }
    // What is read is spelled there.
    ensures found { IfSome result (λ read. Spells (IsSigned 64) b.now at read.1 read.0) }
    // What is spelled there is read: so `None` comes only where nothing is.
    ensures complete { (z : ℤ) (end : ℕ) → Spells (IsSigned 64) b.now at end z → result ≡ Some (z, end) }
{
    signed(b, at, 64)
}

/// Appends the shortest spelling of a `u32` (5.2.2), one to five bytes. Fails where memory runs out, and then nothing is
/// appended.
pub fn write_u32(out: &mut Vec<u8>, v: u32) -> Result<(), NoMemory>
    ensures ok { OnOk result (Appends (IsShortest (IsUnsigned 32)) out.old.items out.new.items v) }
    ensures err { OnErr result (out.new.items ≡ out.old.items) }
{
    let (bytes, len) = unsigned_bytes(v);
    out.extend_from_slice(&bytes[..len])?;
    Ok(())
}

/// Appends the shortest spelling of an `i32` (5.2.2), one to five bytes. Fails where memory runs out, and then nothing is
/// appended.
pub fn write_i32(out: &mut Vec<u8>, v: i32) -> Result<(), NoMemory>
    ensures ok { OnOk result (Appends (IsShortest (IsSigned 32)) out.old.items out.new.items v) }
    ensures err { OnErr result (out.new.items ≡ out.old.items) }
{
    let (bytes, len) = signed_bytes(i64::from(v));
    out.extend_from_slice(&bytes[..len])?;
    Ok(())
}

/// Appends the shortest spelling of an `i64` (5.2.2), one to ten bytes. Fails where memory runs out, and then nothing is
/// appended.
pub fn write_i64(out: &mut Vec<u8>, v: i64) -> Result<(), NoMemory>
    ensures ok { OnOk result (Appends (IsShortest (IsSigned 64)) out.old.items out.new.items v) }
    ensures err { OnErr result (out.new.items ≡ out.old.items) }
{
    let (bytes, len) = signed_bytes(v);
    out.extend_from_slice(&bytes[..len])?;
    Ok(())
}

/// No spelling of a number begins another's: the encoding is prefix-free. So bytes have one reading, and a number that was
/// written is read again whatever bytes follow it.
pub fn one_spelling()
    ensures unsigned { (bits : ℕ) (a b x y : List ℕ) (m n : ℕ)
        → IsUnsigned bits a m → IsUnsigned bits b n → a ++ x ≡ b ++ y → (a ≡ b) × (m ≡ n) }
    ensures signed { (bits : ℕ) (a b x y : List ℕ) (m n : ℤ)
        → IsSigned bits a m → IsSigned bits b n → a ++ x ≡ b ++ y → (a ≡ b) × (m ≡ n) }
{}

/// Reads uN at a position.
#[tactic(auto, using(crate::proofs::Unsigned::reading, std::proofs::lemmas::Grind::common_steps))]
fn unsigned(b: &[u8], at: u32, bits: u32) -> Option<(u32, u32)>
    requires few_bytes { length b.now < u32.MAX }
    requires few_bits { bits ≤ 32 }
    ensures found { IfSome result (λ read. Spells (IsUnsigned bits) b.now at read.1 read.0) }
    ensures complete { (n end : ℕ) → Spells (IsUnsigned bits) b.now at end n → result ≡ Some (n, end) }
{
    let byte = *b.get(at as usize)?;
    if byte < 128 {
        return (u64::from(byte) < 1 << bits).then_some((u32::from(byte), at + 1));
    }
    if bits <= 7 {
        return None;
    }
    let (high, end) = unsigned(b, at + 1, bits - 7)?;
    Some((128 * high + u32::from(byte - 128), end))
}

/// Reads sN at a position.
#[tactic(auto, using(crate::proofs::Signed::reading, std::proofs::lemmas::Grind::common_steps))]
fn signed(b: &[u8], at: u32, bits: u32) -> Option<(i64, u32)>
    requires few_bytes { length b.now < u32.MAX }
    requires some_bits { 0 < bits }
    requires few_bits { bits ≤ 64 }
    ensures found { IfSome result (λ read. Spells (IsSigned bits) b.now at read.1 read.0) }
    ensures complete { (z : ℤ) (end : ℕ) → Spells (IsSigned bits) b.now at end z → result ≡ Some (z, end) }
{
    let byte = *b.get(at as usize)?;
    if byte < 128 {
        return Some((last_signed(byte, bits)?, at + 1));
    }
    if bits <= 7 {
        return None;
    }
    let (high, end) = signed(b, at + 1, bits - 7)?;
    Some((joined(high, byte), end))
}

/// The number that a byte denotes as the last one of sN.
fn last_signed(byte: u8, bits: u32) -> Option<i64>
    requires some_bits { 0 < bits }
    requires few_bits { bits ≤ 64 }
    ensures found { IfSome result (IsLastSigned bits byte) }
    ensures complete { (z : ℤ) → IsLastSigned bits byte z → result ≡ Some z }
{
    if byte >= 128 {
        return None;
    }
    let limit = 1u64 << (bits - 1);
    if byte < 64 {
        (u64::from(byte) < limit).then_some(i64::from(byte))
    } else {
        (128 <= u64::from(byte) + limit).then_some(i64::from(byte) - 128)
    }
}

/// The number whose low seven bits are those of a byte from 128 on, and whose other bits are given.
fn joined(high: i64, byte: u8) -> i64
    requires from { neg_ℤ (pos (2 ^ 56)) ≤ℤ high }
    requires below { high <ℤ pos (2 ^ 56) }
    requires goes_on { 128 ≤ byte }
    ensures { result ≡ pos 128 *ℤ high +ℤ pos (byte - 128) }
{
    128 * high + i64::from(byte - 128)
}

/// The shortest spelling of a number as u32: a prefix of an array, and its length.
fn unsigned_bytes(v: u32) -> ([u8; 5], usize)
    ensures within { result.1 ≤ length result.0 }
    ensures shortest { IsShortest (IsUnsigned 32) (take result.1 result.0) v }
{
    let mut bytes = [0u8; 5];
    let mut len = 0;
    let mut rest = v;
    while rest >= 128 {
        bytes[len] = (rest % 128) as u8 + 128;
        rest /= 128;
        len += 1;
    }
    bytes[len] = rest as u8;
    (bytes, len + 1)
}

/// The shortest spelling of a number as sN, for each N whose numbers it is among: a prefix of an array, and its length.
fn signed_bytes(v: i64) -> ([u8; 10], usize)
    ensures within { result.1 ≤ length result.0 }
    ensures shortest { (bits : ℕ) → neg_ℤ (pos (2 ^ (bits - 1))) ≤ℤ v → v <ℤ pos (2 ^ (bits - 1))
        → IsShortest (IsSigned bits) (take result.1 result.0) v }
{
    let mut bytes = [0u8; 10];
    let mut len = 0;
    let mut rest = v;
    while !(-64..64).contains(&rest) {
        let (high, low) = split(rest);
        bytes[len] = low + 128;
        rest = high;
        len += 1;
    }
    let (_, low) = split(rest);
    bytes[len] = low;
    (bytes, len + 1)
}

/// A number's bits above the low seven, and the low seven.
fn split(number: i64) -> (i64, u8)
    ensures low { result.1 < 128 }
    ensures whole { number ≡ pos 128 *ℤ result.0 +ℤ pos result.1 }
{
    (number.div_euclid(128), number.rem_euclid(128) as u8)
}
