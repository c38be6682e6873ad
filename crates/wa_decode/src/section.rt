//! Sections (section 5.5.2).

ghost use Rattle.std.specs.Prelude.{◌≡◌, ℕ, ◌<◌, ◌≤◌, ◌↔◌, length, slice_get, Some, IfOk, IsTrue, MatchResult};
ghost use Rattle.wa_syntax.specs.Binary.{startsec, vecsec};
ghost use Rattle.wa_decode.specs.Codes.{codesec};
ghost use Rattle.wa_decode.specs.Places.{EndsIn, ReachesIn};
ghost use Rattle.wa_decode.specs.Reading.{Passes};
ghost use Rattle.wa_decode.specs.Sections.{IsSection, PastCustoms, ReadsTo, meaningless};
ghost use Rattle.wa_decode.specs.declared.fault.DecodeFault.TheVariants.{NoMemory};

use crate::code::codes;
use crate::fault::DecodeFault;
use crate::production::{Decoded, Production, vector};
use crate::value::{ends, name_bytes, sized, unsigned};
use sqlite_items::Items;
use std::alloc::Global;
use wa_syntax::Func;

/// The id of custom sections.
const CUSTOM: u8 = 0;
/// The id of the section of the start function.
const START: u8 = 8;
/// The id of the section of the functions' codes.
const CODE: u8 = 10;

/// Whether a section with this id begins at a position.
fn begins(bytes: &[u8], at: u32, id: u8) -> bool
    ensures within { IsTrue result → at < length bytes.now }
    ensures begins { IsTrue result ↔ (slice_get bytes.now at ≡ Some id) }
{
    matches!(bytes.get(at as usize), Some(byte) if *byte == id)
}

/// The position after custom sections, of which there may be any number.
pub fn customs(bytes: &[u8], at: u32) -> Result<u32, DecodeFault>
    requires size { length bytes.now < u32.MAX }
    requires place { at ≤ length bytes.now }
    ensures reaches { IfOk result (ReachesIn bytes.now at) }
    ensures found { IfOk result (PastCustoms bytes.now at) }
    ensures complete { (place : ℕ) → PastCustoms bytes.now at place
        → MatchResult result (λ found. found ≡ place) (λ fault. fault ≡ NoMemory) }
{
    let mut at = at;
    while begins(bytes, at, CUSTOM) {
        at = custom(bytes, at + 1)?;
    }
    Ok(at)
}

/// The position after a custom section (5.5.3), which has a name and any bytes after it.
fn custom(bytes: &[u8], at: u32) -> Result<u32, DecodeFault>
    requires { length bytes.now < u32.MAX }
    ensures ends { IfOk result (EndsIn bytes.now at) }
    ensures reads { Passes meaningless bytes.now at result }
{
    let (content, start) = sized(bytes, at)?;
    name_bytes(content, start)?;
    Ok(content.len() as u32)
}

/// The section of a vector, by its id. One that isn't there is an empty vector.
pub fn vector_section<P: Production>(
    alloc: Global,
    bytes: &[u8],
    at: u32,
    id: u8,
) -> Decoded<Items<P::Value>>
    requires size { length bytes.now < u32.MAX }
    requires place { at ≤ length bytes.now }
    ensures reads { ReadsTo (IsSection id (vecsec id P.format) bytes.now at) result }
    ensures reaches { IfOk result (λ read. ReachesIn bytes.now at read.1) }
{
    let at = customs(bytes, at)?;
    if !begins(bytes, at, id) {
        return Ok((Items::new(alloc), at));
    }
    let (content, start) = sized(bytes, at + 1)?;
    let (values, end) = vector::<P>(alloc, content, start)?;
    ends(content, end)?;
    Ok((values, end))
}

/// The section of the start function (5.5.11).
pub fn start_section(bytes: &[u8], at: u32) -> Decoded<Option<u32>>
    requires size { length bytes.now < u32.MAX }
    requires place { at ≤ length bytes.now }
    ensures reads { ReadsTo (IsSection 8 startsec bytes.now at) result }
    ensures reaches { IfOk result (λ read. ReachesIn bytes.now at read.1) }
{
    let at = customs(bytes, at)?;
    if !begins(bytes, at, START) {
        return Ok((None, at));
    }
    let (content, start) = sized(bytes, at + 1)?;
    let (func, end) = unsigned(content, start)?;
    ends(content, end)?;
    Ok((Some(func), end))
}

/// The section of the codes of the functions whose types have these indices (5.5.13). One that isn't there is that of no
/// functions.
pub fn code_section(alloc: Global, bytes: &[u8], at: u32, types: &[u32]) -> Decoded<Items<Func>>
    requires size { length bytes.now < u32.MAX }
    requires place { at ≤ length bytes.now }
    ensures reads { ReadsTo (IsSection 10 (codesec types.now) bytes.now at) result }
    ensures reaches { IfOk result (λ read. ReachesIn bytes.now at read.1) }
{
    let at = customs(bytes, at)?;
    if !begins(bytes, at, CODE) {
        return if types.is_empty() {
            Ok((Items::new(alloc), at))
        } else {
            Err(DecodeFault::Malformed)
        };
    }
    let (content, start) = sized(bytes, at + 1)?;
    let (funcs, end) = codes(alloc, content, start, types)?;
    ends(content, end)?;
    Ok((funcs, end))
}
