//! The words of a line. A word denotes a value where the value is written so.

ghost use Rattle.std.specs.Prelude.{◌≡◌, [], ◌∷◌, MatchResult};
ghost use Rattle.wa_text.specs.Forms.{each};
ghost use Rattle.wa_text.specs.Reading.{Reads, Refuses, texts};
ghost use Rattle.wa_text.specs.Words.{Line, bytes, name, u32, u64};

use crate::fault::LineFault;
use itoa::Buffer;
use sqlite_items::Items;
use std::alloc::Global;
use wa_syntax::WasmName;

/// The words after the first, which has to be this one.
pub fn following<'a>(words: &'a [&'a [u8]], wanted: &[u8]) -> Result<&'a [&'a [u8]], LineFault>
    ensures { MatchResult result (λ rest. texts words.now ≡ wanted.now ∷ texts rest.now)
        (Refuses (λ (rest : Line) line. line ≡ wanted.now ∷ rest) (texts words.now)) }
{
    let [first, rest @ ..] = words else {
        return Err(LineFault::Wrong);
    };
    if *first == wanted {
        Ok(rest)
    } else {
        Err(LineFault::Wrong)
    }
}

/// A number of 64 bits in decimal digits, without leading zeros.
pub fn number(word: &[u8]) -> Result<u64, LineFault>
    ensures { Reads u64 (word.now ∷ []) result }
{
    let Ok(digits) = str::from_utf8(word) else {
        return Err(LineFault::Wrong);
    };
    match digits.parse::<u64>() {
        Ok(n) if Buffer::new().format(n) == digits => Ok(n),
        _ => Err(LineFault::Wrong),
    }
}

/// The index of a type, a function, a table, a memory, a global, a local or a label.
pub fn index(word: &[u8]) -> Result<u32, LineFault>
    ensures { Reads u32 (word.now ∷ []) result }
{
    let n = number(word)?;
    if n <= u32::MAX as u64 {
        Ok(n as u32)
    } else {
        Err(LineFault::Wrong)
    }
}

/// An index that is the only word.
pub fn only_index(words: &[&[u8]]) -> Result<u32, LineFault>
    ensures { Reads u32 (texts words.now) result }
{
    match words {
        [word] => index(*word),
        _ => Err(LineFault::Wrong),
    }
}

/// Indices, one for each word.
pub fn indices(alloc: Global, words: &[&[u8]]) -> Result<Items<u32>, LineFault>
    ensures { Reads (each u32) (texts words.now) result }
{
    let mut numbers = Items::new(alloc);
    for word in words {
        numbers.push(index(*word)?)?;
    }
    Ok(numbers)
}

/// Bytes, in two lower-case hexadecimal digits each, or a dash where there are none.
pub fn bytes(alloc: Global, word: &[u8]) -> Result<Vec<u8>, LineFault>
    ensures { MatchResult result (λ read. bytes read.items (word.now ∷ [])) (Refuses bytes (word.now ∷ [])) }
{
    if word == b"-".as_slice() {
        return Ok(Vec::new(alloc));
    }
    let bytes = hex::decode(alloc, word)?;
    if bytes.is_empty() {
        return Err(LineFault::Wrong);
    }
    let written = hex::encode(alloc, bytes.as_slice())?;
    if written.as_bytes() != word {
        return Err(LineFault::Wrong);
    }
    Ok(bytes)
}

/// The bytes of a name, which are UTF-8.
pub fn name(alloc: Global, word: &[u8]) -> Result<WasmName, LineFault>
    ensures { Reads name (word.now ∷ []) result }
{
    let bytes = bytes(alloc, word)?;
    let Ok(_text) = str::from_utf8(bytes.as_slice()) else {
        return Err(LineFault::Wrong);
    };
    Ok(WasmName::from_slice(alloc, bytes.as_slice())?)
}
