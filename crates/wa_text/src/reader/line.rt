//! The lines of a text, and the items that are a line each.

ghost use Rattle.std.specs.Prelude.{◌≡◌, ◌≢◌, ℕ, ◌<◌, ◌≤◌, ◌⊎◌, List, [], ◌∷◌, ◌++◌, drop, length, ◌==◌};
ghost use Rattle.std.specs.Prelude.{IfErr, IfNone, IfOk, IfSome, IsFalse, IsTrue};
ghost use Rattle.std.specs.List.{AllByRecursion, slice_split};
ghost use Rattle.wa_text.specs.Forms.{◌then◌, each, exactly};
ghost use Rattle.wa_text.specs.Places.{EndsIn, ReachesIn};
ghost use Rattle.wa_text.specs.Reading.{
  IsUnbroken,
  Reads,
  RefusesAt,
  Spelled,
  anything,
  begins_not,
  begins_otherwise,
  begins_with,
  rows_at,
  texts,
  words_of,
};
ghost use Rattle.wa_text.specs.Words.{line, word};
ghost use Rattle.wa_text.specs.Words as form;
ghost use Rattle.wa_text.specs.declared.fault.TextFault.TheVariants.{NoMemory, Wrong};

use crate::fault::{LineFault, TextFault};
use crate::reader::words::following;
use sqlite_items::Items;
use std::alloc::{AllocError, Global};

/// What is read at a position, with the position after it, both at the beginning of a line.
pub type Listed<T> = Result<(T, u32), TextFault>;

/// The line that begins at a position, and the position after its line feed. `None` comes where no line feed follows.
fn line_at(text: &[u8], at: u32) -> Option<(&[u8], u32)>
    requires size { length text.now < u32.MAX }
    requires place { at ≤ length text.now }
    ensures ends { IfSome result (λ read. EndsIn text.now at read.1) }
    ensures found { IfSome result (λ read. drop at text.now ≡ read.0.now ++ 10 ∷ drop read.1 text.now) }
    ensures unbroken { IfSome result (λ read. IsUnbroken read.0.now) }
    ensures none { IfNone result (IsUnbroken (drop at text.now)) }
{
    let rest = &text[at as usize..];
    let len = rest.iter().position(|byte| *byte == b'\n')?;
    Some((&rest[..len], at + len as u32 + 1))
}

/// The position after a line, where it is this word alone.
pub fn following_line(text: &[u8], at: u32, word: &[u8]) -> Option<u32>
    requires size { length text.now < u32.MAX }
    requires place { at ≤ length text.now }
    requires word { words_of word.now ≡ word.now ∷ [] }
    ensures ends { IfSome result (EndsIn text.now at) }
    ensures found { IfSome result (λ end. Spelled (form.line (form.word word.now)) text.now at end) }
    ensures none { IfNone result (begins_not (word.now ∷ []) (rows_at text.now at)) }
{
    let Some((line, end)) = line_at(text, at) else {
        return None;
    };
    if line == word { Some(end) } else { None }
}

/// The position after a line that has to be this word alone.
pub fn word_line(text: &[u8], at: u32, word: &[u8]) -> Result<u32, TextFault>
    requires size { length text.now < u32.MAX }
    requires place { at ≤ length text.now }
    requires word { words_of word.now ≡ word.now ∷ [] }
    ensures ends { IfOk result (EndsIn text.now at) }
    ensures found { IfOk result (λ end. Spelled (form.line (form.word word.now)) text.now at end) }
    ensures refused { IfErr result (λ fault. (fault ≡ Wrong at) × begins_not (word.now ∷ []) (rows_at text.now at)) }
{
    match following_line(text, at, word) {
        Some(end) => Ok(end),
        None => Err(TextFault::Wrong(at)),
    }
}

/// The words of a line.
fn words_in(alloc: Global, line: &[u8]) -> Result<Vec<&[u8]>, AllocError>
    ensures { IfOk result (λ words. texts words.items ≡ words_of line.now) }
{
    line.split(|byte| *byte == b' ').collect(alloc)
}

/// The words of the line at a position, and the position after it.
pub fn words(alloc: Global, text: &[u8], at: u32) -> Listed<Vec<&[u8]>>
    requires size { length text.now < u32.MAX }
    requires place { at ≤ length text.now }
    ensures ends { IfOk result (λ read. EndsIn text.now at read.1) }
    ensures found { IfOk result (λ read. Spelled (exactly (texts read.0.items ∷ [])) text.now at read.1) }
    ensures refused { IfErr result (λ fault. ((fault ≡ Wrong at) × (rows_at text.now at ≡ [])) ⊎ (fault ≡ NoMemory)) }
{
    match line_at(text, at) {
        Some((line, end)) => Ok((words_in(alloc, line)?, end)),
        None => Err(TextFault::Wrong(at)),
    }
}

/// The first word of a line.
fn first_word(line: &[u8]) -> &[u8]
    ensures unparted { AllByRecursion (λ b. b ≢ 32) result.now }
    ensures front { (result.now ≡ line.now) ⊎ ((rest : List ℕ) × (line.now ≡ result.now ++ 32 ∷ rest)) }
{
    match line.iter().position(|byte| *byte == b' ') {
        Some(end) => &line[..end],
        None => line,
    }
}

/// Whether the line at a position begins with this word.
pub fn begins(text: &[u8], at: u32, word: &[u8]) -> bool
    requires size { length text.now < u32.MAX }
    requires place { at ≤ length text.now }
    ensures yes { IsTrue result → begins_with word.now (rows_at text.now at) }
    ensures no { IsFalse result → begins_otherwise word.now (rows_at text.now at) }
{
    let Some((line, _end)) = line_at(text, at) else {
        return false;
    };
    first_word(line) == word
}

/// An item that is a line: what the words after its first denote.
pub trait LineForm {
    /// What they denote.
    type Value: Drop;

    /// Which words denote a value.
    ghost form: { Self.Value → List (List ℕ) → Type 0 };

    /// Reads the words after the first.
    ///
    /// `Wrong` comes where they stand for nothing, and `NoMemory` where memory runs out.
    fn read(alloc: Global, words: &[&[u8]]) -> Result<Self::Value, LineFault>
        ensures { Reads form (texts words.now) result };
}

/// The item of the words of a line.
fn words_item<P: LineForm>(
    alloc: Global,
    words: &[&[u8]],
    first: &[u8],
) -> Result<P::Value, LineFault>
    ensures { Reads (λ value. word first.now then P.form value) (texts words.now) result }
{
    P::read(alloc, following(words, first)?)
}

/// The item of a line that begins with a word.
pub fn item<P: LineForm>(alloc: Global, text: &[u8], at: u32, first: &[u8]) -> Listed<P::Value>
    requires size { length text.now < u32.MAX }
    requires place { at ≤ length text.now }
    ensures ends { IfOk result (λ read. EndsIn text.now at read.1) }
    ensures found { IfOk result (λ read. Spelled (line (word first.now then P.form read.0)) text.now at read.1) }
    ensures refused { IfErr result (RefusesAt (λ value. line (word first.now then P.form value)) anything text.now at) }
{
    let (words, end) = words(alloc, text, at)?;
    let value = match words_item::<P>(alloc, words.as_slice(), first) {
        Ok(value) => value,
        Err(fault) => return Err(fault.at(at)),
    };
    Ok((value, end))
}

/// The items of the lines that begin with a word, up to the first line that doesn't.
pub fn items<P: LineForm>(
    alloc: Global,
    text: &[u8],
    at: u32,
    first: &[u8],
) -> Listed<Items<P::Value>>
    requires size { length text.now < u32.MAX }
    requires place { at ≤ length text.now }
    ensures reaches { IfOk result (λ read. ReachesIn text.now at read.1) }
    ensures found { IfOk result (λ read. Spelled (each (λ value. line (word first.now then P.form value)) read.0) text.now at read.1) }
    ensures stops { IfOk result (λ read. begins_otherwise first.now (rows_at text.now read.1)) }
    ensures refused { IfErr result
        (RefusesAt (each (λ value. line (word first.now then P.form value))) (begins_otherwise first.now) text.now at) }
{
    let mut items = Items::new(alloc);
    let mut at = at;
    while begins(text, at, first) {
        let (item, end) = item::<P>(alloc, text, at, first)?;
        items.push(item)?;
        at = end;
    }
    Ok((items, at))
}
