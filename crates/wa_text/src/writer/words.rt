//! The words of a line, and its end.

ghost use Rattle.std.specs.Prelude.{◌≡◌, ◌<◌, [], ◌∷◌, ◌++◌, slice_index, OnOk};
ghost use Rattle.std.specs.List.{FoldsTo};
ghost use Rattle.hex.specs.Hex.{encode_lower, lower_digits};
ghost use Rattle.wa_text.specs.Words as form;
ghost use Rattle.wa_text.specs.Writing.{AddsLines, AddsWords, Leaves};

use itoa::Buffer;
use wa_syntax::{NoMemory, WasmName};

/// The hexadecimal digits, in lower case.
const DIGITS: [u8; 16] = *b"0123456789abcdef";

/// The first word of a line.
pub fn first(out: &mut Vec<u8>, word: &[u8]) -> Result<(), NoMemory>
    ensures { OnOk result (out.new.items ≡ out.old.items ++ word.now) }
{
    out.extend_from_slice(word)?;
    Ok(())
}

/// A word after another: a blank, and the word.
pub fn word(out: &mut Vec<u8>, word: &[u8]) -> Result<(), NoMemory>
    ensures { OnOk result (AddsWords (form.word word.now) out.old.items out.new.items) }
{
    out.push(b' ')?;
    out.extend_from_slice(word)?;
    Ok(())
}

/// The end of a line.
pub fn end_line(out: &mut Vec<u8>) -> Result<(), NoMemory>
    ensures { OnOk result (out.new.items ≡ out.old.items ++ 10 ∷ []) }
{
    out.push(b'\n')?;
    Ok(())
}

/// A line of one word.
pub fn word_line(out: &mut Vec<u8>, word: &[u8]) -> Result<(), NoMemory>
    ensures { OnOk result (AddsLines (form.line (form.word word.now)) out.old.items out.new.items) }
{
    first(out, word)?;
    end_line(out)
}

/// The decimal digits of a number.
pub fn number(out: &mut Vec<u8>, n: u64) -> Result<(), NoMemory>
    ensures { OnOk result ((bits : _) → AddsWords (form.number bits n) out.old.items out.new.items) }
{
    word(out, Buffer::new().format(n).as_bytes())
}

/// The index of a type, a function, a table, a memory, a global, a local or a label.
pub fn index(out: &mut Vec<u8>, n: &u32) -> Result<(), NoMemory>
    ensures { OnOk result (AddsWords (form.u32 n.now) out.old.items out.new.items) }
{
    number(out, u64::from(*n))
}

/// The lower-case hexadecimal digit of a value.
fn digit(value: u8) -> u8
    requires { value < 16 }
    ensures { result ≡ slice_index lower_digits value }
{
    DIGITS[usize::from(value)]
}

/// The two digits of each byte.
fn digits(out: &mut Vec<u8>, bytes: &[u8]) -> Result<(), NoMemory>
    ensures { OnOk result (out.new.items ≡ out.old.items ++ encode_lower bytes.now) }
{
    for byte in bytes {
        out.push(digit(*byte / 16))?;
        out.push(digit(*byte % 16))?;
    }
    Ok(())
}

/// Bytes, in two lower-case hexadecimal digits each, or a dash where there are none.
pub fn bytes(out: &mut Vec<u8>, bytes: &[u8]) -> Result<(), NoMemory>
    ensures { OnOk result (AddsWords (form.bytes bytes.now) out.old.items out.new.items) }
{
    if bytes.is_empty() {
        return word(out, b"-");
    }
    out.push(b' ')?;
    digits(out, bytes)
}

/// The bytes of a name.
pub fn name(out: &mut Vec<u8>, name: &WasmName) -> Result<(), NoMemory>
    ensures { OnOk result (AddsWords (form.name name.now) out.old.items out.new.items) }
{
    bytes(out, name.as_slice())
}

/// Values one after another.
pub fn each<T, F>(out: &mut Vec<u8>, values: &[T], write: F) -> Result<(), NoMemory>
where
    F: Fn(&mut Vec<u8>, &T) -> Result<(), NoMemory>,
    requires callable { F.IsAlwaysCallable write }
    ensures { OnOk result (FoldsTo (Leaves (F.post write)) out.old.items values.now out.new.items) }
{
    for value in values {
        write(out, value)?;
    }
    Ok(())
}
