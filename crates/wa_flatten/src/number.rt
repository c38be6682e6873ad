//! Places in a row as numbers of 32 bits.

ghost use Rattle.std.specs.Prelude.{◌≡◌, ◌+◌, IfOk};

use wa_syntax::NoMemory;

/// The number of a place in a row.
///
/// # Errors
///
/// `NoMemory` for a place that no `u32` numbers: a row as long as that is taken as want of memory.
pub(crate) fn number(at: usize) -> Result<u32, NoMemory>
    ensures { IfOk result (λ n. n ≡ at) }
{
    match u32::try_from(at) {
        Ok(n) => Ok(n),
        Err(_) => Err(NoMemory),
    }
}

/// The sum of two numbers of words.
///
/// # Errors
///
/// `NoMemory` for a sum that is no `u32`: as many words are taken as want of memory.
pub(crate) fn sum(a: u32, b: u32) -> Result<u32, NoMemory>
    ensures { IfOk result (λ n. n ≡ a + b) }
{
    match a.checked_add(b) {
        Some(n) => Ok(n),
        None => Err(NoMemory),
    }
}
