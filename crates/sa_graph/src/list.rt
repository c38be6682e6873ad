//! Elements of lists by their index.

ghost use Rattle.std.specs.Prelude.{◌≡◌, IfOk, Some, slice_get};

use failure::{Failure, Invariant, known};

/// What a list holds at a place where it holds something. That it does is known to the writer and not to a proof, so
/// another place breaks the invariant.
pub fn entry<T: Copy>(list: &[T], at: usize, invariant: Invariant) -> Result<T, Failure>
    ensures { IfOk result (λ value. slice_get list.now at ≡ Some value) }
{
    known(list.get(at).copied(), invariant)
}

/// Writes a value at such an index.
pub fn put<T: Copy + Drop>(
    list: &mut [T],
    at: usize,
    value: T,
    invariant: Invariant,
) -> Result<(), Failure> {
    let place = known(list.get_mut(at), invariant)?;
    *place = value;
    Ok(())
}

/// A count or a place as a word. Where it is greater than any list has entries, the invariant is broken.
pub fn word(count: usize, invariant: Invariant) -> Result<u32, Failure>
    ensures { IfOk result (λ word. word ≡ count) }
{
    known(u32::try_from(count).ok(), invariant)
}
