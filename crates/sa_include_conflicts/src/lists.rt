//! Indices in lists.

ghost use Rattle.std.specs.Prelude.{◌≡◌, IfOk, Some, slice_get};
ghost use Rattle.sa_include_conflicts.specs.Sharing as spec;

use failure::{Failure, Invariant, known};

/// The element of a list at an index that it has.
///
/// # Errors
///
/// `Broken` at another index: that there is none is no contract yet.
pub fn item<T>(list: &[T], at: usize) -> Result<&T, Failure>
    ensures { IfOk result (λ found. slice_get list.now at ≡ Some found.now) }
{
    known(sqlite_items::at(list, at), Invariant::ConflictTable)
}

/// Whether there is a mark at an index. There is none after the list.
pub fn is_set(marks: &[bool], at: usize) -> bool
    ensures { result ≡ spec.is_set marks.now at }
{
    marks.get(at).copied().unwrap_or(false)
}
