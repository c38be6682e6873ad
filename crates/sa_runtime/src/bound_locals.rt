//! The locals of `BOUND_CALL` by number.

use crate::templates::LocalCounts;

/// The parameter with the depth of the calling activation.
pub(crate) const DEPTH: u32 = 0;

/// The parameter with the frame that is resumed, or 0; and then the frame that was allocated.
pub(crate) const FRAME: u32 = 1;

/// The parameter with the address of the bound value, which isn't void.
pub(crate) const OBJECT: u32 = 2;

/// `self` of what is called, the one local of 64 bits.
pub(crate) const SELF: u32 = 3;

/// The address of the words of the bind.
pub(crate) const ENTRY: u32 = 4;

/// What is called: the number of a form.
pub(crate) const KIND: u32 = 5;

/// The index in the table, the offset of an attribute in its object, or the address of a shared.
pub(crate) const INDEX: u32 = 6;

/// The status of what was called.
pub(crate) const STATUS: u32 = 7;

/// How many arguments the bound value captures.
pub(crate) const GIVEN: u32 = 8;

/// The index of an argument of what is called.
pub(crate) const PLACE: u32 = 9;

/// The offset of that argument from the first one, in bytes.
pub(crate) const AT: u32 = 10;

/// The offset from the first argument at which the call passed an open one, in bytes.
pub(crate) const HANDED: u32 = 11;

/// The address of the bound value and 8 bytes more for each of its arguments that isn't in its position yet.
pub(crate) const KEPT: u32 = 12;

/// All locals after the parameters.
pub(crate) const BEHIND_BOUND: LocalCounts = LocalCounts(1, 9);
