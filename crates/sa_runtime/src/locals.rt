//! The locals by number. Functions that share a template have its locals at the same numbers: no function has more than five parameters, so
//! the addresses and counts that they work with begin at 5.

use crate::templates::LocalCounts;

/// `self`, or the first parameter of a function that isn't a feature.
pub(crate) const SELF: u32 = 0;

/// The first argument.
pub(crate) const FIRST: u32 = 1;

/// The second argument.
pub(crate) const SECOND: u32 = 2;

/// The address of the object that the function makes.
pub(crate) const MADE: u32 = 5;

/// How many bytes the text that the function makes has.
pub(crate) const SIZE: u32 = 6;

/// Where bytes are read: the address of the next one, less 8.
pub(crate) const FROM: u32 = 7;

/// Where bytes are written: the address of the next one, less 8.
pub(crate) const TO: u32 = 8;

/// How many bytes are left to be read.
pub(crate) const LEFT: u32 = 9;

/// No locals besides the parameters.
pub(crate) const NONE: LocalCounts = LocalCounts(0, 0);

/// All locals after one parameter.
pub(crate) const BEHIND_ONE: LocalCounts = LocalCounts(4, 5);

/// All locals after two parameters.
pub(crate) const BEHIND_TWO: LocalCounts = LocalCounts(3, 5);

/// All locals after three parameters.
pub(crate) const BEHIND_THREE: LocalCounts = LocalCounts(2, 5);

/// All locals after four parameters.
pub(crate) const BEHIND_FOUR: LocalCounts = LocalCounts(1, 5);

/// All locals after five parameters.
pub(crate) const BEHIND_FIVE: LocalCounts = LocalCounts(0, 5);
