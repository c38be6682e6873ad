//! Sums and lengths that fit by the way that a flat program is made. Where they don't, memory is said to have run out.

use failure::{Failure, Invariant, known};

/// The sum of two numbers.
pub(crate) fn sum(number: u32, more: u32) -> Result<u32, Failure> {
    known(number.checked_add(more), Invariant::CfgNumber)
}

/// The length of a list, or an index into it, as a number of the module.
pub(crate) fn number(length: usize) -> Result<u32, Failure> {
    known(u32::try_from(length).ok(), Invariant::CfgNumber)
}
