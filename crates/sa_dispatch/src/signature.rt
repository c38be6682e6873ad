//! A signature as calls go through it: the types that implement it, and its range of the table of functions.

ghost use Rattle.std.specs.Prelude.{◌≡◌, ◌==◌, ◌+◌, ◌<◌, ◌^◌, length, IfOk, OnOk};
ghost use Rattle.std.specs.List.{position};
ghost use Rattle.std.specs.Option.{option_map};
ghost use Rattle.sa_dispatch.specs.Rising.{IsRising};

use crate::search::place_of;
use failure::{Failure, Invariant, broken, known};
use sqlite_items::Items;

/// The range of the table of functions that a signature has: one index for each number from its least type to its greatest. Those of its
/// own types are indices of no other signature.
#[derive(Clone, Copy, Debug, PartialEq, Eq)]
pub struct PackedRange {
    /// The index in the table that the least type has.
    pub first: u32,
    /// The least type that implements the signature.
    pub least: u32,
    /// How many indices there are.
    pub length: u32,
}

/// A signature.
#[derive(Drop)]
pub struct DispatchTable {
    /// The types that implement it, rising.
    pub types: Items<u32>,
    /// The index of its first implementation in the list of all.
    pub first: u32,
    /// Its range of the table, where it has one.
    pub span: Option<PackedRange>,
}

impl DispatchTable {
    /// The index of the implementation for a type in the list of all: none where the type doesn't implement it.
    pub fn implementation(&self, ty: u32) -> Option<u32>
        requires rising { IsRising self.now.types }
        requires fits { self.now.first + length self.now.types < 2 ^ 32 }
        ensures { result ≡ option_map (λ place. self.now.first + place) (position (λ t. t == ty) self.now.types) }
    {
        let place = place_of(self.types.as_slice(), ty)?;
        Some(self.first + place as u32)
    }
}

/// The index after those of a range.
pub fn end_of(span: Option<PackedRange>) -> u32 {
    match span {
        Some(span) => span.first.saturating_add(span.length),
        None => 0,
    }
}

/// The sum of two numbers.
///
/// # Errors
///
/// `Broken` where 32 bits don't hold it.
pub fn sum(number: u32, more: usize) -> Result<u32, Failure>
    ensures sum { IfOk result (λ sum. sum ≡ number + more) }
    ensures fits { OnOk result (number + more < 2 ^ 32) }
{
    match (number as usize).checked_add(more) {
        Some(sum) => known(u32::try_from(sum).ok(), Invariant::TableIndex),
        None => broken(Invariant::TableIndex),
    }
}
