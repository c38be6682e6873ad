//! The ranges of the table of functions. The range of a signature has one index for each number from its least type to its greatest. The
//! indices of numbers that are no types of it stay free, and a range whose types are sparse is laid into those of others.

use crate::signature::{PackedRange, sum};
use failure::{Failure, Invariant, known};
use std::alloc::Global;

/// How many types a signature has at most that gets no range where they are sparse.
const FEW: usize = 8;

/// Among how many indices before the end of the table the beginning of a range is searched for. So a search is short, and among ranges of
/// so many types few indices stay free.
const WINDOW: usize = 8_192;

/// The numbers from the least type of a signature to its greatest.
#[derive(Clone, Copy)]
struct Range {
    least: u32,
    length: u32,
    /// Whether they are more than four times as many as the types.
    is_wide: bool,
}

/// The table of functions, while signatures get their ranges of it.
#[derive(Drop)]
pub(crate) struct Packing {
    /// For each index whether it is that of a signature's type.
    taken: Vec<bool>,
}

impl Packing {
    /// An empty table.
    pub(crate) fn new(alloc: Global) -> Packing {
        Packing {
            taken: Vec::new(alloc),
        }
    }

    /// The range of a signature with these types, which rise: none where there are no types, or few that are sparse.
    ///
    /// # Errors
    ///
    /// A `Failure`: `Broken` where 32 bits don't hold the number of places.
    pub(crate) fn part(&mut self, types: &[u32]) -> Result<Option<PackedRange>, Failure> {
        let Some(range) = range_of(types) else {
            return Ok(None);
        };
        if range.is_wide && types.len() <= FEW {
            return Ok(None);
        }
        let first = known(
            u32::try_from(self.beginning(types, range)).ok(),
            Invariant::TableIndex,
        )?;
        sum(first, range.length as usize)?;
        self.take(types, range, first as usize)?;
        Ok(Some(PackedRange {
            first,
            least: range.least,
            length: range.length,
        }))
    }

    /// The index at which a range begins: after all others, or for one whose types are sparse the first one near the end from which on the
    /// indices of its types are free.
    fn beginning(&self, types: &[u32], range: Range) -> usize {
        let end = self.taken.len();
        if range.is_wide {
            for first in end.saturating_sub(WINDOW)..end {
                if self.is_free(types, range, first) {
                    return first;
                }
            }
        }
        end
    }

    /// Whether the indices of the types are free in a range that begins at an index.
    fn is_free(&self, types: &[u32], range: Range, first: usize) -> bool {
        for ty in types {
            if self.taken.get(place_of(*ty, range, first)) == Some(&true) {
                return false;
            }
        }
        true
    }

    /// Takes the indices of the types in a range that begins at an index.
    fn take(&mut self, types: &[u32], range: Range, first: usize) -> Result<(), Failure> {
        let missing = first
            .saturating_add(range.length as usize)
            .saturating_sub(self.taken.len());
        for _ in 0..missing {
            self.taken.push(false)?;
        }
        for ty in types {
            let place = place_of(*ty, range, first);
            if place < self.taken.len() {
                self.taken[place] = true;
            }
        }
        Ok(())
    }
}

/// The numbers from the least of types that rise to the greatest.
fn range_of(types: &[u32]) -> Option<Range> {
    let least = *types.first()?;
    let length = types.last()?.checked_sub(least)?.checked_add(1)?;
    Some(Range {
        least,
        length,
        is_wide: (length as usize).div_ceil(4) > types.len(),
    })
}

/// The index of a type in a range that begins at an index.
fn place_of(ty: u32, range: Range, first: usize) -> usize {
    first.saturating_add(ty.saturating_sub(range.least) as usize)
}
