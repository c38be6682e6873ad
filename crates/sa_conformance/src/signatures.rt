//! The signatures of a program by their numbers.

use crate::listed::Lists;
use crate::numbered::numbered;
use crate::parents::upper_first;
use failure::Failure;
use indexmap::IndexMap;
use sa_instantiate::Instances;
use smallvec::SmallVec;
use sqlite_items::Items;
use std::alloc::Global;

/// Where a signature of an abstract type comes from.
#[derive(Clone, Copy, Debug, PartialEq, Eq)]
pub struct Origin {
    /// The number of the type whose signature it is.
    pub ty: u32,
    /// The number of the type that writes it.
    pub from: u32,
    /// Its index among that type's members.
    pub member: u32,
}

/// The indices of the signatures of a type by their name.
pub(crate) type Names = IndexMap<Vec<u8>, SmallVec<u32, 2>>;

/// The signatures of a program, numbered by type, and in a type in the order in which it has them: those that it writes, then those of the
/// types after its `<`, each once. A written one hides an inherited one with the same name, modes, parameter types and presence of a
/// result.
#[derive(Drop)]
pub struct Signatures {
    pub(crate) origins: Items<Origin>,
    /// By type, the number of its first signature, and at the end the number of all signatures.
    pub(crate) starts: Items<u32>,
    /// By type, the numbers of its signatures by their names.
    pub(crate) names: Items<Names>,
    /// The first type of which a written signature doesn't conform to an inherited one that it hides.
    pub(crate) unlike: Option<u32>,
}

impl Signatures {
    /// The signatures of the abstract types of a program.
    ///
    /// # Errors
    ///
    /// `NoMemory`, also where the types have more than 4,194,304 signatures together.
    pub fn make(alloc: Global, program: &Instances<'_>) -> Result<Signatures, Failure> {
        let mut lists = Lists::new(alloc, program.count())?;
        for ty in upper_first(alloc, program)? {
            lists.add(alloc, program, ty)?;
        }
        numbered(alloc, program, &lists)
    }

    /// How many there are.
    pub fn count(&self) -> u32 {
        match self.starts.as_slice().last() {
            None => 0,
            Some(count) => *count,
        }
    }

    /// The numbers of a type's signatures: from the first number up to, but not including, the second.
    pub fn of(&self, ty: u32) -> (u32, u32) {
        let starts = self.starts.as_slice();
        let at = ty as usize;
        match (starts.get(at), starts.get(at.saturating_add(1))) {
            (Some(from), Some(to)) => (*from, *to),
            _ => (0, 0),
        }
    }

    /// The numbers of a type's signatures with a name, in order.
    pub fn named(&self, ty: u32, name: &[u8]) -> &[u32] {
        let Some(names) = self.names.get(ty as usize) else {
            return &[];
        };
        match names.get(name) {
            Some(places) => places.as_slice(),
            None => &[],
        }
    }

    /// Where a signature comes from.
    pub fn origin(&self, place: u32) -> Option<Origin> {
        self.origins.get(place as usize).copied()
    }
}
