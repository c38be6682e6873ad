//! The entries of the tables at an index, and the indices of pairs in the lists.

ghost use Rattle.std.specs.Prelude.{◌≡◌, IfOk, Some, slice_get};

use crate::class_hierarchy::Ancestor;
use failure::{Failure, Invariant, broken, known};
use sa_graph::word;
use sa_unify::Edge;
use std::alloc::Global;
use std::collections::HashMap;

/// The root and the pair of an entry.
#[derive(Clone, Copy, PartialEq, Eq, Hash)]
struct Entry {
    class: u32,
    pair: u32,
}

/// The indices of the pairs of all lists.
#[derive(Drop)]
pub(crate) struct Places {
    places: HashMap<Entry, u32>,
}

impl Places {
    /// The indices of these pairs.
    pub(crate) fn of(alloc: Global, above: &[Ancestor]) -> Result<Places, Failure> {
        let mut places = HashMap::new(alloc);
        for (place, both) in above.iter().enumerate() {
            let entry = Entry {
                class: both.class,
                pair: both.pair,
            };
            places.insert(entry, word(place, Invariant::HierarchyTable)?)?;
        }
        Ok(Places { places })
    }

    /// The index of a pair in the list of a root.
    pub(crate) fn get(&self, class: u32, pair: u32) -> Result<u32, Failure> {
        let entry = Entry { class, pair };
        known(self.places.get(&entry).copied(), Invariant::HierarchyTable)
    }
}

/// The edge with a number.
#[tactic(auto, using(crate::proofs::Trials::reads))]
pub(crate) fn edge_at(edges: &[Edge], number: u32) -> Result<Edge, Failure>
    ensures { IfOk result (λ edge. slice_get edges.now number ≡ Some edge) }
{
    let at = number as usize;
    if at < edges.len() {
        Ok(edges[at])
    } else {
        broken(Invariant::HierarchyTable)
    }
}

/// The pair at an index of the lists.
#[tactic(auto, using(crate::proofs::Trials::reads))]
pub(crate) fn entry_at(above: &[Ancestor], place: u32) -> Result<Ancestor, Failure>
    ensures { IfOk result (λ entry. slice_get above.now place ≡ Some entry) }
{
    let at = place as usize;
    if at < above.len() {
        Ok(above[at])
    } else {
        broken(Invariant::HierarchyTable)
    }
}

/// The bounds of the list of a class.
#[tactic(auto, using(crate::proofs::Trials::reads))]
pub(crate) fn range_at(lists: &[(u32, u32)], class: u32) -> Result<(u32, u32), Failure>
    ensures { IfOk result (λ range. slice_get lists.now class ≡ Some range) }
{
    let at = class as usize;
    if at < lists.len() {
        Ok(lists[at])
    } else {
        broken(Invariant::HierarchyTable)
    }
}
