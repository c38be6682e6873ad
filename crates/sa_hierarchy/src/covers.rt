//! Compositions are verified: those of an edge with the list of its supertype's class, and those that a pair of a list is made of.

ghost use Rattle.std.specs.Prelude.{◌≡◌, IfOk, IsFalse, IsTrue};
ghost use Rattle.sa_hierarchy.specs.Hierarchies.{AreCovered, GivesPair, GoesOn, InList, IsCoveredAt, IsCovering, IsGivenIn, tables};
ghost use Rattle.sa_unify.specs.EdgePairs.{nodes_of};

use crate::class_hierarchy::{Ancestor, Hierarchy};
use crate::entries::{Places, entry_at, range_at};
use crate::forms::{begins_bare, is_bare};
use crate::links::link_at;
use failure::{Failure, Invariant, broken};
use sa_unify::{Edge, Node, WorkBudget, composed, renumbered, try_equal};
use std::alloc::Global;

impl Hierarchy {
    /// Checks that the compositions of an edge with the list of its supertype's class are in the list of the subtype's class.
    #[tactic(auto, using(crate::proofs::Trials::edges))]
    pub(crate) fn try_covering(
        &self,
        alloc: Global,
        work: &mut WorkBudget,
        places: &Places,
        edge: Edge,
        above: u32,
    ) -> Result<(), Failure>
        ensures { IfOk result (λ _. IsCovering (tables self.now) edge above) }
    {
        let link = link_at(self.links.as_slice(), edge.upper)?;
        if !self.goes_on(edge, link.root, above) {
            return Ok(());
        }
        let range = range_at(self.lists.as_slice(), link.root)?;
        self.try_covers(alloc, work, places, edge, range.0, range.1)?;
        Ok(())
    }

    /// Whether an edge to a class that has n arguments composes with the list of the class's root.
    #[tactic(auto, using(crate::proofs::Trials::edges))]
    pub(crate) fn goes_on(&self, edge: Edge, root: u32, above: u32) -> bool
        ensures goes { IsTrue result → GoesOn (tables self.now) edge root above }
        ensures ends { IsFalse result → GoesOn (tables self.now) edge root above → ⊥ }
    {
        if root == edge.upper {
            return true;
        }
        above as usize == self.names.arity(edge.upper)
    }

    /// The pair that the list of a root has at an index.
    #[tactic(auto, using(crate::proofs::Trials::edges))]
    pub(crate) fn listed(&self, root: u32, place: u32) -> Result<Ancestor, Failure>
        ensures { IfOk result (λ entry. InList (tables self.now) root place entry) }
    {
        let (first, end) = range_at(self.lists.as_slice(), root)?;
        let entry = entry_at(self.above.as_slice(), place)?;
        if place < first {
            return broken(Invariant::HierarchyTable);
        }
        if place >= end {
            return broken(Invariant::HierarchyTable);
        }
        if entry.class == root {
            Ok(entry)
        } else {
            broken(Invariant::HierarchyTable)
        }
    }

    /// Checks that the compositions of an edge with each pair from an index up to another are in the list of the subtype's class.
    #[tactic(auto, using(crate::proofs::Trials::loops))]
    fn try_covers(
        &self,
        alloc: Global,
        work: &mut WorkBudget,
        places: &Places,
        edge: Edge,
        first: u32,
        end: u32,
    ) -> Result<(), Failure>
        ensures { IfOk result (λ _. AreCovered (tables self.now) edge first end) }
    {
        for place in first..end {
            self.try_covered(alloc, work, places, edge, place)?;
        }
        Ok(())
    }

    /// Checks the same for one pair.
    #[tactic(auto, using(crate::proofs::Trials::edges))]
    fn try_covered(
        &self,
        alloc: Global,
        work: &mut WorkBudget,
        places: &Places,
        edge: Edge,
        place: u32,
    ) -> Result<(), Failure>
        ensures { IfOk result (λ _. IsCoveredAt (tables self.now) edge place) }
    {
        let entry = entry_at(self.above.as_slice(), place)?;
        let first = self.pairs.nodes(edge.pair);
        let second = self.pairs.nodes(entry.pair);
        if is_bare(first) {
            if begins_bare(second) {
                work.unit()?;
                self.try_passed(places, edge.lower, entry)?;
                return Ok(());
            }
        }
        match composed(alloc, work, first, second)? {
            None => Ok(()),
            Some(nodes) => {
                self.try_given(alloc, places, edge.lower, entry.upper, nodes)?;
                Ok(())
            }
        }
    }

    /// Checks that a pair of another list is a pair of a root's list.
    #[tactic(auto, using(crate::proofs::Trials::edges))]
    fn try_passed(&self, places: &Places, root: u32, entry: Ancestor) -> Result<(), Failure>
        ensures { IfOk result (λ _. IsGivenIn (tables self.now) root entry.upper (nodes_of self.now.pairs entry.pair)) }
    {
        let own = self.listed(root, places.get(root, entry.pair)?)?;
        if own.upper != entry.upper {
            return broken(Invariant::HierarchyTable);
        }
        if own.pair == entry.pair {
            Ok(())
        } else {
            broken(Invariant::HierarchyTable)
        }
    }

    /// Checks that nodes whose supertype's class is this one are a pair of a root's list.
    #[tactic(auto, using(crate::proofs::Trials::edges))]
    fn try_given(
        &self,
        alloc: Global,
        places: &Places,
        root: u32,
        upper: u32,
        nodes: Vec<Node>,
    ) -> Result<(), Failure>
        ensures { IfOk result (λ _. IsGivenIn (tables self.now) root upper nodes.items) }
    {
        let pair = renumbered(alloc, nodes.as_slice())?;
        let number = self.pairs.number(pair.as_slice())?;
        let entry = self.listed(root, places.get(root, number)?)?;
        if entry.upper != upper {
            return broken(Invariant::HierarchyTable);
        }
        try_equal(self.pairs.nodes(entry.pair), pair.as_slice())?;
        Ok(())
    }

    /// Checks that a third pair is the composition of two.
    #[tactic(auto, using(crate::proofs::Trials::entries))]
    pub(crate) fn try_both(
        &self,
        alloc: Global,
        work: &mut WorkBudget,
        first: u32,
        second: u32,
        both: u32,
    ) -> Result<(), Failure>
        ensures { IfOk result
            (λ _. GivesPair (nodes_of self.now.pairs first) (nodes_of self.now.pairs second) (nodes_of self.now.pairs both)) }
    {
        let lower = self.pairs.nodes(first);
        let upper = self.pairs.nodes(second);
        if second == both {
            if is_bare(lower) {
                if begins_bare(upper) {
                    return Ok(());
                }
            }
        }
        let Some(nodes) = composed(alloc, work, lower, upper)? else {
            return broken(Invariant::HierarchyTable);
        };
        let pair = renumbered(alloc, nodes.as_slice())?;
        try_equal(self.pairs.nodes(both), pair.as_slice())?;
        Ok(())
    }
}
