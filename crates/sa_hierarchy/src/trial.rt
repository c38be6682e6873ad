//! The verifier of the tables: what a proof of them rests on is compared, index by index, before the first query.
//! Were an index wrong, the answer would be `Broken`, an internal error.

ghost use Rattle.std.specs.Prelude.{◌≡◌, IfOk, None, Some};
ghost use Rattle.sa_hierarchy.specs.Hierarchies.{AreTried, AreTriedEdges, AreTriedLinks, AreTriedLists, GoesOnWith, HasOwn};
ghost use Rattle.sa_hierarchy.specs.Hierarchies.{IsKeptEdge, IsListed, IsOwn, IsSound, IsTriedLink, KeepsArgs, tables};

use crate::class_hierarchy::{Ancestor, Hierarchy};
use crate::entries::{Places, edge_at, entry_at};
use crate::forms::{kept_nodes, try_form};
use crate::links::{ParentLink, link_at, try_below, try_root};
use failure::{Failure, Invariant, broken};
use sa_graph::word;
use sa_unify::{Edge, WorkBudget, try_equal};
use std::alloc::Global;

impl Hierarchy {
    /// Checks all tables.
    #[tactic(auto, using(crate::proofs::Trials::tried))]
    pub fn try_tables(&self, alloc: Global, work: &mut WorkBudget) -> Result<(), Failure>
        ensures { IfOk result (λ _. AreTried (tables self.now)) }
    {
        self.try_links(alloc)?;
        let places = Places::of(alloc, self.above.as_slice())?;
        self.try_edges(&places)?;
        self.try_lists(alloc, work, &places)?;
        Ok(())
    }

    #[tactic(auto, using(crate::proofs::Trials::loops))]
    fn try_links(&self, alloc: Global) -> Result<(), Failure>
        ensures { IfOk result (λ _. AreTriedLinks (tables self.now)) }
    {
        let links = self.links.as_slice();
        for (class, link) in links.iter().enumerate() {
            self.try_link(alloc, word(class, Invariant::HierarchyTable)?, *link)?;
        }
        Ok(())
    }

    /// Checks the link of a class.
    #[tactic(auto, using(crate::proofs::Trials::links))]
    fn try_link(&self, alloc: Global, class: u32, link: ParentLink) -> Result<(), Failure>
        ensures { IfOk result (λ _. IsTriedLink (tables self.now) class link) }
    {
        match link.edge {
            None => {
                try_root(class, link)?;
                Ok(())
            }
            Some(number) => {
                try_below(self.links.as_slice(), link)?;
                self.try_keeps(alloc, class, link, number)?;
                Ok(())
            }
        }
    }

    /// Checks that the edge to the parent of a class keeps the arguments.
    #[tactic(auto, using(crate::proofs::Trials::links))]
    fn try_keeps(
        &self,
        alloc: Global,
        class: u32,
        link: ParentLink,
        number: u32,
    ) -> Result<(), Failure>
        ensures { IfOk result (λ _. KeepsArgs (tables self.now) class link number) }
    {
        let edge = edge_at(self.edges.as_slice(), number)?;
        let count = self.names.arity(class);
        if self.names.arity(link.parent) != count {
            return broken(Invariant::HierarchyTable);
        }
        if edge.lower != class {
            return broken(Invariant::HierarchyTable);
        }
        if edge.upper != link.parent {
            return broken(Invariant::HierarchyTable);
        }
        let nodes = kept_nodes(
            alloc,
            self.names.name(link.parent),
            word(count, Invariant::HierarchyTable)?,
        )?;
        try_equal(self.pairs.nodes(edge.pair), nodes.as_slice())?;
        Ok(())
    }

    #[tactic(auto, using(crate::proofs::Trials::loops))]
    fn try_edges(&self, places: &Places) -> Result<(), Failure>
        ensures { IfOk result (λ _. AreTriedEdges (tables self.now)) }
    {
        let edges = self.edges.as_slice();
        for (number, edge) in edges.iter().enumerate() {
            self.try_edge(places, word(number, Invariant::HierarchyTable)?, *edge)?;
        }
        Ok(())
    }

    /// Checks that an edge is represented in the tree or in a list.
    #[tactic(auto, using(crate::proofs::Trials::edges))]
    fn try_edge(&self, places: &Places, number: u32, edge: Edge) -> Result<(), Failure>
        ensures { IfOk result (λ _. IsKeptEdge (tables self.now) number edge) }
    {
        let link = link_at(self.links.as_slice(), edge.lower)?;
        if let Some(own) = link.edge {
            if own == number {
                return Ok(());
            }
            return broken(Invariant::HierarchyTable);
        }
        try_root(edge.lower, link)?;
        self.try_listed(places, edge)?;
        Ok(())
    }

    /// Checks that the pair of an edge is in the list of its subtype's class.
    #[tactic(auto, using(crate::proofs::Trials::edges))]
    fn try_listed(&self, places: &Places, edge: Edge) -> Result<(), Failure>
        ensures { IfOk result (λ _. IsListed (tables self.now) edge) }
    {
        let place = places.get(edge.lower, edge.pair)?;
        let entry = self.listed(edge.lower, place)?;
        if entry.pair != edge.pair {
            return broken(Invariant::HierarchyTable);
        }
        if entry.upper == edge.upper {
            Ok(())
        } else {
            broken(Invariant::HierarchyTable)
        }
    }

    #[tactic(auto, using(crate::proofs::Trials::loops))]
    fn try_lists(
        &self,
        alloc: Global,
        work: &mut WorkBudget,
        places: &Places,
    ) -> Result<(), Failure>
        ensures { IfOk result (λ _. AreTriedLists (tables self.now)) }
    {
        let above = self.above.as_slice();
        for (place, entry) in above.iter().enumerate() {
            self.try_entry(
                alloc,
                work,
                places,
                word(place, Invariant::HierarchyTable)?,
                *entry,
            )?;
        }
        Ok(())
    }

    /// Checks that a pair of a list is that of its edge, or the composition of the edge and an earlier pair.
    #[tactic(auto, using(crate::proofs::Trials::entries))]
    fn try_entry(
        &self,
        alloc: Global,
        work: &mut WorkBudget,
        places: &Places,
        place: u32,
        entry: Ancestor,
    ) -> Result<(), Failure>
        ensures { IfOk result (λ _. IsSound (tables self.now) place entry) }
    {
        let edge = edge_at(self.edges.as_slice(), entry.edge)?;
        if edge.lower != entry.class {
            return broken(Invariant::HierarchyTable);
        }
        let above = try_form(self.pairs.nodes(edge.pair), self.names.name(edge.upper))?;
        try_form(self.pairs.nodes(entry.pair), self.names.name(entry.upper))?;
        match entry.next {
            None => {
                self.try_own(alloc, work, places, edge, above, entry)?;
                Ok(())
            }
            Some(next) => {
                self.try_next(alloc, work, edge, above, entry, place, next)?;
                Ok(())
            }
        }
    }

    /// Checks that a pair is that of its edge, which composes with the pairs of the list of the supertype's class.
    #[tactic(auto, using(crate::proofs::Trials::entries))]
    fn try_own(
        &self,
        alloc: Global,
        work: &mut WorkBudget,
        places: &Places,
        edge: Edge,
        above: u32,
        entry: Ancestor,
    ) -> Result<(), Failure>
        requires { entry.next ≡ None }
        ensures { IfOk result (λ _. IsOwn (tables self.now) edge above entry) }
    {
        if entry.pair != edge.pair {
            return broken(Invariant::HierarchyTable);
        }
        if entry.upper != edge.upper {
            return broken(Invariant::HierarchyTable);
        }
        self.try_covering(alloc, work, places, edge, above)?;
        Ok(())
    }

    /// Checks that a pair is the composition of an edge and an earlier pair.
    #[tactic(auto, using(crate::proofs::Trials::entries))]
    fn try_next(
        &self,
        alloc: Global,
        work: &mut WorkBudget,
        edge: Edge,
        above: u32,
        entry: Ancestor,
        place: u32,
        next: u32,
    ) -> Result<(), Failure>
        requires { entry.next ≡ Some next }
        ensures { IfOk result (λ _. GoesOnWith (tables self.now) edge above entry place next) }
    {
        if next >= place {
            return broken(Invariant::HierarchyTable);
        }
        let link = link_at(self.links.as_slice(), edge.upper)?;
        let second = self.listed(link.root, next)?;
        if entry.upper != second.upper {
            return broken(Invariant::HierarchyTable);
        }
        if !self.goes_on(edge, link.root, above) {
            return broken(Invariant::HierarchyTable);
        }
        self.try_first(entry)?;
        self.try_both(alloc, work, edge.pair, second.pair, entry.pair)?;
        Ok(())
    }

    /// Checks that the pair of the edge of a list's pair is in the list too.
    #[tactic(auto, using(crate::proofs::Trials::entries))]
    fn try_first(&self, entry: Ancestor) -> Result<(), Failure>
        ensures { IfOk result (λ _. HasOwn (tables self.now) entry) }
    {
        let own = entry_at(self.above.as_slice(), entry.own)?;
        if own.edge != entry.edge {
            return broken(Invariant::HierarchyTable);
        }
        match own.next {
            None => Ok(()),
            Some(_) => broken(Invariant::HierarchyTable),
        }
    }
}
