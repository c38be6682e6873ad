//! The edges of the tables are compared with those that the classes declare.

ghost use Rattle.std.specs.Prelude.{IfOk};
ghost use Rattle.sa_unify.specs.DeclaredEdges.{edge_of};
ghost use Rattle.sa_hierarchy.specs.Kept.{AreWritten, IsWrittenAt};
ghost use Rattle.sa_hierarchy.specs.Hierarchies.{tables};

use crate::class_hierarchy::Hierarchy;
use crate::entries::edge_at;
use failure::{Failure, Invariant, broken};
use sa_graph::word;
use sa_unify::{WrittenEdge, renumbered, try_equal};
use std::alloc::Global;

impl Hierarchy {
    /// Checks that the edges are the written ones, in their order.
    #[tactic(auto, using(crate::proofs::Kept::keeps))]
    pub fn try_written(&self, alloc: Global, written: &[WrittenEdge]) -> Result<(), Failure>
        ensures { IfOk result (λ _. AreWritten (tables self.now) written.now) }
    {
        if self.edges.len() != written.len() {
            return broken(Invariant::HierarchyTable);
        }
        for (number, own) in written.iter().enumerate() {
            self.try_written_at(alloc, word(number, Invariant::HierarchyTable)?, own)?;
        }
        Ok(())
    }

    /// Checks that the edge with a number is a written one.
    #[tactic(auto, using(crate::proofs::Kept::keeps))]
    fn try_written_at(&self, alloc: Global, number: u32, own: &WrittenEdge) -> Result<(), Failure>
        ensures { IfOk result (λ _. IsWrittenAt (tables self.now) number (edge_of own.now)) }
    {
        let edge = edge_at(self.edges.as_slice(), number)?;
        if edge.lower != own.lower {
            return broken(Invariant::HierarchyTable);
        }
        if edge.upper != own.upper {
            return broken(Invariant::HierarchyTable);
        }
        let nodes = renumbered(alloc, own.nodes.as_slice())?;
        try_equal(self.pairs.nodes(edge.pair), nodes.as_slice())?;
        Ok(())
    }
}
