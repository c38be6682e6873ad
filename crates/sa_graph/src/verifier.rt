//! The verifier of cycles: that one was found, and none before it, by levels of the nodes and by edges that lead back to a node.
//! And of the nodes that have a path to one: by marks that are closed along edges, and by paths that continue with fewer steps.

ghost use Rattle.std.specs.Prelude.{◌≡◌, IfOk, OnOk};
ghost use Rattle.sa_graph.specs.Levels.{RisesAt, level_of};
ghost use Rattle.sa_graph.specs.Paths.{IsEdge, IsOnCycle, NoneBefore};
ghost use Rattle.sa_graph.specs.Reaching.{AreReaching, IsClosed, IsClosedAt, IsOnWay, WaysGoOn, is_set};

use crate::graph::Graph;
use crate::list::{entry, word};
use crate::reach::Ways;
use failure::{Failure, Invariant, broken};

impl Graph {
    /// Verifies that no node before `bound` lies on a cycle: each edge leads to a higher level, or stays at its level and doesn't
    /// begin before `bound`.
    #[tactic(auto, using(crate::proofs::Trials::levels))]
    pub(crate) fn try_levels(&self, levels: &[u32], bound: usize) -> Result<(), Failure>
        ensures { OnOk result (NoneBefore self.now bound) }
    {
        for place in 0..self.edges() {
            self.try_edge(levels, bound, place)?;
        }
        Ok(())
    }

    /// Verifies the same of one edge.
    #[tactic(auto, using(crate::proofs::Trials::edges))]
    fn try_edge(&self, levels: &[u32], bound: usize, place: usize) -> Result<(), Failure>
        ensures { OnOk result (RisesAt levels.now bound self.now place) }
    {
        let from = entry(self.starts(), place, Invariant::GraphNode)?;
        let to = entry(self.ends(), place, Invariant::GraphNode)?;
        let low = level(levels, from);
        let high = level(levels, to);
        if low < high {
            return Ok(());
        }
        if low != high {
            return broken(Invariant::GraphNode);
        }
        if (from as usize) < bound {
            return broken(Invariant::GraphNode);
        }
        Ok(())
    }

    /// Verifies that a node lies on a cycle: it is reached again by a search back from it, along the edge that is known for each node on
    /// the path.
    #[tactic(auto, using(crate::proofs::Trials::ways))]
    pub(crate) fn try_cycle(&self, edges: &[u32], node: u32) -> Result<(), Failure>
        ensures { OnOk result (IsOnCycle self.now node) }
    {
        let mut at = self.start_of(edges, node)?;
        'back: for _ in 0..self.count() {
            if at == node {
                return Ok(());
            }
            at = self.start_of(edges, at)?;
        }
        broken(Invariant::GraphNode)
    }

    /// The start of the edge that is known for a node, at which the edge has to end.
    #[tactic(auto, using(crate::proofs::Trials::starts))]
    fn start_of(&self, edges: &[u32], node: u32) -> Result<u32, Failure>
        ensures { IfOk result (λ from. IsEdge self.now from node) }
    {
        let edge = entry(edges, node as usize, Invariant::GraphNode)? as usize;
        let to = entry(self.ends(), edge, Invariant::GraphNode)?;
        if to != node {
            return broken(Invariant::GraphNode);
        }
        let from = entry(self.starts(), edge, Invariant::GraphNode)?;
        Ok(from)
    }

    /// Verifies that exactly the marked nodes are this one or have a path to it.
    #[tactic(auto, using(crate::proofs::Ways::reaching))]
    pub(crate) fn try_ways(&self, ways: &Ways, node: u32) -> Result<(), Failure>
        ensures { OnOk result (AreReaching self.now node ways.now.marks.items) }
    {
        if !is_marked(ways.marks.as_slice(), node) {
            return broken(Invariant::GraphNode);
        }
        self.try_all_closed(ways.marks.as_slice())?;
        self.try_all_ways(ways, node)?;
        Ok(())
    }

    /// Verifies that the start of each edge is marked where its end is.
    #[tactic(auto, using(crate::proofs::Ways::closed))]
    fn try_all_closed(&self, marks: &[bool]) -> Result<(), Failure>
        ensures { OnOk result (IsClosed self.now marks.now) }
    {
        for place in 0..self.edges() {
            self.try_closed(marks, place)?;
        }
        Ok(())
    }

    /// Verifies the same of one edge.
    #[tactic(auto, using(crate::proofs::Ways::closed_at))]
    fn try_closed(&self, marks: &[bool], place: usize) -> Result<(), Failure>
        ensures { OnOk result (IsClosedAt self.now marks.now place) }
    {
        let from = entry(self.starts(), place, Invariant::GraphNode)?;
        let next = entry(self.ends(), place, Invariant::GraphNode)?;
        if !is_marked(marks, next) {
            return Ok(());
        }
        if !is_marked(marks, from) {
            return broken(Invariant::GraphNode);
        }
        Ok(())
    }

    /// Verifies that a path continues from each node that is marked, but for the one that the paths lead to.
    #[tactic(auto, using(crate::proofs::Ways::on_ways))]
    fn try_all_ways(&self, ways: &Ways, to: u32) -> Result<(), Failure>
        ensures { OnOk result (WaysGoOn self.now ways.now to) }
    {
        for number in 0..ways.marks.len() {
            self.try_way(ways, to, word(number, Invariant::GraphNode)?)?;
        }
        Ok(())
    }

    /// Verifies the same of one node.
    #[tactic(auto, using(crate::proofs::Ways::on_way))]
    fn try_way(&self, ways: &Ways, to: u32, node: u32) -> Result<(), Failure>
        ensures { OnOk result (IsOnWay self.now ways.now to node) }
    {
        if node == to {
            return Ok(());
        }
        if !is_marked(ways.marks.as_slice(), node) {
            return Ok(());
        }
        let next = self.end_of(ways.edges.as_slice(), node)?;
        if !is_marked(ways.marks.as_slice(), next) {
            return broken(Invariant::GraphNode);
        }
        let left = level(ways.steps.as_slice(), node);
        let fewer = level(ways.steps.as_slice(), next);
        if fewer >= left {
            return broken(Invariant::GraphNode);
        }
        Ok(())
    }

    /// The end of the edge that is known for a node, at which the edge has to begin.
    #[tactic(auto, using(crate::proofs::Ways::ends))]
    fn end_of(&self, edges: &[u32], node: u32) -> Result<u32, Failure>
        ensures { IfOk result (λ next. IsEdge self.now node next) }
    {
        let edge = entry(edges, node as usize, Invariant::GraphNode)? as usize;
        let from = entry(self.starts(), edge, Invariant::GraphNode)?;
        if from != node {
            return broken(Invariant::GraphNode);
        }
        let next = entry(self.ends(), edge, Invariant::GraphNode)?;
        Ok(next)
    }
}

/// Whether a node is marked.
fn is_marked(marks: &[bool], node: u32) -> bool
    ensures { result ≡ is_set marks.now node }
{
    marks.get(node as usize).copied().unwrap_or(false)
}

/// The level of a node.
fn level(levels: &[u32], node: u32) -> u32
    ensures { result ≡ level_of levels.now node }
{
    levels.get(node as usize).copied().unwrap_or(0)
}
