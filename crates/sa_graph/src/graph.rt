//! A graph as its edges, in the order in which they were given and by the node where they begin.

ghost use Rattle.std.specs.Prelude.{◌≡◌, IfOk, length};
ghost use Rattle.sa_graph.specs.Paths.{IsFirstOnCycle, ends_of, node_count, starts_of};
ghost use Rattle.sa_graph.specs.Reaching.{AreReaching};

use crate::components::Components;
use crate::grouped::IndexGroups;
use crate::list::word;
use crate::reach::{Ways, edges_of_walk, ways_to};
use crate::walk::leaving_order;
use failure::{Failure, Invariant};
use std::alloc::Global;

/// A directed graph: edges between nodes that are numbered from 0. The number of an edge is its index in the lists that were given.
#[derive(Drop)]
pub struct Graph {
    count: usize,
    starts: Vec<u32>,
    ends: Vec<u32>,
    by_start: IndexGroups,
}

impl Graph {
    /// The graph of so many nodes, with an edge from each start to the end at the same index.
    ///
    /// # Errors
    ///
    /// A `Failure`: `Broken` where an edge begins or ends at no node.
    pub fn new(
        alloc: Global,
        count: usize,
        starts: Vec<u32>,
        ends: Vec<u32>,
    ) -> Result<Graph, Failure>
        ensures count { IfOk result (λ graph. node_count graph ≡ count) }
        ensures starts { IfOk result (λ graph. starts_of graph ≡ starts.items) }
        ensures ends { IfOk result (λ graph. ends_of graph ≡ ends.items) }
    {
        let by_start = IndexGroups::new(alloc, count, &starts)?;
        Ok(Graph {
            count,
            starts,
            ends,
            by_start,
        })
    }

    /// How many nodes there are.
    pub fn count(&self) -> usize
        ensures { result ≡ node_count self.now }
    {
        self.count
    }

    /// How many edges there are.
    pub fn edges(&self) -> usize
        ensures { result ≡ length (ends_of self.now) }
    {
        self.ends.len()
    }

    /// The node at which each edge begins.
    pub(crate) fn starts(&self) -> &[u32]
        ensures { result.now ≡ starts_of self.now }
    {
        self.starts.as_slice()
    }

    /// The node at which each edge ends.
    pub(crate) fn ends(&self) -> &[u32]
        ensures { result.now ≡ ends_of self.now }
    {
        self.ends.as_slice()
    }

    /// The edges that begin at a node, in the order in which they were given.
    pub fn from(&self, node: u32) -> &[u32] {
        self.by_start.of(node)
    }

    /// The node at which an edge ends.
    pub fn end(&self, edge: u32) -> Option<u32> {
        self.ends.get(edge as usize).copied()
    }

    /// All nodes in the postorder of a depth-first search: where the graph has no cycle, each node comes after those that it has
    /// edges to.
    ///
    /// # Errors
    ///
    /// A `Failure`.
    pub fn order(&self, alloc: Global) -> Result<Vec<u32>, Failure> {
        leaving_order(alloc, self)
    }

    /// For each node whether it lies on a cycle. `order` is the order of this graph.
    ///
    /// # Errors
    ///
    /// A `Failure`.
    pub fn cyclic(&self, alloc: Global, order: &[u32]) -> Result<Vec<bool>, Failure> {
        let components = Components::new(alloc, &self.transposed(alloc)?, order)?;
        self.cyclic_by(alloc, &components)
    }

    /// The first node that lies on a cycle: a path of one edge or more leads from it to itself. `order` is the order of this graph. The
    /// answer is computed without a proof, and then verified.
    ///
    /// # Errors
    ///
    /// A `Failure`.
    #[tactic(auto, using(crate::proofs::Trials::answers))]
    pub fn first_on_cycle(&self, alloc: Global, order: &[u32]) -> Result<Option<usize>, Failure>
        ensures { IfOk result (IsFirstOnCycle self.now) }
    {
        let components = Components::new(alloc, &self.transposed(alloc)?, order)?;
        let levels = components.levels(alloc)?;
        let Some(node) = self.first_cyclic(alloc, &components)? else {
            self.try_levels(&levels, self.count)?;
            return Ok(None);
        };
        self.try_levels(&levels, node as usize)?;
        let edges = edges_of_walk(alloc, self, node)?;
        self.try_cycle(&edges, node)?;
        Ok(Some(node as usize))
    }

    /// For each node whether it lies on a cycle, by the components of the graph.
    fn cyclic_by(&self, alloc: Global, components: &Components) -> Result<Vec<bool>, Failure> {
        let mut cyclic = Vec::new(alloc);
        for node in 0..self.count {
            let together = components.has_others(node);
            cyclic.push(together || self.has_loop(node))?;
        }
        Ok(cyclic)
    }

    /// The first node that is found to lie on a cycle.
    fn first_cyclic(&self, alloc: Global, components: &Components) -> Result<Option<u32>, Failure> {
        let cyclic = self.cyclic_by(alloc, components)?;
        match cyclic.iter().position(|on| *on) {
            Some(place) => Ok(Some(word(place, Invariant::GraphNode)?)),
            None => Ok(None),
        }
    }

    /// For each node whether it is this one, or has a path of one edge or more to it. The answer is computed without a proof, and then
    /// verified.
    ///
    /// # Errors
    ///
    /// A `Failure`: `Broken` where there is no such node.
    pub fn reaching(&self, alloc: Global, node: u32) -> Result<Vec<bool>, Failure>
        ensures { IfOk result (λ marks. AreReaching self.now node marks.items) }
    {
        let ways = ways_to(alloc, &self.transposed(alloc)?, node)?;
        self.try_ways(&ways, node)?;
        let Ways { marks, .. } = ways;
        Ok(marks)
    }

    /// The transposed graph: the same edges, each in the other direction.
    ///
    /// # Errors
    ///
    /// A `Failure`.
    pub fn transposed(&self, alloc: Global) -> Result<Graph, Failure> {
        let starts = Vec::from_slice(alloc, self.ends.as_slice())?;
        let ends = Vec::from_slice(alloc, self.starts.as_slice())?;
        Graph::new(alloc, self.count, starts, ends)
    }

    /// Whether a node has an edge to itself.
    fn has_loop(&self, node: usize) -> bool {
        let Ok(node) = u32::try_from(node) else {
            return false;
        };
        self.from(node)
            .iter()
            .any(|edge| self.end(*edge) == Some(node))
    }
}
