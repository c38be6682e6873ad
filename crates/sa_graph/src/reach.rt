//! A search from a node along all edges, with the edge by which each node is reached, and one back to a node.

use crate::graph::Graph;
use crate::list::{entry, put};
use failure::{Failure, Invariant, known};
use std::alloc::Global;

/// The nodes that are reached, and the worklist of those whose edges aren't followed yet.
#[derive(Drop)]
struct Reach {
    /// For each node the edge by which it was reached.
    edges: Vec<Option<u32>>,
    waiting: Vec<u32>,
}

/// For each node that has a path of one edge or more from this one an edge at which such a path ends: back along these edges the
/// search comes to this node. The other nodes have 0.
pub(crate) fn edges_of_walk(alloc: Global, graph: &Graph, node: u32) -> Result<Vec<u32>, Failure> {
    let mut reach = Reach {
        edges: vec![in alloc; None; graph.count()]?,
        waiting: Vec::new(alloc),
    };
    reach.follow(graph, node)?;
    // Each node is on the worklist once at most.
    for _ in 0..graph.count() {
        let Some(next) = reach.waiting.pop() else {
            break;
        };
        reach.follow(graph, next)?;
    }
    let mut edges = Vec::new(alloc);
    for edge in reach.edges.iter() {
        edges.push(edge.unwrap_or(0))?;
    }
    Ok(edges)
}

impl Reach {
    /// Follows the edges of a node.
    fn follow(&mut self, graph: &Graph, node: u32) -> Result<(), Failure> {
        for edge in graph.from(node) {
            self.reach(known(graph.end(*edge), Invariant::GraphNode)?, *edge)?;
        }
        Ok(())
    }

    /// Reaches a node by an edge, where it wasn't reached yet.
    fn reach(&mut self, node: u32, edge: u32) -> Result<(), Failure> {
        if entry(&self.edges, node as usize, Invariant::GraphNode)?.is_none() {
            put(
                &mut self.edges,
                node as usize,
                Some(edge),
                Invariant::GraphNode,
            )?;
            self.waiting.push(node)?;
        }
        Ok(())
    }
}

/// The nodes that have a path to a given one, and such a path.
#[derive(Drop)]
pub(crate) struct Ways {
    /// For each node whether it is the given one, or has a path to it.
    pub(crate) marks: Vec<bool>,
    /// For each of these the edge by which its path continues.
    pub(crate) edges: Vec<u32>,
    /// How many edges the path has.
    pub(crate) steps: Vec<u32>,
}

/// The nodes that have a path to this one in a graph, whose transposed graph is `back`.
pub(crate) fn ways_to(alloc: Global, back: &Graph, node: u32) -> Result<Ways, Failure> {
    let mut ways = Ways {
        marks: vec![in alloc; false; back.count()]?,
        edges: vec![in alloc; 0; back.count()]?,
        steps: vec![in alloc; 0; back.count()]?,
    };
    let mut waiting = Vec::new(alloc);
    put(&mut ways.marks, node as usize, true, Invariant::GraphNode)?;
    waiting.push(node)?;
    // Each node is on the worklist once.
    for place in 0..back.count() {
        let Some(next) = waiting.get(place).copied() else {
            break;
        };
        ways.add_starts(back, next, &mut waiting)?;
    }
    Ok(ways)
}

impl Ways {
    /// Adds the nodes from which edges lead to a node.
    fn add_starts(
        &mut self,
        back: &Graph,
        node: u32,
        waiting: &mut Vec<u32>,
    ) -> Result<(), Failure> {
        let steps = entry(&self.steps, node as usize, Invariant::GraphNode)?.saturating_add(1);
        for edge in back.from(node) {
            let start = known(back.end(*edge), Invariant::GraphNode)?;
            if !entry(&self.marks, start as usize, Invariant::GraphNode)? {
                put(&mut self.marks, start as usize, true, Invariant::GraphNode)?;
                put(&mut self.edges, start as usize, *edge, Invariant::GraphNode)?;
                put(&mut self.steps, start as usize, steps, Invariant::GraphNode)?;
                waiting.push(start)?;
            }
        }
        Ok(())
    }
}
