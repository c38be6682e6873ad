//! Which features and signatures lead to a position in the prelude, by calls in the prelude alone.

use crate::targets::{Call, CalledFeature};
use crate::walk::CallSearch;
use failure::{Failure, Invariant};
use sa_graph::{Graph, word};
use sa_typed::{Target, TypedProgram, TypedSignature};
use std::alloc::Global;

/// The index of the prelude among the texts of a program.
pub(crate) const PRELUDE: u32 = 0;

/// The features and the signatures of a program, as nodes of a graph: first the features, then the signatures, and then the position that
/// they may lead to.
#[derive(Clone, Copy)]
struct Nodes {
    features: usize,
    signatures: usize,
}

impl Nodes {
    fn of(core: &TypedProgram) -> Nodes {
        Nodes {
            features: core.features.len(),
            signatures: core.sigs.len(),
        }
    }

    fn place(self) -> usize {
        self.features.saturating_add(self.signatures)
    }

    fn reached(self, to: CalledFeature) -> usize {
        match to {
            CalledFeature::Feature(number) => number as usize,
            CalledFeature::Signature(number) => self.features.saturating_add(number as usize),
        }
    }
}

/// Edges by their starts and their ends.
#[derive(Drop)]
struct Edges {
    starts: Vec<u32>,
    ends: Vec<u32>,
}

impl Edges {
    fn add(&mut self, start: usize, end: usize) -> Result<(), Failure> {
        self.starts.push(word(start, Invariant::CheckedCount)?)?;
        self.ends.push(word(end, Invariant::CheckedCount)?)?;
        Ok(())
    }
}

/// What leads to a position.
#[derive(Drop)]
pub(crate) struct Leading {
    nodes: Nodes,
    marks: Vec<bool>,
}

impl Leading {
    /// What leads to the position of the search in a program: the features of the prelude that contain it, and those features of the
    /// prelude and those signatures that lead to one of them.
    pub(crate) fn to_place(
        alloc: Global,
        core: &TypedProgram,
        seen: &CallSearch<'_>,
    ) -> Result<Leading, Failure> {
        let nodes = Nodes::of(core);
        let mut edges = Edges {
            starts: Vec::new(alloc),
            ends: Vec::new(alloc),
        };
        add_calls(&mut edges, nodes, core, seen.calls.as_slice())?;
        add_signatures(&mut edges, nodes, core.sigs.as_slice())?;
        for holder in seen.holders.iter() {
            edges.add(*holder as usize, nodes.place())?;
        }
        let Edges { starts, ends } = edges;
        let graph = Graph::new(alloc, nodes.place().saturating_add(1), starts, ends)?;
        let marks = graph.reaching(alloc, word(nodes.place(), Invariant::CheckedCount)?)?;
        Ok(Leading { nodes, marks })
    }

    /// Whether the called feature or signature leads there.
    pub(crate) fn holds(&self, to: CalledFeature) -> bool {
        matches!(self.marks.get(self.nodes.reached(to)), Some(true))
    }
}

/// Adds an edge for each call in a feature of the prelude.
fn add_calls(
    edges: &mut Edges,
    nodes: Nodes,
    core: &TypedProgram,
    calls: &[Call],
) -> Result<(), Failure> {
    for call in calls {
        if let Some(feature) = call.feature
            && is_of_prelude(core, feature)
        {
            edges.add(feature as usize, nodes.reached(call.to))?;
        }
    }
    Ok(())
}

/// Whether the text of a feature is in the prelude.
fn is_of_prelude(core: &TypedProgram, feature: u32) -> bool {
    match core.features.get(feature as usize) {
        Some(feature) => feature.pos.file == PRELUDE,
        None => false,
    }
}

/// Adds an edge from each signature to each of the features that implement it.
fn add_signatures(edges: &mut Edges, nodes: Nodes, sigs: &[TypedSignature]) -> Result<(), Failure> {
    for (number, sig) in sigs.iter().enumerate() {
        add_signature(edges, nodes.features.saturating_add(number), sig)?;
    }
    Ok(())
}

fn add_signature(edges: &mut Edges, node: usize, sig: &TypedSignature) -> Result<(), Failure> {
    for implementation in sig.impls.as_slice() {
        if let Target::Feature(feature) = implementation.target {
            edges.add(node, feature as usize)?;
        }
    }
    Ok(())
}
