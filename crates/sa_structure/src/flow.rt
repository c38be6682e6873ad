//! The control flow from block to block as the edges of a graph. Its node 0 is the entry of the body, and the node of a block is one more
//! than the block's number. A suspension has no edge: the block in which it resumes has one from the entry.

use crate::raises::{leaves, raised_of};
use failure::{Failure, Invariant, known};
use sa_cfg::{BasicBlock, CfgBody, Handler, Terminator};
use sa_graph::{Graph, entry, put, word};
use std::alloc::Global;

/// The node of the entry.
pub(crate) const ENTRY: u32 = 0;

/// The node of a block.
pub(crate) fn node_of(block: u32) -> Result<u32, Failure> {
    known(block.checked_add(1), Invariant::CfgNumber)
}

/// How an edge leads to a node.
#[derive(Clone, Copy, Debug, PartialEq, Eq)]
pub(crate) enum EdgeKind {
    /// By the terminator of a block.
    Exit,
    /// By a raise of an operation, or from the entry to a block in which a suspension resumes.
    Jump,
    /// By way of the entry: it counts no more.
    Cut,
}

/// The edges of a body.
#[derive(Drop)]
pub(crate) struct Flow {
    /// How many nodes there are.
    pub count: usize,
    starts: Vec<u32>,
    ends: Vec<u32>,
    ways: Vec<EdgeKind>,
    /// The blocks that the entry leads to, the first of which is block 0.
    pub entries: Vec<u32>,
    /// For each node whether it is that of an entry.
    is_entry: Vec<bool>,
}

/// The edges of a body.
pub(crate) fn flow_of(alloc: Global, body: &CfgBody) -> Result<Flow, Failure> {
    let count = known(body.blocks.len().checked_add(1), Invariant::CfgNumber)?;
    let mut flow = Flow {
        count,
        starts: Vec::new(alloc),
        ends: Vec::new(alloc),
        ways: Vec::new(alloc),
        entries: Vec::new(alloc),
        is_entry: vec![in alloc; false; count]?,
    };
    flow.add_entry(0, EdgeKind::Exit)?;
    for (place, block) in body.blocks.as_slice().iter().enumerate() {
        let node = node_of(word(place, Invariant::CfgNumber)?)?;
        flow.add_raises(body, node, block)?;
        flow.add_exit(body, node, &block.exit)?;
    }
    Ok(flow)
}

impl Flow {
    fn add(&mut self, from: u32, block: u32, way: EdgeKind) -> Result<(), Failure> {
        self.starts.push(from)?;
        self.ends.push(node_of(block)?)?;
        self.ways.push(way)?;
        Ok(())
    }

    /// The entry leads to a block.
    fn add_entry(&mut self, block: u32, way: EdgeKind) -> Result<(), Failure> {
        let node = node_of(block)?;
        if entry(&self.is_entry, node as usize, Invariant::CfgNumber)? {
            return Ok(());
        }
        put(
            &mut self.is_entry,
            node as usize,
            true,
            Invariant::CfgNumber,
        )?;
        self.entries.push(block)?;
        self.add(ENTRY, block, way)
    }

    fn add_raises(&mut self, body: &CfgBody, node: u32, block: &BasicBlock) -> Result<(), Failure> {
        for step in block.steps.as_slice() {
            if let Some(raised) = raised_of(step) {
                self.add_raise(body, node, raised)?;
            }
        }
        Ok(())
    }

    /// A raise goes to its block, unless its code leaves the body at once.
    fn add_raise(&mut self, body: &CfgBody, node: u32, raised: Handler) -> Result<(), Failure> {
        if leaves(body, raised) {
            return Ok(());
        }
        self.add(node, raised.block, EdgeKind::Jump)
    }

    fn add_exit(&mut self, body: &CfgBody, node: u32, exit: &Terminator) -> Result<(), Failure> {
        match exit {
            Terminator::Jump(to) => self.add(node, *to, EdgeKind::Exit),
            Terminator::Branch { test: _, yes, no } => {
                self.add(node, *yes, EdgeKind::Exit)?;
                self.add(node, *no, EdgeKind::Exit)
            }
            Terminator::Suspend { value: _, resume } => self.add_resumption(*resume),
            Terminator::Fault { kind: _, fail } => self.add_raise(body, node, fail.raised),
            Terminator::Return { value: _ } => Ok(()),
            Terminator::Quit => Ok(()),
            Terminator::Raise { .. } => Ok(()),
        }
    }

    fn add_resumption(&mut self, resume: Option<u32>) -> Result<(), Failure> {
        match resume {
            Some(block) => self.add_entry(block, EdgeKind::Jump),
            None => Ok(()),
        }
    }

    /// The graph of the edges that count.
    pub(crate) fn graph(&self, alloc: Global) -> Result<Graph, Failure> {
        let mut starts = Vec::new(alloc);
        let mut ends = Vec::new(alloc);
        for (edge, way) in self.ways.iter().enumerate() {
            if *way != EdgeKind::Cut {
                starts.push(entry(&self.starts, edge, Invariant::CfgNumber)?)?;
                ends.push(entry(&self.ends, edge, Invariant::CfgNumber)?)?;
            }
        }
        Graph::new(alloc, self.count, starts, ends)
    }

    /// How many edges there are, also those that don't count.
    pub(crate) fn edges(&self) -> usize {
        self.ways.len()
    }

    /// An edge: where it begins, where it ends, and how it leads there.
    pub(crate) fn edge(&self, edge: usize) -> Result<(u32, u32, EdgeKind), Failure> {
        let start = entry(&self.starts, edge, Invariant::CfgNumber)?;
        let end = entry(&self.ends, edge, Invariant::CfgNumber)?;
        Ok((start, end, entry(&self.ways, edge, Invariant::CfgNumber)?))
    }

    /// An edge counts no more: it goes by way of the entry, which leads to its end from now on.
    pub(crate) fn cut(&mut self, edge: usize) -> Result<(), Failure> {
        put(&mut self.ways, edge, EdgeKind::Cut, Invariant::CfgNumber)?;
        let end = entry(&self.ends, edge, Invariant::CfgNumber)?;
        self.add_entry(end.saturating_sub(1), EdgeKind::Jump)
    }
}
