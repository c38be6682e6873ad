//! Where the code of each block is placed: at the terminator that alone leads to it; or after a labelled block, in whose code it is jumped
//! to: that of its dominator, or of the loop that is left on the path from there. Nodes are named by their positions in the order.

use crate::dominators::{Dominators, Order};
use crate::flow::{EdgeKind, Flow};
use crate::loops::Loops;
use failure::{Failure, Invariant};
use sa_graph::{entry, put, word};
use std::alloc::Global;

/// A stage of the code of a node: a region around what is further in. Each stage is that of all the code before it, and the one that is
/// furthest out comes first.
#[derive(Clone, Copy, Debug, PartialEq, Eq)]
pub(crate) enum PlanStage {
    /// A labelled block, and after it the code of this node, which isn't in the loop of the stage's node.
    Outside(u32),
    /// The loop of the node.
    Loop,
    /// A labelled block, and after it the code of this node.
    Inside(u32),
    /// The block itself.
    Block,
}

/// Where the code of each node is placed.
#[derive(Drop)]
pub(crate) struct Placement {
    pub loops: Loops,
    /// For each node whether it is jumped to.
    follows: Vec<bool>,
    /// For each node the last of the nodes after its loop, and the last of those after its block.
    outside: Vec<Option<u32>>,
    inside: Vec<Option<u32>>,
    /// For each node that is jumped to the one that comes before it after the same node.
    before: Vec<Option<u32>>,
}

/// Where the code of each node is placed.
pub(crate) fn placing_of(
    alloc: Global,
    flow: &Flow,
    order: &Order,
    dominators: &Dominators,
    loops: Loops,
) -> Result<Placement, Failure> {
    let count = order.nodes.len();
    let mut placing = Placement {
        loops,
        follows: vec![in alloc; false; count]?,
        outside: vec![in alloc; None; count]?,
        inside: vec![in alloc; None; count]?,
        before: vec![in alloc; None; count]?,
    };
    let jumped = jumped_to(alloc, flow, order)?;
    for rank in 1..count {
        placing.place(dominators, &jumped, word(rank, Invariant::CfgNumber)?)?;
    }
    Ok(placing)
}

/// For each node whether it needs a label: more than one edge leads on to it, or a raise or the entry does.
fn jumped_to(alloc: Global, flow: &Flow, order: &Order) -> Result<Vec<bool>, Failure> {
    let mut reached = vec![in alloc; false; order.nodes.len()]?;
    let mut jumped = vec![in alloc; false; order.nodes.len()]?;
    for edge in 0..flow.edges() {
        let (start, end, way) = flow.edge(edge)?;
        if let Some(rank) = led_on(order, start, end, way) {
            let again = entry(&reached, rank as usize, Invariant::CfgNumber)?
                || way == EdgeKind::Jump;
            put(&mut reached, rank as usize, true, Invariant::CfgNumber)?;
            if again {
                put(&mut jumped, rank as usize, true, Invariant::CfgNumber)?;
            }
        }
    }
    Ok(jumped)
}

/// The node that an edge leads on to.
fn led_on(order: &Order, start: u32, end: u32, way: EdgeKind) -> Option<u32> {
    if way == EdgeKind::Cut || order.leads_back(start, end) || order.rank(start).is_none() {
        return None;
    }
    order.rank(end)
}

impl Placement {
    fn place(
        &mut self,
        dominators: &Dominators,
        jumped: &[bool],
        rank: u32,
    ) -> Result<(), Failure> {
        let above = dominators.above(rank)?;
        if let Some(head) = self.loops.left_between(above, rank) {
            let last = entry(&self.outside, head as usize, Invariant::CfgNumber)?;
            put(
                &mut self.outside,
                head as usize,
                Some(rank),
                Invariant::CfgNumber,
            )?;
            return self.follow(rank, last);
        }
        if entry(jumped, rank as usize, Invariant::CfgNumber)? {
            let last = entry(&self.inside, above as usize, Invariant::CfgNumber)?;
            put(
                &mut self.inside,
                above as usize,
                Some(rank),
                Invariant::CfgNumber,
            )?;
            return self.follow(rank, last);
        }
        Ok(())
    }

    fn follow(&mut self, rank: u32, before: Option<u32>) -> Result<(), Failure> {
        put(&mut self.follows, rank as usize, true, Invariant::CfgNumber)?;
        put(
            &mut self.before,
            rank as usize,
            before,
            Invariant::CfgNumber,
        )
    }

    /// Whether the code of a node follows a labelled block.
    pub(crate) fn follows(&self, rank: u32) -> bool {
        self.follows.get(rank as usize).copied().unwrap_or(true)
    }

    /// The stage of a node that is furthest out.
    pub(crate) fn first_stage(&self, rank: u32) -> PlanStage {
        match self.outside.get(rank as usize).copied().flatten() {
            Some(last) => PlanStage::Outside(last),
            None => self.loop_stage(rank),
        }
    }

    fn loop_stage(&self, rank: u32) -> PlanStage {
        if self.loops.is_head(rank) {
            return PlanStage::Loop;
        }
        self.inside_stage(rank)
    }

    fn inside_stage(&self, rank: u32) -> PlanStage {
        match self.inside.get(rank as usize).copied().flatten() {
            Some(last) => PlanStage::Inside(last),
            None => PlanStage::Block,
        }
    }

    /// The stage of a node that is next further in.
    pub(crate) fn further_in(&self, rank: u32, stage: PlanStage) -> PlanStage {
        match stage {
            PlanStage::Outside(follower) => match self.before_it(follower) {
                Some(other) => PlanStage::Outside(other),
                None => self.loop_stage(rank),
            },
            PlanStage::Loop => self.inside_stage(rank),
            PlanStage::Inside(follower) => match self.before_it(follower) {
                Some(other) => PlanStage::Inside(other),
                None => PlanStage::Block,
            },
            PlanStage::Block => PlanStage::Block,
        }
    }

    fn before_it(&self, follower: u32) -> Option<u32> {
        self.before.get(follower as usize).copied().flatten()
    }
}
