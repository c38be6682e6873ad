//! Liveness by dataflow: which variables are live at the beginning of each block, that is, read on a path from there and not set on it
//! before.

use crate::edges::CfgEdges;
use crate::sets::VarSet;
use failure::{Failure, Invariant, known};
use sa_cfg::FIRST_TEMPORARY;
use sqlite_items::Items;
use std::alloc::Global;

/// The state of the dataflow analysis.
#[derive(Drop)]
struct Dataflow {
    /// For each block, the variables that are live at its beginning.
    live: Items<VarSet>,
    /// The worklist: the blocks whose set has grown since it was last propagated to their predecessors.
    waiting: Items<u32>,
}

/// The variables that are live at the beginning of each block.
pub fn live_at_beginnings(alloc: Global, ways: &CfgEdges) -> Result<Items<VarSet>, Failure> {
    let mut flow = initial_flow(alloc, ways)?;
    for _ in 0..most_takes(ways) {
        let Some(block) = flow.waiting.pop() else {
            break;
        };
        flow.propagate(ways, block)?;
    }
    let Dataflow { live, waiting: _ } = flow;
    Ok(live)
}

/// Each block waits once at first, and once more each time that its set has grown by a variable.
fn most_takes(ways: &CfgEdges) -> usize {
    ways.read.len().saturating_mul(FIRST_TEMPORARY as usize + 1)
}

/// What each block reads itself is live at its beginning.
fn initial_flow(alloc: Global, ways: &CfgEdges) -> Result<Dataflow, Failure> {
    let mut flow = Dataflow {
        live: Items::from_slice(alloc, ways.read.as_slice())?,
        waiting: Items::new(alloc),
    };
    for block in 0..ways.read.len() {
        flow.waiting
            .push(known(u32::try_from(block).ok(), Invariant::CfgNumber)?)?;
    }
    Ok(flow)
}

impl Dataflow {
    /// What is live at the beginning of a block is live at the beginning of each predecessor, unless it is set between.
    fn propagate(&mut self, ways: &CfgEdges, block: u32) -> Result<(), Failure> {
        let mut next = ways.last_edge_into(block)?;
        for _ in 0..ways.count() {
            let Some(number) = next else {
                break;
            };
            next = self.propagate_edge(ways, number, block)?;
        }
        Ok(())
    }

    /// What is live at the beginning of a block is live where an edge into it begins, unless it is set on the edge. Gives the edge into the
    /// block that was added before this one.
    fn propagate_edge(
        &mut self,
        ways: &CfgEdges,
        number: u32,
        block: u32,
    ) -> Result<Option<u32>, Failure> {
        let way = ways.edge(number)?;
        let live = known(self.live.get(block as usize).copied(), Invariant::CfgNumber)?;
        self.grow(way.from, live.without(way.set))?;
        Ok(way.before)
    }

    /// Adds these variables to those that are live at the beginning of a block.
    fn grow(&mut self, block: u32, vars: VarSet) -> Result<(), Failure> {
        let at = block as usize;
        let so_far = known(self.live.get(at).copied(), Invariant::CfgNumber)?;
        let all = so_far.union(vars);
        if all == so_far || at >= self.live.len() {
            return Ok(());
        }
        self.live.set(at, all);
        self.waiting.push(block)?;
        Ok(())
    }
}
