//! Which variables are saved: those that are live where an instance goes on, unless the resumption passes them anew.

use crate::accesses::PassedVars;
use crate::dataflow::live_at_beginnings;
use crate::edges::CfgEdges;
use crate::sets::VarSet;
use failure::{Failure, Invariant, known};
use sa_cfg::{BasicBlock, CfgBody, Terminator};
use sqlite_items::Items;
use std::alloc::Global;

/// The variables of an iter's body that are saved while it is suspended, rising: each variable with a number less than 200 that is read on
/// a path from a block in which a resumption goes on, and that is set neither by the resumption nor before on the path. A raise of an
/// operation is on such paths too, from before the operation sets anything.
///
/// Variables from 200 on are assumed to be set before they are read after a suspension.
///
/// # Errors
///
/// A `Failure`: `Broken` where an exit or a raise goes to a block that isn't there.
pub fn saved_variables(alloc: Global, body: &CfgBody) -> Result<Items<u32>, Failure> {
    let delivered = PassedVars::of(body.formals.as_slice())?;
    let ways = CfgEdges::of(alloc, body)?;
    let live = live_at_beginnings(alloc, &ways)?;
    let read_later = live_after_all(body.blocks.as_slice(), live.as_slice())?;
    read_later.without(delivered.anew).rising(alloc)
}

/// What is live where an instance goes on after one of the blocks has suspended it.
fn live_after_all(blocks: &[BasicBlock], live: &[VarSet]) -> Result<VarSet, Failure> {
    let mut all = VarSet::NONE;
    for block in blocks {
        all = all.union(live_after(&block.exit, live)?);
    }
    Ok(all)
}

/// What is live where an instance goes on after a terminator has suspended it.
fn live_after(exit: &Terminator, live: &[VarSet]) -> Result<VarSet, Failure> {
    match exit {
        Terminator::Suspend {
            value: _,
            resume: Some(block),
        } => known(live.get(*block as usize).copied(), Invariant::CfgNumber),
        _ => Ok(VarSet::NONE),
    }
}
