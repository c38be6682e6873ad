//! The structured regions of a body, by where the code of each of its blocks is placed.

use crate::dominators::Order;
use crate::flow::{ENTRY, node_of};
use crate::placing::{Placement, PlanStage};
use crate::regions::Region;
use failure::{Failure, Invariant, known};
use sa_cfg::{CfgBody, Terminator};
use sa_graph::entry;
use sqlite_items::Items;
use std::alloc::Global;

/// What the regions are made of.
#[derive(Clone, Copy)]
pub(crate) struct RegionPlan<'a> {
    pub body: &'a CfgBody,
    pub order: &'a Order,
    pub placing: &'a Placement,
    /// Whether the body also resumes at other blocks than the first one.
    pub chooses: bool,
}

/// Regions so far, or that they would nest too deep.
#[derive(Drop)]
pub(crate) enum ListResult {
    List(Items<Region>),
    TooDeep,
}

/// The regions of a body, which nest at most this deep. Without a dispatch they begin with the first block, the one after the entry.
pub(crate) fn build_list(
    alloc: Global,
    plan: RegionPlan<'_>,
    depth: u32,
) -> Result<ListResult, Failure> {
    let rank = u32::from(!plan.chooses);
    list_of(alloc, plan, rank, plan.placing.first_stage(rank), depth)
}

/// The code of a node from a stage on, which nests at most this deep. What follows at its end, one after the other, is no deeper.
#[cycle(building)]
fn list_of(
    alloc: Global,
    plan: RegionPlan<'_>,
    rank: u32,
    stage: PlanStage,
    depth: u32,
) -> Result<ListResult, Failure> {
    let mut list = Items::new(alloc);
    let mut next = Some((rank, stage));
    for _ in 0..plan.order.nodes.len().saturating_mul(2) {
        let Some((rank, stage)) = next else {
            break;
        };
        match stage_piece(alloc, plan, rank, stage, depth)? {
            Piece::Only(shape) => {
                list.push(shape)?;
                next = None;
            }
            Piece::Before(shape, following) => {
                list.push(shape)?;
                next = Some((following, plan.placing.first_stage(following)));
            }
            Piece::TooDeep => return Ok(ListResult::TooDeep),
        }
    }
    Ok(ListResult::List(list))
}

/// A piece of a list.
#[derive(Drop)]
enum Piece {
    /// Nothing follows it.
    Only(Region),
    /// The code of this node follows it.
    Before(Region, u32),
    TooDeep,
}

/// A stage of a node.
#[cycle(building)]
fn stage_piece(
    alloc: Global,
    plan: RegionPlan<'_>,
    rank: u32,
    stage: PlanStage,
    depth: u32,
) -> Result<Piece, Failure> {
    if stage == PlanStage::Block {
        return block_of(alloc, plan, rank, depth);
    }
    if depth == 0 {
        return Ok(Piece::TooDeep);
    }
    let further_in = plan.placing.further_in(rank, stage);
    let ListResult::List(list) = list_of(alloc, plan, rank, further_in, depth - 1)? else {
        return Ok(Piece::TooDeep);
    };
    Ok(match stage {
        PlanStage::Outside(following) => Piece::Before(Region::LabelledBlock(list), following),
        PlanStage::Inside(following) => Piece::Before(Region::LabelledBlock(list), following),
        PlanStage::Loop => Piece::Only(Region::Loop(list)),
        PlanStage::Block => Piece::TooDeep,
    })
}

/// The block of a node, with what its terminator alone leads to.
#[cycle(building)]
fn block_of(alloc: Global, plan: RegionPlan<'_>, rank: u32, depth: u32) -> Result<Piece, Failure> {
    let node = entry(&plan.order.nodes, rank as usize, Invariant::CfgNumber)?;
    if node == ENTRY {
        return before(plan, rank, Region::Dispatch, 0);
    }
    let number = node - 1;
    let block = known(plan.body.blocks.get(number as usize), Invariant::CfgNumber)?;
    match &block.exit {
        Terminator::Jump(to) => before(plan, rank, Region::Basic(number), *to),
        Terminator::Branch { test: _, yes, no } => branch_of(alloc, plan, rank, *yes, *no, depth),
        _ => Ok(Piece::Only(Region::Basic(number))),
    }
}

/// A piece, with the block after it whose code is placed there, where it is.
fn before(plan: RegionPlan<'_>, from: u32, shape: Region, block: u32) -> Result<Piece, Failure> {
    Ok(match stands_there(plan, from, block)? {
        Some(rank) => Piece::Before(shape, rank),
        None => Piece::Only(shape),
    })
}

/// The node of a block whose code is placed at the terminator of a node that leads to it. A back edge doesn't lead on.
fn stands_there(plan: RegionPlan<'_>, from: u32, block: u32) -> Result<Option<u32>, Failure> {
    let rank = known(plan.order.rank(node_of(block)?), Invariant::CfgNumber)?;
    if rank <= from || plan.placing.follows(rank) {
        return Ok(None);
    }
    Ok(Some(rank))
}

/// A block with a branch. Where both sides are placed there, the one for where the test holds is inside.
#[cycle(building)]
fn branch_of(
    alloc: Global,
    plan: RegionPlan<'_>,
    rank: u32,
    yes: u32,
    no: u32,
    depth: u32,
) -> Result<Piece, Failure> {
    let number = entry(&plan.order.nodes, rank as usize, Invariant::CfgNumber)?.saturating_sub(1);
    let Some(following) = stands_there(plan, rank, no)? else {
        return before(plan, rank, Region::Basic(number), yes);
    };
    let Some(inside) = stands_there(plan, rank, yes)? else {
        return Ok(Piece::Before(Region::Basic(number), following));
    };
    if depth == 0 {
        return Ok(Piece::TooDeep);
    }
    let stage = plan.placing.first_stage(inside);
    let ListResult::List(list) = list_of(alloc, plan, inside, stage, depth - 1)? else {
        return Ok(Piece::TooDeep);
    };
    Ok(Piece::Before(Region::If(number, list), following))
}
