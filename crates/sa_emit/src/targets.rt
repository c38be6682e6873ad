//! The dispatch targets of a body: the blocks whose code is reached by a jump. The code of every other block follows the terminator that
//! leads to it.

use crate::predecessors::Predecessors;
use crate::sums::number;
use failure::{Failure, Invariant, broken, known};
use sa_cfg::{CfgBody, Terminator};
use sqlite_items::Items;
use std::alloc::Global;

/// How deep branches may nest in a superblock.
pub(crate) const DEEPEST: u32 = 64;

/// The dispatch targets of a body.
#[derive(Drop)]
pub(crate) struct DispatchTargets {
    /// For each block its number among the dispatch targets, if it is one.
    pub numbers: Items<Option<u32>>,
    /// The block of each dispatch target. The first is block 0.
    pub blocks: Items<u32>,
    /// For each dispatch target whether its superblock jumps to it.
    pub repeats: Items<bool>,
}

/// A block that has been placed: the number of the dispatch target to whose superblock it belongs, and in how many branches it is there.
#[derive(Clone, Copy, Debug)]
struct BlockPlace {
    block: u32,
    target: u32,
    depth: u32,
}

/// The dispatch targets so far.
#[derive(Drop)]
struct Walk<'a> {
    predecessors: &'a [Predecessors],
    targets: DispatchTargets,
    /// The blocks that have been placed, while those after them haven't.
    waiting: Items<BlockPlace>,
}

/// The dispatch targets of a body: its first block, the blocks that jumps lead to, and those that would nest too deep.
pub(crate) fn targets_of(
    alloc: Global,
    body: &CfgBody,
    predecessors: &[Predecessors],
) -> Result<DispatchTargets, Failure> {
    let mut walk = begun(alloc, predecessors)?;
    for _ in 0..body.blocks.len() {
        let Some(place) = walk.waiting.pop() else {
            break;
        };
        let block = known(body.blocks.get(place.block as usize), Invariant::CfgNumber)?;
        walk.go_on(&block.exit, place)?;
    }
    let Walk {
        predecessors: _,
        targets,
        waiting: _,
    } = walk;
    Ok(targets)
}

/// The dispatch targets that are known before any code is placed.
fn begun(alloc: Global, predecessors: &[Predecessors]) -> Result<Walk<'_>, Failure> {
    let mut walk = Walk {
        predecessors,
        targets: DispatchTargets {
            numbers: Items::new(alloc),
            blocks: Items::new(alloc),
            repeats: Items::new(alloc),
        },
        waiting: Items::new(alloc),
    };
    for (block, of_block) in predecessors.iter().enumerate() {
        walk.targets.numbers.push(None)?;
        if is_jumped_to(*of_block) {
            walk.add_target(number(block)?)?;
        }
    }
    Ok(walk)
}

/// Whether a block is a dispatch target wherever it would be placed.
fn is_jumped_to(predecessors: Predecessors) -> bool {
    match predecessors {
        Predecessors::Entry => true,
        Predecessors::Jumps => true,
        Predecessors::One => false,
        Predecessors::Unreached => false,
    }
}

impl Walk<'_> {
    /// Places the blocks after a block.
    fn go_on(&mut self, exit: &Terminator, from: BlockPlace) -> Result<(), Failure> {
        match exit {
            Terminator::Jump(to) => self.place(*to, from, from.depth),
            Terminator::Branch { test: _, yes, no } => {
                let inside = self.depth_inside(*yes, *no, from.depth)?;
                self.place(*yes, from, inside)?;
                self.place(*no, from, from.depth)
            }
            _ => Ok(()),
        }
    }

    /// In how many branches the side `yes` of a branch is: in one more where neither side is a dispatch target.
    fn depth_inside(&self, yes: u32, no: u32, depth: u32) -> Result<u32, Failure> {
        if self.is_target(yes)? || self.is_target(no)? {
            return Ok(depth);
        }
        Ok(depth.saturating_add(1))
    }

    /// Places a block after another one in so many branches, unless it is a dispatch target.
    fn place(&mut self, block: u32, from: BlockPlace, depth: u32) -> Result<(), Failure> {
        if self.is_target(block)? {
            return self.add_jump(block, from.target);
        }
        if depth > DEEPEST {
            return self.add_target(block);
        }
        let target = from.target;
        self.waiting.push(BlockPlace {
            block,
            target,
            depth,
        })?;
        Ok(())
    }

    /// The superblock of a dispatch target jumps to a dispatch target.
    fn add_jump(&mut self, block: u32, target: u32) -> Result<(), Failure> {
        let at = target as usize;
        if at >= self.targets.repeats.len() {
            return broken(Invariant::CfgNumber);
        }
        if self.targets.blocks.get(at) == Some(&block) {
            self.targets.repeats.set(at, true);
        }
        Ok(())
    }

    fn is_target(&self, block: u32) -> Result<bool, Failure> {
        Ok(is_jumped_to(*known(self.predecessors.get(block as usize), Invariant::CfgNumber)?))
    }

    /// A block is a dispatch target.
    fn add_target(&mut self, block: u32) -> Result<(), Failure> {
        let at = block as usize;
        if at >= self.targets.numbers.len() {
            return broken(Invariant::CfgNumber);
        }
        let target = number(self.targets.blocks.len())?;
        self.targets.numbers.set(at, Some(target));
        self.targets.blocks.push(block)?;
        self.targets.repeats.push(false)?;
        let depth = 0;
        self.waiting.push(BlockPlace {
            block,
            target,
            depth,
        })?;
        Ok(())
    }
}
