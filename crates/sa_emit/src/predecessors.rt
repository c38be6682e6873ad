//! The predecessors of each block of a body, by what leads to it: terminators, raises and resumptions, of the blocks alone that can be
//! reached from the first.

use failure::{Failure, Invariant, broken, known};
use sa_cfg::{BasicBlock, CfgBody, Handler, Terminator};
use sa_structure::{leaves, raised_of};
use sqlite_items::Items;
use std::alloc::Global;

/// The predecessors of a block, by what leads to it.
#[derive(Clone, Copy, Debug, PartialEq, Eq)]
pub(crate) enum Predecessors {
    /// Nothing does.
    Unreached,
    /// The body begins in it, and nothing else leads to it.
    Entry,
    /// One terminator.
    One,
    /// Several terminators, a raise, or a resumption.
    Jumps,
}

/// What was found of the blocks of a body.
#[derive(Drop)]
struct AnalysisResult {
    predecessors: Items<Predecessors>,
    /// The blocks that are reached and haven't been looked at.
    waiting: Items<u32>,
}

/// The predecessors of each block.
pub(crate) fn predecessors_of(
    alloc: Global,
    body: &CfgBody,
) -> Result<Items<Predecessors>, Failure> {
    let mut found = begun(alloc, body)?;
    for _ in 0..body.blocks.len() {
        let Some(number) = found.waiting.pop() else {
            break;
        };
        let block = known(body.blocks.get(number as usize), Invariant::CfgNumber)?;
        found.add_raises(body, block)?;
        found.add_exit(body, &block.exit)?;
    }
    let AnalysisResult {
        predecessors,
        waiting: _,
    } = found;
    Ok(predecessors)
}

/// The first block alone is reached.
fn begun(alloc: Global, body: &CfgBody) -> Result<AnalysisResult, Failure> {
    let mut predecessors = Items::new(alloc);
    for _ in 0..body.blocks.len() {
        predecessors.push(Predecessors::Unreached)?;
    }
    let mut found = AnalysisResult {
        predecessors,
        waiting: Items::new(alloc),
    };
    found.reach(0, Predecessors::Entry)?;
    Ok(found)
}

impl AnalysisResult {
    /// The blocks that raises of the operations go to.
    fn add_raises(&mut self, body: &CfgBody, block: &BasicBlock) -> Result<(), Failure> {
        for step in block.steps.as_slice() {
            if let Some(raised) = raised_of(step) {
                self.add_raise(body, raised)?;
            }
        }
        Ok(())
    }

    /// The blocks that a terminator goes to.
    fn add_exit(&mut self, body: &CfgBody, exit: &Terminator) -> Result<(), Failure> {
        match exit {
            Terminator::Jump(to) => self.add_once(*to),
            Terminator::Branch { test: _, yes, no } => {
                self.add_once(*yes)?;
                self.add_once(*no)
            }
            Terminator::Suspend { value: _, resume } => self.add_resumption(*resume),
            Terminator::Fault { kind: _, fail } => self.add_raise(body, fail.raised),
            Terminator::Return { value: _ } => Ok(()),
            Terminator::Quit => Ok(()),
            Terminator::Raise { .. } => Ok(()),
        }
    }

    /// One terminator goes to this block.
    fn add_once(&mut self, block: u32) -> Result<(), Failure> {
        match self.predecessors(block)? {
            Predecessors::Unreached => self.reach(block, Predecessors::One),
            _ => self.change(block, Predecessors::Jumps),
        }
    }

    /// A raise goes to its block, unless its code leaves the body at once.
    fn add_raise(&mut self, body: &CfgBody, raised: Handler) -> Result<(), Failure> {
        if leaves(body, raised) {
            return Ok(());
        }
        self.add_jump(raised.block)
    }

    /// A resumption goes to its block.
    fn add_resumption(&mut self, resume: Option<u32>) -> Result<(), Failure> {
        match resume {
            Some(block) => self.add_jump(block),
            None => Ok(()),
        }
    }

    /// A jump goes to this block.
    fn add_jump(&mut self, block: u32) -> Result<(), Failure> {
        match self.predecessors(block)? {
            Predecessors::Unreached => self.reach(block, Predecessors::Jumps),
            _ => self.change(block, Predecessors::Jumps),
        }
    }

    fn predecessors(&self, block: u32) -> Result<Predecessors, Failure> {
        known(
            self.predecessors.get(block as usize).copied(),
            Invariant::CfgNumber,
        )
    }

    /// A block is reached for the first time.
    fn reach(&mut self, block: u32, predecessors: Predecessors) -> Result<(), Failure> {
        self.change(block, predecessors)?;
        self.waiting.push(block)?;
        Ok(())
    }

    fn change(&mut self, block: u32, predecessors: Predecessors) -> Result<(), Failure> {
        let at = block as usize;
        if at >= self.predecessors.len() {
            return broken(Invariant::CfgNumber);
        }
        self.predecessors.set(at, predecessors);
        Ok(())
    }
}
