//! The edges into each block of a body: by terminators, resumptions, and the raises of operations.

use crate::accesses::{
    PassedVars, raised_by_operation, read_by_operation, read_by_terminator, set_by_operation,
};
use crate::sets::VarSet;
use failure::{Failure, Invariant, broken, known};
use sa_cfg::{BasicBlock, CfgBody, CfgOperation, Terminator};
use sqlite_items::Items;
use std::alloc::Global;

/// An edge of the control-flow graph, from the beginning of a block to the beginning of another one.
#[derive(Clone, Copy)]
pub struct CfgEdge {
    /// The block that it leaves.
    pub from: u32,
    /// The variables that are set on it.
    pub set: VarSet,
    /// The edge into the same block that was added before.
    pub before: Option<u32>,
}

/// The edges of a body, and what its blocks read.
#[derive(Drop)]
pub struct CfgEdges {
    /// For each block, the variables that it reads before it sets them.
    pub read: Items<VarSet>,
    /// For each block, the edge into it that was added last.
    last: Items<Option<u32>>,
    ways: Items<CfgEdge>,
}

/// The segment of a block from its beginning to some operation: the number of the block, the variables that the segment reads before it
/// sets them, and those that it sets.
#[derive(Clone, Copy)]
struct PathSegment {
    block: u32,
    read: VarSet,
    set: VarSet,
}

impl PathSegment {
    /// The empty segment of a block.
    fn none(block: u32) -> PathSegment {
        PathSegment {
            block,
            read: VarSet::NONE,
            set: VarSet::NONE,
        }
    }

    /// The segment with what comes after it.
    fn then(self, read: VarSet, set: VarSet) -> PathSegment {
        PathSegment {
            block: self.block,
            read: self.read.union(read.without(self.set)),
            set: self.set.union(set),
        }
    }
}

impl CfgEdges {
    /// The ways of a body. Fails where memory runs out, or where an exit or a raise goes to a block that isn't there.
    pub fn of(alloc: Global, body: &CfgBody) -> Result<CfgEdges, Failure> {
        let delivered = PassedVars::of(body.formals.as_slice())?;
        let mut ways = CfgEdges::none(alloc, body.blocks.len())?;
        for (number, block) in body.blocks.as_slice().iter().enumerate() {
            let number = known(u32::try_from(number).ok(), Invariant::CfgNumber)?;
            ways.add_block(number, block, delivered)?;
        }
        Ok(ways)
    }

    /// No edges between so many blocks.
    fn none(alloc: Global, blocks: usize) -> Result<CfgEdges, Failure> {
        let mut last = Items::new(alloc);
        for _ in 0..blocks {
            last.push(None)?;
        }
        Ok(CfgEdges {
            read: Items::new(alloc),
            last,
            ways: Items::new(alloc),
        })
    }

    /// How many edges there are.
    pub fn count(&self) -> usize {
        self.ways.len()
    }

    /// The index of the last edge into a block, if one leads into it.
    pub fn last_edge_into(&self, block: u32) -> Result<Option<u32>, Failure> {
        known(self.last.get(block as usize).copied(), Invariant::CfgNumber)
    }

    /// The edge at an index.
    pub fn edge(&self, number: u32) -> Result<CfgEdge, Failure> {
        known(
            self.ways.get(number as usize).copied(),
            Invariant::CfgNumber,
        )
    }

    /// Adds the edges out of a block, and what it reads.
    fn add_block(
        &mut self,
        number: u32,
        block: &BasicBlock,
        delivered: PassedVars,
    ) -> Result<(), Failure> {
        let part = self.add_steps(number, block.steps.as_slice())?;
        self.add_exit(part, &block.exit, delivered)?;
        let whole = part.then(read_by_terminator(&block.exit, delivered), VarSet::NONE);
        self.read.push(whole.read)?;
        Ok(())
    }

    /// Adds the edges out of the operations of a block, and gives what all of them read and set.
    fn add_steps(&mut self, number: u32, steps: &[CfgOperation]) -> Result<PathSegment, Failure> {
        let mut part = PathSegment::none(number);
        for step in steps {
            self.add_raise(part, step)?;
            part = part.then(read_by_operation(step), set_by_operation(step));
        }
        Ok(part)
    }

    /// A raise of an operation leaves the block before the operation has set a variable.
    fn add_raise(&mut self, part: PathSegment, step: &CfgOperation) -> Result<(), Failure> {
        match raised_by_operation(step) {
            Some(to) => self.add(part, to),
            None => Ok(()),
        }
    }

    /// Adds the edges by the terminator of a block, whose operations are `part`.
    fn add_exit(
        &mut self,
        part: PathSegment,
        exit: &Terminator,
        delivered: PassedVars,
    ) -> Result<(), Failure> {
        match exit {
            Terminator::Jump(to) => self.add(part, *to),
            Terminator::Branch { test: _, yes, no } => {
                self.add(part, *yes)?;
                self.add(part, *no)
            }
            Terminator::Return { .. } => Ok(()),
            Terminator::Suspend { value: _, resume } => self.add_resumption(
                part, *resume, delivered,
            ),
            Terminator::Quit => Ok(()),
            Terminator::Raise { .. } => Ok(()),
            Terminator::Fault { kind: _, fail } => self.add(part, fail.raised.block),
        }
    }

    /// A resumption passes arguments before the block in which it goes on.
    fn add_resumption(
        &mut self,
        part: PathSegment,
        resume: Option<u32>,
        delivered: PassedVars,
    ) -> Result<(), Failure> {
        match resume {
            Some(to) => self.add(part.then(VarSet::NONE, delivered.anew), to),
            None => Ok(()),
        }
    }

    /// Adds an edge from the beginning of a block through a segment of it to another block.
    fn add(&mut self, part: PathSegment, to: u32) -> Result<(), Failure> {
        let at = to as usize;
        if at >= self.last.len() {
            return broken(Invariant::CfgNumber);
        }
        let number = known(u32::try_from(self.ways.len()).ok(), Invariant::CfgNumber)?;
        let before = self.last_edge_into(to)?;
        let (from, set) = (part.block, part.set);
        self.ways.push(CfgEdge { from, set, before })?;
        self.last.set(at, Some(number));
        Ok(())
    }
}
