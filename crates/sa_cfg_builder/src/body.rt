//! The body that is being built. Operations are added to the open block; a block gets its number before it is opened, so that terminators
//! can name it.

use crate::context::LoweringContext;
use failure::{Failure, Invariant, broken, known};
use sa_cfg::{BasicBlock, BodyParam, CfgBody, CfgOperation, Handler, Terminator};
use sqlite_items::Items;
use std::alloc::Global;
use std::mem;

/// The header of a body, which is known before its blocks: the fields of `CfgBody` with these names.
#[derive(Drop)]
pub struct BodyHeader {
    pub feature: Option<u32>,
    pub iter: bool,
    pub formals: Items<BodyParam>,
    pub variable_count: u32,
    pub sites: u32,
}

/// The builder of a body.
#[derive(Drop)]
pub struct BodyBuilder {
    /// The body with the blocks so far. The open one is empty in it.
    body: CfgBody,
    /// The operations of the open block.
    steps: Items<CfgOperation>,
    /// The number of the open block.
    open: u32,
    /// The number of the next temporary.
    temporary: u32,
}

impl BodyBuilder {
    /// A body without blocks.
    pub fn none(alloc: Global) -> BodyBuilder {
        let head = BodyHeader {
            feature: None,
            iter: false,
            formals: Items::new(alloc),
            variable_count: 0,
            sites: 0,
        };
        BodyBuilder::empty(alloc, head)
    }

    /// A body whose block 0 is open, and whose block 1 leaves it with a raise.
    pub fn begin(alloc: Global, head: BodyHeader) -> Result<BodyBuilder, Failure> {
        let mut body = BodyBuilder::empty(alloc, head);
        body.open = body.block(alloc)?;
        let Handler {
            value,
            place,
            kind,
            ..
        } = LoweringContext::of_body().raised;
        body.body.blocks.push(BasicBlock {
            steps: Items::new(alloc),
            exit: Terminator::Raise { value, place, kind },
        })?;
        Ok(body)
    }

    /// A body with this header and without blocks.
    fn empty(alloc: Global, head: BodyHeader) -> BodyBuilder {
        let first_temporary = LoweringContext::of_body().first_temporary;
        BodyBuilder {
            body: CfgBody {
                feature: head.feature,
                iter: head.iter,
                formals: head.formals,
                variable_count: head.variable_count,
                temporaries: first_temporary,
                sites: head.sites,
                saved: Items::new(alloc),
                blocks: Items::new(alloc),
            },
            steps: Items::new(alloc),
            open: 0,
            temporary: first_temporary,
        }
    }

    /// Ends the open block with a terminator, and gives the body, which saves no variables.
    pub fn finish(&mut self, alloc: Global, exit: Terminator) -> Result<CfgBody, Failure> {
        self.end(alloc, exit, 0)?;
        let finished = mem::replace(self, BodyBuilder::none(alloc));
        Ok(finished.body)
    }

    /// Makes an empty block and gives its number.
    pub fn block(&mut self, alloc: Global) -> Result<u32, Failure> {
        let number = known(
            u32::try_from(self.body.blocks.len()).ok(),
            Invariant::CheckedCount,
        )?;
        self.body.blocks.push(BasicBlock {
            steps: Items::new(alloc),
            exit: Terminator::Quit,
        })?;
        Ok(number)
    }

    /// Adds an operation to the open block.
    pub fn step(&mut self, step: CfgOperation) -> Result<(), Failure> {
        self.steps.push(step)?;
        Ok(())
    }

    /// Adds an operation that copies the value of the variable `from` into `to`.
    pub fn move_to(&mut self, to: u32, from: u32) -> Result<(), Failure> {
        self.step(CfgOperation::Move { to, from })
    }

    /// Ends the open block with a terminator, and opens the block `next`.
    pub fn end(&mut self, alloc: Global, exit: Terminator, next: u32) -> Result<(), Failure> {
        let at = self.open as usize;
        if at >= self.body.blocks.len() {
            return broken(Invariant::BlockMissing);
        }
        let steps = mem::replace(&mut self.steps, Items::new(alloc));
        self.body.blocks.set(at, BasicBlock { steps, exit });
        self.open = next;
        Ok(())
    }

    /// Ends the open block with a terminator, and opens a new block, which is unreachable.
    pub fn leave(&mut self, alloc: Global, exit: Terminator) -> Result<(), Failure> {
        let next = self.block(alloc)?;
        self.end(alloc, exit, next)
    }

    /// Begins a statement: temporaries from the first one of its context on are used anew, since what they held isn't read any more.
    pub fn statement(&mut self, inside: &LoweringContext) {
        self.temporary = inside.first_temporary;
    }

    /// A temporary that the statement hasn't used yet.
    pub fn temporary(&mut self) -> Result<u32, Failure> {
        let number = self.temporary;
        self.temporary = known(number.checked_add(1), Invariant::CheckedCount)?;
        self.use_up_to(self.temporary);
        Ok(number)
    }

    /// Makes the body have at least the temporaries with numbers less than this one.
    pub fn use_up_to(&mut self, following: u32) {
        self.body.temporaries = self.body.temporaries.max(following);
    }
}
