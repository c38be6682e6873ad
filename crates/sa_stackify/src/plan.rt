//! What becomes of the value of each operation of a block.

ghost use Rattle.std.specs.Prelude.{◌<◌, IfSome, vec_len};

use crate::live_out::{LiveOut, live_out_of, temporary};
use crate::operands::{exit_reads_truth, operand_at, operand_of_exit, other_operand, reads_truth};
use crate::reading::{add_read, add_read_by_exit, add_set};
use crate::result_place::ResultPlace;
use crate::results::{calculates, gives_truth, is_free, quit_of, result_of};
use failure::{Failure, Invariant, known};
use sa_cfg::{BasicBlock, CfgBody, CfgOperation, FIRST_TEMPORARY, Terminator};
use sa_graph::{entry, put, word};
use std::alloc::Global;

/// How many operands wait on the stack at most. Each operation looks for its operands among all of them, so without a bound an array
/// literal of many elements would take a time that is quadratic in their number.
const MOST_OPERANDS: usize = 64;

/// The readers of a value: how many there are in its block, and whether it is read after the block too.
#[derive(Clone, Copy, Debug, PartialEq, Eq)]
struct Read {
    times: u32,
    following: bool,
}

/// Finds what becomes of the values of a body's operations, block by block.
#[derive(Drop)]
pub struct Planner<'a> {
    body: &'a CfgBody,
    following: LiveOut,
    /// For each temporary the pass that has set it last, and the operation that has.
    setters: Vec<(u32, u32)>,
    pass: u32,
    /// For each operation of the block how its value is read.
    read: Vec<Read>,
    given: Vec<ResultPlace>,
    /// The operations whose values are operands, the topmost last.
    stack: Vec<u32>,
    /// The variables of the current operation.
    vars: Vec<u32>,
}

impl<'a> Planner<'a> {
    /// One for the blocks of a body.
    ///
    /// # Errors
    ///
    /// A `Failure`: `Broken` where a number of the body names no block.
    pub fn new(alloc: Global, body: &'a CfgBody) -> Result<Planner<'a>, Failure> {
        let temporaries = body.temporaries.saturating_sub(FIRST_TEMPORARY) as usize;
        Ok(Planner {
            body,
            following: live_out_of(alloc, body)?,
            setters: vec![in alloc; (0, 0); temporaries]?,
            pass: 0,
            read: Vec::new(alloc),
            given: Vec::new(alloc),
            stack: Vec::new(alloc),
            vars: Vec::new(alloc),
        })
    }

    /// For each operation of a block what becomes of its value.
    ///
    /// # Errors
    ///
    /// A `Failure`: `Broken` where there is no such block.
    pub fn plan(&mut self, number: u32) -> Result<&[ResultPlace], Failure> {
        let body = self.body;
        let block = known(body.blocks.get(number as usize), Invariant::CfgNumber)?;
        self.count_reads(number, block)?;
        self.pass = self.pass.saturating_add(1);
        self.given.clear();
        self.stack.clear();
        for (place, step) in block.steps.as_slice().iter().enumerate() {
            self.plan_step(block, word(place, Invariant::CfgNumber)?, step)?;
        }
        self.plan_exit(number, block)?;
        Ok(self.given.as_slice())
    }

    // ---- how often the value of each operation is read

    fn count_reads(&mut self, number: u32, block: &BasicBlock) -> Result<(), Failure> {
        self.pass = self.pass.saturating_add(1);
        self.read.clear();
        for (place, step) in block.steps.as_slice().iter().enumerate() {
            self.vars.clear();
            add_read(&mut self.vars, step)?;
            self.count()?;
            self.set_by(word(place, Invariant::CfgNumber)?, step)?;
            let read = Read {
                times: 0,
                following: false,
            };
            self.read.push(read)?;
        }
        self.vars.clear();
        add_read_by_exit(&mut self.vars, &block.exit)?;
        self.count()?;
        self.mark_behind(number, block)
    }

    /// Counts the current variables as read.
    fn count(&mut self) -> Result<(), Failure> {
        for at in 0..self.vars.len() {
            let var = entry(&self.vars, at, Invariant::CfgNumber)?;
            if let Some(step) = self.setter(var) {
                let Read { times, following } = entry(
                    &self.read,
                    step as usize,
                    Invariant::CfgNumber,
                )?;
                let times = times.saturating_add(1);
                put(
                    &mut self.read,
                    step as usize,
                    Read { times, following },
                    Invariant::CfgNumber,
                )?;
            }
        }
        Ok(())
    }

    /// The operation of the block that has set a temporary last, if its value can be an operand.
    fn setter(&self, var: u32) -> Option<u32> {
        let (pass, step) = self.setters.get(temporary(var)?).copied()?;
        if pass == self.pass {
            return step.checked_sub(1);
        }
        None
    }

    /// An operation sets its variables.
    fn set_by(&mut self, place: u32, step: &CfgOperation) -> Result<(), Failure> {
        self.vars.clear();
        add_set(&mut self.vars, step)?;
        for at in 0..self.vars.len() {
            let var = entry(&self.vars, at, Invariant::CfgNumber)?;
            if let Some(at) = temporary(var) {
                put(&mut self.setters, at, (self.pass, 0), Invariant::CfgNumber)?;
            }
        }
        if let Some(at) = result_of(step).and_then(temporary) {
            put(
                &mut self.setters,
                at,
                (self.pass, place.saturating_add(1)),
                Invariant::CfgNumber,
            )?;
        }
        Ok(())
    }

    /// Marks what is read after the block.
    fn mark_behind(&mut self, number: u32, block: &BasicBlock) -> Result<(), Failure> {
        for (place, step) in block.steps.as_slice().iter().enumerate() {
            let place = word(place, Invariant::CfgNumber)?;
            if let Some(var) = result_of(step) {
                if self.setter(var) == Some(place) && self.is_read_behind(number, var) {
                    let Read { times, .. } = entry(
                        &self.read,
                        place as usize,
                        Invariant::CfgNumber,
                    )?;
                    let following = true;
                    put(
                        &mut self.read,
                        place as usize,
                        Read { times, following },
                        Invariant::CfgNumber,
                    )?;
                }
            }
        }
        Ok(())
    }

    fn is_read_behind(&self, number: u32, var: u32) -> bool {
        match self.following.of(number) {
            Some(vars) => vars.contains(&var),
            None => true,
        }
    }

    // ---- what becomes of it

    fn plan_step(
        &mut self,
        block: &BasicBlock,
        place: u32,
        step: &CfgOperation,
    ) -> Result<(), Failure> {
        let taken = self.take(block, step)?;
        self.vars.clear();
        add_read(&mut self.vars, step)?;
        self.keep_rest(block)?;
        if let Some(top) = taken {
            self.see_taken(block, place, step, top)?;
        }
        self.set_by(place, step)?;
        let given = self.first_given(place, step)?;
        if given == ResultPlace::Stack {
            self.stack.push(place)?;
        }
        self.given.push(given)?;
        Ok(())
    }

    /// Takes the operands of an operation from the stack, as many as are there in order: the last of them.
    fn take(&mut self, block: &BasicBlock, step: &CfgOperation) -> Result<Option<u32>, Failure> {
        if let Some(first) = operand_at(step, 0) {
            if let Some(at) = self.place_on_stack(first) {
                return self.take_from(block, step, at);
            }
        }
        match other_operand(step) {
            Some(var) => self.take_other(block, var),
            None => Ok(None),
        }
    }

    /// The position of a variable's value on the stack, if it is there.
    fn place_on_stack(&self, var: u32) -> Option<usize>
        ensures { IfSome result (λ place. place < vec_len self.now.stack) }
    {
        let step = self.setter(var)?;
        self.stack.iter().rposition(|other| *other == step)
    }

    /// Takes the operands of an operation, the first of which is at this position. Those on top of it that the operation doesn't read next,
    /// and that can be read where they are needed, are taken off the stack; where another one is on top, nothing is taken.
    #[tactic(auto, using(std::proofs::lemmas::Option::slice_get_within))]
    fn take_from(
        &mut self,
        block: &BasicBlock,
        step: &CfgOperation,
        at: usize,
    ) -> Result<Option<u32>, Failure> {
        let mut place = 1;
        let mut above = at.saturating_add(1);
        for _ in above..self.stack.len() {
            let next = entry(&self.stack, above, Invariant::CfgNumber)?;
            if operand_at(step, place).and_then(|var| self.setter(var)) == Some(next) {
                place = place.saturating_add(1);
                above = above.saturating_add(1);
            } else if is_free(step_at(block, next)?) {
                self.stack.remove(above);
                put(
                    &mut self.given,
                    next as usize,
                    ResultPlace::Rematerialised,
                    Invariant::CfgNumber,
                )?;
            } else {
                return Ok(None);
            }
        }
        let last = self.stack.last().copied();
        self.stack.truncate(at);
        Ok(last)
    }

    /// Takes the second operand alone, unless it can be read where it is needed.
    fn take_other(&mut self, block: &BasicBlock, var: u32) -> Result<Option<u32>, Failure> {
        if let Some(step) = self.setter(var) {
            if is_free(step_at(block, step)?) {
                return Ok(None);
            }
        }
        self.take_top(var)
    }

    /// Takes a value that is on the top.
    fn take_top(&mut self, var: u32) -> Result<Option<u32>, Failure> {
        let Some(step) = self.setter(var) else {
            return Ok(None);
        };
        if self.stack.last().copied() != Some(step) {
            return Ok(None);
        }
        Ok(self.stack.pop())
    }

    /// Puts those of the current variables that are still on the stack into locals.
    fn keep_rest(&mut self, block: &BasicBlock) -> Result<(), Failure> {
        for at in 0..self.vars.len() {
            let var = entry(&self.vars, at, Invariant::CfgNumber)?;
            if let Some(place) = self.place_on_stack(var) {
                let step = self.stack.remove(place);
                self.keep(block, step)?;
            }
        }
        Ok(())
    }

    /// The value of an operation doesn't stay an operand.
    fn keep(&mut self, block: &BasicBlock, step: u32) -> Result<(), Failure> {
        let given = if is_free(step_at(block, step)?) {
            ResultPlace::Rematerialised
        } else {
            ResultPlace::Local
        };
        put(&mut self.given, step as usize, given, Invariant::CfgNumber)
    }

    /// What an operation, or a terminator, takes last may be left as a truth value, or be calculated where a move puts it.
    fn see_taken(
        &mut self,
        block: &BasicBlock,
        place: u32,
        step: &CfgOperation,
        top: u32,
    ) -> Result<(), Failure> {
        let setter = step_at(block, top)?;
        if reads_truth(step) && gives_truth(setter) {
            return put(
                &mut self.given,
                top as usize,
                ResultPlace::StackBool,
                Invariant::CfgNumber,
            );
        }
        if let CfgOperation::Move { to, .. } = step {
            let next = top.saturating_add(1) == place;
            if next && *to < FIRST_TEMPORARY && calculates(self.body, setter) {
                return put(
                    &mut self.given,
                    top as usize,
                    ResultPlace::Coalesced(*to),
                    Invariant::CfgNumber,
                );
            }
        }
        Ok(())
    }

    /// What becomes of an operation's value, as far as it is known at the operation.
    fn first_given(&self, place: u32, step: &CfgOperation) -> Result<ResultPlace, Failure> {
        let read = entry(&self.read, place as usize, Invariant::CfgNumber)?;
        if self.is_moved_there(place, step) {
            return Ok(ResultPlace::AlreadyThere);
        }
        if result_of(step).and_then(temporary).is_none() || read.following {
            return Ok(ResultPlace::Local);
        }
        if read.times == 1 && self.stack.len() < MOST_OPERANDS {
            return Ok(ResultPlace::Stack);
        }
        if is_free(step) {
            return Ok(ResultPlace::Rematerialised);
        }
        Ok(ResultPlace::Local)
    }

    /// Whether an operation is a move to where the one before it has put the value.
    fn is_moved_there(&self, place: u32, step: &CfgOperation) -> bool {
        let CfgOperation::Move { to, .. } = step else {
            return false;
        };
        let before = match place.checked_sub(1) {
            Some(before) => self.given.get(before as usize).copied(),
            None => None,
        };
        before == Some(ResultPlace::Coalesced(*to))
    }

    fn plan_exit(&mut self, number: u32, block: &BasicBlock) -> Result<(), Failure> {
        if let Some(var) = operand_of_exit(&block.exit) {
            if let Some(top) = self.take_top(var)? {
                if exit_reads_truth(&block.exit) && gives_truth(step_at(block, top)?) {
                    put(
                        &mut self.given,
                        top as usize,
                        ResultPlace::StackBool,
                        Invariant::CfgNumber,
                    )?;
                }
            }
        }
        for _ in 0..self.stack.len() {
            if let Some(step) = self.stack.pop() {
                self.keep(block, step)?;
            }
        }
        self.see_quit(number, block)
    }

    /// An operation that ends the block and sets whether an instance has ended may decide the branch at once.
    fn see_quit(&mut self, number: u32, block: &BasicBlock) -> Result<(), Failure> {
        let Terminator::Branch { test, .. } = block.exit else {
            return Ok(());
        };
        let Some(last) = block.steps.as_slice().last() else {
            return Ok(());
        };
        if quit_of(last) == Some(test) && !self.is_read_behind(number, test) {
            let place = self.given.len().saturating_sub(1);
            put(
                &mut self.given,
                place,
                ResultPlace::FusedBranch,
                Invariant::CfgNumber,
            )?;
        }
        Ok(())
    }
}

/// An operation of a block.
fn step_at(block: &BasicBlock, place: u32) -> Result<&CfgOperation, Failure> {
    known(block.steps.get(place as usize), Invariant::CfgNumber)
}
