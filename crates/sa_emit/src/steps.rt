//! The operations of blocks, with the values that stay on the operand stack between them.

use failure::{Failure, Invariant, broken};
use sa_cfg::{BasicBlock, CfgBody, CfgOperation, FIRST_TEMPORARY, Terminator};
use sa_stackify::{Planner, ResultPlace, add_set, result_of};
use sa_templates::{EmitContext, OperandSource, emit_step, jump_to, word_of};
use sqlite_items::Items;
use std::alloc::Global;
use wa_syntax::{Instr, opcode};

/// What instruction a turn has, so that a run never has more turns than instructions.
#[derive(Clone, Copy, Debug, PartialEq, Eq)]
pub(crate) enum BackEdge {
    /// The one by which the block is reached.
    Edge,
    /// A `nop` of its own.
    Nop,
}

/// Emits the operations of the blocks of a body.
#[derive(Drop)]
pub(crate) struct Writer<'a> {
    planner: Planner<'a>,
    /// How each temporary is read.
    readings: Vec<OperandSource>,
    /// The temporaries that aren't read from their locals.
    elsewhere: Vec<u32>,
    /// The variables that the current operation sets.
    set: Vec<u32>,
    /// For each block whose label is in scope the nesting around what the label is of.
    labels: Vec<Option<u32>>,
}

impl<'a> Writer<'a> {
    pub(crate) fn new(alloc: Global, body: &'a CfgBody) -> Result<Writer<'a>, Failure> {
        let temporaries = body.temporaries.saturating_sub(FIRST_TEMPORARY) as usize;
        Ok(Writer {
            planner: Planner::new(alloc, body)?,
            readings: vec![in alloc; OperandSource::Local; temporaries]?,
            elsewhere: Vec::new(alloc),
            set: Vec::new(alloc),
            labels: vec![in alloc; None; body.blocks.len()]?,
        })
    }

    /// The label of a block is in scope from now on, with this nesting around it; or it isn't. Returns what was so before.
    pub(crate) fn set_label(
        &mut self,
        block: Option<u32>,
        label: Option<u32>,
    ) -> Result<Option<u32>, Failure> {
        let Some(block) = block else {
            return Ok(None);
        };
        match self.labels.get_mut(block as usize) {
            Some(place) => {
                let before = *place;
                *place = label;
                Ok(before)
            }
            None => broken(Invariant::CfgNumber),
        }
    }

    /// Emits the operations of a block, but not its terminator. `turn` is what instruction a turn has that is the first of them; each other
    /// one has a `nop`. Returns whether the last operation has decided the branch after it.
    pub(crate) fn emit_steps(
        &mut self,
        alloc: Global,
        code: &mut Items<Instr>,
        around: &EmitContext<'_>,
        number: u32,
        block: &BasicBlock,
        turn: BackEdge,
    ) -> Result<bool, Failure> {
        self.forget()?;
        let mut turn = turn;
        let mut decided = false;
        let given = copied(alloc, self.planner.plan(number)?)?;
        for (step, given) in block.steps.as_slice().iter().zip(given.iter()) {
            if is_turn(step) && turn == BackEdge::Nop {
                code.push(Instr::Plain(opcode::NOP))?;
            }
            turn = BackEdge::Nop;
            let here = EmitContext {
                labels: self.labels.as_slice(),
                ..*around
            };
            let left = left_to(&here, block, *given);
            decided = left.is_some();
            self.emit_step(alloc, code, around, step, *given, left)?;
        }
        Ok(decided)
    }

    /// Each temporary is read from its local.
    fn forget(&mut self) -> Result<(), Failure> {
        for _ in 0..self.elsewhere.len() {
            if let Some(var) = self.elsewhere.pop() {
                put(&mut self.readings, var, OperandSource::Local)?;
            }
        }
        Ok(())
    }

    fn emit_step(
        &mut self,
        alloc: Global,
        code: &mut Items<Instr>,
        around: &EmitContext<'_>,
        step: &CfgOperation,
        given: ResultPlace,
        left: Option<u32>,
    ) -> Result<(), Failure> {
        if given != ResultPlace::Rematerialised && given != ResultPlace::AlreadyThere {
            let here = EmitContext {
                given,
                left,
                readings: self.readings.as_slice(),
                labels: self.labels.as_slice(),
                ..*around
            };
            emit_step(alloc, code, &here, step)?;
        }
        self.set.clear();
        add_set(&mut self.set, step)?;
        for at in 0..self.set.len() {
            if let Some(var) = self.set.get(at).copied() {
                put(&mut self.readings, var, OperandSource::Local)?;
            }
        }
        if let Some(var) = result_of(step) {
            self.read_from(var, reading_of(around, step, given)?)?;
        }
        Ok(())
    }

    fn read_from(&mut self, var: u32, reading: OperandSource) -> Result<(), Failure> {
        if reading != OperandSource::Local && var >= FIRST_TEMPORARY {
            put(&mut self.readings, var, reading)?;
            self.elsewhere.push(var)?;
        }
        Ok(())
    }

    /// How each temporary is read after the operations that were emitted last.
    pub(crate) fn readings(&self) -> &[OperandSource] {
        self.readings.as_slice()
    }

    /// For each block whose label is in scope the nesting around what the label is of.
    pub(crate) fn labels(&self) -> &[Option<u32>] {
        self.labels.as_slice()
    }
}

fn copied(alloc: Global, given: &[ResultPlace]) -> Result<Vec<ResultPlace>, Failure> {
    Ok(Vec::from_slice(alloc, given)?)
}

/// Sets how a temporary is read. Other variables are read from their locals.
fn put(readings: &mut Vec<OperandSource>, var: u32, reading: OperandSource) -> Result<(), Failure> {
    let Some(place) = var.checked_sub(FIRST_TEMPORARY) else {
        return Ok(());
    };
    match readings.get_mut(place as usize) {
        Some(old) => {
            *old = reading;
            Ok(())
        }
        None => broken(Invariant::CfgNumber),
    }
}

/// How the value of an operation is read.
fn reading_of(
    around: &EmitContext<'_>,
    step: &CfgOperation,
    given: ResultPlace,
) -> Result<OperandSource, Failure> {
    match given {
        ResultPlace::Stack => Ok(OperandSource::Operand),
        ResultPlace::StackBool => Ok(OperandSource::Truth),
        ResultPlace::Rematerialised => free_reading(around, step),
        _ => Ok(OperandSource::Local),
    }
}

/// How the value of an operation is read that isn't emitted.
fn free_reading(around: &EmitContext<'_>, step: &CfgOperation) -> Result<OperandSource, Failure> {
    match step {
        CfgOperation::Const { value, .. } => Ok(OperandSource::Word(word_of(around, value)?)),
        CfgOperation::SelfRef { .. } => Ok(OperandSource::SelfRef),
        _ => broken(Invariant::ExcludedForm),
    }
}

/// Whether an operation spends a turn and does nothing else.
fn is_turn(step: &CfgOperation) -> bool {
    matches!(step, CfgOperation::Turn)
}

/// The block in which an operation continues where it decides the branch after it, and its instance has ended: one that is jumped to.
fn left_to(around: &EmitContext<'_>, block: &BasicBlock, given: ResultPlace) -> Option<u32> {
    if given != ResultPlace::FusedBranch {
        return None;
    }
    let Terminator::Branch { yes, .. } = block.exit else {
        return None;
    };
    match jump_to(around, yes) {
        Some(_) => Some(yes),
        None => None,
    }
}
