//! What a suspension of a body has to store: the saved variables that may have changed since the start; and whether `self` is read after a
//! resumption.

use crate::reading::add_set;
use failure::{Failure, Invariant, known};
use sa_ast::Mode;
use sa_cfg::{BasicBlock, CfgBody, CfgOperation, Terminator};
use sa_graph::{entry, put};
use sa_structure::raised_of;
use std::alloc::Global;

/// What the body of an iter saves.
#[derive(Drop)]
pub struct SaveSet {
    /// For each saved variable, in their order, whether a suspension stores it. A start stores the others.
    changed: Vec<bool>,
    /// Whether `self` is read after a resumption.
    pub reads_self: bool,
    /// How many suspensions there are.
    pub suspensions: u32,
}

impl SaveSet {
    /// What a body saves.
    ///
    /// # Errors
    ///
    /// A `Failure`: `Broken` where a number of the body names no block.
    pub fn of(alloc: Global, body: &CfgBody) -> Result<SaveSet, Failure> {
        let mut keeping = SaveSet {
            changed: Vec::new(alloc),
            reads_self: reads_self(alloc, body)?,
            suspensions: suspensions_of(body),
        };
        let set = set_in(alloc, body)?;
        for var in body.saved.as_slice() {
            let changed = !is_once(body, *var) || set.get(*var as usize) != Some(&false);
            keeping.changed.push(changed)?;
        }
        Ok(keeping)
    }

    /// Whether a suspension stores the saved variable of this index.
    pub fn is_changed(&self, place: usize) -> bool {
        self.changed.get(place).copied().unwrap_or(true)
    }
}

/// How many suspensions a body has.
fn suspensions_of(body: &CfgBody) -> u32 {
    let mut count = 0u32;
    for block in body.blocks.as_slice() {
        if let Terminator::Suspend { .. } = block.exit {
            count = count.saturating_add(1);
        }
    }
    count
}

/// Whether a variable is an argument that a start alone passes.
fn is_once(body: &CfgBody, var: u32) -> bool {
    match body.formals.get(var as usize) {
        Some(formal) => formal.mode == Mode::Once,
        None => false,
    }
}

/// For each argument whether an operation sets it.
fn set_in(alloc: Global, body: &CfgBody) -> Result<Vec<bool>, Failure> {
    let mut set = vec![in alloc; false; body.formals.len()]?;
    let mut vars = Vec::new(alloc);
    for block in body.blocks.as_slice() {
        mark_set(&mut set, &mut vars, block)?;
    }
    Ok(set)
}

/// Marks the arguments that operations of a block set. `vars` has room for the variables of an operation.
fn mark_set(set: &mut Vec<bool>, vars: &mut Vec<u32>, block: &BasicBlock) -> Result<(), Failure> {
    for step in block.steps.as_slice() {
        vars.clear();
        add_set(vars, step)?;
        mark(set, vars.as_slice())?;
    }
    Ok(())
}

/// Marks those of the variables that are arguments.
fn mark(set: &mut Vec<bool>, vars: &[u32]) -> Result<(), Failure> {
    for var in vars {
        if (*var as usize) < set.len() {
            put(set, *var as usize, true, Invariant::CfgNumber)?;
        }
    }
    Ok(())
}

/// Whether `self` is read in a block that a resumption leads to.
fn reads_self(alloc: Global, body: &CfgBody) -> Result<bool, Failure> {
    let mut reached = resumed_in(alloc, body)?;
    for _ in 0..body.blocks.len() {
        let Some(number) = reached.waiting.pop() else {
            break;
        };
        let block = known(body.blocks.get(number as usize), Invariant::CfgNumber)?;
        if block.steps.as_slice().iter().any(is_me) {
            return Ok(true);
        }
        reached.go_on(block)?;
    }
    Ok(false)
}

/// The blocks in which suspensions resume.
fn resumed_in(alloc: Global, body: &CfgBody) -> Result<ResumedBlocks, Failure> {
    let mut reached = ResumedBlocks {
        seen: vec![in alloc; false; body.blocks.len()]?,
        waiting: Vec::new(alloc),
    };
    for block in body.blocks.as_slice() {
        if let Terminator::Suspend {
            value: _,
            resume: Some(to),
        } = block.exit
        {
            reached.reach(to)?;
        }
    }
    Ok(reached)
}

fn is_me(step: &CfgOperation) -> bool {
    matches!(step, CfgOperation::SelfRef { .. })
}

/// The blocks that are reached.
#[derive(Drop)]
struct ResumedBlocks {
    seen: Vec<bool>,
    waiting: Vec<u32>,
}

impl ResumedBlocks {
    fn reach(&mut self, block: u32) -> Result<(), Failure> {
        if !entry(&self.seen, block as usize, Invariant::CfgNumber)? {
            put(&mut self.seen, block as usize, true, Invariant::CfgNumber)?;
            self.waiting.push(block)?;
        }
        Ok(())
    }

    fn go_on(&mut self, block: &BasicBlock) -> Result<(), Failure> {
        for step in block.steps.as_slice() {
            if let Some(raised) = raised_of(step) {
                self.reach(raised.block)?;
            }
        }
        match &block.exit {
            Terminator::Jump(to) => self.reach(*to),
            Terminator::Branch { test: _, yes, no } => {
                self.reach(*yes)?;
                self.reach(*no)
            }
            Terminator::Fault { kind: _, fail } => self.reach(fail.raised.block),
            _ => Ok(()),
        }
    }
}
