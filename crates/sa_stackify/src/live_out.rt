//! Which temporaries are live out of each block of a body: read after it before they are set again. They are few: those of one statement
//! whose expressions have blocks of their own.

use crate::reading::{add_read, add_read_by_exit, add_set};
use failure::{Failure, Invariant, known};
use sa_cfg::{BasicBlock, CfgBody, FIRST_TEMPORARY, Handler, Terminator};
use sa_graph::{IndexGroups, entry, put, word};
use sa_structure::raised_of;
use std::alloc::Global;

/// How many steps the search takes for each operation and block of the body, before all temporaries are taken to be live out of all blocks.
const LOOKS: usize = 16;

/// The temporaries that are live out of each block.
#[derive(Drop)]
pub struct LiveOut {
    /// For each block its temporaries.
    of: Vec<Vec<u32>>,
    /// Whether the search took so many steps that nothing is known.
    unknown: bool,
}

impl LiveOut {
    /// The temporaries that are live out of a block, or `None` where that isn't known.
    pub fn of(&self, block: u32) -> Option<&[u32]> {
        if self.unknown {
            return None;
        }
        match self.of.get(block as usize) {
            Some(vars) => Some(vars.as_slice()),
            None => None,
        }
    }
}

/// A temporary that is live into a block: read in it, or after it, before it is set there.
#[derive(Clone, Copy)]
struct ExposedUse {
    block: u32,
    var: u32,
}

/// The search.
#[derive(Drop)]
struct Search<'a> {
    body: &'a CfgBody,
    following: LiveOut,
    starts: Vec<u32>,
    ends: Vec<u32>,
    /// For each edge whether a raise leads along it.
    raises: Vec<bool>,
    open: Vec<ExposedUse>,
    /// How many more steps the search may take.
    looks: usize,
    /// For each temporary one more than the block that has set it last while the blocks are gone through.
    set: Vec<u32>,
    /// The variables of the current operation.
    vars: Vec<u32>,
}

/// The temporaries that are live out of each block of a body.
///
/// # Errors
///
/// A `Failure`: `Broken` where a number of the body names no block.
pub fn live_out_of(alloc: Global, body: &CfgBody) -> Result<LiveOut, Failure> {
    let mut search = begun(alloc, body)?;
    for (place, block) in body.blocks.as_slice().iter().enumerate() {
        search.add_block(word(place, Invariant::CfgNumber)?, block)?;
    }
    let by_end = IndexGroups::new(alloc, body.blocks.len(), &search.ends)?;
    search.go_back(&by_end)?;
    let Search { following, .. } = search;
    Ok(following)
}

fn begun(alloc: Global, body: &CfgBody) -> Result<Search<'_>, Failure> {
    let temporaries = body.temporaries.saturating_sub(FIRST_TEMPORARY) as usize;
    let mut of = Vec::new(alloc);
    let mut looks = 0usize;
    for block in body.blocks.as_slice() {
        of.push(Vec::new(alloc))?;
        looks = looks.saturating_add(block.steps.len()).saturating_add(1);
    }
    Ok(Search {
        body,
        following: LiveOut { of, unknown: false },
        starts: Vec::new(alloc),
        ends: Vec::new(alloc),
        raises: Vec::new(alloc),
        open: Vec::new(alloc),
        looks: looks.saturating_mul(LOOKS),
        set: vec![in alloc; 0u32; temporaries]?,
        vars: Vec::new(alloc),
    })
}

impl Search<'_> {
    /// Adds the edges of a block, and the temporaries that it reads before it sets them.
    fn add_block(&mut self, number: u32, block: &BasicBlock) -> Result<(), Failure> {
        for step in block.steps.as_slice() {
            if let Some(raised) = raised_of(step) {
                self.add_edge(number, raised.block, true)?;
            }
            self.vars.clear();
            add_read(&mut self.vars, step)?;
            self.read(number)?;
            self.vars.clear();
            add_set(&mut self.vars, step)?;
            self.set_in(number)?;
        }
        self.vars.clear();
        add_read_by_exit(&mut self.vars, &block.exit)?;
        self.read(number)?;
        self.add_exit(number, &block.exit)
    }

    fn add_exit(&mut self, number: u32, exit: &Terminator) -> Result<(), Failure> {
        match exit {
            Terminator::Jump(to) => self.add_edge(number, *to, false),
            Terminator::Branch { test: _, yes, no } => {
                self.add_edge(number, *yes, false)?;
                self.add_edge(number, *no, false)
            }
            Terminator::Suspend {
                value: _,
                resume: Some(to),
            } => self.add_edge(number, *to, false),
            Terminator::Fault { kind: _, fail } => self.add_raise(number, fail.raised),
            _ => Ok(()),
        }
    }

    fn add_raise(&mut self, number: u32, raised: Handler) -> Result<(), Failure> {
        self.add_edge(number, raised.block, true)
    }

    fn add_edge(&mut self, start: u32, end: u32, raise: bool) -> Result<(), Failure> {
        self.starts.push(start)?;
        self.ends.push(end)?;
        self.raises.push(raise)?;
        Ok(())
    }

    /// The current variables are read in a block.
    fn read(&mut self, block: u32) -> Result<(), Failure> {
        for at in 0..self.vars.len() {
            let var = entry(&self.vars, at, Invariant::CfgNumber)?;
            if let Some(place) = temporary(var) {
                if self.set.get(place).copied() != Some(block.saturating_add(1)) {
                    self.open.push(ExposedUse { block, var })?;
                }
            }
        }
        Ok(())
    }

    /// The current variables are set in a block.
    fn set_in(&mut self, block: u32) -> Result<(), Failure> {
        for at in 0..self.vars.len() {
            let var = entry(&self.vars, at, Invariant::CfgNumber)?;
            if let Some(place) = temporary(var) {
                put(
                    &mut self.set,
                    place,
                    block.saturating_add(1),
                    Invariant::CfgNumber,
                )?;
            }
        }
        Ok(())
    }

    /// Goes back from what is read to what sets it.
    fn go_back(&mut self, by_end: &IndexGroups) -> Result<(), Failure> {
        for _ in 0..self.looks.saturating_add(1) {
            let Some(open) = self.open.pop() else {
                return Ok(());
            };
            if self.looks == 0 {
                break;
            }
            self.go_back_from(by_end, open)?;
        }
        self.following.unknown = true;
        Ok(())
    }

    fn go_back_from(&mut self, by_end: &IndexGroups, open: ExposedUse) -> Result<(), Failure> {
        self.looks = self.looks.saturating_sub(1);
        for edge in by_end.of(open.block) {
            let block = entry(&self.starts, *edge as usize, Invariant::CfgNumber)?;
            let raise = entry(&self.raises, *edge as usize, Invariant::CfgNumber)?;
            self.go_back_to(block, open.var, raise)?;
        }
        Ok(())
    }

    /// A temporary is read after a block.
    fn go_back_to(&mut self, block: u32, var: u32, raise: bool) -> Result<(), Failure> {
        let vars = known(
            self.following.of.get_mut(block as usize),
            Invariant::CfgNumber,
        )?;
        self.looks = self.looks.saturating_sub(vars.len().saturating_add(1));
        if vars.contains(&var) {
            return Ok(());
        }
        vars.push(var)?;
        if raise || !self.sets(block, var)? {
            self.open.push(ExposedUse { block, var })?;
        }
        Ok(())
    }

    /// Whether a block sets a temporary.
    fn sets(&mut self, block: u32, var: u32) -> Result<bool, Failure> {
        let block = known(self.body.blocks.get(block as usize), Invariant::CfgNumber)?;
        for step in block.steps.as_slice().iter().rev() {
            self.looks = self.looks.saturating_sub(1);
            self.vars.clear();
            add_set(&mut self.vars, step)?;
            if self.vars.contains(&var) {
                return Ok(true);
            }
        }
        Ok(false)
    }
}

/// The index of a temporary among those of the body.
pub(crate) fn temporary(var: u32) -> Option<usize> {
    match var.checked_sub(FIRST_TEMPORARY) {
        Some(place) => Some(place as usize),
        None => None,
    }
}
