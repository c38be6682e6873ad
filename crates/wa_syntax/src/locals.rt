//! The locals of a function as runs of one type (section 5.5.13 writes them so): a million locals may be a few bytes.

ghost use Rattle.std.specs.Prelude.{◌≡◌, ◌<◌, ◌↔◌, [], ◌++◌, length, min, replicate, slice_get, IsTrue, OnOk, OnErr};
ghost use Rattle.wa_syntax.specs.Locals.{types_of_runs};

use crate::module::ValTy;
use std::alloc::{AllocError, Global};
use std::marker::Model;

/// A run: consecutive locals of one type (5.5.13).
#[derive(Clone, Copy, Debug, PartialEq, Eq, Hash)]
pub struct LocalRun {
    pub count: u32,
    pub ty: ValTy,
}

/// The types of a function's locals, in order (2.5.3). Contracts see one type for each local.
#[derive(Debug, Drop)]
pub struct Locals {
    runs: Vec<LocalRun>,
    /// How many locals the runs have together, or the greatest `u64` where they have more.
    count: u64,
}

impl Model for Locals {
    ghost use Rattle.std.specs.Prelude.{◌≡◌, ◌-◌, ◌^◌, List, length, min};
    ghost use Rattle.std.specs.Coded.{coded_list};
    ghost use Rattle.wa_syntax.specs.declared.module.ValTy.{ValTy};
    ghost use Rattle.wa_syntax.specs.Locals.{types_of_runs};

    ghost Value = { List ValTy };

    ghost view = { λ l. types_of_runs l.runs.items };

    ghost invariant = { λ l. l.count ≡ min (length (types_of_runs l.runs.items)) (2 ^ 64 - 1) };
}

impl Locals {
    /// No locals. Takes no memory.
    pub fn new(alloc: Global) -> Locals
        ensures { result ≡ [] }
    {
        Locals {
            runs: Vec::new(alloc),
            count: 0,
        }
    }

    /// Adds locals of one type at the end. Fails where memory runs out, and then nothing is added.
    pub fn push(&mut self, count: u32, ty: ValTy) -> Result<(), AllocError>
        ensures ok { OnOk result (self.new ≡ self.old ++ replicate count ty) }
        ensures err { OnErr result (self.new ≡ self.old) }
    {
        self.runs.push(LocalRun { count, ty })?;
        self.count = self.count.saturating_add(u64::from(count));
        Ok(())
    }

    /// How many locals there are, or the greatest `u64` where they are more.
    pub fn len(&self) -> u64
        ensures { result ≡ min (length self.now) u64.MAX }
    {
        self.count
    }

    /// Whether there are no locals.
    pub fn is_empty(&self) -> bool
        ensures { IsTrue result ↔ (self.now ≡ []) }
    {
        self.count == 0
    }

    /// The type of the local with this index, counted from 0, or `None` past the last. Takes a step for each run up to it.
    pub fn get(&self, at: u32) -> Option<ValTy>
        ensures { result ≡ slice_get self.now at }
    {
        type_at(&self.runs, at)
    }

    /// The runs that were added, in order. A run may be empty, and one after another may have the same type.
    pub fn runs(&self) -> &[LocalRun]
        ensures { types_of_runs result.now ≡ self.now }
    {
        self.runs.as_slice()
    }
}

/// The type at an index of the list that runs denote.
fn type_at(runs: &[LocalRun], at: u32) -> Option<ValTy>
    ensures { result ≡ slice_get (types_of_runs runs.now) at }
{
    let mut rest = at;
    for run in runs {
        if rest < run.count {
            return Some(run.ty);
        }
        rest -= run.count;
    }
    None
}
