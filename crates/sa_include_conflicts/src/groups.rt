//! Groups of signatures that conflict with one another, and marks at them.

ghost use Rattle.std.specs.Prelude.{◌≡◌, IfOk, OnOk, false, ℕ};
ghost use Rattle.sa_include_conflicts.specs.Sharing.{AddsGroup, AddsGroups, AddsWhere, NoneMarked, has_marked, is_marked};

use failure::{Failure, Invariant, broken};
use std::alloc::Global;

/// The groups that the signatures of a feature are in. Two features conflict where they have a group in common.
#[derive(Clone, Copy)]
pub(crate) struct Groups {
    pub(crate) own: usize,
    pub(crate) writer: Option<usize>,
}

/// For each group whether it is marked.
#[derive(Drop)]
pub(crate) struct Visited {
    set: Vec<bool>,
}

impl Visited {
    /// No marks at n groups.
    #[tactic(auto, using(crate::proofs::Marking::none_marked))]
    pub(crate) fn none(alloc: Global, count: usize) -> Result<Visited, Failure>
        ensures { IfOk result NoneMarked }
    {
        let set = vec![in alloc; false; count]?;
        Ok(Visited { set })
    }

    /// Whether one of the groups of a feature is marked.
    pub(crate) fn has(&self, groups: &Groups) -> bool
        ensures { result ≡ has_marked groups.now self.now }
    {
        if self.is_marked(groups.own) {
            return true;
        }
        match groups.writer {
            Some(writer) => self.is_marked(writer),
            None => false,
        }
    }

    /// Marks the groups of a feature.
    #[tactic(auto, using(crate::proofs::Marking::adds_own, crate::proofs::Marking::adds_both))]
    pub(crate) fn add(&mut self, groups: &Groups) -> Result<(), Failure>
        ensures { OnOk result (AddsGroups groups.now self.old self.new) }
    {
        self.mark(groups.own)?;
        match groups.writer {
            Some(writer) => {
                self.mark(writer)?;
                Ok(())
            }
            None => Ok(()),
        }
    }

    /// Marks them if a test is true.
    #[tactic(auto, using(crate::proofs::Marking::added_where))]
    pub(crate) fn add_where(&mut self, holds: bool, groups: &Groups) -> Result<(), Failure>
        ensures { OnOk result (AddsWhere holds groups.now self.old self.new) }
    {
        if holds {
            return self.add(groups);
        }
        Ok(())
    }

    fn is_marked(&self, group: usize) -> bool
        ensures { result ≡ is_marked self.now group }
    {
        self.set.get(group).copied().unwrap_or(false)
    }

    #[tactic(auto, using(crate::proofs::Marking::mark_added))]
    fn mark(&mut self, group: usize) -> Result<(), Failure>
        ensures { OnOk result (AddsGroup group self.old self.new) }
    {
        if group >= self.set.len() {
            return broken(Invariant::ConflictTable);
        }
        self.set[group] = true;
        Ok(())
    }
}
