//! The renamings of an include clause: what an included feature is called, and who sees it. A renaming is of a feature that the
//! clause includes, and its two names are both those of iters or neither is (else E16).

ghost use Rattle.std.specs.Prelude.{◌≡◌, IfOk, IfSome, OnOk};
ghost use Rattle.std.specs.Option.{option_copied};
ghost use Rattle.sa_include.specs.Changes.{AddsChange, HasChanges};
ghost use Rattle.sa_include.specs.Included.{included_name};
ghost use Rattle.sa_include.specs.Refusals.{IsOfChange};

use failure::{Failure, Invariant};
use indexmap::IndexMap;
use sa_ast::{Access, FeatureModifier, Include, Name, Refusal, Rule};
use sa_graph::put;
use sa_include_conflicts::is_set;
use sqlite_items::at;
use std::alloc::{AllocError, Global};

/// The renamings of an include clause, found by the names that they change.
#[derive(Drop)]
pub(crate) struct Renaming {
    /// The index of the first renaming of each name, which is the one that counts.
    first: IndexMap<Name, usize>,
    /// For each renaming whether the clause includes a feature of its name. It is kept at the first renaming of a name.
    met: Vec<bool>,
}

impl Renaming {
    #[tactic(auto, using(crate::proofs::RenamingLemmas::changes_added))]
    pub(crate) fn new(alloc: Global, changes: &[FeatureModifier]) -> Result<Renaming, Failure>
        ensures { IfOk result (HasChanges changes.now) }
    {
        let mut renaming = Renaming {
            first: IndexMap::new(alloc),
            met: vec![in alloc; false; changes.len()]?,
        };
        for (place, change) in changes.iter().enumerate() {
            renaming.add(alloc, &change.from.name, place)?;
        }
        Ok(renaming)
    }

    #[tactic(auto, using(crate::proofs::RenamingLemmas::one_added))]
    fn add(&mut self, alloc: Global, name: &Name, place: usize) -> Result<(), Failure>
        ensures { OnOk result (AddsChange name.now place self.old self.new) }
    {
        match self.first.get(name).copied() {
            Some(_) => Ok(()),
            None => {
                self.first.insert(name.copy(alloc)?, place)?;
                Ok(())
            }
        }
    }

    /// What a feature is called that the clause includes, or None if a renaming leaves it out.
    #[tactic(auto, using(crate::proofs::RenamingLemmas::names))]
    pub(crate) fn name_of<'a>(
        &self,
        name: &'a Name,
        changes: &'a [FeatureModifier],
    ) -> Option<&'a Name>
        requires { HasChanges changes.now self.now }
        ensures { option_copied result ≡ included_name changes.now name.now }
    {
        let Some(place) = self.first.get(name).copied() else {
            return Some(name);
        };
        let Some(change) = at(changes, place) else {
            return Some(name);
        };
        match &change.to {
            Some(to) => Some(to),
            None => None,
        }
    }

    /// The renaming of the features of this name that the clause includes.
    pub(crate) fn change_of<'a>(
        &mut self,
        name: &Name,
        changes: &'a [FeatureModifier],
    ) -> Result<Option<&'a FeatureModifier>, Failure> {
        let Some(place) = self.first.get(name).copied() else {
            return Ok(None);
        };
        put(&mut self.met, place, true, Invariant::IncludeTable)?;
        Ok(changes.get(place))
    }

    /// The refusal of the first renaming, in source order, that isn't one of a feature that the clause includes.
    #[tactic(auto, using(crate::proofs::Refusing::of_this_change))]
    pub(crate) fn refused(&self, changes: &[FeatureModifier]) -> Option<Refusal>
        ensures { IfSome result (IsOfChange changes.now) }
    {
        for change in changes {
            if !self.is_met(&change.from.name) || !keeps_the_kind(change) {
                return Some(Rule::NoSuchIncludedFeature.at(change.from.pos));
            }
        }
        None
    }

    fn is_met(&self, name: &Name) -> bool {
        match self.first.get(name).copied() {
            Some(place) => is_set(&self.met, place),
            None => false,
        }
    }
}

/// Whether the two names of a renaming are both those of iters, or neither is.
fn keeps_the_kind(change: &FeatureModifier) -> bool {
    match &change.to {
        Some(to) => is_iter(to) == is_iter(&change.from.name),
        None => true,
    }
}

fn is_iter(name: &Name) -> bool {
    name.as_slice().last().copied() == Some(b'!')
}

/// Who sees an included feature. A renaming that names no access leaves it as it was, and a private clause makes private what
/// no renaming of its own names.
pub(crate) fn access_after(
    include: &Include,
    change: Option<&FeatureModifier>,
    access: Access,
) -> Access {
    match change {
        Some(change) => {
            if change.access == Access::Public {
                access
            } else {
                change.access
            }
        }
        None => {
            if include.private {
                Access::Private
            } else {
                access
            }
        }
    }
}

/// The name of an included feature, or None if a renaming leaves it out.
pub(crate) fn name_after(
    alloc: Global,
    change: Option<&FeatureModifier>,
    name: &Name,
) -> Result<Option<Name>, AllocError> {
    match change {
        None => Ok(Some(name.copy(alloc)?)),
        Some(change) => match &change.to {
            Some(to) => Ok(Some(to.copy(alloc)?)),
            None => Ok(None),
        },
    }
}
