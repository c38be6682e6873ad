//! Which features of a class conflict: those that have two signatures which no call could tell apart.

ghost use Rattle.std.specs.Prelude.{◌≡◌, IfOk, MatchOption, OnOk, Some};
ghost use Rattle.sa_include_conflicts.specs.KnownSignatures.{IsGroupOf, IsGroupedBy};
ghost use Rattle.sa_include_conflicts.specs.Sharing.{AreGrouped, IsFirstConflict, NoConflict, groups_at};

use crate::features::ClassFeatures;
use crate::groups::{Groups, Visited};
use crate::lists::is_set;
use crate::signature::{own_signature, writer_signature};
use crate::signature_key::SignatureKey;
use failure::{Failure, Invariant};
use indexmap::IndexSet;
use sa_ast::Feature;
use sa_graph::entry;
use sa_subst::Sig;
use std::alloc::Global;

/// Signatures in groups of those that conflict with one another. A group has the number of its first signature.
#[derive(Drop)]
struct Grouping {
    /// The first signature of each group.
    known: IndexSet<SignatureKey>,
    /// Whether the class is immutable.
    immutable: bool,
}

/// Which features of a class conflict.
#[derive(Drop)]
pub struct Conflicts {
    /// The groups of each feature.
    of: Vec<Groups>,
    /// How many groups there are.
    pub(crate) count: usize,
}

impl Conflicts {
    /// The groups of the feature at an index.
    pub(crate) fn at(&self, place: usize) -> Result<Groups, Failure>
        ensures { IfOk result (λ groups. groups_at self.now place ≡ Some groups) }
    {
        entry(self.of.as_slice(), place, Invariant::ConflictTable)
    }
}

/// Puts the signatures of a class's features into groups of those that conflict with one another. Conflict is an
/// equivalence, so each signature is compared with the first of a group.
///
/// # Errors
///
/// A `Failure`.
#[tactic(auto, using(crate::proofs::Grouping::groupings))]
pub fn group_features(alloc: Global, features: &ClassFeatures<'_>) -> Result<Conflicts, Failure>
    ensures { IfOk result (AreGrouped features.now) }
{
    let mut grouping = Grouping {
        known: IndexSet::new(alloc),
        immutable: features.immutable,
    };
    let mut of = Vec::new(alloc);
    for place in 0..features.len() {
        of.push(grouping.groups_of(alloc, features.at(place)?)?)?;
    }
    let count = grouping.known.len();
    Ok(Conflicts { of, count })
}

impl Grouping {
    /// The groups of the signatures of a feature.
    #[tactic(auto, using(crate::proofs::Grouping::grouped_one, crate::proofs::Grouping::grouped_two))]
    fn groups_of(&mut self, alloc: Global, feature: &Feature) -> Result<Groups, Failure>
        ensures groups { IfOk result (IsGroupedBy self.old.immutable self.old.known.keys self.new.known.keys feature.now) }
        ensures immutable { OnOk result (self.new.immutable ≡ self.old.immutable) }
    {
        let own = self.group_of(own_signature(alloc, feature)?)?;
        match writer_signature(alloc, feature, self.immutable)? {
            Some(sig) => {
                let writer = Some(self.group_of(sig)?);
                Ok(Groups { own, writer })
            }
            None => Ok(Groups { own, writer: None }),
        }
    }

    /// The group of a signature, a new one if it conflicts with none of the earlier ones.
    #[tactic(auto, using(crate::proofs::Grouping::group_found))]
    fn group_of(&mut self, sig: Sig) -> Result<usize, Failure>
        ensures group { IfOk result (IsGroupOf sig self.old.known.keys self.new.known.keys) }
        ensures immutable { OnOk result (self.new.immutable ≡ self.old.immutable) }
    {
        let (group, _) = self.known.insert_full(SignatureKey::new(sig))?;
        Ok(group)
    }
}

/// The first of the features from an index up to another that stays and conflicts with an earlier one of them that stays.
///
/// # Errors
///
/// A `Failure`.
#[tactic(auto, using(crate::proofs::FirstConflict::conflicting))]
pub fn first_conflict(
    alloc: Global,
    conflicts: &Conflicts,
    stays: &[bool],
    from: usize,
    to: usize,
) -> Result<Option<usize>, Failure>
    ensures { IfOk result (λ found. MatchOption found
        (NoConflict conflicts.now stays.now from to)
        (IsFirstConflict conflicts.now stays.now from to)) }
{
    let mut marks = Visited::none(alloc, conflicts.count)?;
    for place in from..to {
        if !is_set(stays, place) {
            continue;
        }
        let groups = conflicts.at(place)?;
        if marks.has(&groups) {
            return Ok(Some(place));
        }
        marks.add(&groups)?;
    }
    Ok(None)
}
