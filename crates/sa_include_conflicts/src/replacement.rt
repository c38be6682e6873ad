//! Which features of a class are replaced. A written feature replaces the included ones that conflict with it. A stub is
//! replaced by each conflicting feature that is none, and then replaces nothing itself.

ghost use Rattle.std.specs.Prelude.{◌≡◌, ◌&&◌, IfOk, Some, not, slice_get};
ghost use Rattle.sa_include_conflicts.specs.Sharing.{AreGrouped, has_marked};
ghost use Rattle.sa_include_conflicts.specs.Staying as spec;
ghost use Rattle.sa_include_conflicts.specs.Staying.{AreMarked, AreReplacing, all_stay, body_marked, inherited_kept, is_body, written_kept};
ghost use Rattle.sa_include_conflicts.specs.Stub.{is_stub_part};

use crate::conflicts::Conflicts;
use crate::features::{ClassFeatures, is_stub};
use crate::groups::{Groups, Visited};
use failure::Failure;
use sa_ast::Feature;
use std::alloc::Global;

/// For each feature of a class, by its index, whether it stays: all do but those that are replaced.
///
/// # Errors
///
/// A `Failure`.
#[tactic(auto, using(crate::proofs::Replacements::all_at))]
pub fn retained_features(
    alloc: Global,
    features: &ClassFeatures<'_>,
    conflicts: &Conflicts,
) -> Result<Vec<bool>, Failure>
    requires { AreGrouped features.now conflicts.now }
    ensures { IfOk result (λ stays. stays.items ≡ all_stay features.now) }
{
    let replacing = replacing_groups(alloc, features, conflicts)?;
    let mut stays = Vec::new(alloc);
    for place in 0..features.len() {
        stays.push(replacing.stays(features, conflicts, place)?)?;
    }
    Ok(stays)
}

/// The groups of the features that replace those that conflict with them.
#[derive(Drop)]
struct ReplacementMarks {
    /// Of the features that the class writes and that are no stubs.
    written_bodies: Visited,
    /// Of the included ones that are none and stay.
    inherited_bodies: Visited,
    /// Of the written stubs that stay.
    written_stubs: Visited,
}

#[tactic(auto, using(crate::proofs::Replacements::are_replacing))]
fn replacing_groups(
    alloc: Global,
    features: &ClassFeatures<'_>,
    conflicts: &Conflicts,
) -> Result<ReplacementMarks, Failure>
    requires { AreGrouped features.now conflicts.now }
    ensures { IfOk result (AreReplacing features.now conflicts.now) }
{
    let written_bodies = mark_written_bodies(alloc, features, conflicts)?;
    let inherited_bodies = mark_brought_bodies(alloc, features, conflicts, &written_bodies)?;
    let written_stubs = mark_written_stubs(
        alloc,
        features,
        conflicts,
        &written_bodies,
        &inherited_bodies,
    )?;
    Ok(ReplacementMarks {
        written_bodies,
        inherited_bodies,
        written_stubs,
    })
}

#[tactic(auto, using(crate::proofs::Replacements::marking))]
fn mark_written_bodies(
    alloc: Global,
    features: &ClassFeatures<'_>,
    conflicts: &Conflicts,
) -> Result<Visited, Failure>
    requires { AreGrouped features.now conflicts.now }
    ensures { IfOk result (AreMarked features.now conflicts.now (spec.written_bodies features.now.immutable features.now.written.now)) }
{
    let first = features.inherited.len();
    let mut marks = Visited::none(alloc, conflicts.count)?;
    for (place, feature) in features.written.iter().enumerate() {
        let groups = conflicts.at(first + place)?;
        marks.add_where(is_body(feature), &groups)?;
    }
    Ok(marks)
}

/// `written` has the groups of the written features that are no stubs.
#[tactic(auto, using(crate::proofs::Replacements::marking))]
fn mark_brought_bodies(
    alloc: Global,
    features: &ClassFeatures<'_>,
    conflicts: &Conflicts,
    written: &Visited,
) -> Result<Visited, Failure>
    requires grouped { AreGrouped features.now conflicts.now }
    requires written { AreMarked features.now conflicts.now
        (spec.written_bodies features.now.immutable features.now.written.now) written.now }
    ensures { IfOk result (AreMarked features.now conflicts.now
        (spec.inherited_bodies features.now.immutable features.now.inherited.now features.now.written.now)) }
{
    let mut marks = Visited::none(alloc, conflicts.count)?;
    for (place, feature) in features.inherited.iter().enumerate() {
        let groups = conflicts.at(place)?;
        marks.add_where(is_staying_body(feature, &groups, written), &groups)?;
    }
    Ok(marks)
}

/// `written` and `inherited` have the groups of the features that are no stubs and stay.
#[tactic(auto, using(crate::proofs::Replacements::marking))]
fn mark_written_stubs(
    alloc: Global,
    features: &ClassFeatures<'_>,
    conflicts: &Conflicts,
    written: &Visited,
    inherited: &Visited,
) -> Result<Visited, Failure>
    requires grouped { AreGrouped features.now conflicts.now }
    requires written { AreMarked features.now conflicts.now
        (spec.written_bodies features.now.immutable features.now.written.now) written.now }
    requires inherited { AreMarked features.now conflicts.now
        (spec.inherited_bodies features.now.immutable features.now.inherited.now features.now.written.now) inherited.now }
    ensures { IfOk result (AreMarked features.now conflicts.now
        (spec.written_stubs features.now.immutable features.now.inherited.now features.now.written.now)) }
{
    let first = features.inherited.len();
    let mut marks = Visited::none(alloc, conflicts.count)?;
    for (place, feature) in features.written.iter().enumerate() {
        let groups = conflicts.at(first + place)?;
        marks.add_where(
            is_staying_stub(feature, &groups, written, inherited),
            &groups,
        )?;
    }
    Ok(marks)
}

impl ReplacementMarks {
    /// Whether the feature at an index stays.
    #[tactic(auto, using(crate::proofs::Replacements::one_stays))]
    fn stays(
        &self,
        features: &ClassFeatures<'_>,
        conflicts: &Conflicts,
        place: usize,
    ) -> Result<bool, Failure>
        requires { AreReplacing features.now conflicts.now self.now }
        ensures { IfOk result (λ stays. slice_get (all_stay features.now) place ≡ Some stays) }
    {
        let feature = features.at(place)?;
        let groups = conflicts.at(place)?;
        if place < features.inherited.len() {
            return Ok(self.keeps_brought(feature, &groups));
        }
        Ok(self.keeps_written(feature, &groups))
    }

    fn keeps_brought(&self, feature: &Feature, groups: &Groups) -> bool
        ensures { result ≡ inherited_kept self.now feature.now groups.now }
    {
        if is_stub(feature) {
            let replaced = meets_body(&self.written_bodies, &self.inherited_bodies, groups);
            return !(replaced || self.written_stubs.has(groups));
        }
        !self.written_bodies.has(groups)
    }

    fn keeps_written(&self, feature: &Feature, groups: &Groups) -> bool
        ensures { result ≡ written_kept self.now feature.now groups.now }
    {
        is_body(feature) || !meets_body(&self.written_bodies, &self.inherited_bodies, groups)
    }
}

/// Whether an included feature with these groups is no stub and stays.
fn is_staying_body(feature: &Feature, groups: &Groups, written: &Visited) -> bool
    ensures { result ≡ (is_body feature.now && not (has_marked groups.now written.now)) }
{
    is_body(feature) && !written.has(groups)
}

/// Whether a written feature with these groups is a stub and stays.
fn is_staying_stub(
    feature: &Feature,
    groups: &Groups,
    written: &Visited,
    inherited: &Visited,
) -> bool
    ensures { result ≡ (is_stub_part feature.now.part && not (body_marked written.now inherited.now groups.now)) }
{
    is_stub(feature) && !meets_body(written, inherited, groups)
}

fn is_body(feature: &Feature) -> bool
    ensures { result ≡ is_body feature.now }
{
    !is_stub(feature)
}

/// Whether one of these groups is that of a feature that is no stub and stays.
fn meets_body(written: &Visited, inherited: &Visited, groups: &Groups) -> bool
    ensures { result ≡ body_marked written.now inherited.now groups.now }
{
    written.has(groups) || inherited.has(groups)
}
