//! No two features of a class conflict, and each class has what its include clauses contribute: both are checked at run time, when all
//! classes are made.

ghost use Rattle.std.specs.Prelude.{◌≡◌, OnOk};
ghost use Rattle.std.specs.List.{All};
ghost use Rattle.sa_include.specs.Changes.{HasChanges};
ghost use Rattle.sa_include.specs.Flattened.{IsApart, is_immutable};
ghost use Rattle.sa_include.specs.Included.{AreIncluded, BringsAll, IsInherited};
ghost use Rattle.sa_include_conflicts.specs.IncludedFeatures.{HasSignatures};
ghost use Rattle.sa_include_names.specs.Tables.{HasNumbers, number_in};
ghost use Rattle.sa_subst.specs.Table.{put_in};

use crate::clause::given_in;
use crate::renamings::Renaming;
use crate::whole::is_immutable;
use failure::{Failure, Invariant, broken};
use sa_ast::{Class, Feature, FeatureModifier, Include, Ty};
use sa_include_conflicts::{KnownSignatures, item, try_apart};
use sa_include_names::Includes;
use sa_subst::Substitution;
use std::alloc::Global;

/// Checks that no two features of a class conflict, and that each class has, of each feature of a class that it includes, the one
/// that its clause makes of it, or one that conflicts with that. `whole` are the classes without their includes.
///
/// # Errors
///
/// A `Failure`: `Broken` where it isn't so.
#[tactic(auto, using(crate::proofs::Bringing::all_classes))]
pub(crate) fn try_whole(
    alloc: Global,
    classes: &[Class],
    whole: &[Class],
    includes: &Includes,
) -> Result<(), Failure>
    requires { HasNumbers classes.now includes.now.numbers }
    ensures apart { OnOk result (All IsApart whole.now) }
    ensures included { OnOk result (AreIncluded classes.now whole.now) }
{
    for (place, made) in whole.iter().enumerate() {
        let class = item(classes, place)?;
        try_class(alloc, class.includes.as_slice(), made, whole, includes)?;
    }
    Ok(())
}

/// The same of one class, which has these include clauses.
#[tactic(auto, using(crate::proofs::Bringing::is_apart))]
fn try_class(
    alloc: Global,
    clauses: &[Include],
    made: &Class,
    whole: &[Class],
    includes: &Includes,
) -> Result<(), Failure>
    ensures apart { OnOk result (IsApart made.now) }
    ensures included { OnOk result (All (BringsAll (number_in includes.now.numbers) whole.now made.now) clauses.now) }
{
    let known = try_apart(alloc, made.features.as_slice(), is_immutable(made.kind))?;
    for clause in clauses {
        try_clause(alloc, clause, made, &known, whole, includes)?;
    }
    Ok(())
}

/// What an include clause makes of the features that it includes.
#[derive(Drop)]
struct IncludeStep<'a> {
    changes: &'a [FeatureModifier],
    renaming: Renaming,
    by: Substitution<'a>,
    /// Whether the including class is immutable.
    immutable: bool,
}

/// Checks what one of them includes. The features of the class have these signatures.
#[tactic(auto, using(crate::proofs::Bringing::clause_brings))]
fn try_clause(
    alloc: Global,
    clause: &Include,
    made: &Class,
    known: &KnownSignatures,
    whole: &[Class],
    includes: &Includes,
) -> Result<(), Failure>
    requires { HasSignatures (is_immutable made.now.kind) made.now.features known.now }
    ensures { OnOk result (BringsAll (number_in includes.now.numbers) whole.now made.now clause.now) }
{
    let Some(number) = includes.included(&clause.ty) else {
        return broken(Invariant::IncludeTable);
    };
    let included = item(whole, number as usize)?;
    let changes = clause.changes.as_slice();
    let same = Ty::Same(made.name.pos);
    let by = Substitution::make(
        alloc,
        included.params.as_slice(),
        given_in(&clause.ty),
        &same,
    )?;
    let bringing = IncludeStep {
        changes,
        renaming: Renaming::new(alloc, changes)?,
        by,
        immutable: is_immutable(made.kind),
    };
    try_features(alloc, included.features.as_slice(), &bringing, known)?;
    Ok(())
}

/// Checks of each of these features that it is included.
fn try_features(
    alloc: Global,
    features: &[Feature],
    bringing: &IncludeStep<'_>,
    known: &KnownSignatures,
) -> Result<(), Failure>
    requires { HasChanges bringing.now.changes.now bringing.now.renaming }
    ensures { OnOk result (All
        (IsInherited bringing.now.changes.now (put_in bringing.now.by) bringing.now.immutable known.now.shapes.keys)
        features.now) }
{
    for feature in features {
        try_feature(alloc, feature, bringing, known)?;
    }
    Ok(())
}

#[tactic(auto, using(crate::proofs::Bringing::features_brought))]
fn try_feature(
    alloc: Global,
    feature: &Feature,
    bringing: &IncludeStep<'_>,
    known: &KnownSignatures,
) -> Result<(), Failure>
    requires { HasChanges bringing.now.changes.now bringing.now.renaming }
    ensures { OnOk result (IsInherited bringing.now.changes.now (put_in bringing.now.by) bringing.now.immutable
        known.now.shapes.keys feature.now) }
{
    let Some(name) = bringing
        .renaming
        .name_of(&feature.name.name, bringing.changes)
    else {
        return Ok(());
    };
    if known.has_included(alloc, feature, bringing.immutable, name, &bringing.by)? {
        return Ok(());
    }
    broken(Invariant::RuleDenied)
}
