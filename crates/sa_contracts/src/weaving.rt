//! The classes of a program with the checks of its contracts woven into the bodies.

ghost use Rattle.std.specs.Prelude.{◌≡◌, IfOk, OnOk};
ghost use Rattle.std.specs.Option.{unwrap_or};
ghost use Rattle.sa_contracts.specs.AskedChecks.{asked, asked_by, asked_first, feature_checks, features_checks, woven_checks};
ghost use Rattle.sa_contracts.specs.ContractTables.{duties_in};
ghost use Rattle.sa_contracts.specs.WovenClasses.{duties_of, woven_class, woven_classes, woven_feature, woven_features, woven_part};

use crate::body::{WovenBody, weave_body};
use crate::budget::Budget;
use crate::checks::Checks;
use crate::contracts::{ContractTable, FeatureKey};
use failure::Failure;
use sa_ast::{Class, Contract, Feature, FeatureBody, Shared};
use sqlite_items::Items;
use std::alloc::Global;

/// The classes of a program with checks in their bodies, and where these are.
#[derive(Drop)]
pub struct WovenProgram {
    pub classes: Items<Class>,
    pub checks: Checks,
}

/// The rest of the budget, and the checks that were woven so far.
#[derive(Drop)]
struct Weaving {
    budget: Budget,
    checks: Checks,
}

/// The classes of a program with the checks of its contracts, which are about these classes, woven into the bodies. Bodies
/// without checks are shared, as they are.
///
/// # Errors
///
/// `NoMemory`, also where the checks would be more than [`MOST_FORMS`](crate::MOST_FORMS).
#[tactic(auto, using(crate::proofs::Tables::classes))]
pub fn weave(
    alloc: Global,
    classes: Items<Class>,
    contracts: &[Contract],
) -> Result<WovenProgram, Failure>
    ensures classes { IfOk result (λ woven. woven.classes ≡ woven_classes (duties_of contracts.now) 0 classes) }
    ensures checks { IfOk result (λ woven. asked_by woven.checks ≡ asked (woven_checks (duties_of contracts.now) 0 classes)) }
{
    let table = ContractTable::new(alloc, contracts)?;
    let mut weaving = Weaving {
        budget: Budget::new(),
        checks: Checks::new(alloc),
    };
    let classes = weave_classes(alloc, &table, classes, &mut weaving)?;
    Ok(WovenProgram {
        classes,
        checks: weaving.checks,
    })
}

#[tactic(auto, using(crate::proofs::WovenLists::popped, crate::proofs::AskedLists::popped))]
fn weave_classes(
    alloc: Global,
    table: &ContractTable<'_>,
    classes: Items<Class>,
    weaving: &mut Weaving,
) -> Result<Items<Class>, Failure>
    ensures classes { IfOk result (λ woven. woven ≡ woven_classes (duties_in table.now) 0 classes) }
    ensures checks { OnOk result (asked_by weaving.new.checks
        ≡ asked_first (woven_checks (duties_in table.now) 0 classes) (asked_by weaving.old.checks)) }
{
    let mut rest = classes;
    let mut last_first = Vec::new(alloc);
    while let Some(class) = rest.pop() {
        last_first.push(weave_class(alloc, table, class, rest.len(), weaving)?)?;
    }
    last_first.reverse();
    Ok(Items::from_vec(last_first))
}

/// The class with this number.
fn weave_class(
    alloc: Global,
    table: &ContractTable<'_>,
    class: Class,
    number: usize,
    weaving: &mut Weaving,
) -> Result<Class, Failure>
    ensures class { IfOk result (λ woven. woven ≡ woven_class (duties_in table.now) number class) }
    ensures checks { OnOk result (asked_by weaving.new.checks
        ≡ asked_first (features_checks (duties_in table.now) number 0 class.features) (asked_by weaving.old.checks)) }
{
    let features = weave_features(alloc, table, class.features, number, weaving)?;
    Ok(Class { features, ..class })
}

/// The features that the class with this number writes.
#[tactic(auto, using(crate::proofs::WovenLists::popped, crate::proofs::AskedLists::popped))]
fn weave_features(
    alloc: Global,
    table: &ContractTable<'_>,
    features: Items<Feature>,
    class: usize,
    weaving: &mut Weaving,
) -> Result<Items<Feature>, Failure>
    ensures features { IfOk result (λ woven. woven ≡ woven_features (duties_in table.now) class 0 features) }
    ensures checks { OnOk result (asked_by weaving.new.checks
        ≡ asked_first (features_checks (duties_in table.now) class 0 features) (asked_by weaving.old.checks)) }
{
    let mut rest = features;
    let mut last_first = Vec::new(alloc);
    while let Some(feature) = rest.pop() {
        let place = FeatureKey {
            class,
            feature: rest.len(),
        };
        last_first.push(weave_feature(alloc, table, feature, place, weaving)?)?;
    }
    last_first.reverse();
    Ok(Items::from_vec(last_first))
}

/// A feature, woven.
fn weave_feature(
    alloc: Global,
    table: &ContractTable<'_>,
    feature: Feature,
    place: FeatureKey,
    weaving: &mut Weaving,
) -> Result<Feature, Failure>
    ensures feature { let duties = duties_in table.now place.class place.feature feature in
        IfOk result (λ woven. woven ≡ woven_feature feature duties) }
    ensures checks { let duties = duties_in table.now place.class place.feature feature in
        OnOk result (asked_by weaving.new.checks ≡ asked_first (feature_checks feature duties) (asked_by weaving.old.checks)) }
{
    let part = woven_part(alloc, table, &feature, place, weaving)?;
    Ok(with_part(feature, part))
}

/// The feature with this body, if there is one, in place of its own.
fn with_part(feature: Feature, part: Option<FeatureBody>) -> Feature
    ensures { result ≡ record feature { part = unwrap_or part feature.part } }
{
    match part {
        Some(part) => Feature { part, ..feature },
        None => feature,
    }
}

/// The body of a feature with checks in it, or `None` where the feature has nothing to keep.
fn woven_part(
    alloc: Global,
    table: &ContractTable<'_>,
    feature: &Feature,
    place: FeatureKey,
    weaving: &mut Weaving,
) -> Result<Option<FeatureBody>, Failure>
    ensures part { let duties = duties_in table.now place.class place.feature feature.now in
        IfOk result (λ part. unwrap_or part feature.now.part ≡ woven_part feature.now duties feature.now.part) }
    ensures checks { let duties = duties_in table.now place.class place.feature feature.now in
        OnOk result (asked_by weaving.new.checks
        ≡ asked_first (feature_checks feature.now duties) (asked_by weaving.old.checks)) }
{
    let FeatureBody::Routine(body) = &feature.part else {
        return Ok(None);
    };
    let contract = table.of(place, feature);
    if !contract.is_some() {
        return Ok(None);
    }
    let body = body.get().as_slice();
    let woven = weave_body(alloc, feature, body, &contract, &mut weaving.budget)?;
    let WovenBody { list, checks } = woven;
    weaving.checks.add(feature.name.pos, checks)?;
    Ok(Some(FeatureBody::Routine(Shared::new(alloc, list)?)))
}
