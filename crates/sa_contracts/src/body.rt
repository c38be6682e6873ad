//! The body of a feature with its contract woven in.

ghost use Rattle.std.specs.Prelude.{◌≡◌, [], ◌++◌, IfOk, OnOk, map};
ghost use Rattle.std.specs.List.{flat_map};
ghost use Rattle.std.specs.Option.{option_copied};
ghost use Rattle.sa_contracts.specs.AskedChecks.{body_checks, declared_at, name_positions, position_of, positions_of};
ghost use Rattle.sa_contracts.specs.ContractTables.{plain_duties};
ghost use Rattle.sa_contracts.specs.ExitChecks.{leaving, leaving_by};
ghost use Rattle.sa_contracts.specs.WovenClasses.{end_checks, ends_without_value, checked_invariant, checked_conditions, post_declared};
ghost use Rattle.sa_contracts.specs.WovenClasses.{checked_post, pre_asserted, woven_body};

use crate::asserts::{ExitConditions, add_asserts, asserted, of_object};
use crate::budget::Budget;
use crate::checks::BodyChecks;
use crate::contracts::{FeatureContract, is_iter};
use crate::initials::take_initials;
use crate::statements::check_leaving;
use failure::Failure;
use sa_ast::{Condition, Feature, Local, Pos, Stmt};
use sqlite_items::Items;
use std::alloc::Global;

/// A woven body, and where its checks are.
#[derive(Drop)]
pub(crate) struct WovenBody {
    pub(crate) list: Items<Stmt>,
    pub(crate) checks: BodyChecks,
}

/// The body of a feature with its contract woven in: the assert of its `pre`, a variable for each `initial` of its `post`, and
/// its statements, which check the `post` and the invariant at each `return` and `yield`, and in a routine without a result at
/// the end.
pub(crate) fn weave_body(
    alloc: Global,
    feature: &Feature,
    body: &[Stmt],
    contract: &FeatureContract<'_>,
    budget: &mut Budget,
) -> Result<WovenBody, Failure>
    ensures body { IfOk result (λ woven. woven.list ≡ woven_body feature.now (plain_duties contract.now) body.now) }
    ensures checks { IfOk result (λ woven. woven.checks ≡ body_checks (plain_duties contract.now)) }
{
    let mut declared = Items::new(alloc);
    let conditions = conditions_of(alloc, contract, &mut declared, budget)?;
    let checks = checks_of(alloc, contract, declared.as_slice())?;
    let list = woven_list(
        alloc,
        feature,
        body,
        contract.pre,
        declared,
        conditions,
        budget,
    )?;
    Ok(WovenBody { list, checks })
}

/// The statements of the woven body, where these variables are declared at the start and these conditions are kept.
fn woven_list(
    alloc: Global,
    feature: &Feature,
    body: &[Stmt],
    pre: Option<&Condition>,
    declared: Items<Stmt>,
    conditions: Items<Condition>,
    budget: &mut Budget,
) -> Result<Items<Stmt>, Failure>
    ensures { IfOk result (λ list. list ≡ pre_asserted (option_copied pre.entry) ++ declared
        ++ map (leaving conditions feature.now.result) body.now ++ end_checks feature.now conditions) }
{
    let start = start_of(alloc, pre, declared, budget)?;
    let kept = ExitConditions {
        conditions: conditions.as_slice(),
        result: &feature.result,
    };
    checked_body(alloc, start, feature, body, &kept, budget)
}

/// What is asserted where the feature returns or yields a value to its caller or ends without one: its `post`, with variables in place of
/// its `initial`s, and the invariant. The variables' declarations are put into the list, which is empty.
fn conditions_of(
    alloc: Global,
    contract: &FeatureContract<'_>,
    declared: &mut Items<Stmt>,
    budget: &mut Budget,
) -> Result<Items<Condition>, Failure>
    requires { declared.old ≡ [] }
    ensures conditions { IfOk result (λ conditions. conditions ≡ checked_conditions (plain_duties contract.now)) }
    ensures declarations { OnOk result (declared.new ≡ post_declared (option_copied contract.now.post)) }
{
    let mut conditions = Items::new(alloc);
    add_post(alloc, contract.post, &mut conditions, declared, budget)?;
    add_invariant(alloc, contract.invariant, &mut conditions, budget)?;
    Ok(conditions)
}

/// Appends the `post`, if there is one, to the conditions, with variables in place of its `initial`s. The variables' declarations are put
/// into the list, which is empty.
fn add_post(
    alloc: Global,
    post: Option<&Condition>,
    conditions: &mut Items<Condition>,
    declared: &mut Items<Stmt>,
    budget: &mut Budget,
) -> Result<(), Failure>
    requires { declared.old ≡ [] }
    ensures conditions { OnOk result (conditions.new ≡ conditions.old ++ checked_post (option_copied post.entry)) }
    ensures declarations { OnOk result (declared.new ≡ post_declared (option_copied post.entry)) }
{
    match post {
        None => Ok(()),
        Some(post) => {
            let test = take_initials(alloc, &post.test, declared, budget)?;
            let pos = post.pos;
            conditions.push(Condition { test, pos })?;
            Ok(())
        }
    }
}

/// Appends the invariant, if there is one, to the conditions, as a routine asserts it.
fn add_invariant(
    alloc: Global,
    invariant: Option<&Condition>,
    conditions: &mut Items<Condition>,
    budget: &mut Budget,
) -> Result<(), Failure>
    ensures { OnOk result (conditions.new ≡ conditions.old ++ checked_invariant (option_copied invariant.entry)) }
{
    match invariant {
        None => Ok(()),
        Some(invariant) => {
            conditions.push(of_object(alloc, invariant, budget)?)?;
            Ok(())
        }
    }
}

/// What comes before the statements: the assert of the `pre`, if there is one, and the declared variables.
fn start_of(
    alloc: Global,
    pre: Option<&Condition>,
    declared: Items<Stmt>,
    budget: &mut Budget,
) -> Result<Items<Stmt>, Failure>
    ensures { IfOk result (λ start. start ≡ pre_asserted (option_copied pre.entry) ++ declared) }
{
    match pre {
        None => Ok(declared),
        Some(pre) => {
            let mut start = Items::new(alloc);
            start.push(asserted(alloc, pre, budget)?)?;
            start.append(declared)?;
            Ok(start)
        }
    }
}

/// The statements after this start, which check what is kept.
fn checked_body(
    alloc: Global,
    start: Items<Stmt>,
    feature: &Feature,
    body: &[Stmt],
    kept: &ExitConditions<'_>,
    budget: &mut Budget,
) -> Result<Items<Stmt>, Failure>
    ensures { IfOk result (λ list.
        list ≡ start ++ map (leaving_by kept.now) body.now ++ end_checks feature.now kept.now.conditions.now) }
{
    let mut list = start;
    list.append(check_leaving(alloc, body, kept, budget)?)?;
    add_end_checks(alloc, feature, kept.conditions, &mut list, budget)?;
    Ok(list)
}

/// Appends the asserts of the conditions to the list, if execution may reach the end of the feature: it is a routine without a result.
fn add_end_checks(
    alloc: Global,
    feature: &Feature,
    conditions: &[Condition],
    list: &mut Items<Stmt>,
    budget: &mut Budget,
) -> Result<(), Failure>
    ensures { OnOk result (list.new ≡ list.old ++ end_checks feature.now conditions.now) }
{
    if ends_without_value(feature) {
        return add_asserts(alloc, conditions, list, budget);
    }
    Ok(())
}

/// Whether the feature is a routine without a result, so that execution may reach its end.
fn ends_without_value(feature: &Feature) -> bool
    ensures { result ≡ ends_without_value feature.now }
{
    !feature.result.is_some() && !is_iter(&feature.name.name)
}

/// Where the checks are that are woven into the body, by the declarations of the variables for its `initial`s.
fn checks_of(
    alloc: Global,
    contract: &FeatureContract<'_>,
    declared: &[Stmt],
) -> Result<BodyChecks, Failure>
    ensures conditions { IfOk result (λ checks. checks.conditions ≡ positions_of (plain_duties contract.now)) }
    ensures initials { IfOk result (λ checks. checks.initials ≡ flat_map declared_at declared.now) }
{
    let conditions = positions_of(alloc, contract)?;
    let initials = words(alloc, declared)?;
    Ok(BodyChecks {
        conditions,
        initials,
    })
}

/// The positions of the conditions that are woven into the body: of the `pre`, the `post` and the invariant.
fn positions_of(alloc: Global, contract: &FeatureContract<'_>) -> Result<Items<Pos>, Failure>
    ensures { IfOk result (λ positions. positions ≡ positions_of (plain_duties contract.now)) }
{
    let mut positions = Items::new(alloc);
    add_position(contract.pre, &mut positions)?;
    add_position(contract.post, &mut positions)?;
    add_position(contract.invariant, &mut positions)?;
    Ok(positions)
}

/// Appends the position of the condition, if there is one, to the list.
fn add_position(condition: Option<&Condition>, positions: &mut Items<Pos>) -> Result<(), Failure>
    ensures { OnOk result (positions.new ≡ positions.old ++ position_of (option_copied condition.entry)) }
{
    match condition {
        None => Ok(()),
        Some(condition) => {
            positions.push(condition.pos)?;
            Ok(())
        }
    }
}

/// The positions of the names that are declared, in order: those of the words `initial`.
#[tactic(auto, using(crate::proofs::DeclaredAt::all))]
fn words(alloc: Global, declared: &[Stmt]) -> Result<Items<Pos>, Failure>
    ensures { IfOk result (λ words. words ≡ flat_map declared_at declared.now) }
{
    let mut words = Items::new(alloc);
    for s in declared {
        add_words(s, &mut words)?;
    }
    Ok(words)
}

/// Appends the positions of the names that the statement declares to the list.
#[tactic(auto, using(crate::proofs::DeclaredAt::one))]
fn add_words(s: &Stmt, words: &mut Items<Pos>) -> Result<(), Failure>
    ensures { OnOk result (words.new ≡ words.old ++ declared_at s.now) }
{
    match s {
        Stmt::Declare(names, _, _) => add_places(names.as_slice(), words),
        _ => Ok(()),
    }
}

/// Appends the positions of the names to the list.
#[tactic(auto, using(crate::proofs::DeclaredAt::names))]
fn add_places(names: &[Local], words: &mut Items<Pos>) -> Result<(), Failure>
    ensures { OnOk result (words.new ≡ words.old ++ name_positions names.now) }
{
    for name in names {
        words.push(name.pos)?;
    }
    Ok(())
}
