//! Where the checks are in the typed AST of a woven program, and whether they are quiet (else E46).

ghost use Rattle.std.specs.Prelude.{◌≡◌, [], ◌∷◌, IfErr, MatchResult, None, OnOk, Some};
ghost use Rattle.std.specs.List.{list_any};
ghost use Rattle.sa_ast.specs.declared.rule.Rule.TheVariants.{ConditionNotQuiet};
ghost use Rattle.sa_typed.specs.Copy.{arms_of, block_of, expr_of, exprs_of, stmt_of, tests_of};
ghost use Rattle.sa_contracts.specs.NotQuiet.{asserted_at, condition_of, first_in, first_in_arms, first_in_block, first_in_feature};
ghost use Rattle.sa_contracts.specs.NotQuiet.{first_in_features, first_in_tests, initial_of, loud, loud_exprs, loud_tests};
ghost use Rattle.sa_contracts.specs.AskedChecks.{asked_by, asked_first, nothing_asked, same_pos};
ghost use Rattle.sa_contracts.specs.NotQuiet.{asserted, is_assert, plain_checks};

use crate::quietness::quiet;
use failure::Failure;
use indexmap::IndexMap;
use sa_ast::{FaultKind, Pos, Refusal, Rule};
use sa_typed::{TypedArm, TypedBranch, TypedExpr, TypedFeature, TypedProgram, TypedStmt};
use sqlite_items::Items;
use std::alloc::Global;

/// The checks in the body of a feature.
#[derive(Drop)]
pub(crate) struct BodyChecks {
    /// The positions of the conditions that are asserted.
    pub(crate) conditions: Items<Pos>,
    /// The positions of the words `initial`. The variables after the parameters have their values, in this order.
    pub(crate) initials: Items<Pos>,
}

/// The checks of a program, by the positions of the names of the features in whose bodies they are.
#[derive(Drop)]
pub struct Checks {
    by_name: IndexMap<Pos, BodyChecks>,
}

impl Checks {
    pub(crate) fn new(alloc: Global) -> Checks
        ensures { asked_by result ≡ nothing_asked }
    {
        Checks {
            by_name: IndexMap::new(alloc),
        }
    }

    /// Adds those of the feature whose name is at the position, in place of others of this name.
    #[tactic(auto, using(crate::proofs::AskedLists::more))]
    pub(crate) fn add(&mut self, name: Pos, checks: BodyChecks) -> Result<(), Failure>
        ensures { OnOk result
            (asked_by self.new ≡ asked_first (record { name = name; checks = checks } ∷ []) (asked_by self.old)) }
    {
        self.by_name.insert(name, checks)?;
        Ok(())
    }

    /// Whether all conditions and `initial`s of a woven program are quiet, in its typed AST.
    ///
    /// # Errors
    ///
    /// E46 at the first that isn't, in the order of the features and of their statements: at the first token of a condition, and at the
    /// word `initial`.
    #[tactic(auto, using(crate::proofs::FirstAt::features))]
    pub fn check_quiet(&self, core: &TypedProgram) -> Result<(), Refusal>
        ensures rule { IfErr result (λ refusal. refusal.rule ≡ ConditionNotQuiet) }
        ensures first { let first = first_in_features (asked_by self.now) core.now.features in
            MatchResult result (λ _. first ≡ None) (λ refusal. first ≡ Some refusal.pos) }
    {
        for feature in core.features.as_slice() {
            if let Some(pos) = self.first_in_feature(feature) {
                return Err(Rule::ConditionNotQuiet.at(pos));
            }
        }
        Ok(())
    }

    /// The first check in the body of a feature that isn't quiet.
    fn first_in_feature(&self, feature: &TypedFeature) -> Option<Pos>
        ensures { result ≡ first_in_feature (asked_by self.now) feature.now }
    {
        let checks = self.by_name.get(&feature.pos)?;
        let woven = InFeature {
            conditions: checks.conditions.as_slice(),
            initials: checks.initials.as_slice(),
            arguments: feature.modes.len(),
        };
        first_in_block(&woven, feature.body.as_slice())
    }
}

/// The checks of a feature with this many parameters.
#[derive(Clone, Copy)]
struct InFeature<'a> {
    conditions: &'a [Pos],
    initials: &'a [Pos],
    arguments: usize,
}

impl InFeature<'_> {
    /// The position of the `initial` whose value the variable with this number has.
    fn initial_of(&self, variable: u32) -> Option<Pos>
        ensures { result ≡ initial_of (plain_checks self.now) variable }
    {
        let variable = variable as usize;
        if variable < self.arguments {
            return None;
        }
        self.initials.get(variable - self.arguments).copied()
    }

    /// The position of the condition that is asserted, where this is what is executed if it is false.
    #[tactic(auto, using(crate::proofs::FirstAt::soles))]
    fn condition_of(&self, other: &[TypedStmt]) -> Option<Pos>
        ensures { result ≡ condition_of (plain_checks self.now) (block_of other.now) }
    {
        if other.len() != 1 {
            return None;
        }
        self.asserted_at(&other[0])
    }

    /// The position of the condition whose assert stops the program by this statement.
    #[tactic(auto, using(sa_typed::proofs::Copies::copies))]
    fn asserted_at(&self, s: &TypedStmt) -> Option<Pos>
        ensures { result ≡ asserted_at (plain_checks self.now) (stmt_of s.now) }
    {
        match s {
            TypedStmt::Fault(kind, pos) => self.asserted(*kind, *pos),
            TypedStmt::Assign(_, _)
            | TypedStmt::ExprStmt(_)
            | TypedStmt::If(_, _)
            | TypedStmt::Loop(_, _)
            | TypedStmt::ExitLoop(_)
            | TypedStmt::TypeCase(_, _, _, _)
            | TypedStmt::Protect(_, _, _)
            | TypedStmt::Return(_)
            | TypedStmt::Yield(_)
            | TypedStmt::Quit
            | TypedStmt::Raise(_, _) => None,
        }
    }

    /// The position of the condition whose assert stops the program by a fault of this kind there.
    fn asserted(&self, kind: FaultKind, pos: Pos) -> Option<Pos>
        ensures { result ≡ asserted (plain_checks self.now) kind pos }
    {
        if is_assert(kind) && self.has_condition(pos) {
            return Some(pos);
        }
        None
    }

    /// Whether there is a condition of a contract at the position.
    fn has_condition(&self, pos: Pos) -> bool
        ensures { result ≡ list_any (same_pos pos) self.now.conditions.now }
    {
        self.conditions.iter().any(|condition| pos == *condition)
    }
}

fn is_assert(kind: FaultKind) -> bool
    ensures { result ≡ is_assert kind }
{
    matches!(kind, FaultKind::Assert)
}

/// The first check in the statements that isn't quiet.
#[tactic(auto, using(crate::proofs::FirstAt::firsts))]
#[cycle(statement)]
fn first_in_block(woven: &InFeature<'_>, list: &[TypedStmt]) -> Option<Pos>
    ensures { result ≡ first_in_block (plain_checks woven.now) (block_of list.now) }
{
    for s in list {
        let found = first_in(woven, s);
        if found.is_some() {
            return found;
        }
    }
    None
}

/// The same in a statement.
#[tactic(auto, using(sa_typed::proofs::Copies::copies))]
#[cycle(statement)]
fn first_in(woven: &InFeature<'_>, s: &TypedStmt) -> Option<Pos>
    ensures { result ≡ first_in (plain_checks woven.now) (stmt_of s.now) }
{
    match s {
        TypedStmt::Assign(variable, value) => loud(woven.initial_of(*variable), value),
        TypedStmt::If(tests, other) => {
            let condition = woven.condition_of(other.as_slice());
            loud_tests(condition, tests.as_slice())
                .or(first_in_tests(woven, tests.as_slice()))
                .or(first_in_block(woven, other.as_slice()))
        }
        TypedStmt::Loop(_, body) => first_in_block(woven, body.as_slice()),
        TypedStmt::TypeCase(_, arms, other, _) => {
            let found = first_in_arms(woven, arms.as_slice());
            match other {
                Some(other) => found.or(first_in_block(woven, other.as_slice())),
                None => found,
            }
        }
        TypedStmt::Protect(body, arms, other) => {
            let found = first_in_block(woven, body.as_slice());
            let found = found.or(first_in_arms(woven, arms.as_slice()));
            match other {
                Some(other) => found.or(first_in_block(woven, other.as_slice())),
                None => found,
            }
        }
        TypedStmt::ExprStmt(_)
        | TypedStmt::ExitLoop(_)
        | TypedStmt::Return(_)
        | TypedStmt::Yield(_)
        | TypedStmt::Quit
        | TypedStmt::Raise(_, _)
        | TypedStmt::Fault(_, _) => None,
    }
}

/// The same in the statements of tests.
#[tactic(auto, using(crate::proofs::FirstAt::firsts))]
#[cycle(statement)]
fn first_in_tests(woven: &InFeature<'_>, tests: &[TypedBranch]) -> Option<Pos>
    ensures { result ≡ first_in_tests (plain_checks woven.now) (tests_of tests.now) }
{
    for test in tests {
        let found = first_in_block(woven, test.body.as_slice());
        if found.is_some() {
            return found;
        }
    }
    None
}

/// The same in the branches of a typecase or a protect.
#[tactic(auto, using(crate::proofs::FirstAt::firsts))]
#[cycle(statement)]
fn first_in_arms(woven: &InFeature<'_>, arms: &[TypedArm]) -> Option<Pos>
    ensures { result ≡ first_in_arms (plain_checks woven.now) (arms_of arms.now) }
{
    for arm in arms {
        let found = first_in_block(woven, arm.body.as_slice());
        if found.is_some() {
            return found;
        }
    }
    None
}

/// The check, where one of the tests isn't quiet.
#[tactic(auto, using(crate::proofs::FirstAt::tests))]
fn loud_tests(check: Option<Pos>, tests: &[TypedBranch]) -> Option<Pos>
    ensures { result ≡ loud_tests check (tests_of tests.now) }
{
    for test in tests {
        let found = loud_exprs(check, test.tests.as_slice());
        if found.is_some() {
            return found;
        }
    }
    None
}

/// The check, where one of the expressions isn't quiet.
#[tactic(auto, using(crate::proofs::FirstAt::exprs))]
fn loud_exprs(check: Option<Pos>, list: &[TypedExpr]) -> Option<Pos>
    ensures { result ≡ loud_exprs check (exprs_of list.now) }
{
    for e in list {
        let found = loud(check, e);
        if found.is_some() {
            return found;
        }
    }
    None
}

/// The check, where the expression isn't quiet.
fn loud(check: Option<Pos>, e: &TypedExpr) -> Option<Pos>
    ensures { result ≡ loud check (expr_of e.now) }
{
    if quiet(e) { None } else { check }
}
