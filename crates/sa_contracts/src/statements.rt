//! Statements in which each `return` and `yield` is checked first, in a body whose feature has something to keep.

ghost use Rattle.std.specs.Prelude.{◌≡◌, IfOk, Some, map};
ghost use Rattle.sa_ast.specs.declared.stmt.Stmt.TheVariants as stmt;
ghost use Rattle.sa_contracts.specs.ExitChecks.{always, checked, checked_list, gives, leaving_arm_by, leaving_by, leaving_case_arm_by};
ghost use Rattle.sa_contracts.specs.ExitChecks.{leaving_type_arm_by, result_declared, result_local, result_read};

use crate::asserts::{ExitConditions, add_asserts};
use crate::budget::Budget;
use crate::copy::{copy_expr, copy_exprs, copy_optional_expr, copy_optional_type, copy_type};
use failure::Failure;
use sa_ast::{BranchArm, CaseArm, Expr, ExprReceiver, Local, Name, Pos, Stmt, Ty, TypeArm};
use sqlite_items::Items;
use std::alloc::{AllocError, Global};

/// How a feature gives a value to its caller: by `return` or by `yield`.
#[derive(Clone, Copy)]
enum Giving {
    Return,
    Yield,
}

impl Giving {
    fn form(self, value: Option<Expr>, pos: Pos) -> Stmt
        ensures { result ≡ gives self value pos }
    {
        match self {
            Giving::Return => Stmt::Return(value, pos),
            Giving::Yield => Stmt::Yield(value, pos),
        }
    }
}

/// The statements, in which what the feature keeps is checked at each `return` and `yield`. It fails where memory runs out,
/// or the budget.
#[tactic(auto, using(crate::proofs::LeavingAt::lists))]
#[cycle(statement)]
pub(crate) fn check_leaving(
    alloc: Global,
    list: &[Stmt],
    kept: &ExitConditions<'_>,
    budget: &mut Budget,
) -> Result<Items<Stmt>, Failure>
    ensures { IfOk result (λ woven. woven ≡ map (leaving_by kept.now) list.now) }
{
    let mut woven = Items::new(alloc);
    for s in list {
        woven.push(statement(alloc, s, kept, budget)?)?;
    }
    Ok(woven)
}

#[tactic(auto, using(crate::proofs::LeavingAt::statements))]
#[cycle(statement)]
fn statement(
    alloc: Global,
    s: &Stmt,
    kept: &ExitConditions<'_>,
    budget: &mut Budget,
) -> Result<Stmt, Failure>
    ensures { IfOk result (λ woven. woven ≡ leaving_by kept.now s.now) }
{
    match s {
        Stmt::Return(value, pos) => checked_giving(
            alloc,
            Giving::Return,
            value,
            *pos,
            kept,
            budget,
        ),
        Stmt::Yield(value, pos) => checked_giving(alloc, Giving::Yield, value, *pos, kept, budget),
        Stmt::If(list, rest, pos) => {
            let list = arms(alloc, list.as_slice(), kept, budget)?;
            check_if(alloc, rest.as_slice(), list, *pos, kept, budget)
        }
        Stmt::Loop(body, pos) => {
            Ok(Stmt::Loop(check_leaving(alloc, body.as_slice(), kept, budget)?, *pos))
        }
        Stmt::Case(tested, list, rest, pos) => {
            let list = case_arms(alloc, list.as_slice(), kept, budget)?;
            match rest {
                None => case_of(alloc, tested, list, None, *pos, budget),
                Some(rest) => check_case(alloc, rest.as_slice(), tested, list, *pos, kept, budget),
            }
        }
        Stmt::TypeCase(tested, list, rest, pos) => {
            let list = type_arms(alloc, list.as_slice(), kept, budget)?;
            match rest {
                None => typecase_of(alloc, tested, list, None, *pos),
                Some(rest) => {
                    check_typecase(alloc, rest.as_slice(), tested, list, *pos, kept, budget)
                }
            }
        }
        Stmt::Protect(body, list, rest, pos) => {
            let body = check_leaving(alloc, body.as_slice(), kept, budget)?;
            let list = type_arms(alloc, list.as_slice(), kept, budget)?;
            match rest {
                None => Ok(Stmt::Protect(body, list, None, *pos)),
                Some(rest) => check_protect(alloc, rest.as_slice(), body, list, *pos, kept, budget),
            }
        }
        Stmt::Declare(names, ty, value) => {
            copy_declaration(alloc, names.as_slice(), ty, value, budget)
        }
        Stmt::Assign(to, value, pos) => copy_assignment(alloc, to, value, *pos, budget),
        Stmt::Quit(pos) => Ok(Stmt::Quit(*pos)),
        Stmt::Raise(value, pos) => Ok(Stmt::Raise(copy_expr(alloc, value, budget)?, *pos)),
        Stmt::Assert(test, pos) => Ok(Stmt::Assert(copy_expr(alloc, test, budget)?, *pos)),
        Stmt::ExprStmt(e) => Ok(Stmt::ExprStmt(copy_expr(alloc, e, budget)?)),
    }
}

/// The `if` with these statements after `else`, whose arms are done.
#[cycle(statement)]
fn check_if(
    alloc: Global,
    rest: &[Stmt],
    list: Items<BranchArm>,
    pos: Pos,
    kept: &ExitConditions<'_>,
    budget: &mut Budget,
) -> Result<Stmt, Failure>
    ensures { IfOk result (λ woven. woven ≡ stmt.If list (map (leaving_by kept.now) rest.now) pos) }
{
    Ok(Stmt::If(list, check_leaving(alloc, rest, kept, budget)?, pos))
}

/// The `case` with these statements after `else`, whose branches are done.
#[cycle(statement)]
fn check_case(
    alloc: Global,
    rest: &[Stmt],
    tested: &Expr,
    list: Items<CaseArm>,
    pos: Pos,
    kept: &ExitConditions<'_>,
    budget: &mut Budget,
) -> Result<Stmt, Failure>
    ensures { IfOk result (λ woven. woven ≡ stmt.Case tested.now list (Some (map (leaving_by kept.now) rest.now)) pos) }
{
    let rest = check_leaving(alloc, rest, kept, budget)?;
    case_of(alloc, tested, list, Some(rest), pos, budget)
}

/// The `typecase` with these statements after `else`, whose branches are done.
#[cycle(statement)]
fn check_typecase(
    alloc: Global,
    rest: &[Stmt],
    tested: &Local,
    list: Items<TypeArm>,
    pos: Pos,
    kept: &ExitConditions<'_>,
    budget: &mut Budget,
) -> Result<Stmt, Failure>
    ensures { IfOk result (λ woven. woven ≡ stmt.TypeCase tested.now list (Some (map (leaving_by kept.now) rest.now)) pos) }
{
    let rest = check_leaving(alloc, rest, kept, budget)?;
    typecase_of(alloc, tested, list, Some(rest), pos)
}

/// The `protect` with these statements after `else`, of which all else is done.
#[cycle(statement)]
fn check_protect(
    alloc: Global,
    rest: &[Stmt],
    body: Items<Stmt>,
    list: Items<TypeArm>,
    pos: Pos,
    kept: &ExitConditions<'_>,
    budget: &mut Budget,
) -> Result<Stmt, Failure>
    ensures { IfOk result (λ woven. woven ≡ stmt.Protect body list (Some (map (leaving_by kept.now) rest.now)) pos) }
{
    let rest = check_leaving(alloc, rest, kept, budget)?;
    Ok(Stmt::Protect(body, list, Some(rest), pos))
}

/// The same in the arms of an `if`.
#[tactic(auto, using(crate::proofs::LeavingAt::lists))]
#[cycle(statement)]
fn arms(
    alloc: Global,
    list: &[BranchArm],
    kept: &ExitConditions<'_>,
    budget: &mut Budget,
) -> Result<Items<BranchArm>, Failure>
    ensures { IfOk result (λ woven. woven ≡ map (leaving_arm_by kept.now) list.now) }
{
    let mut woven = Items::new(alloc);
    for one in list {
        woven.push(arm(alloc, one, kept, budget)?)?;
    }
    Ok(woven)
}

#[tactic(auto, using(crate::proofs::LeavingAt::arms))]
#[cycle(statement)]
fn arm(
    alloc: Global,
    of: &BranchArm,
    kept: &ExitConditions<'_>,
    budget: &mut Budget,
) -> Result<BranchArm, Failure>
    ensures { IfOk result (λ woven. woven ≡ leaving_arm_by kept.now of.now) }
{
    let test = copy_expr(alloc, &of.test, budget)?;
    let body = check_leaving(alloc, of.body.as_slice(), kept, budget)?;
    Ok(BranchArm { test, body })
}

/// The same in the branches of a `case`.
#[tactic(auto, using(crate::proofs::LeavingAt::lists))]
#[cycle(statement)]
fn case_arms(
    alloc: Global,
    list: &[CaseArm],
    kept: &ExitConditions<'_>,
    budget: &mut Budget,
) -> Result<Items<CaseArm>, Failure>
    ensures { IfOk result (λ woven. woven ≡ map (leaving_case_arm_by kept.now) list.now) }
{
    let mut woven = Items::new(alloc);
    for one in list {
        woven.push(case_arm(alloc, one, kept, budget)?)?;
    }
    Ok(woven)
}

#[tactic(auto, using(crate::proofs::LeavingAt::arms))]
#[cycle(statement)]
fn case_arm(
    alloc: Global,
    of: &CaseArm,
    kept: &ExitConditions<'_>,
    budget: &mut Budget,
) -> Result<CaseArm, Failure>
    ensures { IfOk result (λ woven. woven ≡ leaving_case_arm_by kept.now of.now) }
{
    let values = copy_exprs(alloc, of.values.as_slice(), budget)?;
    let body = check_leaving(alloc, of.body.as_slice(), kept, budget)?;
    Ok(CaseArm { values, body })
}

/// The same in the branches of a `typecase` or a `protect`.
#[tactic(auto, using(crate::proofs::LeavingAt::lists))]
#[cycle(statement)]
fn type_arms(
    alloc: Global,
    list: &[TypeArm],
    kept: &ExitConditions<'_>,
    budget: &mut Budget,
) -> Result<Items<TypeArm>, Failure>
    ensures { IfOk result (λ woven. woven ≡ map (leaving_type_arm_by kept.now) list.now) }
{
    let mut woven = Items::new(alloc);
    for one in list {
        woven.push(type_arm(alloc, one, kept, budget)?)?;
    }
    Ok(woven)
}

#[tactic(auto, using(crate::proofs::LeavingAt::arms))]
#[cycle(statement)]
fn type_arm(
    alloc: Global,
    of: &TypeArm,
    kept: &ExitConditions<'_>,
    budget: &mut Budget,
) -> Result<TypeArm, Failure>
    ensures { IfOk result (λ woven. woven ≡ leaving_type_arm_by kept.now of.now) }
{
    let ty = copy_type(alloc, &of.ty, budget)?;
    let body = check_leaving(alloc, of.body.as_slice(), kept, budget)?;
    Ok(TypeArm { ty, body })
}

/// What replaces a `return` or a `yield`: itself, where nothing is kept.
fn checked_giving(
    alloc: Global,
    giving: Giving,
    value: &Option<Expr>,
    pos: Pos,
    kept: &ExitConditions<'_>,
    budget: &mut Budget,
) -> Result<Stmt, Failure>
    ensures { IfOk result (λ woven. woven ≡ checked kept.now.conditions.now kept.now.result.now giving value.now pos) }
{
    if kept.conditions.is_empty() {
        return Ok(giving.form(copy_optional_expr(alloc, value, budget)?, pos));
    }
    let list = checked_list(alloc, giving, value, pos, kept, budget)?;
    Ok(always(alloc, list, pos)?)
}

/// `result`, declared with the value, if there is one, the checks of what is kept, and `result` returned or yielded.
fn checked_list(
    alloc: Global,
    giving: Giving,
    value: &Option<Expr>,
    pos: Pos,
    kept: &ExitConditions<'_>,
    budget: &mut Budget,
) -> Result<Items<Stmt>, Failure>
    ensures { IfOk result (λ list. list ≡ checked_list kept.now.conditions.now kept.now.result.now giving value.now pos) }
{
    match value {
        None => {
            let mut list = Items::new(alloc);
            add_asserts(alloc, kept.conditions, &mut list, budget)?;
            list.push(giving.form(None, pos))?;
            Ok(list)
        }
        Some(value) => {
            let mut list = Items::new(alloc);
            list.push(result_declared(alloc, value, pos, kept.result, budget)?)?;
            add_asserts(alloc, kept.conditions, &mut list, budget)?;
            list.push(giving.form(Some(result_read(alloc, pos)?), pos))?;
            Ok(list)
        }
    }
}

/// `result`, declared with the value.
fn result_declared(
    alloc: Global,
    value: &Expr,
    pos: Pos,
    ty: &Option<Ty>,
    budget: &mut Budget,
) -> Result<Stmt, Failure>
    ensures { IfOk result (λ declared. declared ≡ result_declared ty.now value.now pos) }
{
    let mut names = Items::new(alloc);
    names.push(result_name(alloc, pos)?)?;
    let ty = copy_optional_type(alloc, ty, budget)?;
    Ok(Stmt::Declare(names, ty, Some(copy_expr(alloc, value, budget)?)))
}

fn result_name(alloc: Global, pos: Pos) -> Result<Local, AllocError>
    ensures { IfOk result (λ name. name ≡ result_local pos) }
{
    let name = Name::from_slice(alloc, RESULT)?;
    Ok(Local { name, pos })
}

/// `result`, as it is read.
fn result_read(alloc: Global, pos: Pos) -> Result<Expr, AllocError>
    ensures { IfOk result (λ read. read ≡ result_read pos) }
{
    let name = Name::from_slice(alloc, RESULT)?;
    Ok(Expr::Call(ExprReceiver::Implied, name, Items::new(alloc), pos))
}

/// The variable that a `post` names by the word.
const RESULT: &[u8] = b"result";

/// The statements in an `if` whose test is true.
fn always(alloc: Global, body: Items<Stmt>, pos: Pos) -> Result<Stmt, AllocError>
    ensures { IfOk result (λ woven. woven ≡ always body pos) }
{
    let test = Expr::Bool(true, pos);
    let mut list = Items::new(alloc);
    list.push(BranchArm { test, body })?;
    Ok(Stmt::If(list, Items::new(alloc), pos))
}

/// The `case` of all that is done, with a copy of the tested expression.
fn case_of(
    alloc: Global,
    tested: &Expr,
    list: Items<CaseArm>,
    rest: Option<Items<Stmt>>,
    pos: Pos,
    budget: &mut Budget,
) -> Result<Stmt, Failure>
    ensures { IfOk result (λ woven. woven ≡ stmt.Case tested.now list rest pos) }
{
    Ok(Stmt::Case(copy_expr(alloc, tested, budget)?, list, rest, pos))
}

/// The `typecase` of all that is done, with a copy of the tested variable.
fn typecase_of(
    alloc: Global,
    tested: &Local,
    list: Items<TypeArm>,
    rest: Option<Items<Stmt>>,
    pos: Pos,
) -> Result<Stmt, Failure>
    ensures { IfOk result (λ woven. woven ≡ stmt.TypeCase tested.now list rest pos) }
{
    Ok(Stmt::TypeCase(copy_local(alloc, tested)?, list, rest, pos))
}

/// A copy of a declaration.
fn copy_declaration(
    alloc: Global,
    names: &[Local],
    ty: &Option<Ty>,
    value: &Option<Expr>,
    budget: &mut Budget,
) -> Result<Stmt, Failure>
    ensures { IfOk result (λ copy. copy ≡ stmt.Declare names.now ty.now value.now) }
{
    let names = copy_locals(alloc, names)?;
    let ty = copy_optional_type(alloc, ty, budget)?;
    Ok(Stmt::Declare(names, ty, copy_optional_expr(alloc, value, budget)?))
}

/// A copy of an assignment.
fn copy_assignment(
    alloc: Global,
    to: &Expr,
    value: &Expr,
    pos: Pos,
    budget: &mut Budget,
) -> Result<Stmt, Failure>
    ensures { IfOk result (λ copy. copy ≡ stmt.Assign to.now value.now pos) }
{
    let to = copy_expr(alloc, to, budget)?;
    Ok(Stmt::Assign(to, copy_expr(alloc, value, budget)?, pos))
}

fn copy_local(alloc: Global, of: &Local) -> Result<Local, AllocError>
    ensures { IfOk result (λ copy. copy ≡ of.now) }
{
    let name = of.name.copy(alloc)?;
    Ok(Local { name, pos: of.pos })
}

fn copy_locals(alloc: Global, list: &[Local]) -> Result<Items<Local>, AllocError>
    ensures { IfOk result (λ copies. copies ≡ list.now) }
{
    let mut copies = Items::new(alloc);
    for one in list {
        copies.push(copy_local(alloc, one)?)?;
    }
    Ok(copies)
}
