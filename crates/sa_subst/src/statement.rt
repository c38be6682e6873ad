//! Statements of an instance: one function for each kind of AST node.

ghost use Rattle.std.specs.Prelude.{◌≡◌, IfOk, map};
ghost use Rattle.sa_subst.specs.Table.{put_in};
ghost use Rattle.sa_subst.specs.Trees.{arm_with, case_arm_with, stmt_with, type_arm_with};

use crate::expression::{exprs, optional_expr, optional_type, subst_expr};
use crate::{Substitution, subst_with};
use failure::Failure;
use sa_ast::{BranchArm, CaseArm, Local, Stmt, TypeArm};
use sqlite_items::Items;
use std::alloc::Global;

/// The statement with the substitution made in each type that is written in it.
#[tactic(auto, using(crate::proofs::TreeTypes::statements))]
#[cycle(statement)]
fn stmt(alloc: Global, s: &Stmt, by: &Substitution<'_>) -> Result<Stmt, Failure>
    ensures { IfOk result (λ copy. copy ≡ stmt_with (put_in by.now) s.now) }
{
    match s {
        Stmt::If(list, rest, pos) => {
            let list = arms(alloc, list.as_slice(), by)?;
            Ok(Stmt::If(list, subst_stmts(alloc, rest.as_slice(), by)?, *pos))
        }
        Stmt::Loop(body, pos) => Ok(Stmt::Loop(subst_stmts(alloc, body.as_slice(), by)?, *pos)),
        Stmt::Case(tested, list, rest, pos) => {
            let tested = subst_expr(alloc, tested, by)?;
            let list = case_arms(alloc, list.as_slice(), by)?;
            let Some(rest) = rest else {
                return Ok(Stmt::Case(tested, list, None, *pos));
            };
            let rest = subst_stmts(alloc, rest.as_slice(), by)?;
            Ok(Stmt::Case(tested, list, Some(rest), *pos))
        }
        Stmt::TypeCase(tested, list, rest, pos) => {
            let tested = local(alloc, tested)?;
            let list = type_arms(alloc, list.as_slice(), by)?;
            let Some(rest) = rest else {
                return Ok(Stmt::TypeCase(tested, list, None, *pos));
            };
            let rest = subst_stmts(alloc, rest.as_slice(), by)?;
            Ok(Stmt::TypeCase(tested, list, Some(rest), *pos))
        }
        Stmt::Protect(body, list, rest, pos) => {
            let body = subst_stmts(alloc, body.as_slice(), by)?;
            let list = type_arms(alloc, list.as_slice(), by)?;
            let Some(rest) = rest else {
                return Ok(Stmt::Protect(body, list, None, *pos));
            };
            let rest = subst_stmts(alloc, rest.as_slice(), by)?;
            Ok(Stmt::Protect(body, list, Some(rest), *pos))
        }
        Stmt::Declare(names, ty, value) => {
            let names = locals(alloc, names.as_slice())?;
            let ty = optional_type(alloc, ty, by)?;
            Ok(Stmt::Declare(names, ty, optional_expr(alloc, value, by)?))
        }
        Stmt::Assign(to, value, pos) => {
            let to = subst_expr(alloc, to, by)?;
            Ok(Stmt::Assign(to, subst_expr(alloc, value, by)?, *pos))
        }
        Stmt::Return(value, pos) => Ok(Stmt::Return(optional_expr(alloc, value, by)?, *pos)),
        Stmt::Yield(value, pos) => Ok(Stmt::Yield(optional_expr(alloc, value, by)?, *pos)),
        Stmt::Quit(pos) => Ok(Stmt::Quit(*pos)),
        Stmt::Raise(value, pos) => Ok(Stmt::Raise(subst_expr(alloc, value, by)?, *pos)),
        Stmt::Assert(test, pos) => Ok(Stmt::Assert(subst_expr(alloc, test, by)?, *pos)),
        Stmt::ExprStmt(e) => Ok(Stmt::ExprStmt(subst_expr(alloc, e, by)?)),
    }
}

/// The statements with the substitution made in each type that is written in them. It fails only where memory runs out.
#[tactic(auto, using(crate::proofs::TreeTypes::statements))]
#[cycle(statement)]
pub fn subst_stmts(
    alloc: Global,
    list: &[Stmt],
    by: &Substitution<'_>,
) -> Result<Items<Stmt>, Failure>
    ensures { IfOk result (λ copies. copies ≡ map (stmt_with (put_in by.now)) list.now) }
{
    let mut copies = Items::new(alloc);
    for s in list {
        copies.push(stmt(alloc, s, by)?)?;
    }
    Ok(copies)
}

/// The same in the arms of an `if`.
#[tactic(auto, using(crate::proofs::TreeTypes::statements))]
#[cycle(statement)]
fn arms(
    alloc: Global,
    list: &[BranchArm],
    by: &Substitution<'_>,
) -> Result<Items<BranchArm>, Failure>
    ensures { IfOk result (λ copies. copies ≡ map (arm_with (put_in by.now)) list.now) }
{
    let mut copies = Items::new(alloc);
    for one in list {
        copies.push(arm(alloc, one, by)?)?;
    }
    Ok(copies)
}

/// The same in an arm of an `if`.
#[tactic(auto, using(crate::proofs::TreeTypes::statements))]
#[cycle(statement)]
fn arm(alloc: Global, of: &BranchArm, by: &Substitution<'_>) -> Result<BranchArm, Failure>
    ensures { IfOk result (λ copy. copy ≡ arm_with (put_in by.now) of.now) }
{
    let test = subst_expr(alloc, &of.test, by)?;
    let body = subst_stmts(alloc, of.body.as_slice(), by)?;
    Ok(BranchArm { test, body })
}

/// The same in the branches of a `case`.
#[tactic(auto, using(crate::proofs::TreeTypes::statements))]
#[cycle(statement)]
fn case_arms(
    alloc: Global,
    list: &[CaseArm],
    by: &Substitution<'_>,
) -> Result<Items<CaseArm>, Failure>
    ensures { IfOk result (λ copies. copies ≡ map (case_arm_with (put_in by.now)) list.now) }
{
    let mut copies = Items::new(alloc);
    for one in list {
        copies.push(case_arm(alloc, one, by)?)?;
    }
    Ok(copies)
}

/// The same in a branch of a `case`.
#[tactic(auto, using(crate::proofs::TreeTypes::statements))]
#[cycle(statement)]
fn case_arm(alloc: Global, of: &CaseArm, by: &Substitution<'_>) -> Result<CaseArm, Failure>
    ensures { IfOk result (λ copy. copy ≡ case_arm_with (put_in by.now) of.now) }
{
    let values = exprs(alloc, of.values.as_slice(), by)?;
    let body = subst_stmts(alloc, of.body.as_slice(), by)?;
    Ok(CaseArm { values, body })
}

/// The same in the branches of a `typecase` or a `protect`.
#[tactic(auto, using(crate::proofs::TreeTypes::statements))]
#[cycle(statement)]
fn type_arms(
    alloc: Global,
    list: &[TypeArm],
    by: &Substitution<'_>,
) -> Result<Items<TypeArm>, Failure>
    ensures { IfOk result (λ copies. copies ≡ map (type_arm_with (put_in by.now)) list.now) }
{
    let mut copies = Items::new(alloc);
    for one in list {
        copies.push(type_arm(alloc, one, by)?)?;
    }
    Ok(copies)
}

/// The same in a branch of a `typecase` or a `protect`.
#[tactic(auto, using(crate::proofs::TreeTypes::statements))]
#[cycle(statement)]
fn type_arm(alloc: Global, of: &TypeArm, by: &Substitution<'_>) -> Result<TypeArm, Failure>
    ensures { IfOk result (λ copy. copy ≡ type_arm_with (put_in by.now) of.now) }
{
    let ty = subst_with(alloc, &of.ty, by)?;
    let body = subst_stmts(alloc, of.body.as_slice(), by)?;
    Ok(TypeArm { ty, body })
}

/// A copy of the name.
fn local(alloc: Global, of: &Local) -> Result<Local, Failure>
    ensures { IfOk result (λ copy. copy ≡ of.now) }
{
    Ok(Local {
        name: of.name.copy(alloc)?,
        pos: of.pos,
    })
}

fn locals(alloc: Global, list: &[Local]) -> Result<Items<Local>, Failure>
    ensures { IfOk result (λ copies. copies ≡ list.now) }
{
    let mut copies = Items::new(alloc);
    for one in list {
        copies.push(local(alloc, one)?)?;
    }
    Ok(copies)
}
