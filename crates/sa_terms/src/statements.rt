//! The types that statements write.

use crate::expressions::{expr, exprs, optional_expr};
use crate::terms::{TypeTerms, optional_type, written};
use failure::Failure;
use sa_ast::{BranchArm, CaseArm, Expr, Stmt, Ty, TypeArm};

/// The types of statements, appended to those that the class writes before them.
#[cycle(stmt)]
pub(crate) fn stmts<'a>(terms: &mut TypeTerms<'a>, list: &'a [Stmt]) -> Result<(), Failure> {
    for each in list {
        stmt(terms, each)?;
    }
    Ok(())
}

#[cycle(stmt)]
fn stmt<'a>(terms: &mut TypeTerms<'a>, stmt: &'a Stmt) -> Result<(), Failure> {
    match stmt {
        Stmt::If(arms, otherwise, _) => {
            if_arms(terms, arms.as_slice())?;
            stmts(terms, otherwise.as_slice())
        }
        Stmt::Loop(body, _) => stmts(terms, body.as_slice()),
        Stmt::Case(value, arms, otherwise, _) => {
            expr(terms, value)?;
            case_arms(terms, arms.as_slice())?;
            let Some(rest) = otherwise else {
                return Ok(());
            };
            stmts(terms, rest.as_slice())
        }
        Stmt::TypeCase(_, arms, otherwise, _) => {
            type_arms(terms, arms.as_slice())?;
            let Some(rest) = otherwise else {
                return Ok(());
            };
            stmts(terms, rest.as_slice())
        }
        Stmt::Protect(body, arms, otherwise, _) => {
            stmts(terms, body.as_slice())?;
            type_arms(terms, arms.as_slice())?;
            let Some(rest) = otherwise else {
                return Ok(());
            };
            stmts(terms, rest.as_slice())
        }
        _ => without_inside(terms, stmt),
    }
}

/// The types of a statement without nested statements.
fn without_inside<'a>(terms: &mut TypeTerms<'a>, stmt: &'a Stmt) -> Result<(), Failure> {
    match stmt {
        Stmt::Declare(_, ty, value) => declaration(terms, ty, value),
        Stmt::Assign(to, value, _) => assignment(terms, to, value),
        Stmt::Return(value, _) => optional_expr(terms, value),
        Stmt::Yield(value, _) => optional_expr(terms, value),
        Stmt::Raise(value, _) => expr(terms, value),
        Stmt::Assert(test, _) => expr(terms, test),
        Stmt::ExprStmt(value) => expr(terms, value),
        _ => Ok(()),
    }
}

fn declaration<'a>(
    terms: &mut TypeTerms<'a>,
    ty: &'a Option<Ty>,
    value: &'a Option<Expr>,
) -> Result<(), Failure> {
    optional_type(terms, ty)?;
    optional_expr(terms, value)
}

fn assignment<'a>(terms: &mut TypeTerms<'a>, to: &'a Expr, value: &'a Expr) -> Result<(), Failure> {
    expr(terms, to)?;
    expr(terms, value)
}

#[cycle(stmt)]
fn if_arms<'a>(terms: &mut TypeTerms<'a>, arms: &'a [BranchArm]) -> Result<(), Failure> {
    for arm in arms {
        expr(terms, &arm.test)?;
        stmts(terms, arm.body.as_slice())?;
    }
    Ok(())
}

#[cycle(stmt)]
fn case_arms<'a>(terms: &mut TypeTerms<'a>, arms: &'a [CaseArm]) -> Result<(), Failure> {
    for arm in arms {
        exprs(terms, arm.values.as_slice())?;
        stmts(terms, arm.body.as_slice())?;
    }
    Ok(())
}

#[cycle(stmt)]
fn type_arms<'a>(terms: &mut TypeTerms<'a>, arms: &'a [TypeArm]) -> Result<(), Failure> {
    for arm in arms {
        written(terms, &arm.ty)?;
        stmts(terms, arm.body.as_slice())?;
    }
    Ok(())
}
