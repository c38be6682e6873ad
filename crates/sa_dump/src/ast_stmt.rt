//! Statements of a source, each in a line, with those inside it below, one level deeper.

use crate::ast_expr::put_expr;
use crate::writer::{Nesting, Writer};
use sa_ast::{BranchArm, CaseArm, Expr, Local, Stmt, Ty, TypeArm};
use std::alloc::AllocError;

/// Statements in order.
pub(crate) fn put_stmts(to: &mut Writer, stmts: &[Stmt]) -> Result<(), AllocError> {
    for stmt in stmts {
        put_stmt(to, stmt)?;
    }
    Ok(())
}

/// A statement.
#[cycle(write_source_stmt)]
fn put_stmt(to: &mut Writer, stmt: &Stmt) -> Result<(), AllocError> {
    match stmt {
        Stmt::If(arms, other, _) => {
            put_arms(to, arms.as_slice())?;
            put_else(to, other.as_slice())
        }
        Stmt::Loop(body, _) => {
            to.line("loop")?;
            put_block(to, body.as_slice())
        }
        Stmt::Case(value, arms, other, _) => {
            put_with(to, "case ", value)?;
            put_case_arms(to, arms.as_slice())?;
            if let Some(other) = other {
                to.line("else")?;
                put_block(to, other.as_slice())?;
            }
            Ok(())
        }
        Stmt::TypeCase(local, arms, other, _) => {
            to.begin("typecase ")?;
            to.bytes(local.name.as_slice())?;
            to.end()?;
            put_type_arms(to, arms.as_slice())?;
            if let Some(other) = other {
                to.line("else")?;
                put_block(to, other.as_slice())?;
            }
            Ok(())
        }
        Stmt::Protect(body, arms, other, _) => {
            to.line("protect")?;
            put_block(to, body.as_slice())?;
            put_type_arms(to, arms.as_slice())?;
            if let Some(other) = other {
                to.line("else")?;
                put_block(to, other.as_slice())?;
            }
            Ok(())
        }
        _ => put_simple(to, stmt),
    }
}

/// A statement with none inside it.
fn put_simple(to: &mut Writer, stmt: &Stmt) -> Result<(), AllocError> {
    match stmt {
        Stmt::Declare(locals, ty, value) => put_declaration(to, locals.as_slice(), ty, value),
        Stmt::Assign(place, value, _) => {
            to.begin("assign ")?;
            put_expr(to, place, Nesting::Whole)?;
            to.put(" := ")?;
            put_expr(to, value, Nesting::Whole)?;
            to.end()
        }
        Stmt::Return(value, _) => put_with_optional(to, "return", value),
        Stmt::Yield(value, _) => put_with_optional(to, "yield", value),
        Stmt::Quit(_) => to.line("quit"),
        Stmt::Raise(value, _) => put_with(to, "raise ", value),
        Stmt::Assert(test, _) => put_with(to, "assert ", test),
        Stmt::ExprStmt(e) => put_with(to, "do ", e),
        _ => Ok(()),
    }
}

/// A declaration, as `declare i := int 1` or `declare a, b: INT`.
fn put_declaration(
    to: &mut Writer,
    locals: &[Local],
    ty: &Option<Ty>,
    value: &Option<Expr>,
) -> Result<(), AllocError> {
    let mut first = true;
    to.begin("")?;
    for local in locals {
        to.put(if first { "declare " } else { ", " })?;
        to.bytes(local.name.as_slice())?;
        first = false;
    }
    to.of_type(ty)?;
    put_initial(to, value)?;
    to.end()
}

/// The value of what is declared, where one is written.
pub(crate) fn put_initial(to: &mut Writer, value: &Option<Expr>) -> Result<(), AllocError> {
    match value {
        Some(value) => {
            to.put(" := ")?;
            put_expr(to, value, Nesting::Whole)
        }
        None => Ok(()),
    }
}

/// A line of a word and an expression.
fn put_with(to: &mut Writer, word: &str, e: &Expr) -> Result<(), AllocError> {
    to.begin(word)?;
    put_expr(to, e, Nesting::Whole)?;
    to.end()
}

/// A line of a word, and of an expression where there is one.
fn put_with_optional(to: &mut Writer, word: &str, e: &Option<Expr>) -> Result<(), AllocError> {
    to.begin(word)?;
    if let Some(e) = e {
        to.put(" ")?;
        put_expr(to, e, Nesting::Whole)?;
    }
    to.end()
}

/// Statements inside the last one.
#[cycle(write_source_stmt)]
fn put_block(to: &mut Writer, stmts: &[Stmt]) -> Result<(), AllocError> {
    to.deeper();
    for stmt in stmts {
        put_stmt(to, stmt)?;
    }
    to.shallower();
    Ok(())
}

/// The branch of an `else`, where it has statements.
#[cycle(write_source_stmt)]
fn put_else(to: &mut Writer, stmts: &[Stmt]) -> Result<(), AllocError> {
    if stmts.is_empty() {
        return Ok(());
    }
    to.line("else")?;
    to.deeper();
    for stmt in stmts {
        put_stmt(to, stmt)?;
    }
    to.shallower();
    Ok(())
}

#[cycle(write_source_stmt)]
fn put_arms(to: &mut Writer, arms: &[BranchArm]) -> Result<(), AllocError> {
    let mut first = true;
    for arm in arms {
        put_with(to, if first { "if " } else { "elsif " }, &arm.test)?;
        put_block(to, arm.body.as_slice())?;
        first = false;
    }
    Ok(())
}

#[cycle(write_source_stmt)]
fn put_case_arms(to: &mut Writer, arms: &[CaseArm]) -> Result<(), AllocError> {
    for arm in arms {
        put_values(to, arm.values.as_slice())?;
        put_block(to, arm.body.as_slice())?;
    }
    Ok(())
}

/// The line of a `when` with its values.
fn put_values(to: &mut Writer, values: &[Expr]) -> Result<(), AllocError> {
    let mut first = true;
    to.begin("")?;
    for value in values {
        to.put(if first { "when " } else { ", " })?;
        put_expr(to, value, Nesting::Whole)?;
        first = false;
    }
    to.end()
}

#[cycle(write_source_stmt)]
fn put_type_arms(to: &mut Writer, arms: &[TypeArm]) -> Result<(), AllocError> {
    for arm in arms {
        to.begin("when ")?;
        to.ty(&arm.ty)?;
        to.end()?;
        put_block(to, arm.body.as_slice())?;
    }
    Ok(())
}
