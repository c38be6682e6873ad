//! Typed statements, each in a line, with those inside it below, one level deeper.

use crate::typed_expr::{Scope, put_expr};
use crate::writer::{Nesting, Writer};
use sa_typed::{LoopExit, TypedArm, TypedBranch, TypedExpr, TypedStmt};
use std::alloc::AllocError;

/// Statements in order.
#[cycle(write_typed_stmt)]
pub(crate) fn put_stmts(
    to: &mut Writer,
    scope: Scope<'_>,
    stmts: &[TypedStmt],
) -> Result<(), AllocError> {
    to.deeper();
    for stmt in stmts {
        put_stmt(to, scope, stmt)?;
    }
    to.shallower();
    Ok(())
}

/// A statement.
#[cycle(write_typed_stmt)]
fn put_stmt(to: &mut Writer, scope: Scope<'_>, stmt: &TypedStmt) -> Result<(), AllocError> {
    match stmt {
        TypedStmt::If(tests, other) => {
            put_tests(to, scope, tests.as_slice())?;
            put_else(to, scope, other.as_slice())
        }
        TypedStmt::Loop(number, body) => {
            to.begin("loop ")?;
            to.number(*number)?;
            to.end()?;
            put_stmts(to, scope, body.as_slice())
        }
        TypedStmt::TypeCase(var, arms, other, _) => {
            to.begin("typecase ")?;
            to.numbered("v", *var)?;
            to.end()?;
            put_arms(to, scope, Arms::OfTypecase, arms.as_slice())?;
            if let Some(other) = other {
                to.line("else")?;
                put_stmts(to, scope, other.as_slice())?;
            }
            Ok(())
        }
        TypedStmt::Protect(body, arms, other) => {
            to.line("protect")?;
            put_stmts(to, scope, body.as_slice())?;
            put_arms(to, scope, Arms::OfProtect, arms.as_slice())?;
            if let Some(other) = other {
                to.line("else")?;
                put_stmts(to, scope, other.as_slice())?;
            }
            Ok(())
        }
        _ => put_simple(to, scope, stmt),
    }
}

/// A statement with none inside it.
fn put_simple(to: &mut Writer, scope: Scope<'_>, stmt: &TypedStmt) -> Result<(), AllocError> {
    match stmt {
        TypedStmt::Assign(var, value) => {
            to.begin("assign ")?;
            to.numbered("v", *var)?;
            to.put(" := ")?;
            put_expr(to, scope, value, Nesting::Whole)?;
            to.end()
        }
        TypedStmt::ExprStmt(value) => put_with(to, scope, "do ", value),
        TypedStmt::ExitLoop(LoopExit::Break) => to.line("break"),
        TypedStmt::ExitLoop(LoopExit::While(test)) => put_with(to, scope, "while ", test),
        TypedStmt::ExitLoop(LoopExit::Until(test)) => put_with(to, scope, "until ", test),
        TypedStmt::Return(value) => put_with_optional(to, scope, "return", value),
        TypedStmt::Yield(value) => put_with_optional(to, scope, "yield", value),
        TypedStmt::Quit => to.line("quit"),
        TypedStmt::Raise(value, _) => put_with(to, scope, "raise ", value),
        TypedStmt::Fault(kind, _) => {
            to.begin("fault ")?;
            to.put(kind.text())?;
            to.end()
        }
        _ => Ok(()),
    }
}

/// A line of a word and an expression.
fn put_with(
    to: &mut Writer,
    scope: Scope<'_>,
    word: &str,
    e: &TypedExpr,
) -> Result<(), AllocError> {
    to.begin(word)?;
    put_expr(to, scope, e, Nesting::Whole)?;
    to.end()
}

/// A line of a word, and of an expression where there is one.
fn put_with_optional(
    to: &mut Writer,
    scope: Scope<'_>,
    word: &str,
    e: &Option<TypedExpr>,
) -> Result<(), AllocError> {
    to.begin(word)?;
    if let Some(e) = e {
        to.put(" ")?;
        put_expr(to, scope, e, Nesting::Whole)?;
    }
    to.end()
}

/// The branch of an `else`, where it has statements.
#[cycle(write_typed_stmt)]
fn put_else(to: &mut Writer, scope: Scope<'_>, stmts: &[TypedStmt]) -> Result<(), AllocError> {
    if stmts.is_empty() {
        return Ok(());
    }
    to.line("else")?;
    to.deeper();
    for stmt in stmts {
        put_stmt(to, scope, stmt)?;
    }
    to.shallower();
    Ok(())
}

/// Tests with their statements: the statements of the first line in which a test is true are done.
#[cycle(write_typed_stmt)]
fn put_tests(to: &mut Writer, scope: Scope<'_>, tests: &[TypedBranch]) -> Result<(), AllocError> {
    let mut first = true;
    for test in tests {
        let word = if first { "if " } else { "elsif " };
        put_values(to, scope, word, test.tests.as_slice())?;
        put_stmts(to, scope, test.body.as_slice())?;
        first = false;
    }
    Ok(())
}

/// A line of a word and expressions.
fn put_values(
    to: &mut Writer,
    scope: Scope<'_>,
    word: &str,
    values: &[TypedExpr],
) -> Result<(), AllocError> {
    let mut first = true;
    to.begin("")?;
    for value in values {
        to.put(if first { word } else { ", " })?;
        put_expr(to, scope, value, Nesting::Whole)?;
        first = false;
    }
    to.end()
}

/// What branches belong to. Those of a typecase have a variable for the tested value.
#[derive(Clone, Copy, PartialEq, Eq)]
enum Arms {
    OfTypecase,
    OfProtect,
}

#[cycle(write_typed_stmt)]
fn put_arms(
    to: &mut Writer,
    scope: Scope<'_>,
    of: Arms,
    arms: &[TypedArm],
) -> Result<(), AllocError> {
    for arm in arms {
        to.begin("when ")?;
        scope.symbols.put_type(to, arm.ty)?;
        if of == Arms::OfTypecase {
            to.numbered(" as v", arm.var)?;
        }
        to.end()?;
        put_stmts(to, scope, arm.body.as_slice())?;
    }
    Ok(())
}
