//! `if`: its entries in order, each with its tests and its statements.

ghost use Rattle.std.specs.Prelude.{All};
ghost use Rattle.sa_lower.specs.TypedStatements.{IsEntry, env_of, stmt_context};
ghost use Rattle.sa_lower_expr.specs.Typed.{HasValue};

use crate::context::StmtContext;
use crate::stmts::stmts;
use crate::value::value_of;
use failure::Failure;
use sa_cfg::Terminator;
use sa_cfg_builder::ProgramBuilder;
use sa_typed::{TypedBranch, TypedExpr};
use std::alloc::Global;

/// The entries of an `if`. Each goes on in the block after the `if` once its statements are done. That block is the result; the one that is
/// open at the end is the one where no test is true.
#[cycle(stmts)]
pub(crate) fn if_entries(
    alloc: Global,
    around: &StmtContext<'_>,
    draft: &mut ProgramBuilder,
    entries: &[TypedBranch],
) -> Result<u32, Failure>
    requires { All (IsEntry (env_of around.now) (stmt_context around.now)) entries.now }
{
    let after = draft.body.block(alloc)?;
    for entry in entries {
        if_entry(alloc, around, draft, entry, after)?;
    }
    Ok(after)
}

/// An entry of an `if`.
#[cycle(stmts)]
fn if_entry(
    alloc: Global,
    around: &StmtContext<'_>,
    draft: &mut ProgramBuilder,
    entry: &TypedBranch,
    after: u32,
) -> Result<(), Failure>
    requires { IsEntry (env_of around.now) (stmt_context around.now) entry.now }
{
    let next = entry_tests(alloc, around, draft, entry.tests.as_slice())?;
    stmts(alloc, around, draft, entry.body.as_slice())?;
    draft.body.end(alloc, Terminator::Jump(after), next)
}

/// The tests of an entry up to the first that is true. The block of the entry's statements is open afterwards, and the result is the block
/// to go on in where none is true.
fn entry_tests(
    alloc: Global,
    around: &StmtContext<'_>,
    draft: &mut ProgramBuilder,
    tests: &[TypedExpr],
) -> Result<u32, Failure>
    requires { All (HasValue (env_of around.now) (stmt_context around.now)) tests.now }
{
    let body = draft.body.block(alloc)?;
    let Some((first, others)) = tests.split_first() else {
        let next = draft.body.block(alloc)?;
        draft.body.end(alloc, Terminator::Jump(next), body)?;
        return Ok(next);
    };
    let mut last = value_of(alloc, around, draft, first)?;
    for test in others {
        last = next_test(alloc, around, draft, last, body, test)?;
    }
    let next = draft.body.block(alloc)?;
    draft.body.end(alloc, test_exit(last, body, next), body)?;
    Ok(next)
}

/// The next test of an entry, where the one before is false.
fn next_test(
    alloc: Global,
    around: &StmtContext<'_>,
    draft: &mut ProgramBuilder,
    before: u32,
    body: u32,
    test: &TypedExpr,
) -> Result<u32, Failure>
    requires { HasValue (env_of around.now) (stmt_context around.now) test.now }
{
    let next = draft.body.block(alloc)?;
    draft.body.end(alloc, test_exit(before, body, next), next)?;
    value_of(alloc, around, draft, test)
}

fn test_exit(test: u32, yes: u32, no: u32) -> Terminator {
    Terminator::Branch { test, yes, no }
}
