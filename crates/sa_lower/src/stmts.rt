//! Lists of statements, and a statement by its form.

ghost use Rattle.std.specs.Prelude.{IsTrue};
ghost use Rattle.sa_typed.specs.Copy.{block_of};
ghost use Rattle.sa_lower.specs.TypedStatements.{AreWellTypedStmts, IsWellTypedStmt, env_of, stmt_context};
ghost use Rattle.sa_typing.specs.Contexts.{env, outside};
ghost use Rattle.sa_typing.specs.Statements.{well_stmts};

use crate::context::StmtContext;
use crate::entries::if_entries;
use crate::instance::{quit, yield_value};
use crate::leaving::{leave_body, leave_loop, raise, stop};
use crate::loop_sites::LoopSites;
use crate::looping::loop_stmt;
use crate::protecting::{choose_arm, forward_raise, guarded, other_stmts, protect_arms};
use crate::simple::{assign, perform};
use crate::typecase::{no_arm_fits, typecase_arms};
use failure::Failure;
use sa_cfg::Terminator;
use sa_cfg_builder::{LoweringContext, ProgramBuilder};
use sa_typed::TypedStmt;
use sa_typing::TypingEnv;
use std::alloc::Global;

/// Lowers the statements of a feature at the end of the open block. The block that is open afterwards is the one after them.
///
/// # Errors
///
/// A `Failure`.
#[tactic(auto, using(crate::proofs::StmtParts::parts))]
pub fn lower_body(
    alloc: Global,
    scope: &TypingEnv<'_>,
    draft: &mut ProgramBuilder,
    body: &[TypedStmt],
) -> Result<(), Failure>
    requires { IsTrue (well_stmts (env scope.now) outside (block_of body.now)) }
{
    let sites = LoopSites::of(alloc, scope.sites)?;
    let around = StmtContext {
        scope,
        sites: &sites,
        inside: LoweringContext::of_body(),
    };
    stmts(alloc, &around, draft, body)
}

/// Lowers statements one after the other.
#[cycle(stmts)]
pub(crate) fn stmts(
    alloc: Global,
    around: &StmtContext<'_>,
    draft: &mut ProgramBuilder,
    list: &[TypedStmt],
) -> Result<(), Failure>
    requires { AreWellTypedStmts (env_of around.now) (stmt_context around.now) list.now }
{
    for s in list {
        stmt(alloc, around, draft, s)?;
    }
    Ok(())
}

/// Lowers a statement.
#[tactic(auto, using(crate::proofs::StmtParts::parts))]
#[cycle(stmts)]
fn stmt(
    alloc: Global,
    around: &StmtContext<'_>,
    draft: &mut ProgramBuilder,
    s: &TypedStmt,
) -> Result<(), Failure>
    requires { IsWellTypedStmt (env_of around.now) (stmt_context around.now) s.now }
{
    match s {
        TypedStmt::Assign(var, e) => assign(alloc, around, draft, *var, e),
        TypedStmt::ExprStmt(e) => perform(alloc, around, draft, e),
        TypedStmt::If(entries, other) => {
            let after = if_entries(alloc, around, draft, entries.as_slice())?;
            else_stmts(alloc, around, draft, other.as_slice(), after)
        }
        TypedStmt::Loop(number, body) => loop_stmt(alloc, around, draft, *number, body.as_slice()),
        TypedStmt::ExitLoop(exit) => leave_loop(alloc, around, draft, exit),
        TypedStmt::TypeCase(var, arms, other, pos) => {
            let after = typecase_arms(alloc, around, draft, *var, arms.as_slice())?;
            match (after, other) {
                (None, _) => Ok(()),
                (Some(after), None) => no_arm_fits(alloc, around, draft, *pos, after),
                (Some(after), Some(other)) => {
                    else_stmts(alloc, around, draft, other.as_slice(), after)
                }
            }
        }
        TypedStmt::Protect(body, arms, other) => {
            let arms = arms.as_slice();
            let protect = guarded(alloc, around, draft, body.as_slice())?;
            let blocks = choose_arm(alloc, around, &mut draft.body, &protect, arms)?;
            match other {
                None => forward_raise(alloc, around, &mut draft.body, &protect)?,
                Some(other) => other_stmts(alloc, around, draft, &protect, other.as_slice())?,
            }
            protect_arms(alloc, around, draft, &protect, arms, blocks.as_slice())
        }
        TypedStmt::Return(e) => leave_body(alloc, around, draft, e),
        TypedStmt::Raise(e, pos) => raise(alloc, around, draft, e, *pos),
        TypedStmt::Yield(e) => yield_value(alloc, around, draft, e),
        TypedStmt::Quit => quit(alloc, &around.inside, &mut draft.body),
        TypedStmt::Fault(kind, pos) => stop(alloc, around, draft, *kind, *pos),
    }
}

/// The statements after the `else` of an `if` or a typecase. The block `after` is open afterwards.
#[cycle(stmts)]
fn else_stmts(
    alloc: Global,
    around: &StmtContext<'_>,
    draft: &mut ProgramBuilder,
    list: &[TypedStmt],
    after: u32,
) -> Result<(), Failure>
    requires { AreWellTypedStmts (env_of around.now) (stmt_context around.now) list.now }
{
    stmts(alloc, around, draft, list)?;
    draft.body.end(alloc, Terminator::Jump(after), after)
}
