//! The expressions of statements.

ghost use Rattle.std.specs.Prelude.{◌≡◌, IfOk, is_some};
ghost use Rattle.sa_lower.specs.TypedStatements.{env_of, stmt_context};
ghost use Rattle.sa_lower_expr.specs.Typed.{HasValue, IsTyped, gives_value};

use crate::context::StmtContext;
use failure::Failure;
use sa_cfg_builder::ProgramBuilder;
use sa_lower_expr::{Owner, lower_expr};
use sa_typed::TypedExpr;
use std::alloc::Global;

/// Lowers the expression of a statement, or one of its tests, and gives the variable that holds its value, if it has one. What temporaries
/// held before isn't read any more.
pub(crate) fn evaluated(
    alloc: Global,
    around: &StmtContext<'_>,
    draft: &mut ProgramBuilder,
    e: &TypedExpr,
) -> Result<Option<u32>, Failure>
    requires { IsTyped (env_of around.now) (stmt_context around.now) e.now }
    ensures { IfOk result (λ var. is_some var ≡ gives_value (env_of around.now) (stmt_context around.now) e.now) }
{
    lower_expr(
        alloc,
        around.scope,
        Owner::Feature,
        &around.inside,
        draft,
        e,
    )
}

/// The same of an expression that has a value.
#[tactic(auto, using(crate::proofs::StmtParts::parts))]
pub(crate) fn value_of(
    alloc: Global,
    around: &StmtContext<'_>,
    draft: &mut ProgramBuilder,
    e: &TypedExpr,
) -> Result<u32, Failure>
    requires { HasValue (env_of around.now) (stmt_context around.now) e.now }
{
    match evaluated(alloc, around, draft, e)? {
        Some(value) => Ok(value),
        None => unreachable!(),
    }
}
