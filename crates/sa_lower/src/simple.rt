//! The statements that have no statements inside and are left only at their end.

ghost use Rattle.sa_lower.specs.TypedStatements.{env_of, stmt_context};
ghost use Rattle.sa_lower_expr.specs.Typed.{HasValue, IsTyped};

use crate::context::StmtContext;
use crate::value::{evaluated, value_of};
use failure::Failure;
use sa_cfg_builder::ProgramBuilder;
use sa_typed::TypedExpr;
use std::alloc::Global;

/// Assigns the value of an expression to a variable.
pub(crate) fn assign(
    alloc: Global,
    around: &StmtContext<'_>,
    draft: &mut ProgramBuilder,
    var: u32,
    e: &TypedExpr,
) -> Result<(), Failure>
    requires { HasValue (env_of around.now) (stmt_context around.now) e.now }
{
    let from = value_of(alloc, around, draft, e)?;
    draft.body.move_to(var, from)
}

/// An expression that is evaluated for its effects.
pub(crate) fn perform(
    alloc: Global,
    around: &StmtContext<'_>,
    draft: &mut ProgramBuilder,
    e: &TypedExpr,
) -> Result<(), Failure>
    requires { IsTyped (env_of around.now) (stmt_context around.now) e.now }
{
    let _value = evaluated(alloc, around, draft, e)?;
    Ok(())
}
