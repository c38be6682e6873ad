//! The statements of iters: `yield` and `quit`.

ghost use Rattle.std.specs.Prelude.{IfSome};
ghost use Rattle.sa_lower.specs.TypedStatements.{env_of, stmt_context};
ghost use Rattle.sa_lower_expr.specs.Typed.{HasValue};

use crate::context::StmtContext;
use crate::value::value_of;
use failure::Failure;
use sa_cfg::Terminator;
use sa_cfg_builder::{BodyBuilder, LoweringContext, ProgramBuilder};
use sa_typed::TypedExpr;
use std::alloc::Global;

/// `yield`. The block that is open afterwards is the one in which a resumption goes on.
pub(crate) fn yield_value(
    alloc: Global,
    around: &StmtContext<'_>,
    draft: &mut ProgramBuilder,
    e: &Option<TypedExpr>,
) -> Result<(), Failure>
    requires { IfSome e.now (HasValue (env_of around.now) (stmt_context around.now)) }
{
    let value = match e {
        Some(e) => Some(value_of(alloc, around, draft, e)?),
        None => None,
    };
    draft.body.suspend(alloc, value)
}

/// `quit`, which first ends the instances of the loops around it.
pub(crate) fn quit(
    alloc: Global,
    inside: &LoweringContext,
    body: &mut BodyBuilder,
) -> Result<(), Failure> {
    let exit = match inside.out() {
        Some(out) => Terminator::Jump(out),
        None => Terminator::Quit,
    };
    body.leave(alloc, exit)
}
