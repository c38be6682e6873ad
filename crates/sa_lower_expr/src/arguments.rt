//! The arguments of a call, from left to right.

ghost use Rattle.std.specs.Prelude.{All};
ghost use Rattle.sa_lower_expr.specs.ExprContext.{expr_context, env_of};
ghost use Rattle.sa_lower_expr.specs.Typed.{IsArgument};

use crate::context::ExprContext;
use crate::expr::operand;
use crate::passing::{LoweredArgs, none_passed, pass_open, pass_value, pass_variable};
use failure::Failure;
use sa_ast::Mode;
use sa_cfg_builder::ProgramBuilder;
use sa_typed::TypedArg;
use sa_typing::ResolvedCallee;
use sqlite_items::Items;
use std::alloc::Global;

/// Lowers the arguments of a call, from left to right. `before` has by index the variables of those that have been evaluated before; an
/// argument after its end hasn't been.
#[cycle(place)]
pub(crate) fn arguments(
    alloc: Global,
    around: &ExprContext<'_>,
    draft: &mut ProgramBuilder,
    reached: ResolvedCallee,
    args: &[TypedArg],
    before: &[Option<u32>],
) -> Result<LoweredArgs, Failure>
    requires { All (IsArgument (env_of around.now) (expr_context around.now)) args.now }
{
    let mut passed = none_passed(alloc, around, reached, args);
    for arg in args {
        match evaluated_before(before, &passed) {
            Some(value) => pass_value(&mut passed, Mode::Once, value)?,
            None => argument(alloc, around, draft, reached, arg, &mut passed)?,
        }
    }
    Ok(passed)
}

/// Lowers the next argument.
#[cycle(place)]
fn argument(
    alloc: Global,
    around: &ExprContext<'_>,
    draft: &mut ProgramBuilder,
    reached: ResolvedCallee,
    arg: &TypedArg,
    passed: &mut LoweredArgs,
) -> Result<(), Failure>
    requires { IsArgument (env_of around.now) (expr_context around.now) arg.now }
{
    match arg {
        TypedArg::Value(mode, e) => {
            let value = operand(alloc, around, draft, e)?;
            pass_value(passed, *mode, value.var)
        }
        TypedArg::Variable(mode, var) => {
            pass_variable(around, draft, reached, passed, *mode, *var)
        }
        TypedArg::Open => pass_open(passed),
    }
}

/// The variable that holds the next argument, where it has been evaluated before.
fn evaluated_before(before: &[Option<u32>], passed: &LoweredArgs) -> Option<u32> {
    match before.get(passed.args.len()) {
        Some(value) => *value,
        None => None,
    }
}

/// Lowers the `once` arguments of a call, from left to right, and gives their variables by the indices of the arguments.
#[cycle(place)]
pub(crate) fn once_arguments(
    alloc: Global,
    around: &ExprContext<'_>,
    draft: &mut ProgramBuilder,
    args: &[TypedArg],
) -> Result<Items<Option<u32>>, Failure>
    requires { All (IsArgument (env_of around.now) (expr_context around.now)) args.now }
{
    let mut values = Items::new(alloc);
    for arg in args {
        values.push(once_argument(alloc, around, draft, arg)?)?;
    }
    Ok(values)
}

/// Lowers an argument where it is `once`.
#[cycle(place)]
fn once_argument(
    alloc: Global,
    around: &ExprContext<'_>,
    draft: &mut ProgramBuilder,
    arg: &TypedArg,
) -> Result<Option<u32>, Failure>
    requires { IsArgument (env_of around.now) (expr_context around.now) arg.now }
{
    match arg {
        TypedArg::Value(Mode::Once, e) => {
            let value = operand(alloc, around, draft, e)?;
            Ok(Some(value.var))
        }
        _ => Ok(None),
    }
}

/// Whether an argument is evaluated at a start alone.
pub(crate) fn is_once(arg: &TypedArg) -> bool {
    matches!(arg, TypedArg::Value(Mode::Once, _))
}
