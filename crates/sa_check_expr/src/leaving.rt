//! `while!`, `until!` and `break!` as statements.

use crate::children::{ArgContext, arguments};
use sa_ast::{Expr, Rejection};
use sa_check_calls::{BodyOutput, CheckContext, LeavingCall, leave_form};
use sa_typed::TypedStmt;

/// The statement that exits the innermost loop: `break!`, or `while!` or `until!` with their test. `None` where the expression is none of
/// them. It is refused at its name, after the refusals in its subexpressions:
///
/// - E35, E38: it is outside a loop, or a protect is between it and its loop.
/// - E31: `break!` has an argument, or another one hasn't exactly one.
/// - E33: its argument isn't a BOOL.
pub fn leave(
    context: CheckContext<'_>,
    built: &mut BodyOutput,
    e: &Expr,
) -> Result<Option<TypedStmt>, Rejection> {
    let Expr::Call(on, name, args, pos) = e else {
        return Ok(None);
    };
    let Some(call) = LeavingCall::of_call(on, name) else {
        return Ok(None);
    };
    let args = arguments(context, built, args.as_slice(), ArgContext::Call)?;
    Ok(Some(leave_form(context, built, call, args, *pos)?))
}
