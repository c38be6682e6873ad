//! The receiver of a call, typed.

use crate::children::synthesise;
use failure::{Invariant, known};
use sa_ast::{Expr, ExprReceiver, Rejection};
use sa_check_calls::{BodyOutput, CheckContext, Receiver, written_type};

/// Types the receiver of a call by name.
#[cycle(typed)]
pub(crate) fn receiver_of(
    context: CheckContext<'_>,
    built: &mut BodyOutput,
    on: &ExprReceiver,
) -> Result<Receiver, Rejection> {
    match on {
        ExprReceiver::Implied => Ok(Receiver::Own),
        ExprReceiver::Of(e) => operand(context, built, e.get()),
        ExprReceiver::OfClass(ty) => Ok(Receiver::Class(known(
            written_type(context.view, ty),
            Invariant::CheckedNumber,
        )?)),
    }
}

/// Types an expression that is the receiver of a call.
#[cycle(typed)]
pub fn operand(
    context: CheckContext<'_>,
    built: &mut BodyOutput,
    e: &Expr,
) -> Result<Receiver, Rejection> {
    let sites = built.sites.len();
    let of = synthesise(context, built, e)?;
    Ok(Receiver::of_value(of, sites))
}
