//! A call that resolves to a const is its value.

use crate::receiver::Receiver;
use crate::{BodyOutput, CheckedExpr};
use sa_typed::TypedExpr;

/// A const in place of the call that names it. The receiver isn't evaluated, so the sites that typing it made are removed again; the bound
/// types that its binds made are kept.
pub(crate) fn const_call(
    built: &mut BodyOutput,
    on: Receiver,
    value: TypedExpr,
    ty: Option<u32>,
) -> CheckedExpr {
    let iter = on.iter();
    if let Receiver::Value(_, sites) = &on {
        for _ in *sites..built.sites.len() {
            let _ = built.sites.pop();
        }
    }
    CheckedExpr {
        core: value,
        ty,
        iter,
    }
}
