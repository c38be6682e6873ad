//! What a bind may call, and which bound type its value has.

ghost use Rattle.std.specs.Prelude.{◌≡◌};
ghost use Rattle.sa_typing.specs.Rows.{rows};
ghost use Rattle.sa_typing.specs.Binds.{is_bindable, is_bound_alike, is_open_alike};

use crate::call_type::CallType;
use crate::callee::{is_iter, result_type};
use crate::expr_type::{ParamType, ResolvedCallee, agree, is_same_param, is_same_type};
use crate::view::TypingView;
use sa_typed::TypedCallee;

/// Whether a callee can be bound: the call of a bound value can't.
pub(crate) fn is_bindable(called: TypedCallee) -> bool
    ensures { result ≡ is_bindable called }
{
    match called {
        TypedCallee::Static(_, _) | TypedCallee::Dispatch(_) => true,
        TypedCallee::Bound => false,
    }
}

/// Whether a bound type of this call type is one of an iter exactly where the callee is an iter, and has the same result.
pub(crate) fn is_bound_alike(
    view: &TypingView<'_>,
    shape: &CallType,
    reached: ResolvedCallee,
) -> bool
    ensures { result ≡ is_bound_alike (rows view.now) shape.now reached }
{
    agree(shape.iter, is_iter(view, reached))
        && is_same_type(shape.result, result_type(view, reached))
}

/// Whether an argument that is left open is the parameter of the bound type.
pub(crate) fn is_open_alike(param: Option<ParamType>, next: Option<ParamType>) -> bool
    ensures { result ≡ is_open_alike param next }
{
    match (param, next) {
        (Some(param), Some(next)) => is_same_param(param, next),
        _ => false,
    }
}
