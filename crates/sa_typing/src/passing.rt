//! Which arguments a parameter takes.

ghost use Rattle.std.specs.Prelude.{◌≡◌};
ghost use Rattle.sa_typing.specs.Rows.{rows};
ghost use Rattle.sa_typing.specs.Passing.{is_assignable_back, is_value_mode, takes_value, takes_variable};

use crate::expr_type::{ExprType, ParamType, is_same_mode};
use crate::view::TypingView;
use sa_ast::Mode;

/// Whether a parameter takes a value that is passed by this mode.
pub(crate) fn takes_value(
    view: &TypingView<'_>,
    param: ParamType,
    mode: Mode,
    given: ExprType,
) -> bool
    ensures { result ≡ takes_value (rows view.now) param mode given }
{
    is_same_mode(param.mode, mode) && is_value_mode(mode) && view.is_assignable(given, param.ty)
}

/// Whether arguments of a mode are values, and no variables that are written.
fn is_value_mode(mode: Mode) -> bool
    ensures { result ≡ is_value_mode mode }
{
    matches!(mode, Mode::In | Mode::Once)
}

/// Whether a parameter takes a variable of this type, which is written by this mode.
pub(crate) fn takes_variable(
    view: &TypingView<'_>,
    param: ParamType,
    mode: Mode,
    variable: u32,
) -> bool
    ensures { result ≡ takes_variable (rows view.now) param mode variable }
{
    is_same_mode(param.mode, mode) && is_assignable_back(view, param.ty, mode, variable)
}

/// Whether a value of this type can be copied out to a variable of that one: an `out` variable may be of a supertype, and an `inout`
/// variable is of the same type.
fn is_assignable_back(view: &TypingView<'_>, ty: u32, mode: Mode, variable: u32) -> bool
    ensures { result ≡ is_assignable_back (rows view.now) ty mode variable }
{
    match mode {
        Mode::Out => view.is_supertype(variable, ty),
        Mode::Inout => variable == ty,
        Mode::In | Mode::Once => false,
    }
}
