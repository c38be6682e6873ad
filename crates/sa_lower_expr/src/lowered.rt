//! A lowered expression, whose operations are at the end of the open block.

ghost use Rattle.std.specs.Prelude.{◌≡◌, IfOk, IsTrue, is_some};

use failure::Failure;
use sa_typing::ExprType;

/// What an expression gives, and the variable that holds its value. A call without a result has none.
#[derive(Clone, Copy)]
pub(crate) struct LoweredExpr {
    pub var: Option<u32>,
    pub given: ExprType,
}

/// A value: the variable that holds it, and what its expression gives.
#[derive(Clone, Copy)]
pub(crate) struct Operand {
    pub var: u32,
    pub given: ExprType,
}

/// A form that always has a value.
pub(crate) fn value(var: Result<u32, Failure>, given: ExprType) -> Result<LoweredExpr, Failure>
    ensures given { IfOk result (λ p. p.given ≡ given) }
    ensures var { IfOk result (λ p. IsTrue (is_some p.var)) }
{
    Ok(LoweredExpr {
        var: Some(var?),
        given,
    })
}
