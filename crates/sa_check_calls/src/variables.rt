//! Names of variables.

use crate::check_tables::{CheckScope, Variable};
use crate::checked_expr::CheckedExpr;
use sa_ast::{Expr, ExprReceiver};
use sa_typed::TypedExpr;

/// The variable that an expression names. A name with arguments, or after a value or a class, is that of a feature.
pub fn variable_named(place: &CheckScope, e: &Expr) -> Option<Variable> {
    match e {
        Expr::Call(ExprReceiver::Implied, name, args, _) if args.is_empty() => {
            place.vars.get(name).copied()
        }
        _ => None,
    }
}

/// The value of a variable.
pub fn variable_value(variable: Variable) -> CheckedExpr {
    CheckedExpr {
        core: TypedExpr::Var(variable.number),
        ty: Some(variable.ty),
        iter: None,
    }
}
