//! Forms without children: literals, `self`, `exception` and `new`.

use crate::check_tables::{CheckScope, CheckTables};
use crate::checked_expr::CheckedExpr;
use failure::{Failure, Invariant, known};
use sa_ast::{Name, Pos, Rejection, Rule};
use sa_instantiate::{BOOL, CHAR, INT, STR};
use sa_typed::TypedExpr;
use std::alloc::Global;

/// An expression of a type without an iter call in it.
pub fn of_type(core: TypedExpr, ty: u32) -> CheckedExpr {
    CheckedExpr {
        core,
        ty: Some(ty),
        iter: None,
    }
}

/// A whole number. A token of one is at most 2147483647.
pub fn int(value: u32) -> Result<CheckedExpr, Failure> {
    let value = known(i32::try_from(value).ok(), Invariant::CheckedCount)?;
    Ok(of_type(TypedExpr::Int(value), INT))
}

/// `true` or `false`
pub fn truth(value: bool) -> CheckedExpr {
    of_type(TypedExpr::Bool(value), BOOL)
}

/// A character.
pub fn character(value: u8) -> CheckedExpr {
    of_type(TypedExpr::Char(value), CHAR)
}

/// A text.
pub fn text(alloc: Global, text: &Name) -> Result<CheckedExpr, Failure> {
    Ok(of_type(TypedExpr::Text(text.copy(alloc)?), STR))
}

/// `self`
pub fn self_ref(view: &CheckTables<'_>) -> CheckedExpr {
    of_type(TypedExpr::SelfRef, view.class)
}

/// `exception`: E44 outside a branch of a protect.
pub fn exception(place: &CheckScope, pos: Pos) -> Result<CheckedExpr, Rejection> {
    match place.branch {
        None => Err(Rule::ExceptionOutsideBranch.at(pos).into()),
        Some(ty) => Ok(of_type(TypedExpr::Exception, ty)),
    }
}
