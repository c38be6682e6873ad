//! The receiver of a call.

use crate::synthesised::Synthesised;
use crate::{CheckTables, CheckedExpr, is_concrete};
use failure::{Failure, Invariant, broken, known};
use sa_ast::{Pos, Rejection, Rule};
use sa_typed::TypedExpr;

/// The receiver of a call, its children typed.
#[derive(Drop)]
pub enum Receiver {
    /// The feature's own `self`.
    Own,
    /// A value, with the number of sites before it was typed.
    Value(CheckedExpr, usize),
    /// The type with this number, with void as self.
    Class(u32),
    /// A contextual form, which has no type here.
    Untyped,
}

impl Receiver {
    /// An expression, before which there were this many sites.
    pub fn of_value(of: Synthesised, sites: usize) -> Receiver {
        match of {
            Synthesised::Typed(value, _) => Receiver::Value(value, sites),
            _ => Receiver::Untyped,
        }
    }

    /// The number of the receiver's type: E41 for a contextual form, E12 for a class that isn't concrete.
    pub fn ty(&self, view: &CheckTables<'_>, pos: Pos) -> Result<u32, Rejection> {
        match self {
            Receiver::Own => Ok(view.class),
            Receiver::Value(value, _) => Ok(known(value.ty, Invariant::CheckedNumber)?),
            Receiver::Class(class) if is_concrete(view, *class) => Ok(*class),
            Receiver::Class(_) => Err(Rule::ClassNotUsable.at(pos).into()),
            Receiver::Untyped => Err(Rule::NoTypeFromContext.at(pos).into()),
        }
    }

    /// The first iter call in it.
    pub fn iter(&self) -> Option<Pos> {
        match self {
            Receiver::Value(value, _) => value.iter,
            _ => None,
        }
    }

    /// The `self` that is passed to the callee.
    pub fn into_expr(self) -> Result<TypedExpr, Failure> {
        match self {
            Receiver::Own => Ok(TypedExpr::SelfRef),
            Receiver::Value(value, _) => Ok(value.core),
            Receiver::Class(class) => Ok(TypedExpr::VoidValue(class)),
            Receiver::Untyped => broken(Invariant::ExcludedForm),
        }
    }
}
