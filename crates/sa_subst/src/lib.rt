//! Substitution of types for the parameters of a class and for SAME: in types, signatures, expressions and statements; needed instances.
#![tactic(auto)]

mod expression;
mod sig;
mod statement;
mod substitution;

pub use expression::subst_expr;
pub use sig::{Sig, TypeInstance, is_abstract};
pub use statement::subst_stmts;
pub use substitution::{Substitution, subst, subst_types, subst_with};
