//! The parser of types and expressions, and the levels of nesting of a file's tokens.
#![tactic(auto)]

mod expression;
mod grammar;
mod levels;
mod operators;
mod postfix;
mod primary;
mod starts;
mod tokens;
mod types;

pub use expression::{condition, expr, read_condition, read_expr};
pub use grammar::ConditionScope;
pub use levels::scan;
pub use starts::begins_expression;
pub use tokens::Tokens;
pub use types::{CallableKind, read_mode, read_type, read_types};
