//! Lowers typed expressions to operations and basic blocks of the body that is being built.
#![tactic(auto)]

mod arguments;
mod binds;
mod call;
mod callees;
mod calls;
mod context;
mod copies;
mod effects;
mod expr;
mod logic;
mod lowered;
mod parameters;
mod passing;
mod simple;
mod sites;

pub use callees::callee_of;
pub use context::Owner;
pub use expr::lower_expr;
pub use parameters::takes_abstract;
