//! The typed AST of a program from its instances and their tables, or the first refusal by the rules on bodies.
#![tactic(auto)]

mod bodies;
mod bound_supertypes;
mod class_supertypes;
mod feature_refusals;
mod limits;
mod newlines;
mod others;
mod sigs;
mod types;
mod typing;

pub use bodies::check_bodies;
pub use feature_refusals::Diagnostics;
pub use others::{with_main, with_others};
