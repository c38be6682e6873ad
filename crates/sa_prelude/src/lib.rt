//! The prelude of the language: its text, and the features that it leaves to the implementation.
#![tactic(auto)]

mod builtins;
mod feature;
mod source;

pub use builtins::builtin;
pub use feature::{BUILTIN_FEATURES, Builtin, BuiltinFeature};
pub use source::{TEXT, text};
