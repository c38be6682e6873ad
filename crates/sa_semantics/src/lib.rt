//! The semantics of typed programs, as definitions: values, the state of a run, expressions, statements, instances of iters and whole runs.
//! No code runs them. They are what the theorems about the compiler speak of.
#![tactic(auto)]

mod law;

pub use law::{is_growing, is_same_before, is_spending, is_steady};
