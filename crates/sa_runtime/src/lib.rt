//! The runtime system of a compiled program as functions of its WebAssembly module: the built-in features of the language, what makes
//! objects, frames, calls of bound values and trace records.
#![tactic(auto)]

mod answers;
mod arrays;
mod booleans;
mod bound;
mod bound_features;
mod bound_locals;
mod builtins;
mod characters;
mod comparisons;
mod copying;
mod decimal;
pub mod fault_numbers;
mod faults;
mod frame;
mod identity;
mod immutables;
mod integers;
pub mod layout;
mod locals;
mod operations;
mod output;
mod room;
mod runtime;
mod signatures;
mod spread;
pub mod template_ops;
pub mod templates;
mod texts;
pub mod trace;
mod trace_functions;

pub use runtime::{RuntimeCode, code, frames, support, trace_code};
