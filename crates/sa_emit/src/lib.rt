//! Emits the WebAssembly module of a CFG program: one function for each body, the runtime's functions beside them, and `main`.
#![tactic(auto)]

mod dispatch;
mod entry;
mod function;
mod functions;
mod globals;
mod memory;
mod module;
mod negation;
mod places;
mod pool;
mod predecessors;
mod program;
mod reachability;
mod resuming;
mod runtime;
mod steps;
mod structured;
mod sums;
mod superblock;
mod table;
mod targets;
mod texts;
mod types;
mod verifier;

pub use program::{emit, emit_traced};
