//! The compiler driver: `sather` executes the arguments of a command line and gives an exit; `compile` compiles texts in memory.
#![tactic(auto)]

mod accepted;
mod assemble;
mod build;
mod cause;
mod check;
mod checkers;
mod classes;
mod compiler;
mod confined;
mod decoded_module;
mod dump;
mod exec;
mod explained;
mod function;
mod further;
mod host_end;
mod lines;
mod listing;
mod malformed;
mod memory_end;
mod module;
mod module_end;
mod outcome;
mod passes;
mod place;
mod print;
mod report;
mod requests;
mod retyped;
mod run;
mod selftest;
mod sites;
mod texts;
mod top;
mod traced_run;
mod unlinked;
mod usage_end;

pub use cause::{Cause, Exit};
pub use classes::check_needed;
pub use compiler::{CheckResult, CompileResult, check_texts, compile, compile_checked};
pub use lines::NO_MEMORY;
pub use module::{BuiltModule, cfg_of};
pub use top::sather;
