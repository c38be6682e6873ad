//! Which modules are valid: the validation of WebAssembly Core 1.0 (chapter 3) in its integer part.
#![tactic(auto)]

mod context;
mod control;
mod fault;
mod instruction;
mod locals;
mod memory;
mod module;
mod numeric;
mod operands;
mod types;
mod valid;
mod variable;

pub use fault::ValidFault;
pub use valid::{Valid, validate};
