//! The reader of the binary format of WebAssembly Core 1.0 (chapter 5) in its integer part: which module some bytes spell.
#![tactic(auto)]

mod code;
mod expression;
mod external;
mod fault;
mod instruction;
mod module;
mod production;
mod section;
mod segment;
mod types;
mod value;

pub use fault::DecodeFault;
pub use module::decode;
