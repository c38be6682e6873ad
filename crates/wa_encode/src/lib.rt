//! Modules as bytes: the binary format of WebAssembly Core 1.0 (chapter 5) in its integer part.
#![tactic(auto)]

mod instruction;
mod locals;
mod module;
mod section;
mod types;
mod value;

pub use module::encode;
