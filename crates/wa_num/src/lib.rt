//! The integer operators of WebAssembly (sections 4.3.2 and 4.3.4 of the WebAssembly Core Specification 1.0).
#![tactic(auto)]

mod i32_operators;
mod i64_operators;

pub use i32_operators::i32_op;
pub use i64_operators::i64_op;
