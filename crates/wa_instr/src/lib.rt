//! What the instructions of an activation do with its words and with the linear memory (sections 4.4.1 to 4.4.4 of the WebAssembly
//! Core Specification 1.0, in its integer part). The words are the locals, and above them the operands.
#![tactic(auto)]

mod memory;
mod numeric;
mod operands;
mod words;

pub use memory::{load, store};
pub use numeric::{binary32, binary64, unary32, unary64};
pub use operands::{keep_top, pop_into, select};
pub use words::{low, push, read, write};
