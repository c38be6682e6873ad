//! Listings of modules of WebAssembly: the text of a module that a person reads, an item on each line, and the module of
//! such a text.
#![tactic(auto)]

mod fault;
mod mnemonic;
mod reader;
mod writer;

pub use fault::ListFault;
pub use reader::read;
pub use writer::write;
