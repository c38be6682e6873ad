//! From a module to its listing.

mod instruction;
mod items;
mod module;
mod types;
mod words;

pub use module::write;
