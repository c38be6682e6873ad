//! Which implementation a dispatched call takes, by the signature that it names and the type of its receiver, and the index of that
//! implementation in the program's table of functions.
#![tactic(auto)]

mod build;
mod packing;
mod search;
mod signature;
mod table;

pub use build::implementation_table;
pub use signature::PackedRange;
pub use table::ImplementationTable;
