//! The names of classes, those that are allowed in headers and include clauses, and the include graph: which classes include which.
#![tactic(auto)]

mod graph;
mod header;
mod names;
mod order;

pub use order::Includes;
