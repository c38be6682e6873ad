//! Liveness: the variables of an iter that are saved while it is suspended, which are those that are read after a resumption and not set
//! before.
#![tactic(auto)]

mod accesses;
mod dataflow;
mod edges;
mod saving;
mod sets;

pub use saving::saved_variables;
