//! The semantics of control-flow graphs, as definitions: frames of instances, runs of bodies, operations, terminators and whole runs. No
//! code runs them. They are what the theorems about lowering and about modules speak of.
#![tactic(auto)]

mod law;

pub use law::{has_levels, runs_operations, runs_terminators};
