//! Includes: the classes of a program without their include clauses, each with all the features that it has.
#![tactic(auto)]

mod budget;
mod class;
mod clause;
mod flattening;
mod include_trial;
mod renamings;
mod resolved;
mod size;
mod substitute;
mod weights;
mod whole;

pub use budget::MOST_FORMS;
pub use flattening::flatten;
