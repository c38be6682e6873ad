//! The instances that a program needs, as numbers: which types they are, and for each of them its features, its attributes and the numbers
//! of the types that its class writes.
#![tactic(auto)]

mod cycles;
mod feature_numbers;
mod instantiation;
mod main_routine;
mod program;
mod signature;
mod type_list;
mod walk;

pub use program::Instances;
pub use sa_terms::{Accessor, BOOL, CHAR, INT, Member, OB, STR};
