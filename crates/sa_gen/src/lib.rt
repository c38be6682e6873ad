//! The text of a generated program: a sequence of classes, each with an iter that calls the one before.
#![tactic(auto)]

mod lines;

pub use failure::NoMemory;
pub use lines::{add_numbered, generate};
