//! What a refusal or a fault means in terms of the source that it is about: the line with its position marked, what is wrong there, and
//! what to do.
#![tactic(auto)]

mod classes;
mod explain;
mod faults;
mod general;
mod leading;
mod library;
mod lines;
mod raised;
mod targets;
mod walk;
mod ways;

pub use explain::{explain_fault, explain_refusals};
pub use lines::{Line, lines_to};
pub use raised::raised_type;
