//! Typed features from those of a source: routines and iters with their statements, and shareds.
#![tactic(auto)]

mod assign;
mod block;
mod body_state;
mod case;
mod copy;
mod declare;
mod features;
mod give;
mod leave;
mod protect;
mod simple;
mod statement;
mod typecase;
mod value;

pub use body_state::{BodyState, FeatureKind, SavedLoop, SavedProtect};
pub use declare::MOST_NODES;
pub use features::{body, shared_body};
pub use simple::simple_statement;
pub use value::{check_assignable, entry, test, with_type};
