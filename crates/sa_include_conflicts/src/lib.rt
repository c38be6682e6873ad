//! Which features of a class conflict, which of them are replaced by others, and which stubs are left.
#![tactic(auto)]

mod apart;
mod conflicts;
mod features;
mod groups;
mod inclusion;
mod lists;
mod replacement;
mod signature;
mod signature_key;
mod stubs;

pub use apart::{KnownSignatures, try_apart};
pub use conflicts::{Conflicts, first_conflict, group_features};
pub use features::{ClassFeatures, is_stub};
pub use lists::{is_set, item};
pub use replacement::retained_features;
pub use stubs::{keeps_stub, remaining_stub};
