//! Checks from the contracts of a program: what `pre`, `post` and `invariant` say becomes asserts in the bodies of its features.
#![tactic(auto)]

mod asserts;
mod body;
mod budget;
mod checks;
mod contracts;
mod copy;
mod initials;
mod quietness;
mod statements;
mod weaving;

pub use budget::MOST_FORMS;
pub use checks::Checks;
pub use quietness::quiet;
pub use weaving::{WovenProgram, weave};
