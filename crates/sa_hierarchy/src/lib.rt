//! The supertypes of each class, as tables that are built from the declared edges and then verified, so that queries take no memory.
#![tactic(auto)]

mod arranging;
mod class_hierarchy;
mod comparison;
mod covers;
mod entries;
mod forms;
mod links;
mod trial;

pub use arranging::build_hierarchy;
pub use class_hierarchy::{Ancestor, Hierarchy};
pub use links::{ParentLink, has_ancestor};
