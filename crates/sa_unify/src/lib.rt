//! The subtype edges that the classes of a program declare, as pairs of a type and a supertype of it, both with variables, and the
//! composition of two pairs by unification.
#![tactic(auto)]

mod composition;
mod declared;
mod header;
mod names;
mod pair;
mod pattern;
mod unification;
mod work;
mod written;

pub use composition::{compose, composed};
pub use declared::{Edge, edges_of, first_misplaced, lowers, uppers};
pub use names::{ClassRow, Names};
pub use pair::{EdgePairs, NodeShape, renumbered, try_equal};
pub use pattern::Node;
pub use unification::term_end;
pub use work::WorkBudget;
pub use written::{WrittenEdge, written_edges};
