//! The table of a class, computed once for all its instances: its distinct types, which are its terms, its features as calls can name them,
//! and its bodies, shareds and attributes in order.
#![tactic(auto)]

mod array_part;
mod class_table;
mod expressions;
mod extent;
mod member_names;
mod members;
mod numbered;
mod numbers;
mod statements;
mod terms;

pub use class_table::ClassTable;
pub use extent::{DEEPEST, depth, size};
pub use members::{Accessor, Member};
pub use numbers::{BOOL, CHAR, FAULT, INT, IS_EQ, MAIN, OB, STR};
