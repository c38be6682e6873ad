//! The subtypes that the classes of a program declare: the least relation that is reflexive and transitive, contains each declared edge at
//! each instance, has `$OB` as a supertype of every type, and relates bound types by the rule of their arguments and results.
#![tactic(auto)]

mod bound_types;
mod climbing;
mod edges;
mod leads;
mod making;
mod node_match;
mod part;
mod question;
mod relation;
mod seek;

pub use edges::SubtypeRelation;
