//! Graphs of numbered nodes: an order in which each node comes after those that it has edges to, and the nodes that lie on a
//! cycle. Each search has its own stack, and takes time in proportion to the nodes and the edges.
#![tactic(auto)]

mod components;
mod graph;
mod grouped;
mod list;
mod reach;
mod verifier;
mod walk;

pub use graph::Graph;
pub use grouped::IndexGroups;
pub use list::{entry, put, word};
