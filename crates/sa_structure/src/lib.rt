//! The blocks of a CFG body as structured regions: blocks, loops and conditions inside one another, as WebAssembly has them.
//!
//! The regions are found by way of dominators and loops, and then verified against the body: what isn't right isn't returned.
#![tactic(auto)]

mod building;
mod dominators;
mod flow;
mod loops;
mod numbering;
mod placing;
mod raises;
mod regions;
mod structured_body;
mod verifier;

pub use raises::{leaves, raised_of};
pub use regions::{Region, block_after, first_of};
pub use structured_body::{StructuredBody, structure_of};
