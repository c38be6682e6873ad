//! The signatures of the abstract types of a program, and the features that implement them: the rules of inherited signatures, and then of
//! conformance, over a whole program.
#![tactic(auto)]

mod features;
mod implementations;
mod listed;
mod numbered;
mod parents;
mod signature_keys;
mod signatures;

pub use implementations::{ConformingMember, check_conformance};
pub use signatures::{Origin, Signatures};
