//! Overload resolution: whether one signature conforms to another, whether two conflict, and which of several a call chooses.
//!
//! A signature is a `Sig`, with a name, or a `CandidateSignature`, a candidate of a call, whose name is the call's. In the order in which to
//! read them:
//!
//! - `conformance`: the rule of contravariance, when a signature conforms to another.
//! - `conflicts`: when no call could tell two signatures apart.
//! - `fit`: which candidates a call fits.
//! - `specificity`: which of two candidates is more specific; `candidates` asks both by the candidates' numbers.
//! - `leader`: the candidate that is at least as specific as all others; `tie`: the two that a refusal names if there is none.
//! - `choice`: the candidate that a call chooses.
#![tactic(auto)]

mod candidates;
mod choice;
mod conflicts;
mod conformance;
mod fit;
mod leader;
mod specificity;
mod tie;

pub use choice::{Resolution, choose};
pub use conflicts::conflict;
pub use conformance::conforms;
pub use fit::{ActualArg, CandidateSignature, fits};
pub use sa_subst::Sig;
