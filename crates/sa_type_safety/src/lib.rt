//! Type safety of Sather: the semantics of a well-typed program never gets stuck. No code runs this; it is a law of the typing rules of
//! `sa_typing` and the semantics of `sa_semantics`.
#![tactic(auto)]

mod law;

pub use law::never_stuck;
