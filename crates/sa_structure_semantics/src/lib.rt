//! The semantics of the structured regions of a CFG body, as definitions: the run of its pieces, over the same operations and terminators
//! as those of the blocks. No code runs them.
#![tactic(auto)]
