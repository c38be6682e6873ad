//! The contracts that a source writes for its features and classes: `pre`, `post` and `invariant`.

use crate::expr::Expr;
use crate::pos::Pos;

/// A condition, with the position of its first token, which may be a parenthesis.
#[derive(Drop)]
pub struct Condition {
    pub test: Expr,
    pub pos: Pos,
}

/// A contract of a feature or of a class that a file writes. Both are named by their indices: the class in the list of classes
/// that comes with the contract, the feature in the class's features.
#[derive(Drop)]
pub enum Contract {
    /// The clauses of a feature, at least one of which is written: `pre` holds when it is called, `post` when it ends.
    Clauses {
        class: u32,
        feature: u32,
        pre: Option<Condition>,
        post: Option<Condition>,
    },
    /// What holds of an object of the class whenever a public routine of it ends.
    Invariant {
        class: u32,
        holds: Condition,
    },
}
