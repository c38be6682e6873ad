//! The context of an expression.

use sa_cfg_builder::LoweringContext;
use sa_typing::TypingEnv;

/// What a statement belongs to.
#[derive(Clone, Copy, Debug, PartialEq, Eq)]
pub enum Owner {
    /// A feature, whose `self` is the receiver.
    Feature,
    /// The initialiser of a shared, whose `self` is the void value of its class.
    Initialiser,
}

/// The context of an expression.
#[derive(Clone, Copy)]
pub(crate) struct ExprContext<'a> {
    /// The feature or the initialiser that its statement belongs to.
    pub scope: &'a TypingEnv<'a>,
    pub owner: Owner,
    /// The context of its statement.
    pub inside: &'a LoweringContext,
    /// The effects of the calls of its statement on variables.
    pub variables: Effects,
}

/// The effects of the calls of a statement on the variables of its feature.
#[derive(Clone, Copy, Debug, PartialEq, Eq)]
pub(crate) enum Effects {
    /// They write none, so that each variable has one value everywhere in the statement.
    Pure,
    /// They write some, so that a variable that is an operand is copied before the operands after it are evaluated.
    Writes,
}
