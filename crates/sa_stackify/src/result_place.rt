//! What becomes of an operation's value.

/// What becomes of an operation's value.
#[derive(Clone, Copy, Debug, PartialEq, Eq)]
pub enum ResultPlace {
    /// It goes into the local of its variable.
    Local,
    /// It is left as an operand: a word.
    Stack,
    /// It is left as an operand: a truth value of 32 bits.
    StackBool,
    /// It goes into this variable, since the next operation moves it there and nothing else reads it.
    Coalesced(u32),
    /// The operation isn't emitted: each reader reads the constant, or `self`, where it needs it.
    Rematerialised,
    /// The operation isn't emitted: the one before it has put the value there.
    AlreadyThere,
    /// It decides the branch after it at once: whether an instance has ended.
    FusedBranch,
}
