//! How a temporary is read.

/// How a temporary is read.
#[derive(Clone, Copy, Debug, PartialEq, Eq)]
pub enum OperandSource {
    /// From its local.
    Local,
    /// It is this constant.
    Word(u64),
    /// It is `self`.
    SelfRef,
    /// It is an operand already.
    Operand,
    /// It is an operand already, a truth value of 32 bits.
    Truth,
}
