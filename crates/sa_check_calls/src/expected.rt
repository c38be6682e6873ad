//! What the context of an expression expects of it.

/// What the context of an expression expects of it.
#[derive(Clone, Copy, Debug, PartialEq, Eq)]
pub enum Expected {
    /// No result: the expression is a statement.
    Nothing,
    /// A result of any type.
    Value,
    /// A result, and the type with this number where the form takes its type from its context.
    Type(u32),
}

impl Expected {
    /// Whether it is a result.
    pub(crate) fn is_result(self) -> bool {
        match self {
            Expected::Nothing => false,
            Expected::Value | Expected::Type(_) => true,
        }
    }

    /// The number of the type that is expected, if one is.
    pub fn ty(self) -> Option<u32> {
        match self {
            Expected::Nothing | Expected::Value => None,
            Expected::Type(ty) => Some(ty),
        }
    }
}
