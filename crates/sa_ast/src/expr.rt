//! Expressions as they are written. Parentheses aren't kept.

use crate::name::Name;
use crate::pos::Pos;
use crate::ty::{Mode, Ty};
use sqlite_items::{Boxed, Items};

/// An operator of one or two operands.
#[derive(Clone, Copy, Debug, PartialEq, Eq, Hash)]
pub enum Operator {
    Plus,
    Minus,
    Times,
    Div,
    Pow,
    Mod,
    Lt,
    Leq,
    Gt,
    Geq,
    Eq,
    Neq,
    And,
    Or,
    Negate,
    Not,
}

/// The receiver of a call.
#[cycle(expr)]
#[derive(Drop)]
pub enum ExprReceiver {
    /// None is written: `f`.
    Implied,
    /// A value: `e.f`.
    Of(Boxed<Expr>),
    /// A class, with void as self: `C::f`.
    OfClass(Ty),
}

/// An argument of a call.
#[cycle(expr)]
#[derive(Drop)]
pub enum ExprArg {
    Value(Mode, Expr),
    /// An argument that a bind leaves unbound, with its type where one is written.
    Unbound(Option<Ty>, Pos),
}

/// An expression. The position of a call, an operator and an assignment is that of its name, operator or `:=`, and the position of
/// every other form is that of its first token.
#[cycle(expr)]
#[derive(Drop)]
pub enum Expr {
    Int(u32, Pos),
    Bool(bool, Pos),
    Char(u8, Pos),
    Text(Name, Pos),
    /// `self`
    SelfRef(Pos),
    /// `void`
    Void(Pos),
    /// `void(e)`
    IsVoid(Boxed<Expr>, Pos),
    /// `exception`
    Exception(Pos),
    /// `new` and `new(n)`
    New(Option<Boxed<Expr>>, Pos),
    /// `#C(..)`, and `#(..)` without a type
    Create(Option<Ty>, Items<ExprArg>, Pos),
    /// `|a, b|`
    Items(Items<Expr>, Pos),
    Call(ExprReceiver, Name, Items<ExprArg>, Pos),
    Binary(Operator, Boxed<Expr>, Boxed<Expr>, Pos),
    Unary(Operator, Boxed<Expr>, Pos),
    /// `e[i]`, and `[i]` on self
    Index(Option<Boxed<Expr>>, Items<Expr>, Pos),
    Bind(Boxed<Expr>, Pos),
}
