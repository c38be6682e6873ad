//! Typed expressions.

use crate::feature::{Target, TypedCallee};
use sa_ast::{Mode, Name, Pos};
use sqlite_items::{Boxed, Items};

/// An argument of a call.
#[cycle(expr)]
#[derive(Drop)]
pub enum TypedArg {
    Value(Mode, TypedExpr),
    /// A variable that the call writes, and reads where the mode is `inout`.
    Variable(Mode, u32),
    /// An argument that a bind leaves open.
    Open,
}

/// A typed expression. The number of a type is its index in the program's types.
#[cycle(expr)]
#[derive(Drop)]
pub enum TypedExpr {
    Int(i32),
    Bool(bool),
    Char(u8),
    Text(Name),
    /// The void value of a type.
    VoidValue(u32),
    /// `self`
    SelfRef,
    Var(u32),
    /// The exception of the innermost enclosing branch.
    Exception,
    IsVoid(Boxed<TypedExpr>),
    /// A new object of a type.
    New(u32, Pos),
    /// A new object of a type with an array part of this many elements.
    NewArray(u32, Boxed<TypedExpr>, Pos),
    /// An array of a type, with these elements.
    Array(u32, Items<TypedExpr>, Pos),
    Call(TypedCallee, Boxed<TypedExpr>, Items<TypedArg>, Pos),
    /// An iter call at a site of the feature, by the site's number.
    IterCall(u32, Boxed<TypedExpr>, Items<TypedArg>, Pos),
    /// A bound value of a bound type.
    Bind(TypedCallee, Boxed<TypedExpr>, Items<TypedArg>, u32, Pos),
    /// Evaluates its operands from left to right, then calls the target with the second as receiver.
    Reversed(Target, Boxed<TypedExpr>, Boxed<TypedExpr>, Pos),
    And(Boxed<TypedExpr>, Boxed<TypedExpr>),
    Or(Boxed<TypedExpr>, Boxed<TypedExpr>),
    /// A value of an immutable class, boxed since an abstract type is expected. The number is that of the immutable class.
    Box(u32, Boxed<TypedExpr>, Pos),
}
