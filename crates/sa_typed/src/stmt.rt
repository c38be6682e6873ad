//! Typed statements.

use crate::expr::TypedExpr;
use sa_ast::{FaultKind, Pos};
use sqlite_items::Items;

/// Tests, with the statements that are executed where one of them is true.
#[cycle(stmt)]
#[derive(Drop)]
pub struct TypedBranch {
    pub tests: Items<TypedExpr>,
    pub body: Items<TypedStmt>,
}

/// A branch of a typecase or a protect: its type, and in a typecase the variable that holds the tested value.
#[cycle(stmt)]
#[derive(Drop)]
pub struct TypedArm {
    pub ty: u32,
    pub var: u32,
    pub body: Items<TypedStmt>,
}

/// What exits the innermost loop.
#[derive(Drop)]
pub enum LoopExit {
    /// `break!`, which always exits it.
    Break,
    /// `while!`, where its test is false.
    While(TypedExpr),
    /// `until!`, where its test is true.
    Until(TypedExpr),
}

/// A typed statement.
#[cycle(stmt)]
#[derive(Drop)]
pub enum TypedStmt {
    Assign(u32, TypedExpr),
    ExprStmt(TypedExpr),
    /// Executes the statements of the first arm of which a test is true, else the last list.
    If(Items<TypedBranch>, Items<TypedStmt>),
    /// A loop by its number in the feature.
    Loop(u32, Items<TypedStmt>),
    ExitLoop(LoopExit),
    /// Branches on the class of a variable's value.
    TypeCase(u32, Items<TypedArm>, Option<Items<TypedStmt>>, Pos),
    Protect(Items<TypedStmt>, Items<TypedArm>, Option<Items<TypedStmt>>),
    Return(Option<TypedExpr>),
    Yield(Option<TypedExpr>),
    Quit,
    Raise(TypedExpr, Pos),
    /// Stops the program with a fault.
    Fault(FaultKind, Pos),
}
