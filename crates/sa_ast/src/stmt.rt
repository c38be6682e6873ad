//! Statements as they are written.

use crate::expr::Expr;
use crate::name::Name;
use crate::pos::Pos;
use crate::shared::Shared;
use crate::ty::Ty;
use sqlite_items::Items;

/// A name where it is declared or, in a typecase, tested.
#[derive(Drop)]
pub struct Local {
    pub name: Name,
    pub pos: Pos,
}

/// A condition with its statements: `if` or `elsif`.
#[cycle(stmt)]
#[derive(Drop)]
pub struct BranchArm {
    pub test: Expr,
    pub body: Items<Stmt>,
}

/// A `when` of a `case`.
#[cycle(stmt)]
#[derive(Drop)]
pub struct CaseArm {
    pub values: Items<Expr>,
    pub body: Items<Stmt>,
}

/// A `when` of a `typecase` or a `protect`.
#[cycle(stmt)]
#[derive(Drop)]
pub struct TypeArm {
    pub ty: Ty,
    pub body: Items<Stmt>,
}

/// A statement. Its position is that of its first token; that of an assignment is its `:=`, that of a declaration its first name,
/// and that of an expression the position of the expression.
#[cycle(stmt)]
#[derive(Drop)]
pub enum Stmt {
    /// `x, y:T := e`, and `x ::= e` without a type
    Declare(Items<Local>, Option<Ty>, Option<Expr>),
    Assign(Expr, Expr, Pos),
    /// The arms of `if` and `elsif`, and the statements of `else`.
    If(Items<BranchArm>, Items<Stmt>, Pos),
    Loop(Items<Stmt>, Pos),
    Case(Expr, Items<CaseArm>, Option<Items<Stmt>>, Pos),
    TypeCase(Local, Items<TypeArm>, Option<Items<Stmt>>, Pos),
    Protect(Items<Stmt>, Items<TypeArm>, Option<Items<Stmt>>, Pos),
    Return(Option<Expr>, Pos),
    Yield(Option<Expr>, Pos),
    Quit(Pos),
    Raise(Expr, Pos),
    Assert(Expr, Pos),
    ExprStmt(Expr),
}

/// The statements of a routine or an iter. The classes that include it share them.
pub type Body = Shared<Items<Stmt>>;
