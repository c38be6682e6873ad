//! What typing an expression makes.

use indexmap::IndexMap;
use sa_ast::{Expr, Pos, Rejection, Rule, Ty};
use sa_instantiate::BOOL;
use sa_typed::{Site, TypedExpr};
use sqlite_items::Items;

/// What typing makes besides the typed expressions.
#[derive(Drop)]
pub struct BodyOutput {
    /// The sites in the order in which they are typed.
    pub sites: Items<Site>,
    /// The bound types that binds make and that are written nowhere in the program.
    pub bound: IndexMap<Ty, ()>,
}

/// A typed expression.
#[derive(Drop)]
pub struct CheckedExpr {
    pub core: TypedExpr,
    /// The number of its type, or none where it gives no result.
    pub ty: Option<u32>,
    /// The first iter call in it that isn't the head of a bind.
    pub iter: Option<Pos>,
}

impl CheckedExpr {
    /// The expression, whose type is BOOL: E33 at `pos` where it isn't.
    pub fn into_bool(self, pos: Pos) -> Result<TypedExpr, Rejection> {
        if self.ty != Some(BOOL) {
            return Err(Rule::WrongType.at(pos).into());
        }
        Ok(self.core)
    }
}

/// The first iter call in two parts, of which the one comes before the other.
pub fn first_iter(one: Option<Pos>, other: Option<Pos>) -> Option<Pos> {
    match one {
        None => other,
        found => found,
    }
}

/// The position of an expression.
pub fn position(e: &Expr) -> Pos {
    match e {
        Expr::Int(_, pos)
        | Expr::Bool(_, pos)
        | Expr::Char(_, pos)
        | Expr::Text(_, pos)
        | Expr::SelfRef(pos)
        | Expr::Void(pos)
        | Expr::IsVoid(_, pos)
        | Expr::Exception(pos)
        | Expr::New(_, pos)
        | Expr::Create(_, _, pos)
        | Expr::Items(_, pos)
        | Expr::Call(_, _, _, pos)
        | Expr::Binary(_, _, _, pos)
        | Expr::Unary(_, _, pos)
        | Expr::Index(_, _, pos)
        | Expr::Bind(_, pos) => *pos,
    }
}
