//! A statement without nested statements, by its form.

use crate::assign::assign;
use crate::body_state::BodyState;
use crate::declare::{Declaration, declare};
use crate::give::{return_value, yield_value};
use crate::leave::{assert_true, expression, quit, raise};
use failure::{Failure, Invariant};
use sa_ast::{Rejection, Stmt};
use sa_check_expr::{BodyOutput, CheckTables};
use sa_typed::TypedStmt;
use sqlite_items::Items;

/// A statement without nested statements, appended to the list: a declaration becomes several statements of the typed AST.
///
/// # Errors
///
/// The first refusal by the rules of the statement and of the expressions in it; A `Failure`: `Broken` for a statement that holds
/// others.
pub fn simple_statement(
    view: &CheckTables<'_>,
    draft: &mut BodyState,
    built: &mut BodyOutput,
    stmt: &Stmt,
    cores: &mut Items<TypedStmt>,
) -> Result<(), Rejection> {
    if let Stmt::Declare(names, ty, value) = stmt {
        let names = names.as_slice();
        return declare(view, draft, built, Declaration { names, ty, value }, cores);
    }
    cores.push(single(view, draft, built, stmt)?)?;
    Ok(())
}

/// A statement that becomes a single one of the typed AST.
fn single(
    view: &CheckTables<'_>,
    draft: &BodyState,
    built: &mut BodyOutput,
    stmt: &Stmt,
) -> Result<TypedStmt, Rejection> {
    match stmt {
        Stmt::Assign(target, value, pos) => assign(view, draft, built, target, value, *pos),
        Stmt::Return(value, pos) => return_value(view, draft, built, value, *pos),
        Stmt::Yield(value, pos) => yield_value(view, draft, built, value, *pos),
        Stmt::Quit(pos) => quit(draft, *pos),
        Stmt::Raise(e, pos) => raise(view, draft, built, e, *pos),
        Stmt::Assert(e, pos) => assert_true(view, draft, built, e, *pos),
        Stmt::ExprStmt(e) => expression(view, draft, built, e),
        _ => Err(Rejection::Failed(Failure::Broken(Invariant::ExcludedForm))),
    }
}
