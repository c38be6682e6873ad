//! Lists of statements, and a statement by its form.

use crate::block::{if_arms, if_stmt};
use crate::case::{case_arms, case_stmts, case_subject};
use crate::protect::protect_arms;
use crate::typecase::{tested_variable, typecase_arms};
use crate::{BodyState, simple_statement};
use sa_ast::{Rejection, Stmt};
use sa_check_expr::{BodyOutput, CheckTables};
use sa_instantiate::OB;
use sa_typed::TypedStmt;
use sqlite_items::Items;

/// The statements of a list. What they declare is in scope to the end of the list.
#[cycle(statement)]
pub(crate) fn statements(
    view: &CheckTables<'_>,
    draft: &mut BodyState,
    built: &mut BodyOutput,
    list: &[Stmt],
) -> Result<Items<TypedStmt>, Rejection> {
    let outside = draft.place.vars.len();
    let mut cores = Items::new(view.alloc);
    for stmt in list {
        statement(view, draft, built, stmt, &mut cores)?;
    }
    draft.leave_scope(outside);
    Ok(cores)
}

/// A statement, appended to the list: it can become several of the typed AST. Its parts are typed before its own conditions are checked. A
/// branch of a `protect` counts as inside the protect too; `exception` has the type of the innermost branch, and in `else` the type `$OB`.
#[cycle(statement)]
fn statement(
    view: &CheckTables<'_>,
    draft: &mut BodyState,
    built: &mut BodyOutput,
    stmt: &Stmt,
    cores: &mut Items<TypedStmt>,
) -> Result<(), Rejection> {
    match stmt {
        Stmt::If(arms, rest, pos) => {
            let arms = if_arms(view, draft, built, arms.as_slice())?;
            let rest = statements(view, draft, built, rest.as_slice())?;
            if_stmt(arms, rest, *pos, cores)
        }
        Stmt::Loop(body, _) => {
            let open = draft.begin_loop()?;
            let body = statements(view, draft, built, body.as_slice())?;
            draft.end_loop(open);
            put(cores, TypedStmt::Loop(open.number, body))
        }
        Stmt::Case(tested, arms, rest, pos) => {
            let subject = case_subject(view, draft, built, tested, *pos)?;
            let arms = case_arms(view, draft, built, arms.as_slice())?;
            let Some(rest) = rest else {
                let context = (&*view).at(&draft.place);
                return case_stmts(context, built, subject, arms, None, cores);
            };
            let rest = statements(view, draft, built, rest.as_slice())?;
            let context = (&*view).at(&draft.place);
            case_stmts(context, built, subject, arms, Some(rest), cores)
        }
        Stmt::TypeCase(local, arms, rest, pos) => {
            let name = &local.name;
            let tested = tested_variable(draft, name, *pos)?;
            let arms = arms.as_slice();
            let arms = typecase_arms(view, draft, built, name, tested, arms)?;
            let Some(rest) = rest else {
                return put(cores, TypedStmt::TypeCase(tested.number, arms, None, *pos));
            };
            let rest = statements(view, draft, built, rest.as_slice())?;
            put(
                cores,
                TypedStmt::TypeCase(tested.number, arms, Some(rest), *pos),
            )
        }
        Stmt::Protect(body, arms, rest, _) => {
            let open = draft.begin_protect()?;
            let body = statements(view, draft, built, body.as_slice())?;
            let arms = protect_arms(view, draft, built, arms.as_slice())?;
            let Some(rest) = rest else {
                draft.end_protect(open);
                return put(cores, TypedStmt::Protect(body, arms, None));
            };
            draft.place.branch = Some(OB);
            let rest = statements(view, draft, built, rest.as_slice())?;
            draft.end_protect(open);
            put(cores, TypedStmt::Protect(body, arms, Some(rest)))
        }
        _ => simple_statement(view, draft, built, stmt, cores),
    }
}

/// Appends a statement to the list.
fn put(cores: &mut Items<TypedStmt>, core: TypedStmt) -> Result<(), Rejection> {
    cores.push(core)?;
    Ok(())
}
