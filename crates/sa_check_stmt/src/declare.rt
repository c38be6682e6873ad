//! Declarations: `x, y:T`, `x, y:T := e` and `x ::= e`.

use crate::body_state::BodyState;
use crate::copy::copy;
use crate::value::{check_assignable, untyped_value};
use failure::{Failure, Invariant, known};
use sa_ast::{Expr, Local, Pos, Rejection, Ty};
use sa_check_expr::{BodyOutput, CheckTables, Expected, position, type_expr, written_type};
use sa_typed::{TypedExpr, TypedStmt, expr_nodes};
use sqlite_items::Items;
use std::alloc::Global;

/// Past this many nodes in copies, no more copies are made: a program has at most as many nodes, so it is refused whatever the further
/// copies contain.
pub const MOST_NODES: u32 = 200_000;

/// A declaration, by its names, its type and its initialiser.
#[derive(Clone, Copy)]
pub(crate) struct Declaration<'s> {
    pub names: &'s [Local],
    pub ty: &'s Option<Ty>,
    pub value: &'s Option<Expr>,
}

/// Names that are declared, with the position of the first one, at which the declaration is refused.
#[derive(Clone, Copy)]
struct DeclaredNames<'s> {
    names: &'s [Local],
    form: Pos,
}

/// Variables, by their numbers, with the value of one initialiser.
#[derive(Drop)]
struct InitialValue {
    numbers: Vec<u32>,
    core: TypedExpr,
}

/// A declaration, appended to the list: a statement for each of its names.
pub(crate) fn declare(
    view: &CheckTables<'_>,
    draft: &mut BodyState,
    built: &mut BodyOutput,
    declaration: Declaration<'_>,
    cores: &mut Items<TypedStmt>,
) -> Result<(), Rejection> {
    let Declaration { names, ty, value } = declaration;
    let Some(first) = names.first() else {
        return Ok(());
    };
    let declared = DeclaredNames {
        names,
        form: first.pos,
    };
    let initialised = match (ty, value) {
        (None, None) => return Ok(()),
        (Some(ty), None) => return declare_void(view, draft, names, ty, cores),
        (Some(ty), Some(e)) => declare_typed(view, draft, built, declared, ty, e)?,
        (None, Some(e)) => declare_by_value(view, draft, built, declared, e)?,
    };
    let_each(view.alloc, draft, initialised, cores)
}

/// `x, y:T`: each is void of its type, each time that the statement is executed.
fn declare_void(
    view: &CheckTables<'_>,
    draft: &mut BodyState,
    names: &[Local],
    ty: &Ty,
    cores: &mut Items<TypedStmt>,
) -> Result<(), Rejection> {
    let ty = known(written_type(view, ty), Invariant::CheckedNumber)?;
    for local in names {
        let number = draft.declare(view.alloc, local, ty)?;
        cores.push(TypedStmt::Assign(number, TypedExpr::VoidValue(ty)))?;
    }
    Ok(())
}

/// `x, y:T := e`. The names aren't visible in the initialiser, which is copied for each of them.
fn declare_typed(
    view: &CheckTables<'_>,
    draft: &mut BodyState,
    built: &mut BodyOutput,
    declared: DeclaredNames<'_>,
    ty: &Ty,
    e: &Expr,
) -> Result<InitialValue, Rejection> {
    let ty = known(written_type(view, ty), Invariant::CheckedNumber)?;
    let value = type_expr((&*view).at(&draft.place), built, e, Expected::Type(ty))?;
    let numbers = declare_names(view.alloc, draft, declared.names, ty)?;
    let core = check_assignable(view, built, value, ty, position(e), declared.form)?;
    Ok(InitialValue { numbers, core })
}

/// `x ::= e`: the variable has the type of the initialiser.
fn declare_by_value(
    view: &CheckTables<'_>,
    draft: &mut BodyState,
    built: &mut BodyOutput,
    declared: DeclaredNames<'_>,
    e: &Expr,
) -> Result<InitialValue, Rejection> {
    let value = untyped_value((&*view).at(&draft.place), built, e, declared.form)?;
    let ty = known(value.ty, Invariant::CheckedNumber)?;
    let numbers = declare_names(view.alloc, draft, declared.names, ty)?;
    Ok(InitialValue {
        numbers,
        core: value.core,
    })
}

/// Declares the names as variables of a type, and gives their numbers.
fn declare_names(
    alloc: Global,
    draft: &mut BodyState,
    names: &[Local],
    ty: u32,
) -> Result<Vec<u32>, Rejection> {
    let mut numbers = Vec::new(alloc);
    for local in names {
        numbers.push(draft.declare(alloc, local, ty)?)?;
    }
    Ok(numbers)
}

/// Sets each of the variables to the value of one initialiser, which is evaluated for each of them.
fn let_each(
    alloc: Global,
    draft: &mut BodyState,
    initialised: InitialValue,
    cores: &mut Items<TypedStmt>,
) -> Result<(), Rejection> {
    let InitialValue { numbers, core } = initialised;
    let mut numbers = numbers;
    let Some(last) = numbers.pop() else {
        return Ok(());
    };
    if !numbers.is_empty() {
        let_copies(alloc, draft, numbers.as_slice(), &core, cores)?;
    }
    cores.push(TypedStmt::Assign(last, core))?;
    Ok(())
}

/// Sets each of the variables to a copy of the initialiser.
fn let_copies(
    alloc: Global,
    draft: &mut BodyState,
    numbers: &[u32],
    core: &TypedExpr,
    cores: &mut Items<TypedStmt>,
) -> Result<(), Failure> {
    let nodes = expr_nodes(core);
    for number in numbers {
        if draft.copied <= MOST_NODES {
            draft.copied = draft.copied.saturating_add(nodes);
            cores.push(TypedStmt::Assign(*number, copy(alloc, core)?))?;
        }
    }
    Ok(())
}
