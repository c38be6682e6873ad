//! `if`, with an arm for each `elsif`.

use crate::statement::statements;
use crate::{BodyState, entry, test};
use sa_ast::{BranchArm, Pos, Rejection, Rule};
use sa_check_expr::{BodyOutput, CheckTables};
use sa_instantiate::BOOL;
use sa_typed::{TypedBranch, TypedStmt};
use sqlite_items::Items;

/// The arms of an `if`, and whether all their tests are BOOLs.
#[derive(Drop)]
pub(crate) struct Entries {
    list: Items<TypedBranch>,
    are_bools: bool,
}

/// The arms of an `if`.
#[cycle(statement)]
pub(crate) fn if_arms(
    view: &CheckTables<'_>,
    draft: &mut BodyState,
    built: &mut BodyOutput,
    arms: &[BranchArm],
) -> Result<Entries, Rejection> {
    let mut list = Items::new(view.alloc);
    let mut are_bools = true;
    for arm in arms {
        let ty = if_arm(view, draft, built, arm, &mut list)?;
        are_bools = are_bools && ty == Some(BOOL);
    }
    Ok(Entries { list, are_bools })
}

/// An arm of an `if`, appended to the list. It gives the number of its test's type.
#[cycle(statement)]
fn if_arm(
    view: &CheckTables<'_>,
    draft: &mut BodyState,
    built: &mut BodyOutput,
    arm: &BranchArm,
    list: &mut Items<TypedBranch>,
) -> Result<Option<u32>, Rejection> {
    let test = test((&*view).at(&draft.place), built, &arm.test)?;
    let ty = test.ty;
    let body = statements(view, draft, built, arm.body.as_slice())?;
    list.push(entry(view.alloc, test.core, body)?)?;
    Ok(ty)
}

/// The `if` with its arms, appended to the list: E33 unless all their tests are BOOLs.
pub(crate) fn if_stmt(
    entries: Entries,
    rest: Items<TypedStmt>,
    pos: Pos,
    cores: &mut Items<TypedStmt>,
) -> Result<(), Rejection> {
    if !entries.are_bools {
        return Err(Rule::WrongType.at(pos).into());
    }
    cores.push(TypedStmt::If(entries.list, rest))?;
    Ok(())
}
