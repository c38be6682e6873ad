//! `protect`: its statements, and the branches for what they raise.

use crate::BodyState;
use crate::statement::statements;
use failure::{Invariant, known};
use sa_ast::{Rejection, TypeArm};
use sa_check_expr::{BodyOutput, CheckTables, written_type};
use sa_typed::TypedArm;
use sqlite_items::Items;

/// The branches of a `protect`.
#[cycle(statement)]
pub(crate) fn protect_arms(
    view: &CheckTables<'_>,
    draft: &mut BodyState,
    built: &mut BodyOutput,
    arms: &[TypeArm],
) -> Result<Items<TypedArm>, Rejection> {
    let mut branches = Items::new(view.alloc);
    for arm in arms {
        branches.push(protect_arm(view, draft, built, arm)?)?;
    }
    Ok(branches)
}

/// A branch of a `protect`, in which `exception` has its type.
#[cycle(statement)]
fn protect_arm(
    view: &CheckTables<'_>,
    draft: &mut BodyState,
    built: &mut BodyOutput,
    arm: &TypeArm,
) -> Result<TypedArm, Rejection> {
    let ty = known(written_type(view, &arm.ty), Invariant::CheckedNumber)?;
    draft.place.branch = Some(ty);
    let body = statements(view, draft, built, arm.body.as_slice())?;
    Ok(TypedArm { ty, var: 0, body })
}
