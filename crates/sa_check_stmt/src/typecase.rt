//! `typecase`: in each branch the tested variable is another one, of a narrower type.

use crate::BodyState;
use crate::statement::statements;
use failure::{Failure, Invariant, known};
use sa_ast::{Name, Pos, Rejection, Rule, TypeArm};
use sa_check_expr::{BodyOutput, CheckTables, Variable, is_sub, written_type};
use sa_typed::TypedArm;
use sqlite_items::Items;

/// The variable that a `typecase` tests: E42 where the name is that of none.
pub(crate) fn tested_variable(
    draft: &BodyState,
    name: &Name,
    pos: Pos,
) -> Result<Variable, Rejection> {
    match draft.lookup(name) {
        None => Err(Rule::TypecaseVariable.at(pos).into()),
        Some(tested) => Ok(tested),
    }
}

/// The branches of a `typecase`.
#[cycle(statement)]
pub(crate) fn typecase_arms(
    view: &CheckTables<'_>,
    draft: &mut BodyState,
    built: &mut BodyOutput,
    name: &Name,
    tested: Variable,
    arms: &[TypeArm],
) -> Result<Items<TypedArm>, Rejection> {
    let mut branches = Items::new(view.alloc);
    for arm in arms {
        branches.push(typecase_arm(view, draft, built, name, tested, arm)?)?;
    }
    Ok(branches)
}

/// A branch of a `typecase`.
#[cycle(statement)]
fn typecase_arm(
    view: &CheckTables<'_>,
    draft: &mut BodyState,
    built: &mut BodyOutput,
    name: &Name,
    tested: Variable,
    arm: &TypeArm,
) -> Result<TypedArm, Rejection> {
    let ty = known(written_type(view, &arm.ty), Invariant::CheckedNumber)?;
    let var = narrow(view, draft, built, name, tested, ty)?;
    let body = statements(view, draft, built, arm.body.as_slice())?;
    draft.replace(name, tested);
    Ok(TypedArm { ty, var, body })
}

/// Rebinds the name to a new variable, and gives its number.
fn narrow(
    view: &CheckTables<'_>,
    draft: &mut BodyState,
    built: &BodyOutput,
    name: &Name,
    tested: Variable,
    branch: u32,
) -> Result<u32, Failure> {
    let ty = narrow_type(view, built, tested.ty, branch);
    let number = draft.variable(ty)?;
    let narrowed = Variable {
        ty,
        narrowed: true,
        number,
    };
    draft.replace(name, narrowed);
    Ok(number)
}

/// The type of the variable in a branch: that of the tested variable where it is a subtype of the branch's type, else the
/// branch's type.
fn narrow_type(view: &CheckTables<'_>, built: &BodyOutput, tested: u32, branch: u32) -> u32 {
    if is_sub(view, built, tested, branch) {
        tested
    } else {
        branch
    }
}
