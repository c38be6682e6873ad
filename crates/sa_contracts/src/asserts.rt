//! Conditions as they are asserted.

ghost use Rattle.std.specs.Prelude.{◌≡◌, ◌++◌, IfOk, OnOk};
ghost use Rattle.sa_contracts.specs.Assertions.{assert_of, asserts_of, unless_void};

use crate::budget::Budget;
use crate::copy::copy_expr;
use failure::Failure;
use sa_ast::{Condition, Expr, Operator, Stmt, Ty};
use sqlite_items::{Boxed, Items};
use std::alloc::Global;

/// What a feature keeps: what is asserted where it returns or yields a value to its caller, or ends without one.
#[derive(Clone, Copy)]
pub(crate) struct ExitConditions<'a> {
    pub(crate) conditions: &'a [Condition],
    /// The type of the feature's result.
    pub(crate) result: &'a Option<Ty>,
}

/// The assert of a condition, at its position.
pub(crate) fn asserted(
    alloc: Global,
    condition: &Condition,
    budget: &mut Budget,
) -> Result<Stmt, Failure>
    ensures { IfOk result (λ check. check ≡ assert_of condition.now) }
{
    let test = copy_expr(alloc, &condition.test, budget)?;
    Ok(Stmt::Assert(test, condition.pos))
}

/// Appends the asserts of the conditions to the list.
pub(crate) fn add_asserts(
    alloc: Global,
    conditions: &[Condition],
    list: &mut Items<Stmt>,
    budget: &mut Budget,
) -> Result<(), Failure>
    ensures { OnOk result (list.new ≡ list.old ++ asserts_of conditions.now) }
{
    for condition in conditions {
        list.push(asserted(alloc, condition, budget)?)?;
    }
    Ok(())
}

/// An invariant as a routine asserts it: `void(self) or`, and the invariant.
pub(crate) fn of_object(
    alloc: Global,
    invariant: &Condition,
    budget: &mut Budget,
) -> Result<Condition, Failure>
    ensures { IfOk result (λ condition. condition ≡ unless_void invariant.now) }
{
    let pos = invariant.pos;
    let me = Boxed::new(alloc, Expr::SelfRef(pos))?;
    let left = Boxed::new(alloc, Expr::IsVoid(me, pos))?;
    let holds = copy_expr(alloc, &invariant.test, budget)?;
    let right = Boxed::new(alloc, holds)?;
    let test = Expr::Binary(Operator::Or, left, right, pos);
    Ok(Condition { test, pos })
}
