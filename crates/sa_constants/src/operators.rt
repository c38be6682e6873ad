//! The operators by which constants are folded. Both operands are evaluated, except for `and` and `or`, whose right operand counts only
//! where the left one doesn't decide.

use crate::folded::{ConstError, FoldedConst};
use sa_ast::Operator;
use std::cmp::Ordering;

/// The result of an operator on two operands. `None` where there is no such operator on their types.
pub(crate) fn binary<'t>(
    op: Operator,
    left: FoldedConst<'t>,
    right: FoldedConst<'t>,
) -> Option<FoldedConst<'t>> {
    match (left, right) {
        (FoldedConst::Int(left), FoldedConst::Int(right)) => of_ints(op, left, right),
        (FoldedConst::Bool(left), FoldedConst::Bool(right)) => of_bools(op, left, right),
        (FoldedConst::Char(left), FoldedConst::Char(right)) => compared(op, order(left, right)),
        _ => None,
    }
}

/// The result of an operator on one operand.
pub(crate) fn unary(op: Operator, of: FoldedConst<'_>) -> Option<FoldedConst<'_>> {
    match (op, of) {
        (Operator::Negate, FoldedConst::Int(value)) => Some(FoldedConst::Int(negated(value))),
        (Operator::Not, FoldedConst::Bool(value)) => Some(FoldedConst::Bool(inverted(value))),
        _ => None,
    }
}

fn of_ints<'t>(
    op: Operator,
    left: Result<i32, ConstError>,
    right: Result<i32, ConstError>,
) -> Option<FoldedConst<'t>> {
    match op {
        Operator::Plus | Operator::Minus | Operator::Times | Operator::Div | Operator::Mod => {
            Some(FoldedConst::Int(arithmetic(op, left, right)))
        }
        _ => compared(op, order(left, right)),
    }
}

fn of_bools<'t>(
    op: Operator,
    left: Result<bool, ConstError>,
    right: Result<bool, ConstError>,
) -> Option<FoldedConst<'t>> {
    match op {
        Operator::And => Some(FoldedConst::Bool(and(left, right))),
        Operator::Or => Some(FoldedConst::Bool(or(left, right))),
        Operator::Eq | Operator::Neq => compared(op, order(left, right)),
        _ => None,
    }
}

fn and(
    left: Result<bool, ConstError>,
    right: Result<bool, ConstError>,
) -> Result<bool, ConstError> {
    match left {
        Ok(true) => right,
        _ => left,
    }
}

fn or(left: Result<bool, ConstError>, right: Result<bool, ConstError>) -> Result<bool, ConstError> {
    match left {
        Ok(false) => right,
        _ => left,
    }
}

/// The operands where both have a value; else why they have none.
fn both<T: Copy>(
    left: Result<T, ConstError>,
    right: Result<T, ConstError>,
) -> Result<(T, T), ConstError> {
    match (left, right) {
        (Ok(left), Ok(right)) => Ok((left, right)),
        (Ok(_), Err(lack)) => Err(lack),
        (Err(ConstError::Unknown), Err(lack)) => Err(lack),
        (Err(lack), _) => Err(lack),
    }
}

fn arithmetic(
    op: Operator,
    left: Result<i32, ConstError>,
    right: Result<i32, ConstError>,
) -> Result<i32, ConstError> {
    let (left, right) = both(left, right)?;
    calculated(op, left, right).ok_or(ConstError::OutOfRange)
}

/// The result of an operator of INT, unless it is out of range or divides by zero.
fn calculated(op: Operator, left: i32, right: i32) -> Option<i32> {
    match op {
        Operator::Plus => left.checked_add(right),
        Operator::Minus => left.checked_sub(right),
        Operator::Times => left.checked_mul(right),
        Operator::Div => left.checked_div(right),
        Operator::Mod if right == -1 => Some(0),
        Operator::Mod => left.checked_rem(right),
        _ => None,
    }
}

/// How two operands compare. `false` comes before `true`, which equality alone asks for.
fn order<T: Copy + Ord>(
    left: Result<T, ConstError>,
    right: Result<T, ConstError>,
) -> Result<Ordering, ConstError> {
    let (left, right) = both(left, right)?;
    Ok(left.cmp(&right))
}

/// The result of a comparison of operands that compare like this. `None` where the operator is no comparison.
fn compared<'t>(op: Operator, order: Result<Ordering, ConstError>) -> Option<FoldedConst<'t>> {
    if !matches!(
        op,
        Operator::Eq | Operator::Neq | Operator::Lt | Operator::Leq | Operator::Gt | Operator::Geq
    ) {
        return None;
    }
    Some(FoldedConst::Bool(match order {
        Ok(order) => Ok(holds(op, order)),
        Err(lack) => Err(lack),
    }))
}

/// Whether a comparison is true of values that compare like this.
fn holds(op: Operator, order: Ordering) -> bool {
    match op {
        Operator::Eq => order == Ordering::Equal,
        Operator::Neq => order != Ordering::Equal,
        Operator::Lt => order == Ordering::Less,
        Operator::Leq => order != Ordering::Greater,
        Operator::Gt => order == Ordering::Greater,
        _ => order != Ordering::Less,
    }
}

fn negated(value: Result<i32, ConstError>) -> Result<i32, ConstError> {
    value?.checked_neg().ok_or(ConstError::OutOfRange)
}

fn inverted(value: Result<bool, ConstError>) -> Result<bool, ConstError> {
    Ok(!value?)
}
