//! `and` and `or`: the right operand is evaluated only where the left one doesn't decide.

use failure::Failure;
use sa_cfg::{CfgOperation, Constant, Terminator};
use sa_cfg_builder::BodyBuilder;
use std::alloc::Global;

/// The operator that joins two operands.
#[derive(Clone, Copy, Debug, PartialEq, Eq)]
pub(crate) enum Connective {
    And,
    Or,
}

impl Connective {
    /// The value of the left operand with which it decides.
    fn deciding(self) -> bool {
        match self {
            Connective::And => false,
            Connective::Or => true,
        }
    }
}

/// The operator, the variable that gets the value, and the block to go on in where the left operand has decided it.
#[derive(Clone, Copy)]
pub(crate) struct ShortCircuitJoin {
    connective: Connective,
    to: u32,
    decided: u32,
}

/// Opens the block in which the right operand is evaluated.
pub(crate) fn begin_right(
    alloc: Global,
    body: &mut BodyBuilder,
    connective: Connective,
    left: u32,
) -> Result<ShortCircuitJoin, Failure> {
    let joint = ShortCircuitJoin {
        connective,
        to: body.temporary()?,
        decided: body.block(alloc)?,
    };
    let right = body.block(alloc)?;
    body.end(alloc, decision(joint, left, right), right)?;
    Ok(joint)
}

/// The terminator after the left operand.
fn decision(joint: ShortCircuitJoin, left: u32, right: u32) -> Terminator {
    match joint.connective {
        Connective::And => Terminator::Branch {
            test: left,
            yes: right,
            no: joint.decided,
        },
        Connective::Or => Terminator::Branch {
            test: left,
            yes: joint.decided,
            no: right,
        },
    }
}

/// Joins the two paths to the value: the right operand, or the left one where it was enough.
pub(crate) fn joined(
    alloc: Global,
    body: &mut BodyBuilder,
    joint: ShortCircuitJoin,
    right: u32,
) -> Result<u32, Failure> {
    let to = joint.to;
    let decided = joint.connective.deciding();
    let following = body.block(alloc)?;
    body.move_to(to, right)?;
    body.end(alloc, Terminator::Jump(following), joint.decided)?;
    body.step(CfgOperation::Const {
        to,
        value: Constant::Bool(decided),
    })?;
    body.end(alloc, Terminator::Jump(following), following)?;
    Ok(to)
}
