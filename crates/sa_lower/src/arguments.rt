//! The arguments of an adapter: as the implementation takes them, and those that are boxed after the call.

use crate::adapter::no_position;
use crate::passing::{ArgConversion, passing_of};
use crate::signatures::AdapterCall;
use failure::{Failure, Invariant, known};
use sa_cfg::{CallOperand, CfgOperation};
use sa_cfg_builder::BodyBuilder;
use sa_typing::ParamType;
use sqlite_items::Items;
use std::alloc::Global;

/// An argument that is boxed after the call: the variable that gets it, and the one that holds it with its class.
#[derive(Clone, Copy, Debug, PartialEq, Eq)]
pub(crate) struct OutBoxing {
    to: u32,
    from: u32,
    ty: u32,
}

/// The arguments as they are passed, and those that are boxed after the call.
#[derive(Drop)]
pub(crate) struct Arguments {
    pub args: Items<CallOperand>,
    pub backs: Items<OutBoxing>,
}

impl Arguments {
    /// No arguments.
    pub fn none(alloc: Global) -> Arguments {
        Arguments {
            args: Items::new(alloc),
            backs: Items::new(alloc),
        }
    }
}

/// The arguments as the implementation takes them.
pub(crate) fn pass_all(
    alloc: Global,
    implemented: AdapterCall<'_>,
    body: &mut BodyBuilder,
) -> Result<Arguments, Failure> {
    let mut passed = Arguments::none(alloc);
    for (place, param) in implemented.params().iter().enumerate() {
        pass(implemented, place, *param, body, &mut passed)?;
    }
    Ok(passed)
}

/// One more argument, the one at this index.
pub(crate) fn pass(
    implemented: AdapterCall<'_>,
    place: usize,
    param: ParamType,
    body: &mut BodyBuilder,
    passed: &mut Arguments,
) -> Result<(), Failure> {
    let how = passing_of(implemented, place, param);
    let to = known(u32::try_from(place).ok(), Invariant::CheckedCount)?;
    let var = variable(how, to, body, &mut passed.backs)?;
    passed.args.push(CallOperand {
        mode: param.mode,
        var: Some(var),
    })?;
    Ok(())
}

/// The variable that is passed for the argument `to` in the call.
fn variable(
    how: ArgConversion,
    to: u32,
    body: &mut BodyBuilder,
    backs: &mut Items<OutBoxing>,
) -> Result<u32, Failure> {
    match how {
        ArgConversion::Plain => Ok(to),
        ArgConversion::WidenedIn(ty) => widened(to, ty, body),
        ArgConversion::WidenedOut(ty) => {
            let from = body.temporary()?;
            backs.push(OutBoxing { to, from, ty })?;
            Ok(from)
        }
    }
}

/// The variable that holds the boxed value of an immutable class.
pub(crate) fn widened(from: u32, ty: u32, body: &mut BodyBuilder) -> Result<u32, Failure> {
    let to = body.temporary()?;
    body.step(CfgOperation::Box {
        to,
        from,
        ty,
        fail: no_position(),
    })?;
    Ok(to)
}

/// The variable that holds the result of the signature.
pub(crate) fn widened_value(
    value: Option<u32>,
    ty: Option<u32>,
    body: &mut BodyBuilder,
) -> Result<Option<u32>, Failure> {
    let (Some(from), Some(ty)) = (value, ty) else {
        return Ok(value);
    };
    Ok(Some(widened(from, ty, body)?))
}

/// Boxes what is copied out, from left to right.
pub(crate) fn widen_back(backs: &[OutBoxing], body: &mut BodyBuilder) -> Result<(), Failure> {
    for back in backs {
        body.step(CfgOperation::Box {
            to: back.to,
            from: back.from,
            ty: back.ty,
            fail: no_position(),
        })?;
    }
    Ok(())
}
