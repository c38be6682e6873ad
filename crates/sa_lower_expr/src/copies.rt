//! Copies out that are operations of their own after a call.

use crate::simple::widen;
use failure::Failure;
use sa_cfg::FaultExit;
use sa_cfg_builder::BodyBuilder;

/// A copy out of what a call leaves in a temporary.
#[derive(Clone, Copy)]
pub(crate) struct OutCopy {
    /// The variable that gets it.
    pub to: u32,
    pub from: u32,
    /// The index of the immutable type whose value is boxed, if it is.
    pub widened: Option<u32>,
}

/// Makes the copies in their order. A boxing that finds no room fails at the position of the call.
pub(crate) fn copy_back(
    body: &mut BodyBuilder,
    copies: &[OutCopy],
    fail: FaultExit,
) -> Result<(), Failure> {
    for copy in copies {
        make_copy(body, *copy, fail)?;
    }
    Ok(())
}

fn make_copy(body: &mut BodyBuilder, copy: OutCopy, fail: FaultExit) -> Result<(), Failure> {
    let OutCopy { to, from, widened } = copy;
    match widened {
        Some(ty) => widen(body, to, from, ty, fail),
        None => body.move_to(to, from),
    }
}
