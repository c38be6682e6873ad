//! Terminators: how a block goes on.

use crate::cfg_call::Cfg;
use crate::writer::Writer;
use sa_cfg::Terminator;
use std::alloc::AllocError;

/// A terminator.
pub(crate) fn put_terminator(
    to: &mut Writer,
    cfg: Cfg<'_>,
    terminator: &Terminator,
) -> Result<(), AllocError> {
    match terminator {
        Terminator::Jump(block) => {
            to.put("jump")?;
            cfg.put_block(to, *block)
        }
        Terminator::Branch { test, yes, no } => {
            to.put("branch")?;
            cfg.put_part(to, *test)?;
            cfg.put_block(to, *yes)?;
            cfg.put_block(to, *no)
        }
        Terminator::Return { value } => {
            to.put("return")?;
            cfg.put_optional(to, *value)
        }
        Terminator::Suspend { value, resume } => {
            to.put("suspend")?;
            cfg.put_optional(to, *value)?;
            put_resume(to, cfg, *resume)
        }
        Terminator::Quit => to.put("quit"),
        Terminator::Raise { value, place, kind } => {
            to.put("raise")?;
            cfg.put_raised(to, *value, *place, *kind)
        }
        Terminator::Fault { kind, fail } => {
            to.put("fault ")?;
            to.put(kind.text())?;
            cfg.put_fail(to, *fail)
        }
    }
}

/// The block that a suspended body goes on in. An adapter has none of its own.
fn put_resume(to: &mut Writer, cfg: Cfg<'_>, resume: Option<u32>) -> Result<(), AllocError> {
    match resume {
        Some(block) => {
            to.put(" resume")?;
            cfg.put_block(to, block)
        }
        None => Ok(()),
    }
}
