//! The frames of instances: each site has that of its instance in a local, or 0 where it has none.

use crate::outcome::SiteOperands;
use crate::{EmitContext, emit_depth_test, emit_fail_if, emit_if, emit_truth};
use failure::Failure;
use sa_runtime::fault_numbers::TOO_MANY_FRAMES;
use sa_runtime::layout::{NEW_FRAME, RELEASE};
use sa_runtime::template_ops::{TemplateOp, emit_ops};
use sa_runtime::trace::{self, TraceEvent};
use sa_stackify::ResultPlace;
use sqlite_items::Items;
use std::alloc::Global;
use wa_syntax::Instr;
use wa_syntax::opcode::{I32_EQZ, I32_NE};

/// Whether a site has an instance.
pub(crate) fn emit_has_instance(
    code: &mut Items<Instr>,
    around: &EmitContext<'_>,
    to: u32,
    site: u32,
) -> Result<(), Failure> {
    emit_is_frame(code, around, to, around.site(site))
}

/// Emits the test whether the value of a local is the address of a frame.
pub(crate) fn emit_is_frame(
    code: &mut Items<Instr>,
    around: &EmitContext<'_>,
    to: u32,
    frame: u32,
) -> Result<(), Failure> {
    if around.given == ResultPlace::StackBool {
        return emit_ops(code, &[TemplateOp::Get(frame)]);
    }
    emit_ops(
        code,
        &[
            TemplateOp::Get(frame),
            TemplateOp::I32(0),
            TemplateOp::Do(I32_NE),
        ],
    )?;
    emit_truth(code, around, Some(to))
}

/// Ends the instances of sites in this order, with those inside them.
pub(crate) fn emit_release(
    alloc: Global,
    code: &mut Items<Instr>,
    around: &EmitContext<'_>,
    sites: &[u32],
) -> Result<(), Failure> {
    for site in sites {
        emit_release_of(alloc, code, around, around.site(*site))?;
    }
    Ok(())
}

fn emit_release_of(
    alloc: Global,
    code: &mut Items<Instr>,
    around: &EmitContext<'_>,
    frame: u32,
) -> Result<(), Failure> {
    let mut release = Items::new(alloc);
    let line = [
        TemplateOp::Get(frame),
        around.runtime(RELEASE)?,
        TemplateOp::I32(0),
        TemplateOp::Set(frame),
    ];
    emit_ops(&mut release, &line)?;
    emit_ops(code, &[TemplateOp::Get(frame)])?;
    emit_if(alloc, code, release)
}

/// Emits the faults of a start of the body of a feature, and the code that allocates the frame of the instance.
pub(crate) fn emit_new_frame(
    alloc: Global,
    code: &mut Items<Instr>,
    around: &EmitContext<'_>,
    site: &SiteOperands<'_>,
) -> Result<(), Failure> {
    let fail = &site.plan.fail;
    emit_depth_test(alloc, code, around, fail)?;
    let line = [
        around.runtime(NEW_FRAME)?,
        TemplateOp::Tee(site.frame),
        TemplateOp::Do(I32_EQZ),
    ];
    emit_ops(code, &line)?;
    emit_fail_if(alloc, code, around, TemplateOp::I32(TOO_MANY_FRAMES), fail)?;
    trace::emit_event(code, around.program.tracing, site.frame, TraceEvent::Start)
}
