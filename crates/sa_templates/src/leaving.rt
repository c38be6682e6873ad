//! The terminators that leave a body.

use crate::suspension::emit_suspend;
use crate::{EmitContext, Role, emit_copies_out, emit_fail};
use failure::{Failure, Invariant};
use sa_cfg::Terminator;
use sa_runtime::layout::{
    ENDED, EXCEPTION, EXCEPTION_KIND, EXCEPTION_PLACE, RAISED, RESULT, RETURNED,
};
use sa_runtime::template_ops::{TemplateOp, emit_ops};
use sqlite_items::Items;
use std::alloc::Global;
use wa_syntax::Instr;
use wa_syntax::opcode::{I32_WRAP_I64, RETURN};

/// Emits a terminator that leaves the body, or a fault.
///
/// # Errors
///
/// A `Failure`: `Broken` for exits that stay in the body.
pub fn emit_leaving(
    alloc: Global,
    code: &mut Items<Instr>,
    around: &EmitContext<'_>,
    exit: &Terminator,
) -> Result<(), Failure> {
    match exit {
        Terminator::Return { value } => emit_return(code, around, *value),
        Terminator::Quit => emit_ops(code, &[TemplateOp::I32(ENDED), TemplateOp::Do(RETURN)]),
        Terminator::Raise { value, place, kind } => {
            emit_raise_out(code, around, *value, *place, *kind)
        }
        Terminator::Fault { kind, fail } => {
            emit_fail(
                code,
                around,
                TemplateOp::I32(u32::from(kind.number())),
                fail,
            )
        }
        Terminator::Suspend { value, resume } => emit_suspend(alloc, code, around, *value, *resume),
        Terminator::Jump(_) => Err(stays()),
        Terminator::Branch { .. } => Err(stays()),
    }
}

/// The error for a terminator that stays in the body.
fn stays() -> Failure {
    Failure::Broken(Invariant::ExcludedForm)
}

/// A return with a value.
fn emit_return(
    code: &mut Items<Instr>,
    around: &EmitContext<'_>,
    value: Option<u32>,
) -> Result<(), Failure> {
    emit_copies_out(code, around.body)?;
    emit_return_value(code, around, value)?;
    emit_ops(code, &[TemplateOp::I32(RETURNED), TemplateOp::Do(RETURN)])
}

/// Emits the store of the result. The last body always has one, since it is the status of the program.
fn emit_return_value(
    code: &mut Items<Instr>,
    around: &EmitContext<'_>,
    value: Option<u32>,
) -> Result<(), Failure> {
    if let Some(var) = value {
        let line = [around.operand(var), TemplateOp::SetGlobal(RESULT)];
        return emit_ops(code, &line);
    }
    match around.role {
        Role::Entry => emit_ops(code, &[TemplateOp::I64(0), TemplateOp::SetGlobal(RESULT)]),
        Role::Feature => Ok(()),
        Role::Adapter => Ok(()),
    }
}

/// A raise out of the body.
fn emit_raise_out(
    code: &mut Items<Instr>,
    around: &EmitContext<'_>,
    value: u32,
    place: u32,
    kind: u32,
) -> Result<(), Failure> {
    let line = [
        around.operand(value),
        TemplateOp::SetGlobal(EXCEPTION),
        around.operand(place),
        TemplateOp::Do(I32_WRAP_I64),
        TemplateOp::SetGlobal(EXCEPTION_PLACE),
        around.operand(kind),
        TemplateOp::Do(I32_WRAP_I64),
        TemplateOp::SetGlobal(EXCEPTION_KIND),
        TemplateOp::I32(RAISED),
        TemplateOp::Do(RETURN),
    ];
    emit_ops(code, &line)
}
