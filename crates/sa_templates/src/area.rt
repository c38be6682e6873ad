//! How a call passes its receiver and arguments to a body, and what the body copies out: the first arguments and the receiver are operands,
//! the other arguments are in an area of memory, and so is what is copied out.

use crate::context::{EmitContext, local_of};
use failure::{Failure, Invariant, known};
use sa_ast::Mode;
use sa_cfg::{BodyParam, CallOperand, CfgBody};
use sa_runtime::layout::{FIRST_ARGUMENT_AT, PARAMETERS, RESULT};
use sa_runtime::template_ops::{TemplateOp, emit_ops};
use sqlite_items::Items;
use wa_syntax::Instr;
use wa_syntax::opcode::{I64_LOAD, I64_STORE};

/// How many arguments the area has room for.
pub const ARGUMENTS: usize = 200;

/// Which arguments a call passes.
#[derive(Clone, Copy, Debug, PartialEq, Eq)]
pub enum CallPhase {
    /// All of them: the call begins what it calls.
    AtStart,
    /// All but those that are `once`: the call resumes an instance.
    AtResumption,
}

/// How many of the arguments of a call are operands.
pub fn parameters(args: &[CallOperand]) -> u32 {
    args.len().min(PARAMETERS) as u32
}

/// Emits the arguments that a call passes: operands, and stores of those that are in the area.
pub fn emit_args(
    code: &mut Items<Instr>,
    around: &EmitContext<'_>,
    args: &[CallOperand],
    handing: CallPhase,
) -> Result<(), Failure> {
    for (place, arg) in args.iter().enumerate() {
        if place < PARAMETERS {
            emit_ops(code, &[arg_operand(around, arg, handing)?])?;
        } else {
            emit_argument(code, around, place, arg, handing)?;
        }
    }
    Ok(())
}

/// An argument as an operand: 0 where it isn't passed.
fn arg_operand(
    around: &EmitContext<'_>,
    arg: &CallOperand,
    handing: CallPhase,
) -> Result<TemplateOp, Failure> {
    if !is_passed(arg.mode, handing) {
        return Ok(TemplateOp::I64(0));
    }
    Ok(around.operand(known(arg.var, Invariant::CfgNumber)?))
}

/// Emits the stores of the arguments that the call of a bound value passes.
pub fn emit_stored_args(
    code: &mut Items<Instr>,
    around: &EmitContext<'_>,
    args: &[CallOperand],
    handing: CallPhase,
) -> Result<(), Failure> {
    for (place, arg) in args.iter().enumerate() {
        emit_argument(code, around, place, arg, handing)?;
    }
    Ok(())
}

fn emit_argument(
    code: &mut Items<Instr>,
    around: &EmitContext<'_>,
    place: usize,
    arg: &CallOperand,
    handing: CallPhase,
) -> Result<(), Failure> {
    if !is_passed(arg.mode, handing) {
        return Ok(());
    }
    let var = known(arg.var, Invariant::CfgNumber)?;
    emit_store(code, argument_at(place)?, around.operand(var))
}

/// Emits the code that takes the result of a call and then what is copied out, in order.
pub fn emit_results(
    code: &mut Items<Instr>,
    around: &EmitContext<'_>,
    value: Option<u32>,
    args: &[CallOperand],
) -> Result<(), Failure> {
    emit_result(code, around, value)?;
    for (place, arg) in args.iter().enumerate() {
        emit_out_arg(code, around, place, arg)?;
    }
    Ok(())
}

fn emit_out_arg(
    code: &mut Items<Instr>,
    around: &EmitContext<'_>,
    place: usize,
    arg: &CallOperand,
) -> Result<(), Failure> {
    if !is_copied_out(arg.mode) {
        return Ok(());
    }
    let var = known(arg.var, Invariant::CfgNumber)?;
    emit_load(code, argument_at(place)?, around.local(var))
}

/// Emits the code that takes the result of a call, where it is wanted.
pub(crate) fn emit_result(
    code: &mut Items<Instr>,
    around: &EmitContext<'_>,
    value: Option<u32>,
) -> Result<(), Failure> {
    match value {
        Some(_) => emit_ops(code, &[TemplateOp::GetGlobal(RESULT), around.put(value)]),
        None => Ok(()),
    }
}

/// Emits the code that a body begins with: the loads of the arguments that are in the area.
///
/// # Errors
///
/// A `Failure`: `Broken` where the body has more arguments than the area has room for.
pub fn emit_prologue(code: &mut Items<Instr>, body: &CfgBody) -> Result<(), Failure> {
    emit_formals(code, body)?;
    emit_once_formals(code, body)
}

/// Emits the loads of the arguments in the area that each call passes, also the one that resumes an instance.
pub fn emit_formals(code: &mut Items<Instr>, body: &CfgBody) -> Result<(), Failure> {
    for (place, formal) in body.formals.as_slice().iter().enumerate() {
        if place >= PARAMETERS && is_passed(formal.mode, CallPhase::AtResumption) {
            emit_formal(code, body, place)?;
        }
    }
    Ok(())
}

/// Emits the loads of the arguments in the area that a start alone passes.
pub fn emit_once_formals(code: &mut Items<Instr>, body: &CfgBody) -> Result<(), Failure> {
    for (place, formal) in body.formals.as_slice().iter().enumerate() {
        if place >= PARAMETERS && is_once(formal.mode) {
            emit_formal(code, body, place)?;
        }
    }
    Ok(())
}

fn emit_formal(code: &mut Items<Instr>, body: &CfgBody, place: usize) -> Result<(), Failure> {
    let at = argument_at(place)?;
    emit_load(code, at, formal_local(body, place)?)
}

/// Emits the stores of what a body copies out of its arguments, into the area.
pub fn emit_copies_out(code: &mut Items<Instr>, body: &CfgBody) -> Result<(), Failure> {
    for (place, formal) in body.formals.as_slice().iter().enumerate() {
        emit_copy_out(code, body, place, formal)?;
    }
    Ok(())
}

fn emit_copy_out(
    code: &mut Items<Instr>,
    body: &CfgBody,
    place: usize,
    formal: &BodyParam,
) -> Result<(), Failure> {
    if !is_copied_out(formal.mode) {
        return Ok(());
    }
    let at = argument_at(place)?;
    emit_store(code, at, TemplateOp::Get(formal_local(body, place)?))
}

/// Emits the store of a value at an address. `value` reads it.
pub(crate) fn emit_store(
    code: &mut Items<Instr>,
    at: u32,
    value: TemplateOp,
) -> Result<(), Failure> {
    emit_ops(
        code,
        &[TemplateOp::I32(0), value, TemplateOp::Memory(I64_STORE, at)],
    )
}

/// Emits the load of a local from an address.
pub(crate) fn emit_load(code: &mut Items<Instr>, at: u32, local: u32) -> Result<(), Failure> {
    emit_ops(
        code,
        &[
            TemplateOp::I32(0),
            TemplateOp::Memory(I64_LOAD, at),
            TemplateOp::Set(local),
        ],
    )
}

/// The local with an argument of the body.
fn formal_local(body: &CfgBody, place: usize) -> Result<u32, Failure> {
    let var = known(u32::try_from(place).ok(), Invariant::CfgNumber)?;
    Ok(local_of(body, var))
}

/// The address of an argument.
fn argument_at(place: usize) -> Result<u32, Failure> {
    if place >= ARGUMENTS {
        return Err(too_many());
    }
    Ok(FIRST_ARGUMENT_AT + 8 * place as u32)
}

/// The error for an argument that the area has no room for. A feature has no more variables than that.
fn too_many() -> Failure {
    Failure::Broken(Invariant::CfgNumber)
}

/// Whether a call passes the argument's value to the body.
fn is_passed(mode: Mode, handing: CallPhase) -> bool {
    match mode {
        Mode::Out => false,
        Mode::Once => handing == CallPhase::AtStart,
        Mode::In => true,
        Mode::Inout => true,
    }
}

/// Whether an iter takes the argument's value at its start alone.
pub fn is_once(mode: Mode) -> bool {
    matches!(mode, Mode::Once)
}

/// Whether the argument's value is copied out to the variable of the call.
pub fn is_copied_out(mode: Mode) -> bool {
    matches!(mode, Mode::Out | Mode::Inout)
}
