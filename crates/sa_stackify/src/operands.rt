//! Which variables an operation reads as operands, in the order in which its instructions read them.

use crate::forms::{BuiltinForm, form_of, swapped_opcode};
use sa_ast::Mode;
use sa_cfg::{CallOperand, CallOperation, CallTarget, CfgOperation, Terminator};
use sa_prelude::BuiltinFeature;
use sa_runtime::layout::PARAMETERS;

/// The variable that an operation reads as its operand of this index, if it reads any there.
pub(crate) fn operand_at(step: &CfgOperation, place: usize) -> Option<u32> {
    match step {
        CfgOperation::Move { from, .. } => first(place, *from),
        CfgOperation::IsVoid { from, .. } => first(place, *from),
        CfgOperation::Unbox { from, .. } => first(place, *from),
        CfgOperation::TypeIs { from, .. } => first(place, *from),
        CfgOperation::CheckNotVoid { from, .. } => first(place, *from),
        CfgOperation::Call { plan } => operand_of_call(plan, place),
        _ => None,
    }
}

fn first(place: usize, var: u32) -> Option<u32> {
    if place == 0 {
        return Some(var);
    }
    None
}

fn operand_of_call(plan: &CallOperation, place: usize) -> Option<u32> {
    match plan.callee {
        CallTarget::Builtin(feature) => operand_of_builtin(plan, feature, place),
        CallTarget::Get(_) => first(place, plan.recv),
        CallTarget::Body(_) => operand_of_body_call(plan, place),
        CallTarget::Dispatch(_) => parameter(plan, place),
        CallTarget::Set(_) => None,
        CallTarget::GetShared(_) => None,
        CallTarget::SetShared(_) => None,
        CallTarget::Bound => None,
    }
}

/// The receiver, and then the arguments; of an element that is read or written the index alone.
fn operand_of_builtin(plan: &CallOperation, feature: BuiltinFeature, place: usize) -> Option<u32> {
    match form_of(feature) {
        BuiltinForm::Reads => first(place, argument(plan, 0)?),
        BuiltinForm::Writes => first(place, argument(plan, 0)?),
        _ => match place.checked_sub(1) {
            None => Some(plan.recv),
            Some(place) => argument(plan, place),
        },
    }
}

fn argument(plan: &CallOperation, place: usize) -> Option<u32> {
    match plan.args.get(place) {
        Some(arg) => arg.var,
        None => None,
    }
}

/// The arguments that are parameters, and then the receiver.
fn operand_of_body_call(plan: &CallOperation, place: usize) -> Option<u32> {
    let parameters = plan.args.len().min(PARAMETERS);
    if place == parameters {
        return Some(plan.recv);
    }
    parameter(plan, place)
}

/// An argument that is passed as a parameter.
fn parameter(plan: &CallOperation, place: usize) -> Option<u32> {
    if place >= PARAMETERS {
        return None;
    }
    match plan.args.get(place) {
        Some(arg) => passed_var(arg),
        None => None,
    }
}

fn passed_var(arg: &CallOperand) -> Option<u32> {
    if arg.mode == Mode::Out {
        return None;
    }
    arg.var
}

/// The second operand of an operation that can have its operands exchanged.
pub(crate) fn other_operand(step: &CfgOperation) -> Option<u32> {
    let CfgOperation::Call { plan } = step else {
        return None;
    };
    let CallTarget::Builtin(feature) = plan.callee else {
        return None;
    };
    let opcode = match form_of(feature) {
        BuiltinForm::Compares(opcode) => opcode,
        BuiltinForm::Combines(opcode) => opcode,
        BuiltinForm::Calculates(opcode) => opcode,
        _ => return None,
    };
    match swapped_opcode(opcode) {
        Some(_) => argument(plan, 0),
        None => None,
    }
}

/// The variable that a terminator reads as its operand.
pub(crate) fn operand_of_exit(exit: &Terminator) -> Option<u32> {
    match exit {
        Terminator::Branch { test, .. } => Some(*test),
        Terminator::Return { value } => *value,
        Terminator::Suspend { value, .. } => *value,
        Terminator::Jump(_) => None,
        Terminator::Quit => None,
        Terminator::Raise { .. } => None,
        Terminator::Fault { .. } => None,
    }
}

/// Whether an operation reads its operand as a truth value of 32 bits.
pub(crate) fn reads_truth(step: &CfgOperation) -> bool {
    match step {
        CfgOperation::Call { plan } => is_not(plan),
        _ => false,
    }
}

pub(crate) fn is_not(plan: &CallOperation) -> bool {
    matches!(plan.callee, CallTarget::Builtin(BuiltinFeature::BoolNot))
}

/// Whether a terminator reads its operand as a truth value of 32 bits.
pub(crate) fn exit_reads_truth(exit: &Terminator) -> bool {
    matches!(exit, Terminator::Branch { .. })
}
