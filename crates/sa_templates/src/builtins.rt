//! Calls of built-in features: short ones as instructions in place, the others as calls of the runtime.

use crate::area::emit_result;
use crate::conditionals::emit_if;
use crate::context::EmitContext;
use crate::failing::{emit_fail, emit_fail_if};
use crate::objects::emit_element;
use crate::operand_source::OperandSource;
use crate::values::emit_truth;
use failure::{Failure, Invariant, known};
use sa_cfg::CallOperation;
use sa_prelude::BuiltinFeature;
use sa_runtime::fault_numbers::{INDEX, OVERFLOW, VOID};
use sa_runtime::layout::{FIRST_BUILTIN, first_element_at};
use sa_runtime::template_ops::{TemplateOp, emit_ops};
use sa_stackify::{BuiltinForm, ResultPlace, form_of, swapped_opcode};
use sqlite_items::Items;
use std::alloc::Global;
use wa_syntax::Instr;
use wa_syntax::opcode::{
    I32_EQZ, I32_WRAP_I64, I64_ADD, I64_EQZ, I64_EXTEND_I32_S, I64_GE_U, I64_GT_S, I64_LOAD,
    I64_LOAD32_U, I64_LT_S, I64_MUL, I64_NE, I64_STORE, I64_SUB, SELECT,
};

/// The runtime's function that makes an array.
pub(crate) const CREATE: u32 = FIRST_BUILTIN + BuiltinFeature::ArrayCreate as u32;

/// The offset of the length in an object, in bytes.
const LENGTH_AT: u32 = 4;

/// A call of a built-in feature.
pub fn emit_builtin(
    alloc: Global,
    code: &mut Items<Instr>,
    around: &EmitContext<'_>,
    plan: &CallOperation,
    feature: BuiltinFeature,
) -> Result<(), Failure> {
    match form_of(feature) {
        BuiltinForm::Compares(opcode) => emit_comparison(code, around, plan, opcode),
        BuiltinForm::Combines(opcode) => emit_combination(code, around, plan, opcode),
        BuiltinForm::Calculates(opcode) => emit_calculation(alloc, code, around, plan, opcode),
        BuiltinForm::Not => emit_not(code, around, plan),
        BuiltinForm::Negate => emit_negation(alloc, code, around, plan),
        BuiltinForm::Same => emit_same(code, around, plan),
        BuiltinForm::Length => emit_length_of(code, around, plan),
        BuiltinForm::Reads => emit_read_element(alloc, code, around, plan),
        BuiltinForm::Writes => emit_write_element(alloc, code, around, plan),
        BuiltinForm::Called => emit_runtime_call(alloc, code, around, plan, feature),
    }
}

/// Reads an argument of a call.
pub(crate) fn argument(
    around: &EmitContext<'_>,
    plan: &CallOperation,
    place: usize,
) -> Result<TemplateOp, Failure> {
    Ok(around.operand(argument_variable(plan, place)?))
}

/// The variable with an argument of a call.
fn argument_variable(plan: &CallOperation, place: usize) -> Result<u32, Failure> {
    let arg = known(plan.args.get(place), Invariant::CfgNumber)?;
    known(arg.var, Invariant::CfgNumber)
}

/// Emits an instruction on the receiver and the argument. Where the argument alone is an operand already, they are in the other order.
fn emit_on_both(
    code: &mut Items<Instr>,
    around: &EmitContext<'_>,
    plan: &CallOperation,
    opcode: u8,
) -> Result<(), Failure> {
    let second = argument_variable(plan, 0)?;
    let recv = around.operand(plan.recv);
    if around.is_operand(second) && !around.is_operand(plan.recv) {
        return emit_ops(
            code,
            &[
                recv,
                TemplateOp::Do(known(swapped_opcode(opcode), Invariant::CfgNumber)?),
            ],
        );
    }
    emit_ops(
        code,
        &[recv, around.operand(second), TemplateOp::Do(opcode)],
    )
}

/// A comparison of the receiver with the argument.
fn emit_comparison(
    code: &mut Items<Instr>,
    around: &EmitContext<'_>,
    plan: &CallOperation,
    opcode: u8,
) -> Result<(), Failure> {
    emit_on_both(code, around, plan, opcode)?;
    emit_truth(code, around, plan.value)
}

/// A result of the receiver and the argument that is in range.
fn emit_combination(
    code: &mut Items<Instr>,
    around: &EmitContext<'_>,
    plan: &CallOperation,
    opcode: u8,
) -> Result<(), Failure> {
    emit_on_both(code, around, plan, opcode)?;
    emit_ops(code, &[around.put(plan.value)])
}

/// A number made of the receiver and the argument. It fits the 64 bits of a word, and a fault comes where it doesn't fit 32.
fn emit_calculation(
    alloc: Global,
    code: &mut Items<Instr>,
    around: &EmitContext<'_>,
    plan: &CallOperation,
    opcode: u8,
) -> Result<(), Failure> {
    emit_on_both(code, around, plan, opcode)?;
    match bound_of(around, plan, opcode)? {
        Some(bound) => emit_within_bound(alloc, code, around, plan, bound),
        None => emit_in_range(alloc, code, around, plan),
    }
}

/// The bound that a sum or a difference may pass, on one side alone: the instruction that decides whether it does, and the bound.
#[derive(Clone, Copy)]
struct Bound {
    passes: u8,
    bound: u64,
}

/// The bound of a sum or a difference of the receiver and a constant.
fn bound_of(
    around: &EmitContext<'_>,
    plan: &CallOperation,
    opcode: u8,
) -> Result<Option<Bound>, Failure> {
    let second = argument_variable(plan, 0)?;
    let OperandSource::Word(word) = around.reading(second) else {
        return Ok(None);
    };
    let rises = word.cast_signed() >= 0;
    Ok(match opcode {
        I64_ADD => Some(bound_towards(rises)),
        I64_SUB => Some(bound_towards(!rises)),
        _ => None,
    })
}

/// The greatest number, or the least.
fn bound_towards(rises: bool) -> Bound {
    if rises {
        return Bound {
            passes: I64_GT_S,
            bound: i64::from(i32::MAX).cast_unsigned(),
        };
    }
    Bound {
        passes: I64_LT_S,
        bound: i64::from(i32::MIN).cast_unsigned(),
    }
}

/// The receiver with the other sign.
fn emit_negation(
    alloc: Global,
    code: &mut Items<Instr>,
    around: &EmitContext<'_>,
    plan: &CallOperation,
) -> Result<(), Failure> {
    if around.is_operand(plan.recv) {
        emit_ops(code, &[TemplateOp::I64(u64::MAX), TemplateOp::Do(I64_MUL)])?;
    } else {
        emit_ops(
            code,
            &[
                TemplateOp::I64(0),
                around.operand(plan.recv),
                TemplateOp::Do(I64_SUB),
            ],
        )?;
    }
    emit_in_range(alloc, code, around, plan)
}

/// Emits the code that takes the operand for the result of a call, and the fault where it doesn't fit 32 bits with a sign.
fn emit_in_range(
    alloc: Global,
    code: &mut Items<Instr>,
    around: &EmitContext<'_>,
    plan: &CallOperation,
) -> Result<(), Failure> {
    let to = around.receiving(plan.value);
    emit_ops(code, &[TemplateOp::Tee(to), also_left(around, to)])?;
    let line = [
        TemplateOp::Get(to),
        TemplateOp::Do(I32_WRAP_I64),
        TemplateOp::Do(I64_EXTEND_I32_S),
        TemplateOp::Do(I64_NE),
    ];
    emit_ops(code, &line)?;
    emit_fail_if(alloc, code, around, TemplateOp::I32(OVERFLOW), &plan.fail)
}

/// Emits the code that takes the operand for the result of a call, and the fault where it passes the bound.
fn emit_within_bound(
    alloc: Global,
    code: &mut Items<Instr>,
    around: &EmitContext<'_>,
    plan: &CallOperation,
    bound: Bound,
) -> Result<(), Failure> {
    let to = around.receiving(plan.value);
    let line = [
        TemplateOp::Tee(to),
        also_left(around, to),
        TemplateOp::I64(bound.bound),
        TemplateOp::Do(bound.passes),
    ];
    emit_ops(code, &line)?;
    emit_fail_if(alloc, code, around, TemplateOp::I32(OVERFLOW), &plan.fail)
}

/// Reads the result once more where it is left as an operand under the test.
fn also_left(around: &EmitContext<'_>, to: u32) -> TemplateOp {
    match around.given {
        ResultPlace::Stack => TemplateOp::Get(to),
        _ => TemplateOp::Here,
    }
}

/// The negation of a truth value.
fn emit_not(
    code: &mut Items<Instr>,
    around: &EmitContext<'_>,
    plan: &CallOperation,
) -> Result<(), Failure> {
    match around.reading(plan.recv) {
        OperandSource::Truth => emit_ops(code, &[TemplateOp::Do(I32_EQZ)])?,
        _ => emit_ops(code, &[around.operand(plan.recv), TemplateOp::Do(I64_EQZ)])?,
    }
    emit_truth(code, around, plan.value)
}

/// The receiver's word.
fn emit_same(
    code: &mut Items<Instr>,
    around: &EmitContext<'_>,
    plan: &CallOperation,
) -> Result<(), Failure> {
    emit_ops(code, &[around.operand(plan.recv), around.put(plan.value)])
}

/// The length of an array part: 0 for void, since the memory at address 0 stays 0.
fn emit_length_of(
    code: &mut Items<Instr>,
    around: &EmitContext<'_>,
    plan: &CallOperation,
) -> Result<(), Failure> {
    emit_length(code, around, plan)?;
    emit_ops(code, &[around.put(plan.value)])
}

/// Emits the load of the length of the receiver, as an operand.
fn emit_length(
    code: &mut Items<Instr>,
    around: &EmitContext<'_>,
    plan: &CallOperation,
) -> Result<(), Failure> {
    let line = [
        around.operand(plan.recv),
        TemplateOp::Do(I32_WRAP_I64),
        TemplateOp::Memory(I64_LOAD32_U, LENGTH_AT),
    ];
    emit_ops(code, &line)
}

/// An element of an array part.
fn emit_read_element(
    alloc: Global,
    code: &mut Items<Instr>,
    around: &EmitContext<'_>,
    plan: &CallOperation,
) -> Result<(), Failure> {
    let first = first_element_at(around.attributes(plan.class)?);
    emit_within(alloc, code, around, plan)?;
    let line = [TemplateOp::Memory(I64_LOAD, first), around.put(plan.value)];
    emit_ops(code, &line)
}

/// Writes an element of an array part.
fn emit_write_element(
    alloc: Global,
    code: &mut Items<Instr>,
    around: &EmitContext<'_>,
    plan: &CallOperation,
) -> Result<(), Failure> {
    let first = first_element_at(around.attributes(plan.class)?);
    let value = argument(around, plan, 1)?;
    emit_within(alloc, code, around, plan)?;
    emit_ops(code, &[value, TemplateOp::Memory(I64_STORE, first)])
}

/// Emits the faults of a void array and of an index that is out of range, then the element's address less the offset of the first one. A
/// void array has the length 0. A negative index is greater than each length when both are taken without signs.
fn emit_within(
    alloc: Global,
    code: &mut Items<Instr>,
    around: &EmitContext<'_>,
    plan: &CallOperation,
) -> Result<(), Failure> {
    let place = argument_variable(plan, 0)?;
    emit_ops(code, &[around.first_operand(place)])?;
    emit_length(code, around, plan)?;
    emit_ops(code, &[TemplateOp::Do(I64_GE_U)])?;
    emit_index_fault(alloc, code, around, plan)?;
    emit_element(code, around.operand(plan.recv), around.same_operand(place))
}

/// Emits the fault of a void array or of an index that is out of range, where the operand isn't 0.
fn emit_index_fault(
    alloc: Global,
    code: &mut Items<Instr>,
    around: &EmitContext<'_>,
    plan: &CallOperation,
) -> Result<(), Failure> {
    let inner = around.further_in()?;
    let mut fault = Items::new(alloc);
    let line = [
        TemplateOp::I32(VOID),
        TemplateOp::I32(INDEX),
        around.operand(plan.recv),
        TemplateOp::Do(I64_EQZ),
        TemplateOp::Do(SELECT),
        TemplateOp::Set(around.status()),
    ];
    emit_ops(&mut fault, &line)?;
    emit_fail(
        &mut fault,
        &inner,
        TemplateOp::Get(around.status()),
        &plan.fail,
    )?;
    emit_if(alloc, code, fault)
}

/// A call of the runtime's function.
fn emit_runtime_call(
    alloc: Global,
    code: &mut Items<Instr>,
    around: &EmitContext<'_>,
    plan: &CallOperation,
    feature: BuiltinFeature,
) -> Result<(), Failure> {
    emit_operands(code, around, plan)?;
    emit_layout(code, around, plan, feature)?;
    let line = [
        around.runtime(FIRST_BUILTIN + u32::from(feature.number()))?,
        TemplateOp::Tee(around.status()),
    ];
    emit_ops(code, &line)?;
    emit_fail_if(
        alloc,
        code,
        around,
        TemplateOp::Get(around.status()),
        &plan.fail,
    )?;
    emit_result(code, around, plan.value)
}

/// Emits the receiver and the arguments, as operands.
fn emit_operands(
    code: &mut Items<Instr>,
    around: &EmitContext<'_>,
    plan: &CallOperation,
) -> Result<(), Failure> {
    emit_ops(code, &[around.operand(plan.recv)])?;
    for arg in plan.args.as_slice() {
        let var = known(arg.var, Invariant::CfgNumber)?;
        emit_ops(code, &[around.operand(var)])?;
    }
    Ok(())
}

/// Emits what a feature has to know of an array, as operands: the type to make and the offset of its elements, or that of an `ARRAY{CHAR}`,
/// which has no attributes.
fn emit_layout(
    code: &mut Items<Instr>,
    around: &EmitContext<'_>,
    plan: &CallOperation,
    feature: BuiltinFeature,
) -> Result<(), Failure> {
    match feature {
        BuiltinFeature::ArrayCreate => {
            let first = first_element_at(around.attributes(plan.class)?);
            emit_ops(code, &[TemplateOp::I32(plan.class), TemplateOp::I32(first)])
        }
        BuiltinFeature::StrOf => emit_ops(code, &[TemplateOp::I32(first_element_at(0))]),
        _ => Ok(()),
    }
}
