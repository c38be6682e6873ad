//! Operations that give a value and can't fail.

use crate::context::EmitContext;
use crate::operand_source::OperandSource;
use crate::subtype_ranges::TypeRange;
use failure::{Failure, Invariant, known};
use sa_cfg::Constant;
use sa_runtime::template_ops::{TemplateOp, emit_ops};
use sa_stackify::ResultPlace;
use sqlite_items::Items;
use wa_syntax::Instr;
use wa_syntax::opcode::{
    I32_AND, I32_EQ, I32_LE_U, I32_LOAD, I32_OR, I32_SUB, I32_WRAP_I64, I64_EQZ, I64_EXTEND_I32_U,
};

/// The bits of a header with the number of the object's type.
const TYPE_BITS: u32 = 0x00ff_ffff;

/// A constant.
pub fn emit_const(
    code: &mut Items<Instr>,
    around: &EmitContext<'_>,
    to: u32,
    value: &Constant,
) -> Result<(), Failure> {
    let word = word_of(around, value)?;
    emit_ops(code, &[TemplateOp::I64(word), around.put(Some(to))])
}

/// The word of a constant.
pub fn word_of(around: &EmitContext<'_>, value: &Constant) -> Result<u64, Failure> {
    match value {
        Constant::Void(_) => Ok(0),
        Constant::Int(number) => Ok(i64::from(*number).cast_unsigned()),
        Constant::Bool(truth) => Ok(u64::from(*truth)),
        Constant::Char(byte) => Ok(u64::from(*byte)),
        Constant::Text(place) => {
            let address = known(
                around.program.texts.get(*place as usize).copied(),
                Invariant::CfgNumber,
            )?;
            Ok(u64::from(address))
        }
    }
}

/// The value of another variable.
pub fn emit_move(
    code: &mut Items<Instr>,
    around: &EmitContext<'_>,
    to: u32,
    from: u32,
) -> Result<(), Failure> {
    emit_ops(code, &[around.operand(from), around.put(Some(to))])
}

/// The value of `self`.
pub fn emit_self(
    code: &mut Items<Instr>,
    around: &EmitContext<'_>,
    to: u32,
) -> Result<(), Failure> {
    emit_ops(code, &[TemplateOp::Get(around.me()), around.put(Some(to))])
}

/// Whether a value is void: exactly the word 0 is.
pub fn emit_is_void(
    code: &mut Items<Instr>,
    around: &EmitContext<'_>,
    to: u32,
    from: u32,
) -> Result<(), Failure> {
    emit_ops(code, &[around.operand(from), TemplateOp::Do(I64_EQZ)])?;
    emit_truth(code, around, Some(to))
}

/// Emits the code that takes the operand, a truth value of 32 bits, for the operation's value.
pub fn emit_truth(
    code: &mut Items<Instr>,
    around: &EmitContext<'_>,
    to: Option<u32>,
) -> Result<(), Failure> {
    if around.given == ResultPlace::StackBool {
        return Ok(());
    }
    emit_ops(code, &[TemplateOp::Do(I64_EXTEND_I32_U), around.put(to)])
}

/// Emits the value of a variable as a truth value of 32 bits.
pub fn emit_test(
    code: &mut Items<Instr>,
    around: &EmitContext<'_>,
    var: u32,
) -> Result<(), Failure> {
    match around.reading(var) {
        OperandSource::Truth => Ok(()),
        _ => emit_ops(code, &[around.operand(var), TemplateOp::Do(I32_WRAP_I64)]),
    }
}

/// Whether the class of a value is a type or a subtype of it. A void value is read as an object of type 0, which is abstract and so in no
/// range.
pub fn emit_type_is(
    code: &mut Items<Instr>,
    around: &EmitContext<'_>,
    to: u32,
    from: u32,
    ty: u32,
) -> Result<(), Failure> {
    emit_type_of(code, around, from)?;
    emit_ops(code, &[TemplateOp::Set(around.address())])?;
    emit_any_range(code, around, around.program.below.spans(ty))?;
    emit_truth(code, around, Some(to))
}

/// Emits the test whether the type's number in the local for it is in one of the ranges.
pub fn emit_any_range(
    code: &mut Items<Instr>,
    around: &EmitContext<'_>,
    spans: &[TypeRange],
) -> Result<(), Failure> {
    let Some((first, others)) = spans.split_first() else {
        return emit_ops(code, &[TemplateOp::I32(0)]);
    };
    emit_range_test(code, around, first)?;
    for span in others {
        emit_range_test(code, around, span)?;
        emit_ops(code, &[TemplateOp::Do(I32_OR)])?;
    }
    Ok(())
}

/// Emits the test of the type's number in the local for it against a range.
fn emit_range_test(
    code: &mut Items<Instr>,
    around: &EmitContext<'_>,
    span: &TypeRange,
) -> Result<(), Failure> {
    if span.least == span.greatest {
        let line = [
            TemplateOp::Get(around.address()),
            TemplateOp::I32(span.least),
            TemplateOp::Do(I32_EQ),
        ];
        return emit_ops(code, &line);
    }
    let line = [
        TemplateOp::Get(around.address()),
        TemplateOp::I32(span.least),
        TemplateOp::Do(I32_SUB),
        TemplateOp::I32(span.greatest.saturating_sub(span.least)),
        TemplateOp::Do(I32_LE_U),
    ];
    emit_ops(code, &line)
}

/// Emits the load of the number of the type of an object, as an operand.
pub fn emit_type_of(
    code: &mut Items<Instr>,
    around: &EmitContext<'_>,
    var: u32,
) -> Result<(), Failure> {
    let line = [
        around.operand(var),
        TemplateOp::Do(I32_WRAP_I64),
        TemplateOp::Memory(I32_LOAD, 0),
        TemplateOp::I32(TYPE_BITS),
        TemplateOp::Do(I32_AND),
    ];
    emit_ops(code, &line)
}
