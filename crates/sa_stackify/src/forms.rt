//! Which built-in features are instructions where they are called, and which are calls of the runtime.

use sa_prelude::BuiltinFeature;
use wa_syntax::opcode::{
    I64_ADD, I64_AND, I64_EQ, I64_GT_S, I64_LT_S, I64_MUL, I64_OR, I64_SUB, I64_XOR,
};

/// How a built-in feature is emitted where it is called.
#[derive(Clone, Copy)]
pub enum BuiltinForm {
    /// A comparison of the receiver with the argument by this instruction.
    Compares(u8),
    /// An instruction on both, whose result is in range.
    Combines(u8),
    /// An instruction on both, whose result may be out of range.
    Calculates(u8),
    /// The negation of a truth value.
    Not,
    /// The negation of a number.
    Negate,
    /// The receiver's word as it is.
    Same,
    /// The length of an array part.
    Length,
    /// Reads an element.
    Reads,
    /// Writes an element.
    Writes,
    /// A call of the runtime's function.
    Called,
}

/// How a built-in feature is emitted.
pub fn form_of(feature: BuiltinFeature) -> BuiltinForm {
    match feature {
        BuiltinFeature::BoolIsEq => BuiltinForm::Compares(I64_EQ),
        BuiltinFeature::BoolNot => BuiltinForm::Not,
        BuiltinFeature::IntPlus => BuiltinForm::Calculates(I64_ADD),
        BuiltinFeature::IntMinus => BuiltinForm::Calculates(I64_SUB),
        BuiltinFeature::IntTimes => BuiltinForm::Calculates(I64_MUL),
        BuiltinFeature::IntNegate => BuiltinForm::Negate,
        BuiltinFeature::IntIsEq => BuiltinForm::Compares(I64_EQ),
        BuiltinFeature::IntIsLt => BuiltinForm::Compares(I64_LT_S),
        BuiltinFeature::IntBand => BuiltinForm::Combines(I64_AND),
        BuiltinFeature::IntBor => BuiltinForm::Combines(I64_OR),
        BuiltinFeature::IntBxor => BuiltinForm::Combines(I64_XOR),
        BuiltinFeature::CharIsEq => BuiltinForm::Compares(I64_EQ),
        BuiltinFeature::CharIsLt => BuiltinForm::Compares(I64_LT_S),
        BuiltinFeature::CharInt => BuiltinForm::Same,
        BuiltinFeature::ArefAsize => BuiltinForm::Length,
        BuiltinFeature::ArefAget => BuiltinForm::Reads,
        BuiltinFeature::ArefAset => BuiltinForm::Writes,
        _ => BuiltinForm::Called,
    }
}

/// The instruction that does the same with its operands exchanged, if there is one.
pub fn swapped_opcode(opcode: u8) -> Option<u8> {
    match opcode {
        I64_LT_S => Some(I64_GT_S),
        I64_SUB => None,
        _ => Some(opcode),
    }
}
