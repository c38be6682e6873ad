//! The arithmetic of `INT` and its operations on bits. No sum, difference or product of two words of `INT` wraps in 64 bits.

use crate::answers::{DIV_ZERO_IF, GIVE_WORD, OVERFLOW_IF};
use crate::layout::RESULT;
use crate::locals::{FIRST, SELF};
use crate::operations::TO_ADDRESS;
use crate::template_ops::TemplateOp::{Do, Get, I64, SetGlobal, Tee};
use crate::templates::Template::{self, Line, Sequence};
use wa_syntax::opcode::{
    I64_ADD, I64_AND, I64_DIV_S, I64_EQZ, I64_EXTEND_I32_S, I64_GT_U, I64_MUL, I64_NE, I64_OR,
    I64_REM_S, I64_SUB, I64_XOR,
};

/// Ends a feature that gives this number, or ends it by `overflow` where it isn't the extension of its low half: the comparison is the
/// status, since `overflow` has the number 1.
const GIVE_IN_RANGE: Template = Sequence(&[
    Line(&[Tee(SELF), SetGlobal(RESULT)]),
    Line(&[Get(SELF), TO_ADDRESS, Do(I64_EXTEND_I32_S)]),
    Line(&[Get(SELF), Do(I64_NE)]),
]);

/// `INT.plus`.
pub(crate) const PLUS: &[Template] = &[Line(&[Get(SELF), Get(FIRST), Do(I64_ADD)]), GIVE_IN_RANGE];

/// `INT.minus`.
pub(crate) const MINUS: &[Template] = &[Line(&[Get(SELF), Get(FIRST), Do(I64_SUB)]), GIVE_IN_RANGE];

/// `INT.times`.
pub(crate) const TIMES: &[Template] = &[Line(&[Get(SELF), Get(FIRST), Do(I64_MUL)]), GIVE_IN_RANGE];

/// `INT.negate`.
pub(crate) const NEGATE: &[Template] = &[Line(&[I64(0), Get(SELF), Do(I64_SUB)]), GIVE_IN_RANGE];

/// `INT.div`, which rounds towards zero. The quotient of the least number by -1 is out of range.
pub(crate) const DIV: &[Template] = &[
    Line(&[Get(FIRST), Do(I64_EQZ)]),
    DIV_ZERO_IF,
    Line(&[Get(SELF), Get(FIRST), Do(I64_DIV_S)]),
    GIVE_IN_RANGE,
];

/// `INT.mod`, which has the sign of `self`.
pub(crate) const MOD: &[Template] = &[
    Line(&[Get(FIRST), Do(I64_EQZ)]),
    DIV_ZERO_IF,
    Line(&[Get(SELF), Get(FIRST), Do(I64_REM_S)]),
    GIVE_WORD,
];

/// `INT.band`.
pub(crate) const BAND: &[Template] = &[Line(&[Get(SELF), Get(FIRST), Do(I64_AND)]), GIVE_WORD];

/// `INT.bor`.
pub(crate) const BOR: &[Template] = &[Line(&[Get(SELF), Get(FIRST), Do(I64_OR)]), GIVE_WORD];

/// `INT.bxor`.
pub(crate) const BXOR: &[Template] = &[Line(&[Get(SELF), Get(FIRST), Do(I64_XOR)]), GIVE_WORD];

/// `INT.char`. As a number without sign a negative word is greater than 255.
pub(crate) const CHAR: &[Template] = &[
    Line(&[Get(SELF), I64(255), Do(I64_GT_U)]),
    OVERFLOW_IF,
    Line(&[Get(SELF)]),
    GIVE_WORD,
];
