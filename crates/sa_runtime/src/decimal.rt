//! Numbers as decimal digits: `INT.str` makes a text of them, and `OUT.put_int` writes them.

use crate::answers::{DONE, GIVE_ADDRESS};
use crate::copying::WRITE_BYTE_ON;
use crate::locals::{MADE, SELF, SIZE, TO};
use crate::operations::TO_ADDRESS;
use crate::template_ops::TemplateOp::{Br, BrIf, Do, Get, I32, I64, Memory, Set, Tee};
use crate::templates::Template::{self, Block, If, Line, Loop, Put, Sequence};
use crate::texts::MAKE_TEXT;
use wa_syntax::opcode::{
    I32_ADD, I32_STORE8, I64_ADD, I64_DIV_U, I64_LT_S, I64_LT_U, I64_MUL, I64_NE, I64_REM_U,
    I64_STORE8, I64_SUB,
};

/// The local with the number, first as it is and then without its sign and the digits that are done: the argument of
/// `OUT.put_int`.
const NUMBER: u32 = 1;

/// The local with the power of ten of the next digit.
const POWER: u32 = 2;

/// The byte `-`.
const MINUS: u32 = 0x2d;

/// The byte `0`.
const ZERO: u64 = 0x30;

/// Whether the number is negative.
const IS_NEGATIVE: Template = Line(&[Get(NUMBER), I64(0), Do(I64_LT_S)]);

/// Changes the sign of the number.
const NEGATE: Template = Line(&[I64(0), Get(NUMBER), Do(I64_SUB), Set(NUMBER)]);

/// Leaves the block around the loop where the number has no digit more significant than the power.
const LEAVE_AT_FIRST_DIGIT: Template = Sequence(&[
    Line(&[Get(NUMBER), Get(POWER), Do(I64_DIV_U)]),
    Line(&[I64(10), Do(I64_LT_U), BrIf(1)]),
]);

/// Goes on to the next more significant digit.
const DIGIT_ABOVE: Template = Line(&[Get(POWER), I64(10), Do(I64_MUL), Set(POWER)]);

/// The byte of the digit at the power.
const DIGIT: Template = Sequence(&[
    Line(&[Get(NUMBER), Get(POWER), Do(I64_DIV_U)]),
    Line(&[I64(ZERO), Do(I64_ADD)]),
]);

/// Takes that digit from the number, and goes on to the next less significant one: whether there is one.
const DIGIT_BELOW: Template = Sequence(&[
    Line(&[Get(NUMBER), Get(POWER), Do(I64_REM_U), Set(NUMBER)]),
    Line(&[Get(POWER), I64(10), Do(I64_DIV_U), Tee(POWER)]),
    Line(&[I64(0), Do(I64_NE)]),
]);

/// `INT.str`: the digits are counted, then the text is made, then they are written.
pub(crate) const STR: &[Template] = &[
    Line(&[Get(SELF), Set(NUMBER)]),
    Line(&[I64(1), Set(POWER)]),
    Line(&[I32(1), Set(SIZE)]),
    IS_NEGATIVE,
    If(&[NEGATE, Line(&[I32(2), Set(SIZE)])]),
    Block(&[Loop(&[
        LEAVE_AT_FIRST_DIGIT,
        DIGIT_ABOVE,
        Line(&[Get(SIZE), I32(1), Do(I32_ADD), Set(SIZE)]),
        Line(&[Br(0)]),
    ])]),
    MAKE_TEXT,
    Line(&[Get(MADE), Set(TO)]),
    Line(&[Get(SELF), I64(0), Do(I64_LT_S)]),
    If(&[
        Line(&[Get(TO), I32(MINUS), Memory(I32_STORE8, 8)]),
        WRITE_BYTE_ON,
    ]),
    Loop(&[
        Line(&[Get(TO)]),
        DIGIT,
        Line(&[Memory(I64_STORE8, 8)]),
        WRITE_BYTE_ON,
        DIGIT_BELOW,
        Line(&[BrIf(0)]),
    ]),
    Line(&[Get(MADE)]),
    GIVE_ADDRESS,
];

/// `OUT.put_int`.
pub(crate) const PUT_INT: &[Template] = &[
    Line(&[I64(1), Set(POWER)]),
    IS_NEGATIVE,
    If(&[NEGATE, Line(&[I32(MINUS)]), Put]),
    Block(&[Loop(&[LEAVE_AT_FIRST_DIGIT, DIGIT_ABOVE, Line(&[Br(0)])])]),
    Loop(&[
        DIGIT,
        Line(&[TO_ADDRESS]),
        Put,
        DIGIT_BELOW,
        Line(&[BrIf(0)]),
    ]),
    DONE,
];
