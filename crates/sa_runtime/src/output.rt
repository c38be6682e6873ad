//! What is written and read: the features of `OUT` and `IN`, except decimal digits.

use crate::answers::{DONE, GIVE_WORD};
use crate::copying::{
    BYTE_IS_DONE, LEAVE_WITHOUT_BYTE, LEAVE_WITHOUT_WORD, READ_BYTE_ON, READ_WORD_ON, WORD_IS_DONE,
};
use crate::layout;
use crate::locals::{FIRST, FROM, LEFT};
use crate::operations::{LOAD_COUNT, TO_ADDRESS};
use crate::template_ops::TemplateOp::{Br, Call, Do, Get, Memory, Set, Tee};
use crate::templates::Template::{self, Block, Line, Loop, Put, Sequence};
use wa_syntax::opcode::{I32_LOAD8_U, I64_EXTEND_I32_S};

/// Writes 8 bytes.
const PUT_EIGHT: Template = Sequence(&[
    Line(&[Get(FROM), Memory(I32_LOAD8_U, 8)]),
    Put,
    Line(&[Get(FROM), Memory(I32_LOAD8_U, 9)]),
    Put,
    Line(&[Get(FROM), Memory(I32_LOAD8_U, 10)]),
    Put,
    Line(&[Get(FROM), Memory(I32_LOAD8_U, 11)]),
    Put,
    Line(&[Get(FROM), Memory(I32_LOAD8_U, 12)]),
    Put,
    Line(&[Get(FROM), Memory(I32_LOAD8_U, 13)]),
    Put,
    Line(&[Get(FROM), Memory(I32_LOAD8_U, 14)]),
    Put,
    Line(&[Get(FROM), Memory(I32_LOAD8_U, 15)]),
    Put,
]);

/// `OUT.put`.
pub(crate) const PUT: &[Template] = &[
    Line(&[Get(FIRST), TO_ADDRESS, Tee(FROM)]),
    Line(&[LOAD_COUNT, Set(LEFT)]),
    Block(&[Loop(&[
        LEAVE_WITHOUT_WORD,
        PUT_EIGHT,
        READ_WORD_ON,
        WORD_IS_DONE,
        Line(&[Br(0)]),
    ])]),
    Block(&[Loop(&[
        LEAVE_WITHOUT_BYTE,
        Line(&[Get(FROM), Memory(I32_LOAD8_U, 8)]),
        Put,
        READ_BYTE_ON,
        BYTE_IS_DONE,
        Line(&[Br(0)]),
    ])]),
    DONE,
];

/// `OUT.put_char`.
pub(crate) const PUT_CHAR: &[Template] = &[Line(&[Get(FIRST), TO_ADDRESS]), Put, DONE];

/// `IN.get_byte`.
pub(crate) const GET_BYTE: &[Template] = &[
    Line(&[Call(layout::GET), Do(I64_EXTEND_I32_S)]),
    GIVE_WORD,
];
