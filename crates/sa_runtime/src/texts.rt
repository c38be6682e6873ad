//! The features of `STR`. A void text is the address 0, where the length is 0.

use crate::answers::{GIVE_ADDRESS, GIVE_WORD, INDEX_IF, NO_ROOM_IF};
use crate::copying::{
    BYTE_IS_DONE, COPY_BYTES, LEAVE_WITHOUT_BYTE, LEAVE_WITHOUT_WORD, READ_WORD_ON, WORD_IS_DONE,
    WRITE_BYTE_ON, WRITE_WORD_ON,
};
use crate::fault_numbers::NO_ROOM;
use crate::layout::{ALLOCATE, STR, TEXT};
use crate::locals::{FIRST, FROM, LEFT, MADE, SECOND, SELF, SIZE, TO};
use crate::operations::{LOAD_COUNT, LOAD_LENGTH, TO_ADDRESS, TO_WORD};
use crate::template_ops::TemplateOp::{Br, BrIf, Call, Do, Get, I32, I64, Memory, Set, Tee};
use crate::templates::Template::{self, Block, If, Line, Loop, Sequence};
use wa_syntax::opcode::{
    I32_ADD, I32_EQZ, I32_GT_S, I32_LOAD8_U, I32_OR, I32_STORE8, I32_SUB, I64_ADD, I64_AND,
    I64_GE_U, I64_GT_S, I64_GT_U, I64_LOAD8_U, I64_LT_S, I64_OR, I64_SHL, RETURN,
};

/// The header of a text without its length.
const TEXT_HEADER: u64 = STR as u64 + 0x0100_0000 * TEXT as u64;

/// Makes a text of so many bytes, all 0: whether there was no room for it. Its header and its bytes are padded to whole words.
const ALLOCATE_TEXT: Template = Sequence(&[
    Line(&[Get(SIZE), TO_WORD, I64(32), Do(I64_SHL)]),
    Line(&[I64(TEXT_HEADER), Do(I64_OR)]),
    Line(&[Get(SIZE), TO_WORD, I64(15), Do(I64_ADD)]),
    Line(&[I64(0xffff_ffff_ffff_fff8), Do(I64_AND)]),
    Line(&[Call(ALLOCATE), Tee(MADE), Do(I32_EQZ)]),
]);

/// Makes a short text of so many bytes, all 0, or ends the feature by `no room`.
pub(crate) const MAKE_TEXT: Template = Sequence(&[ALLOCATE_TEXT, NO_ROOM_IF]);

/// Runs one round for each 8 bytes that the text begins, and one for none. No text has 2^31 bytes.
const SPEND_TURNS: Template = Loop(&[
    Line(&[Get(SIZE), I32(8), Do(I32_SUB), Tee(SIZE)]),
    Line(&[I32(0), Do(I32_GT_S), BrIf(0)]),
]);

/// Makes a text of so many bytes, all 0, for a feature that spends a turn for each 8 bytes that the text begins, or ends the feature by `no
/// room`. The turns are spent before the room is asked for, so they have their instructions also where it lacks.
const MAKE_LONG_TEXT: Template = Sequence(&[
    ALLOCATE_TEXT,
    If(&[SPEND_TURNS, Line(&[I32(NO_ROOM), Do(RETURN)])]),
]);

/// `STR.size`.
pub(crate) const LENGTH: &[Template] = &[Line(&[Get(SELF), TO_ADDRESS, LOAD_LENGTH]), GIVE_WORD];

/// `STR.aget`. As a number without sign a negative index is greater than each length.
pub(crate) const AGET: &[Template] = &[
    Line(&[Get(FIRST), Get(SELF), TO_ADDRESS, LOAD_LENGTH]),
    Line(&[Do(I64_GE_U)]),
    INDEX_IF,
    Line(&[Get(SELF), Get(FIRST), Do(I64_ADD)]),
    Line(&[TO_ADDRESS, Memory(I64_LOAD8_U, 8)]),
    GIVE_WORD,
];

/// `STR.cat`.
pub(crate) const CAT: &[Template] = &[
    Line(&[Get(SELF), TO_ADDRESS, Tee(FROM)]),
    Line(&[LOAD_COUNT, Tee(LEFT)]),
    Line(&[Get(FIRST), TO_ADDRESS, LOAD_COUNT]),
    Line(&[Do(I32_ADD), Set(SIZE)]),
    MAKE_LONG_TEXT,
    Line(&[Get(MADE), Set(TO)]),
    COPY_BYTES,
    Line(&[Get(FIRST), TO_ADDRESS, Tee(FROM)]),
    Line(&[LOAD_COUNT, Set(LEFT)]),
    COPY_BYTES,
    Line(&[Get(MADE)]),
    GIVE_ADDRESS,
];

/// `STR.substring`. The first test is whether the index or the count is negative, the second whether they pass the length.
pub(crate) const SUBSTRING: &[Template] = &[
    Line(&[Get(FIRST), Get(SECOND), Do(I64_OR)]),
    Line(&[I64(0), Do(I64_LT_S)]),
    Line(&[Get(FIRST), Get(SECOND), Do(I64_ADD)]),
    Line(&[Get(SELF), TO_ADDRESS, LOAD_LENGTH]),
    Line(&[Do(I64_GT_S), Do(I32_OR)]),
    INDEX_IF,
    Line(&[Get(SECOND), TO_ADDRESS, Tee(SIZE), Set(LEFT)]),
    MAKE_LONG_TEXT,
    Line(&[Get(MADE), Set(TO)]),
    Line(&[Get(SELF), Get(FIRST), Do(I64_ADD)]),
    Line(&[TO_ADDRESS, Set(FROM)]),
    COPY_BYTES,
    Line(&[Get(MADE)]),
    GIVE_ADDRESS,
];

/// The parameter of `STR.of` with the offset of the first element from the array's address, in bytes.
const ELEMENTS: u32 = 3;

/// Copies the characters of 8 elements.
const COPY_EIGHT: Template = Sequence(&[
    Line(&[Get(TO), Get(FROM)]),
    Line(&[Memory(I32_LOAD8_U, 8), Memory(I32_STORE8, 8)]),
    Line(&[Get(TO), Get(FROM)]),
    Line(&[Memory(I32_LOAD8_U, 16), Memory(I32_STORE8, 9)]),
    Line(&[Get(TO), Get(FROM)]),
    Line(&[Memory(I32_LOAD8_U, 24), Memory(I32_STORE8, 10)]),
    Line(&[Get(TO), Get(FROM)]),
    Line(&[Memory(I32_LOAD8_U, 32), Memory(I32_STORE8, 11)]),
    Line(&[Get(TO), Get(FROM)]),
    Line(&[Memory(I32_LOAD8_U, 40), Memory(I32_STORE8, 12)]),
    Line(&[Get(TO), Get(FROM)]),
    Line(&[Memory(I32_LOAD8_U, 48), Memory(I32_STORE8, 13)]),
    Line(&[Get(TO), Get(FROM)]),
    Line(&[Memory(I32_LOAD8_U, 56), Memory(I32_STORE8, 14)]),
    Line(&[Get(TO), Get(FROM)]),
    Line(&[Memory(I32_LOAD8_U, 64), Memory(I32_STORE8, 15)]),
]);

/// `STR.of`. An element's character is the low byte of its word.
pub(crate) const OF: &[Template] = &[
    Line(&[Get(SECOND), Get(FIRST), TO_ADDRESS, LOAD_LENGTH]),
    Line(&[Do(I64_GT_U)]),
    INDEX_IF,
    Line(&[Get(SECOND), TO_ADDRESS, Tee(SIZE), Set(LEFT)]),
    MAKE_LONG_TEXT,
    Line(&[Get(MADE), Set(TO)]),
    Line(&[Get(FIRST), TO_ADDRESS, Get(ELEMENTS), Do(I32_ADD)]),
    Line(&[I32(8), Do(I32_SUB), Set(FROM)]),
    Block(&[Loop(&[
        LEAVE_WITHOUT_WORD,
        COPY_EIGHT,
        Line(&[Get(FROM), I32(64), Do(I32_ADD), Set(FROM)]),
        WRITE_WORD_ON,
        WORD_IS_DONE,
        Line(&[Br(0)]),
    ])]),
    Block(&[Loop(&[
        LEAVE_WITHOUT_BYTE,
        Line(&[Get(TO), Get(FROM)]),
        Line(&[Memory(I32_LOAD8_U, 8), Memory(I32_STORE8, 8)]),
        READ_WORD_ON,
        WRITE_BYTE_ON,
        BYTE_IS_DONE,
        Line(&[Br(0)]),
    ])]),
    Line(&[Get(MADE)]),
    GIVE_ADDRESS,
];
