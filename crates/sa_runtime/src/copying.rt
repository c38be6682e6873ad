//! Loops over the bytes of texts and the words of objects. They take 8 bytes in a round, and the fewer than 8 after them one by one, so
//! that nothing is read or written after the last byte.

use crate::locals::{FROM, LEFT, TO};
use crate::template_ops::TemplateOp::{Br, BrIf, Do, Get, I32, Memory, Set};
use crate::templates::Template::{self, Block, Line, Loop, Sequence};
use wa_syntax::opcode::{
    I32_ADD, I32_EQZ, I32_LOAD8_U, I32_LT_U, I32_STORE8, I32_SUB, I64_LOAD, I64_STORE,
};

/// Leaves the block around the loop where fewer than 8 bytes are left.
pub(crate) const LEAVE_WITHOUT_WORD: Template = Line(&[Get(LEFT), I32(8), Do(I32_LT_U), BrIf(1)]);

/// Leaves the block around the loop where no byte is left.
pub(crate) const LEAVE_WITHOUT_BYTE: Template = Line(&[Get(LEFT), Do(I32_EQZ), BrIf(1)]);

/// 8 bytes are taken from those that are left.
pub(crate) const WORD_IS_DONE: Template = Line(&[Get(LEFT), I32(8), Do(I32_SUB), Set(LEFT)]);

/// A byte is taken from those that are left.
pub(crate) const BYTE_IS_DONE: Template = Line(&[Get(LEFT), I32(1), Do(I32_SUB), Set(LEFT)]);

/// Goes on to read 8 bytes further on.
pub(crate) const READ_WORD_ON: Template = Line(&[Get(FROM), I32(8), Do(I32_ADD), Set(FROM)]);

/// Goes on to read at the next byte.
pub(crate) const READ_BYTE_ON: Template = Line(&[Get(FROM), I32(1), Do(I32_ADD), Set(FROM)]);

/// Goes on to write 8 bytes further on.
pub(crate) const WRITE_WORD_ON: Template = Line(&[Get(TO), I32(8), Do(I32_ADD), Set(TO)]);

/// Goes on to write at the next byte.
pub(crate) const WRITE_BYTE_ON: Template = Line(&[Get(TO), I32(1), Do(I32_ADD), Set(TO)]);

/// Copies bytes, 8 at a time, until fewer are left.
pub(crate) const COPY_WORDS: Template = Block(&[Loop(&[
    LEAVE_WITHOUT_WORD,
    Line(&[Get(TO), Get(FROM)]),
    Line(&[Memory(I64_LOAD, 8), Memory(I64_STORE, 8)]),
    READ_WORD_ON,
    WRITE_WORD_ON,
    WORD_IS_DONE,
    Line(&[Br(0)]),
])]);

/// Copies bytes until none is left.
pub(crate) const COPY_BYTES: Template = Sequence(&[
    COPY_WORDS,
    Block(&[Loop(&[
        LEAVE_WITHOUT_BYTE,
        Line(&[Get(TO), Get(FROM)]),
        Line(&[Memory(I32_LOAD8_U, 8), Memory(I32_STORE8, 8)]),
        READ_BYTE_ON,
        WRITE_BYTE_ON,
        BYTE_IS_DONE,
        Line(&[Br(0)]),
    ])]),
]);
