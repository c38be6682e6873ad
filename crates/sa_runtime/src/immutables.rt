//! Immutable values: changed, boxed and unboxed.

use crate::answers::{DONE, GIVE_ADDRESS, NO_ROOM_IF};
use crate::copying::{COPY_WORDS, LEAVE_WITHOUT_BYTE, READ_WORD_ON, WORD_IS_DONE};
use crate::layout::{ALLOCATE, BOXED_VALUE, RESULT, UNBOX as UNWRAP};
use crate::locals::{FIRST, FROM, LEFT, MADE, SELF, TO};
use crate::operations::{TO_ADDRESS, TO_WORD};
use crate::template_ops::TemplateOp::{Br, Call, Do, Get, I32, I64, Memory, Set, SetGlobal, Tee};
use crate::templates::Template::{self, Block, If, Line, Loop, Sequence};
use wa_syntax::opcode::{
    I32_ADD, I32_EQZ, I32_SHL, I64_ADD, I64_LOAD, I64_NE, I64_OR, I64_STORE, RETURN,
};

/// The header of a boxed value without the number of its type.
const BOXED_HEADER: u64 = 0x0100_0000 * BOXED_VALUE as u64;

/// Takes the header of an object from the stack, makes the object with `LEFT` bytes of fields, and copies them from the value
/// unless it is void, or ends by `no room`.
const MAKE_COPY: Template = Sequence(&[
    Line(&[Get(LEFT), TO_WORD, I64(8), Do(I64_ADD)]),
    Line(&[Call(ALLOCATE), Tee(MADE), Do(I32_EQZ)]),
    NO_ROOM_IF,
    Line(&[Get(SELF), I64(0), Do(I64_NE)]),
    If(&[
        Line(&[Get(SELF), TO_ADDRESS, Set(FROM)]),
        Line(&[Get(MADE), Set(TO)]),
        COPY_WORDS,
    ]),
]);

/// `CHANGED`, of the value, the field, the type, the number of attributes, and the offset of the field from the address of the value, in
/// bytes. The copy is charged, even where all its fields are void.
pub(crate) const CHANGED: &[Template] = &[
    Line(&[Get(3), I32(3), Do(I32_SHL), Set(LEFT)]),
    Line(&[Get(2), TO_WORD]),
    MAKE_COPY,
    Line(&[Get(MADE), Get(4), Do(I32_ADD)]),
    Line(&[Get(FIRST), Memory(I64_STORE, 0)]),
    Line(&[Get(MADE), TO_WORD, Get(3), Call(UNWRAP)]),
    Line(&[SetGlobal(RESULT)]),
    DONE,
];

/// `BOX_IMMUTABLE`, of the value, the type and the number of attributes.
pub(crate) const BOX_IMMUTABLE: &[Template] = &[
    Line(&[Get(2), I32(3), Do(I32_SHL), Set(LEFT)]),
    Line(&[Get(1), TO_WORD, I64(BOXED_HEADER), Do(I64_OR)]),
    MAKE_COPY,
    Line(&[Get(MADE)]),
    GIVE_ADDRESS,
];

/// `BOX_WORD`, of the word and the type.
pub(crate) const BOX_WORD: &[Template] = &[
    Line(&[Get(1), TO_WORD, I64(BOXED_HEADER), Do(I64_OR)]),
    Line(&[I64(16), Call(ALLOCATE), Tee(MADE), Do(I32_EQZ)]),
    NO_ROOM_IF,
    Line(&[Get(MADE), Get(SELF), Memory(I64_STORE, 8)]),
    Line(&[Get(MADE)]),
    GIVE_ADDRESS,
];

/// `UNBOX`, of the address and the number of attributes: the address where a field isn't void, else 0.
pub(crate) const UNBOX: &[Template] = &[
    Line(&[Get(SELF), TO_ADDRESS, Set(FROM)]),
    Line(&[Get(1), I32(3), Do(I32_SHL), Set(LEFT)]),
    Block(&[Loop(&[
        LEAVE_WITHOUT_BYTE,
        Line(&[Get(FROM), Memory(I64_LOAD, 8), I64(0), Do(I64_NE)]),
        If(&[Line(&[Get(SELF), Do(RETURN)])]),
        READ_WORD_ON,
        WORD_IS_DONE,
        Line(&[Br(0)]),
    ])]),
    Line(&[I64(0)]),
];
