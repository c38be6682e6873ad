//! The features of `AREF` and `ARRAY`. An array is an object, and its elements follow its attributes.

use crate::answers::{DONE, GIVE_ADDRESS, GIVE_WORD, INDEX_IF, NO_ROOM_IF};
use crate::fault_numbers::{INDEX, VOID};
use crate::layout::ALLOCATE;
use crate::locals::{FIRST, MADE, SECOND, SELF};
use crate::operations::{LOAD_LENGTH, TO_ADDRESS, TO_WORD};
use crate::template_ops::TemplateOp::{Call, Do, Get, I32, I64, Memory, Tee};
use crate::templates::Template::{self, If, Line, Sequence};
use wa_syntax::opcode::{
    I32_ADD, I32_EQZ, I64_ADD, I64_EQZ, I64_GE_U, I64_LOAD, I64_LT_S, I64_OR, I64_SHL, I64_STORE,
    RETURN, SELECT,
};

/// Ends the feature by `void` where the array is void, and by `index` where it has no element of this index. A void array is the address 0,
/// where the length is 0; as a number without sign a negative index is greater than each length.
const HAS_ELEMENT: Template = Sequence(&[
    Line(&[Get(FIRST), Get(SELF), TO_ADDRESS, LOAD_LENGTH]),
    Line(&[Do(I64_GE_U)]),
    If(&[
        Line(&[I32(VOID), I32(INDEX), Get(SELF), Do(I64_EQZ)]),
        Line(&[Do(SELECT), Do(RETURN)]),
    ]),
]);

/// The address of the array's element of this index, but for the attributes, which are before the elements.
const ELEMENT: Template = Sequence(&[
    Line(&[Get(FIRST), I64(3), Do(I64_SHL)]),
    Line(&[Get(SELF), Do(I64_ADD), TO_ADDRESS]),
]);

/// `AREF.asize`.
pub(crate) const ASIZE: &[Template] = &[Line(&[Get(SELF), TO_ADDRESS, LOAD_LENGTH]), GIVE_WORD];

/// `AREF.aget`. The parameter after the index is the offset of the first element from the array's address, in bytes.
pub(crate) const AGET: &[Template] = &[
    HAS_ELEMENT,
    ELEMENT,
    Line(&[Get(2), Do(I32_ADD), Memory(I64_LOAD, 0)]),
    GIVE_WORD,
];

/// `AREF.aset`. The parameter after the value is the offset of the first element from the array's address, in bytes.
pub(crate) const ASET: &[Template] = &[
    HAS_ELEMENT,
    ELEMENT,
    Line(&[Get(3), Do(I32_ADD)]),
    Line(&[Get(SECOND), Memory(I64_STORE, 0)]),
    DONE,
];

/// `ARRAY.create`. The parameters after the number of elements are the type, and the offset of the first element from the array's address,
/// in bytes.
pub(crate) const CREATE: &[Template] = &[
    Line(&[Get(FIRST), I64(0), Do(I64_LT_S)]),
    INDEX_IF,
    Line(&[Get(FIRST), I64(32), Do(I64_SHL)]),
    Line(&[Get(2), TO_WORD, Do(I64_OR)]),
    Line(&[Get(FIRST), I64(3), Do(I64_SHL)]),
    Line(&[Get(3), TO_WORD, Do(I64_ADD)]),
    Line(&[Call(ALLOCATE), Tee(MADE), Do(I32_EQZ)]),
    NO_ROOM_IF,
    Line(&[Get(MADE)]),
    GIVE_ADDRESS,
];
