//! The identity of objects: the features of `SYS`.

use crate::answers::GIVE_ADDRESS;
use crate::layout::{BOUND, OBJECT};
use crate::locals::{FIRST, SECOND};
use crate::operations::TO_ADDRESS;
use crate::template_ops::TemplateOp::{Do, Get, I32, Memory, Tee};
use crate::templates::Template::{self, Line};
use wa_syntax::opcode::{I32_AND, I32_EQ, I32_LOAD8_U, I32_OR, I64_EQ};

/// The local with the tag of the first object.
const TAG: u32 = 5;

/// `SYS.ob_eq`: both are void, or the same object, and no text and no immutable value. The address 0 has the tag of an object.
pub(crate) const OB_EQ: &[Template] = &[
    Line(&[Get(FIRST), Get(SECOND), Do(I64_EQ)]),
    Line(&[Get(FIRST), TO_ADDRESS, Memory(I32_LOAD8_U, 3), Tee(TAG)]),
    Line(&[I32(OBJECT as u32), Do(I32_EQ)]),
    Line(&[Get(TAG), I32(BOUND as u32), Do(I32_EQ)]),
    Line(&[Do(I32_OR), Do(I32_AND)]),
    GIVE_ADDRESS,
];
