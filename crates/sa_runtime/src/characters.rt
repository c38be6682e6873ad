//! The features of `CHAR` except comparisons.

use crate::answers::{GIVE_ADDRESS, GIVE_WORD};
use crate::locals::{MADE, SELF, SIZE};
use crate::template_ops::TemplateOp::{Get, I32, Memory, Set};
use crate::templates::Template::{self, Line};
use crate::texts::MAKE_TEXT;
use wa_syntax::opcode::I64_STORE8;

/// `CHAR.int`.
pub(crate) const INT: &[Template] = &[Line(&[Get(SELF)]), GIVE_WORD];

/// `CHAR.str`.
pub(crate) const STR: &[Template] = &[
    Line(&[I32(1), Set(SIZE)]),
    MAKE_TEXT,
    Line(&[Get(MADE), Get(SELF), Memory(I64_STORE8, 8)]),
    Line(&[Get(MADE)]),
    GIVE_ADDRESS,
];
