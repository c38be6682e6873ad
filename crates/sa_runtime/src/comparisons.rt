//! Equality and order of `BOOL`, `INT` and `CHAR`: a value is equal to another, or less, where its word is.

use crate::answers::GIVE_ADDRESS;
use crate::locals::{FIRST, SELF};
use crate::template_ops::TemplateOp::{Do, Get};
use crate::templates::Template::{self, Line};
use wa_syntax::opcode::{I64_EQ, I64_LT_S};

/// `is_eq`.
pub(crate) const EQUAL: &[Template] = &[Line(&[Get(SELF), Get(FIRST), Do(I64_EQ)]), GIVE_ADDRESS];

/// `is_lt`.
pub(crate) const LESS: &[Template] = &[Line(&[Get(SELF), Get(FIRST), Do(I64_LT_S)]), GIVE_ADDRESS];
