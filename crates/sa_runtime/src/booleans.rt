//! The features of `BOOL` except equality.

use crate::answers::GIVE_ADDRESS;
use crate::locals::SELF;
use crate::template_ops::TemplateOp::{Do, Get};
use crate::templates::Template::{self, Line};
use wa_syntax::opcode::I64_EQZ;

/// `BOOL.not`.
pub(crate) const NOT: &[Template] = &[Line(&[Get(SELF), Do(I64_EQZ)]), GIVE_ADDRESS];
