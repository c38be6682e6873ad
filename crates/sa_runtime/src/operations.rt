//! Instructions under the names of what they do with the words of the language.

use crate::template_ops::TemplateOp::{self, Do, Memory};
use wa_syntax::opcode::{I32_LOAD, I32_WRAP_I64, I64_EXTEND_I32_U, I64_LOAD32_U};

/// The address that a word is, or the low half of a number.
pub(crate) const TO_ADDRESS: TemplateOp = Do(I32_WRAP_I64);

/// The word of an address, of a count or of a truth value.
pub(crate) const TO_WORD: TemplateOp = Do(I64_EXTEND_I32_U);

/// The length in the header of the object at an address, as a word: 0 at the address 0.
pub(crate) const LOAD_LENGTH: TemplateOp = Memory(I64_LOAD32_U, 4);

/// The same length as a count.
pub(crate) const LOAD_COUNT: TemplateOp = Memory(I32_LOAD, 4);
