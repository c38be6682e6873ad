//! How a function ends: the value that it gives, and its status, which is 0 or the number of a fault.

use crate::fault_numbers::{DIVISION_BY_ZERO, INDEX, NO_ROOM, OVERFLOW};
use crate::layout::RESULT;
use crate::operations::TO_WORD;
use crate::template_ops::TemplateOp::{Do, I32, SetGlobal};
use crate::templates::Template::{self, If, Line};
use wa_syntax::opcode::RETURN;

/// Ends a feature without a value.
pub(crate) const DONE: Template = Line(&[I32(0)]);

/// Ends a feature that gives this word.
pub(crate) const GIVE_WORD: Template = Line(&[SetGlobal(RESULT), I32(0)]);

/// Ends a feature that gives this address or truth value.
pub(crate) const GIVE_ADDRESS: Template = Line(&[TO_WORD, SetGlobal(RESULT), I32(0)]);

/// Ends a feature by `overflow` where the operand isn't 0.
pub(crate) const OVERFLOW_IF: Template = If(&[Line(&[I32(OVERFLOW), Do(RETURN)])]);

/// Ends a feature by `division by zero` where the operand isn't 0.
pub(crate) const DIV_ZERO_IF: Template = If(&[Line(&[I32(DIVISION_BY_ZERO), Do(RETURN)])]);

/// Ends a feature by `index` where the operand isn't 0.
pub(crate) const INDEX_IF: Template = If(&[Line(&[I32(INDEX), Do(RETURN)])]);

/// Ends a feature by `no room` where the operand isn't 0.
pub(crate) const NO_ROOM_IF: Template = If(&[Line(&[I32(NO_ROOM), Do(RETURN)])]);
