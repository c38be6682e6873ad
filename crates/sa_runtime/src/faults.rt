//! What a fault does: it raises an exception, or stops the program.

use crate::fault_numbers::ASSERT;
use crate::layout::{ALLOCATE, EXCEPTION, EXCEPTION_KIND, EXCEPTION_PLACE, FAULT_TYPE, STOP};
use crate::locals::MADE;
use crate::operations::TO_WORD;
use crate::template_ops::TemplateOp::{BrIf, Call, Do, Get, I32, I64, Memory, SetGlobal, Tee};
use crate::templates::Template::{self, Block, Line};
use wa_syntax::opcode::{I32_EQZ, I32_GT_U, I64_STORE, RETURN};

/// The parameter with the number of the fault.
const KIND: u32 = 0;

/// The parameter with the position of the fault.
const PLACE: u32 = 1;

/// The parameter with the line of that position.
const LINE: u32 = 2;

/// How many bytes an object of `FAULT` has: a header, the number of the fault and its line.
const BYTES: u64 = 24;

/// `FAULT`. Where there is no room for the exception, the program stops.
pub(crate) const FAULT: &[Template] = &[
    Block(&[
        Line(&[Get(KIND), I32(ASSERT), Do(I32_GT_U), BrIf(0)]),
        Line(&[I64(FAULT_TYPE as u64), I64(BYTES), Call(ALLOCATE)]),
        Line(&[Tee(MADE), Do(I32_EQZ), BrIf(0)]),
        Line(&[Get(MADE), Get(KIND), TO_WORD, Memory(I64_STORE, 8)]),
        Line(&[Get(MADE), Get(LINE), TO_WORD, Memory(I64_STORE, 16)]),
        Line(&[Get(MADE), TO_WORD, SetGlobal(EXCEPTION)]),
        Line(&[Get(KIND), SetGlobal(EXCEPTION_KIND)]),
        Line(&[Get(PLACE), SetGlobal(EXCEPTION_PLACE)]),
        Line(&[Do(RETURN)]),
    ]),
    Line(&[Get(KIND), Get(PLACE), Call(STOP)]),
];
