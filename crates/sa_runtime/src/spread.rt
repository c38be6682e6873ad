//! The arguments of a bound call: those that the call passes are one after the other in the area; what is called wants each in its own
//! position, with the captured ones of the bound value between them.

use crate::bound_locals::{AT, ENTRY, GIVEN, HANDED, KEPT, OBJECT, PLACE};
use crate::layout::{COUNT_AT, FIRST_ARGUMENT_AT, GIVEN_AT, OPEN_AT};
use crate::template_ops::TemplateOp::{self, Br, BrIf, Do, Get, I32, Memory, Set, Tee};
use crate::templates::Template::{self, Block, If, Line, Loop, Sequence};
use wa_syntax::opcode::{
    I32_ADD, I32_LOAD, I32_LOAD8_U, I32_LT_U, I32_SHL, I32_SUB, I64_LOAD, I64_STORE,
};

/// The offset of the first captured argument in a bound value, in bytes.
const FIRST_KEPT_ARGUMENT_AT: u32 = 16;

/// Reads an argument in the area.
const LOAD_ARGUMENT: TemplateOp = Memory(I64_LOAD, FIRST_ARGUMENT_AT);

/// Writes an argument in the area.
const STORE_ARGUMENT: TemplateOp = Memory(I64_STORE, FIRST_ARGUMENT_AT);

/// Whether the argument of this index is open.
const IS_OPEN: Template = Line(&[
    Get(ENTRY),
    Get(PLACE),
    Do(I32_ADD),
    Memory(I32_LOAD8_U, OPEN_AT),
]);

/// Begins after the last argument.
const FROM_THE_END: Template = Sequence(&[
    Line(&[Get(ENTRY), Memory(I32_LOAD, COUNT_AT), Tee(PLACE)]),
    Line(&[I32(3), Do(I32_SHL), Tee(AT)]),
    Line(&[Get(GIVEN), I32(3), Do(I32_SHL), Tee(KEPT)]),
    Line(&[Do(I32_SUB), Set(HANDED)]),
    Line(&[Get(OBJECT), Get(KEPT), Do(I32_ADD), Set(KEPT)]),
]);

/// Goes to the argument before.
const ONE_BACK: Template = Sequence(&[
    Line(&[Get(PLACE), I32(1), Do(I32_SUB), Set(PLACE)]),
    Line(&[Get(AT), I32(8), Do(I32_SUB), Set(AT)]),
]);

/// Puts the last captured argument that isn't in its position yet there.
const PUT_KEPT: Template = Sequence(&[
    Line(&[Get(KEPT), I32(8), Do(I32_SUB), Set(KEPT)]),
    Line(&[Get(AT), Get(KEPT)]),
    Line(&[Memory(I64_LOAD, FIRST_KEPT_ARGUMENT_AT), STORE_ARGUMENT]),
]);

/// Puts the last argument that was passed and isn't in its position yet there.
const PUT_HANDED: Template = Sequence(&[
    Line(&[Get(HANDED), I32(8), Do(I32_SUB), Set(HANDED)]),
    Line(&[Get(AT), Get(HANDED), LOAD_ARGUMENT, STORE_ARGUMENT]),
]);

/// Puts each argument in its position, where the bound value captures some. An argument's position is never before the one where it was
/// passed, so they go from the last to the first, and none is overwritten before it is read.
pub(crate) const SPREAD: Template = Sequence(&[
    Line(&[Get(ENTRY), Memory(I32_LOAD, GIVEN_AT), Tee(GIVEN)]),
    If(&[
        FROM_THE_END,
        Loop(&[
            ONE_BACK,
            Block(&[
                Block(&[IS_OPEN, Line(&[BrIf(0)]), PUT_KEPT, Line(&[Br(1)])]),
                PUT_HANDED,
            ]),
            Line(&[Get(PLACE), BrIf(0)]),
        ]),
    ]),
]);

/// Puts the argument of this index back to where it was passed.
const TAKE_BACK: Template = Sequence(&[
    Line(&[Get(HANDED), Get(AT), LOAD_ARGUMENT, STORE_ARGUMENT]),
    Line(&[Get(HANDED), I32(8), Do(I32_ADD), Set(HANDED)]),
]);

/// Goes to the next argument: whether there is one.
const ONE_ON: Template = Sequence(&[
    Line(&[Get(AT), I32(8), Do(I32_ADD), Set(AT)]),
    Line(&[Get(PLACE), I32(1), Do(I32_ADD), Tee(PLACE)]),
    Line(&[Get(ENTRY), Memory(I32_LOAD, COUNT_AT), Do(I32_LT_U)]),
]);

/// Puts each open argument back to where it was passed, where the bound value captures some, from the first to the last: the caller finds
/// there what is copied out.
pub(crate) const GATHER: Template = Sequence(&[
    Line(&[Get(GIVEN)]),
    If(&[
        Line(&[I32(0), Tee(PLACE), Tee(AT), Set(HANDED)]),
        Loop(&[IS_OPEN, If(&[TAKE_BACK]), ONE_ON, Line(&[BrIf(0)])]),
    ]),
]);
