//! The memory of objects: they are allocated one after the other, up to the end of the room, and never freed.

use crate::layout::NEXT_OBJECT;
use crate::operations::{TO_ADDRESS, TO_WORD};
use crate::signatures::BINARY;
use crate::template_ops::TemplateOp::{self, Do, Get, GetGlobal, I32, Memory, SetGlobal, Tee};
use crate::template_ops::emit_ops;
use crate::templates::Template::{self, If, Line};
use crate::templates::emit_templates;
use crate::trace::Tracing;
use failure::Failure;
use sqlite_items::Items;
use std::alloc::Global;
use wa_syntax::opcode::{I64_ADD, I64_GT_U, I64_STORE, RETURN};
use wa_syntax::{Func, Locals};

/// The parameter with the header of the object.
const HEADER: u32 = 0;

/// The parameter with how many bytes the object has, and then the address after the object.
const END: u32 = 1;

/// Returns 0 where the operand isn't 0; else stores the header, and returns the object's address.
const HAND_OUT: &[Template] = &[
    If(&[Line(&[I32(0), Do(RETURN)])]),
    Line(&[GetGlobal(NEXT_OBJECT), Get(HEADER)]),
    Line(&[Memory(I64_STORE, 0), GetGlobal(NEXT_OBJECT)]),
    Line(&[Get(END), TO_ADDRESS, SetGlobal(NEXT_OBJECT)]),
];

/// `ALLOCATE`, where the room ends at this address. No object is so large that the address after it wraps in 64 bits.
pub(crate) fn allocate(alloc: Global, room_end: u64, tracing: Tracing) -> Result<Func, Failure> {
    let mut body = Items::new(alloc);
    let object_end = [
        GetGlobal(NEXT_OBJECT),
        TO_WORD,
        Get(END),
        Do(I64_ADD),
        Tee(END),
    ];
    emit_ops(&mut body, &object_end)?;
    let passes_room = [TemplateOp::I64(room_end), Do(I64_GT_U)];
    emit_ops(&mut body, &passes_room)?;
    emit_templates(alloc, HAND_OUT, tracing, &mut body)?;
    Ok(Func {
        ty: BINARY,
        locals: Locals::new(alloc),
        body,
    })
}
