//! The frames of instances of iters, freed with those of the instances inside. A frame is a slot of the pool by its address.

use crate::layout::{END_FRAME, INSIDE_AT, SIBLING_AT};
use crate::signatures::GIVES_FRAME;
use crate::template_ops::TemplateOp::{Br, BrIf, Call, Get, I32, Memory, Set, Tee};
use crate::templates::Template::{self, EmitEvent, If, Line, Loop};
use crate::templates::{Function, LocalCounts};
use crate::trace::TraceEvent;
use wa_syntax::opcode::{I32_LOAD, I32_STORE};

/// The frame: the parameter.
const FRAME: u32 = 0;

/// The first of the instances inside a frame, or the one around it.
const OTHER: u32 = 1;

/// The one local after the parameter.
const ONE_LOCAL: LocalCounts = LocalCounts(0, 1);

/// Goes from a frame to the first of the instances inside it, which is the local: the list inside the frame then begins with
/// the next one, and the link of the first one leads back to the frame.
const GO_INSIDE: &[Template] = &[
    Line(&[Get(FRAME), Get(OTHER)]),
    Line(&[Memory(I32_LOAD, SIBLING_AT), Memory(I32_STORE, INSIDE_AT)]),
    Line(&[Get(OTHER), Get(FRAME), Memory(I32_STORE, SIBLING_AT)]),
    Line(&[Get(OTHER), Set(FRAME), Br(1)]),
];

/// What `RELEASE` does with a frame. Each frame comes after those of the instances inside it, and these in the order of their list. The
/// link to the instance around a frame is read before the frame is freed, since the pool's link then takes its word. That the instance is
/// abandoned is reported before that too, by what its frame has.
const RELEASE_BODY: &[Template] = &[
    Line(&[Get(FRAME), I32(0), Memory(I32_STORE, SIBLING_AT)]),
    Loop(&[
        Line(&[Get(FRAME), Memory(I32_LOAD, INSIDE_AT), Tee(OTHER)]),
        If(GO_INSIDE),
        Line(&[Get(FRAME), Memory(I32_LOAD, SIBLING_AT), Set(OTHER)]),
        EmitEvent(FRAME, TraceEvent::Abandon),
        Line(&[Get(FRAME), Call(END_FRAME)]),
        Line(&[Get(OTHER), Tee(FRAME), BrIf(0)]),
    ]),
];

/// `RELEASE`.
pub(crate) const RELEASE: Function = Function(GIVES_FRAME, ONE_LOCAL, RELEASE_BODY);
