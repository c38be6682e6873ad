//! The trace of a module: the events of the instances of its iters, reported among the bytes of its output.
//!
//! What a traced module writes is a sequence of trace records. A byte of the output is the record `0`, byte. An event of an instance is
//! `1`, the number of the event, the index of the instance's site among all sites of the program in 4 bytes, and the number of the instance
//! in 8, both little-endian. Instances are numbered from 0 in the order of their starts. A frame is something else: the memory of an
//! instance.
//!
//! A start, a resumption and an instance that is ended from outside are reported at their positions in the code. How the body of an
//! instance was left is reported by its status.

ghost use Rattle.std.specs.Prelude.{◌≡◌, ◌+◌, IfOk};

use crate::layout::{PUT, STARTING_SITE, TRACED_WORDS};
use crate::template_ops::TemplateOp::{Call, Get, I32, SetGlobal};
use crate::template_ops::emit_ops;
use failure::{Failure, Invariant, known};
use sqlite_items::Items;
use wa_syntax::Instr;

/// Whether a module is traced.
#[derive(Clone, Copy, Debug, PartialEq, Eq)]
pub enum Tracing {
    /// It writes the output alone.
    Off,
    /// It writes trace records, by these functions.
    On(TraceFunctions),
}

/// The functions of a traced module that write trace records, by number.
#[derive(Clone, Copy, Debug, PartialEq, Eq)]
pub struct TraceFunctions {
    /// Writes the record of a byte of the output, which is the low byte of its argument.
    pub byte: u32,
    /// Makes a frame in memory that of a new instance, and writes the record of its start.
    pub start: u32,
    /// Writes the record of an event, from the frame of an instance in memory and the event's number.
    pub event: u32,
    /// Writes the record of the event by which the body of an instance was left, from its frame in memory and the body's status.
    pub outcome: u32,
}

impl TraceFunctions {
    /// The functions of [`trace_code`](crate::trace_code), where the first one has this number.
    ///
    /// # Errors
    ///
    /// `Broken` where 32 bits don't hold their numbers.
    pub fn from_first(first: u32) -> Result<TraceFunctions, Failure>
        ensures byte { IfOk result (λ tellers. tellers.byte ≡ first) }
        ensures start { IfOk result (λ tellers. tellers.start ≡ first + 1) }
        ensures event { IfOk result (λ tellers. tellers.event ≡ first + 2) }
        ensures outcome { IfOk result (λ tellers. tellers.outcome ≡ first + 3) }
    {
        let last = known(first.checked_add(3), Invariant::TableIndex)?;
        Ok(TraceFunctions {
            byte: first,
            start: last - 2,
            event: last - 1,
            outcome: last,
        })
    }
}

/// An event that is reported at its position in the code.
#[derive(Clone, Copy, Debug, PartialEq, Eq)]
pub enum TraceEvent {
    /// The instance has its frame.
    Start,
    /// The instance continues where it was suspended.
    Resume,
    /// The instance is ended with its loop, or by a raise.
    Abandon,
}

impl TraceEvent {
    /// The number of the event. A yield and a quit have the numbers of the statuses `SUSPENDED` and `ENDED`.
    pub(crate) fn number(self) -> u32 {
        match self {
            TraceEvent::Start => 0,
            TraceEvent::Resume => 1,
            TraceEvent::Abandon => 4,
        }
    }
}

/// How many more words a frame has in memory.
pub fn traced_words(tracing: Tracing) -> u32 {
    match tracing {
        Tracing::Off => 0,
        Tracing::On(_) => TRACED_WORDS,
    }
}

/// Appends what reports an event of the instance whose frame is in this local.
pub fn emit_event(
    to: &mut Items<Instr>,
    tracing: Tracing,
    frame: u32,
    event: TraceEvent,
) -> Result<(), Failure> {
    let Tracing::On(tellers) = tracing else {
        return Ok(());
    };
    match event {
        TraceEvent::Start => emit_ops(to, &[Get(frame), Call(tellers.start)]),
        TraceEvent::Resume | TraceEvent::Abandon => {
            let line = [Get(frame), I32(event.number()), Call(tellers.event)];
            emit_ops(to, &line)
        }
    }
}

/// Appends what reports how the body of the instance was left whose frame is in this local: by the status in the other local.
pub fn emit_outcome(
    to: &mut Items<Instr>,
    tracing: Tracing,
    frame: u32,
    status: u32,
) -> Result<(), Failure> {
    match tracing {
        Tracing::Off => Ok(()),
        Tracing::On(tellers) => {
            let line = [Get(frame), Get(status), Call(tellers.outcome)];
            emit_ops(to, &line)
        }
    }
}

/// Appends what names the site that starts an instance next, by its index among all sites of the program.
pub fn emit_starting_site(
    to: &mut Items<Instr>,
    tracing: Tracing,
    site: u32,
) -> Result<(), Failure> {
    match tracing {
        Tracing::Off => Ok(()),
        Tracing::On(_) => emit_ops(to, &[I32(site), SetGlobal(STARTING_SITE)]),
    }
}

/// Appends the call that writes the low byte of the operand to the output.
pub(crate) fn emit_put(to: &mut Items<Instr>, tracing: Tracing) -> Result<(), Failure> {
    match tracing {
        Tracing::Off => emit_ops(to, &[Call(PUT)]),
        Tracing::On(tellers) => emit_ops(to, &[Call(tellers.byte)]),
    }
}
