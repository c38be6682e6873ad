//! Records: the output of a traced module.

ghost use Rattle.std.specs.Prelude.{◌≡◌, ◌≢◌, MatchOption};
ghost use Rattle.sa_trace.specs.TraceRecords.{kind_number};
ghost use Rattle.sa_trace.specs.Writing.{word};
ghost use Rattle.sa_trace.specs.declared.trace_record.EventKind.{EventKind as Kinds};

use sa_ast::Pos;

/// What happens to an instance of an iter.
#[derive(Clone, Copy, Debug, PartialEq, Eq, Hash)]
pub enum EventKind {
    Start,
    Resume,
    Yield,
    Quit,
    /// It is ended with its loop, or by a raise.
    Abandon,
}

/// An event of an instance of an iter.
#[derive(Clone, Copy, Debug, PartialEq, Eq, Hash)]
pub struct Event {
    pub kind: EventKind,
    /// The position of the call that started the instance.
    pub at: Pos,
    /// The number of the instance, from 0 in the order of the starts.
    pub instance: u64,
}

/// A record.
#[derive(Clone, Copy, Debug, PartialEq, Eq, Hash)]
pub enum TraceRecord {
    /// A byte of the output.
    Byte(u8),
    Event(Event),
}

impl EventKind {
    /// The kind with this number in a record, if there is one.
    pub(crate) fn of_number(number: u8) -> Option<EventKind>
        ensures { MatchOption result ((kind : Kinds) → kind_number kind ≢ number) (λ kind. kind_number kind ≡ number) }
    {
        match number {
            0 => Some(EventKind::Start),
            1 => Some(EventKind::Resume),
            2 => Some(EventKind::Yield),
            3 => Some(EventKind::Quit),
            4 => Some(EventKind::Abandon),
            _ => None,
        }
    }

    /// The word for it in the lines of the trace.
    pub(crate) fn word(self) -> &'static str
        ensures { result.now ≡ word self }
    {
        match self {
            EventKind::Start => "start",
            EventKind::Resume => "resume",
            EventKind::Yield => "yield",
            EventKind::Quit => "quit",
            EventKind::Abandon => "abandon",
        }
    }
}
