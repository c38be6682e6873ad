//! The record that bytes begin with.

ghost use Rattle.std.specs.Prelude.{◌≡◌, ◌∷◌, Decides, MatchOption, Some, slice_get};
ghost use Rattle.sa_trace.specs.TraceRecords.{IsPlace};
ghost use Rattle.sa_trace.specs.Pieces.{Finds, size_of};
ghost use Rattle.sa_ast.specs.declared.pos.Pos.{Pos as Places};

use crate::trace_record::{Event, EventKind, TraceRecord};
use sa_ast::{Pos, Sources};

/// What bytes begin with.
#[derive(Clone, Copy, Debug)]
pub(crate) enum FirstRecord {
    /// A record.
    Whole(TraceRecord),
    /// A part of a record, or no byte.
    Part,
    /// No record, whatever follows.
    Wrong,
}

impl TraceRecord {
    /// How many bytes it has.
    pub(crate) fn size(self) -> usize
        ensures { result ≡ size_of self }
    {
        match self {
            TraceRecord::Byte(_) => 2,
            TraceRecord::Event(_) => 14,
        }
    }
}

/// What the bytes begin with, where the sites of the program have these positions.
pub(crate) fn first_record(bytes: &[u8], positions: &[Pos], sources: &Sources) -> FirstRecord
    ensures { Finds positions.now sources.now bytes.now result }
{
    match bytes {
        [] | [0] => FirstRecord::Part,
        [0, byte, ..] => FirstRecord::Whole(TraceRecord::Byte(*byte)),
        [1, rest @ ..] => event(rest, positions, sources),
        _ => FirstRecord::Wrong,
    }
}

/// What `1` and these bytes after it begin with.
fn event(bytes: &[u8], positions: &[Pos], sources: &Sources) -> FirstRecord
    ensures { Finds positions.now sources.now (1 ∷ bytes.now) result }
{
    let [kind, rest @ ..] = bytes else {
        return FirstRecord::Part;
    };
    let Some((site, following)) = rest.split_first_chunk::<4>() else {
        return FirstRecord::Part;
    };
    let Some((instance, _)) = following.split_first_chunk::<8>() else {
        return FirstRecord::Part;
    };
    let Some(kind) = EventKind::of_number(*kind) else {
        return FirstRecord::Wrong;
    };
    let Some(at) = place(u32::from_le_bytes(*site), positions, sources) else {
        return FirstRecord::Wrong;
    };
    FirstRecord::Whole(TraceRecord::Event(Event {
        kind,
        at,
        instance: u64::from_le_bytes(*instance),
    }))
}

/// The position of a site, where it is in a text whose lines can be counted.
fn place(site: u32, positions: &[Pos], sources: &Sources) -> Option<Pos>
    ensures { MatchOption result ((at : Places) → slice_get positions.now site ≡ Some at → IsPlace sources.now at → ⊥)
        (λ at. (slice_get positions.now site ≡ Some at) × IsPlace sources.now at) }
{
    match positions.get(site as usize) {
        Some(at) if is_place(*at, sources) => Some(*at),
        _ => None,
    }
}

/// Whether a position is in a text whose lines can be counted.
fn is_place(at: Pos, sources: &Sources) -> bool
    ensures { Decides result (IsPlace sources.now at) }
{
    match sources.texts.get(at.file as usize) {
        Some(text) => text.len() < u32::MAX as usize,
        None => false,
    }
}
