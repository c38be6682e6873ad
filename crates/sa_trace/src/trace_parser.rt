//! Records that come in pieces.

ghost use Rattle.std.specs.Prelude.{◌≡◌, ◌≤◌, ◌++◌, ℕ, List, [], false, drop, length, take, IfOk, IsTrue};
ghost use Rattle.sa_trace.specs.TraceRecords.{AreTraceRecords, ArePlaced, BeginsNone};
ghost use Rattle.sa_trace.specs.Pieces.{AreWrong, HasRead};
ghost use Rattle.sa_trace.specs.declared.trace_record.TraceRecord.{TraceRecord as Frames};

use crate::first_record::{FirstRecord, first_record};
use crate::trace_record::TraceRecord;
use sa_ast::{Pos, Sources};
use std::alloc::{AllocError, Global};
use std::marker::Model;

/// What remains of the bytes that have come, after their records.
#[derive(Drop)]
pub struct TraceParser {
    /// The record that has begun.
    begun: Vec<u8>,
    /// Whether bytes have come that begin no record, so that all that follows is dropped.
    wrong: bool,
}

impl Model for TraceParser {
    ghost use Rattle.sa_trace.specs.Pieces.{ParserState};

    ghost Value = { ParserState };

    ghost view = { λ p. record { begun = p.begun.items; wrong = p.wrong } };
}

impl TraceParser {
    /// Before the first byte.
    pub fn new(alloc: Global) -> TraceParser
        ensures { result ≡ record { begun = []; wrong = false } }
    {
        TraceParser {
            begun: Vec::new(alloc),
            wrong: false,
        }
    }

    /// The records that end in these bytes, which follow those that came before. The sites of the program have these positions. From the
    /// first byte on that begins no record, all are dropped.
    pub fn part(
        &mut self,
        alloc: Global,
        bytes: &[u8],
        positions: &[Pos],
        sources: &Sources,
    ) -> Result<Vec<TraceRecord>, AllocError>
        // Whichever pieces the bytes come in, the records of all pieces together are those of the bytes.
        ensures read { IfOk result (λ frames. (came : List ℕ) (earlier : List Frames)
            → HasRead positions.now sources.now came earlier self.old
            → HasRead positions.now sources.now (came ++ bytes.now) (earlier ++ frames.items) self.new) }
        ensures placed { IfOk result (λ frames. ArePlaced sources.now frames.items) }
    {
        if self.wrong {
            return Ok(Vec::new(alloc));
        }
        self.begun.extend_from_slice(bytes)?;
        let (frames, end) = frames_of(alloc, self.begun.as_slice(), positions, sources)?;
        let rest = &self.begun[end..];
        self.wrong = are_wrong(rest, positions, sources);
        self.begun = Vec::from_slice(alloc, rest)?;
        Ok(frames)
    }
}

/// Whether the bytes begin no record, whatever follows.
fn are_wrong(bytes: &[u8], positions: &[Pos], sources: &Sources) -> bool
    ensures { IsTrue result → AreWrong positions.now sources.now bytes.now }
{
    matches!(first_record(bytes, positions, sources), FirstRecord::Wrong)
}

/// The records that the bytes begin with, and how many bytes they are.
fn frames_of(
    alloc: Global,
    bytes: &[u8],
    positions: &[Pos],
    sources: &Sources,
) -> Result<(Vec<TraceRecord>, usize), AllocError>
    ensures within { IfOk result (λ read. read.1 ≤ length bytes.now) }
    ensures frames { IfOk result (λ read. AreTraceRecords positions.now sources.now (take read.1 bytes.now) read.0.items) }
    ensures ends { IfOk result (λ read. BeginsNone positions.now sources.now (drop read.1 bytes.now)) }
{
    let mut frames = Vec::new(alloc);
    let mut at = 0;
    while let FirstRecord::Whole(frame) = first_record(&bytes[at..], positions, sources) {
        frames.push(frame)?;
        at += frame.size();
    }
    Ok((frames, at))
}
