//! Writes records to the sinks: the bytes of the output to out, the lines of the events to err, in the order of the records.

ghost use Rattle.std.specs.Prelude.{◌≡◌, ◌≤◌, ◌++◌, ◌∷◌, [], OnOk, OnErr, IsErrOf, IsOkUnless};
ghost use Rattle.host_io.specs.Faults.{Rose};
ghost use Rattle.sa_trace.specs.TraceRecords.{ArePlaced, IsPlace};
ghost use Rattle.sa_trace.specs.Writing.{WritesRecords, WritesFront, Hears, HearsPart, line, sink};

use crate::line::line;
use crate::trace_record::{Event, TraceRecord};
use host_io::{Outage, Sink};
use sa_ast::Sources;
use std::alloc::Global;

/// Whether err still takes lines.
#[derive(Clone, Copy, Debug, PartialEq, Eq)]
pub enum ErrStatus {
    Yes,
    /// It has failed, and nothing more is put on it.
    Failed,
    /// It had no memory, or memory ran out for it where the cause is another, and nothing more is put on it.
    NoMemory,
}

/// Writes records, up to an outage. A failure of err isn't one.
pub fn write_records<O: Sink, E: Sink>(
    alloc: Global,
    frames: &[TraceRecord],
    sources: &Sources,
    listening: &mut ErrStatus,
    out: &mut O,
    err: &mut E,
) -> Result<(), Outage>
    requires placed { ArePlaced sources.now frames.now }
    ensures ok { OnOk result (WritesRecords sources.now frames.now (sink (O.output out.old) (O.faults out.old))
        (sink (O.output out.new) (O.faults out.new)) listening.old listening.new (sink (E.output err.old) (E.faults err.old))
        (sink (E.output err.new) (E.faults err.new))) }
    ensures part { OnErr result (WritesFront sources.now frames.now (sink (O.output out.old) (O.faults out.old))
        (sink (O.output out.new) (O.faults out.new)) (HearsPart listening.old listening.new (sink (E.output err.old) (E.faults err.old))
        (sink (E.output err.new) (E.faults err.new)))) }
    // Where out fails, err has the whole lines.
    ensures lines { IsErrOf result Outage.Failed → WritesFront sources.now frames.now (sink (O.output out.old) (O.faults out.old))
        (sink (O.output out.new) (O.faults out.new)) (Hears listening.old listening.new (sink (E.output err.old) (E.faults err.old))
        (sink (E.output err.new) (E.faults err.new))) }
    ensures failed { IsErrOf result Outage.Failed → Rose (O.faults out.old) (O.faults out.new) }
    ensures out { O.faults out.old ≤ O.faults out.new }
    ensures err { E.faults err.old ≤ E.faults err.new }
{
    let mut held = Vec::new(alloc);
    for frame in frames {
        match frame {
            TraceRecord::Byte(byte) => hold(&mut held, *byte)?,
            TraceRecord::Event(event) => {
                out.put(held.as_slice())?;
                held.clear();
                tell(alloc, event, sources, listening, err)?;
            }
        }
    }
    out.put(held.as_slice())
}

/// Buffers one more byte.
fn hold(held: &mut Vec<u8>, byte: u8) -> Result<(), Outage>
    ensures ok { OnOk result (held.new.items ≡ held.old.items ++ byte ∷ []) }
    ensures sure { IsOkUnless result Outage.NoMemory }
{
    match held.push(byte) {
        Ok(()) => Ok(()),
        Err(_) => Err(Outage::NoMemory),
    }
}

/// Puts the line of an event on err, if err still takes lines.
fn tell<E: Sink>(
    alloc: Global,
    event: &Event,
    sources: &Sources,
    listening: &mut ErrStatus,
    err: &mut E,
) -> Result<(), Outage>
    requires placed { IsPlace sources.now event.now.at }
    ensures ok { OnOk result (Hears listening.old listening.new (sink (E.output err.old) (E.faults err.old))
        (sink (E.output err.new) (E.faults err.new)) (line sources.now event.now)) }
    ensures part { OnErr result (HearsPart listening.old listening.new (sink (E.output err.old) (E.faults err.old))
        (sink (E.output err.new) (E.faults err.new)) (line sources.now event.now)) }
    ensures sure { IsOkUnless result Outage.NoMemory }
    ensures count { E.faults err.old ≤ E.faults err.new }
{
    if *listening != ErrStatus::Yes {
        return Ok(());
    }
    let Ok(line) = line(alloc, event, sources) else {
        return Err(Outage::NoMemory);
    };
    match err.put(line.as_slice()) {
        Ok(()) => Ok(()),
        Err(Outage::Failed) => {
            *listening = ErrStatus::Failed;
            Ok(())
        }
        Err(Outage::NoMemory) => {
            *listening = ErrStatus::NoMemory;
            Err(Outage::NoMemory)
        }
    }
}
