//! What is put on err at the end of a call.

ghost use Rattle.std.specs.Prelude.{◌≡◌, ◌≢◌, ◌⊎◌};
ghost use Rattle.host_io.specs.Output.{TookFront};
ghost use Rattle.sa_driver.specs.Lines.{IsPlaced, lines_of};
ghost use Rattle.sa_driver.specs.Report.{EndsWith, Reports, ReportsPart};
ghost use Rattle.sa_driver.specs.HostParts.{part};

use crate::cause::Cause;
use crate::lines::{NO_MEMORY, lines};
use crate::outcome::Outcome;
use host_io::{Outage, Sink};
use sa_trace::ErrStatus;
use std::alloc::{AllocError, Global};

/// Puts the lines of an outcome on err, if it still listens, and gives the final cause: that of the outcome, but out of memory where err
/// has no memory or there is none for the lines. Where err fails, the outcome's cause is final.
pub fn report<E: Sink>(alloc: Global, outcome: &Outcome<'_>, err: &mut E) -> Cause
    requires { IsPlaced outcome.now.sources outcome.now.cause }
    ensures occurs { (result ≡ Cause.NoMemory) ⊎ (result ≡ outcome.now.cause) }
    ensures ends { EndsWith outcome.now.listening (part E.output E.faults err.old err.new) outcome.now result }
{
    match outcome.listening {
        ErrStatus::Yes => tell_lines(alloc, outcome, err),
        ErrStatus::Failed => outcome.cause,
        ErrStatus::NoMemory => Cause::NoMemory,
    }
}

/// Puts the lines of an outcome on err, and gives the final cause.
fn tell_lines<E: Sink>(alloc: Global, outcome: &Outcome<'_>, err: &mut E) -> Cause
    requires { IsPlaced outcome.now.sources outcome.now.cause }
    ensures occurs { (result ≡ Cause.NoMemory) ⊎ (result ≡ outcome.now.cause) }
    ensures reported { result ≢ Cause.NoMemory → Reports (part E.output E.faults err.old err.new) (lines_of outcome.now result) }
    ensures reported_part { result ≡ Cause.NoMemory → ReportsPart (part E.output E.faults err.old err.new) outcome.now }
{
    match lines(alloc, outcome) {
        Ok(lines) => tell(lines.as_slice(), outcome.cause, err),
        Err(AllocError) => tell(NO_MEMORY, Cause::NoMemory, err),
    }
}

/// Puts the line on err, and gives the cause, or out of memory where err has no memory.
fn tell<E: Sink>(line: &[u8], cause: Cause, err: &mut E) -> Cause
    ensures occurs { (result ≡ Cause.NoMemory) ⊎ (result ≡ cause) }
    ensures reported { result ≢ Cause.NoMemory → Reports (part E.output E.faults err.old err.new) line.now }
    ensures reported_part { TookFront (E.output err.old) (E.output err.new) line.now }
{
    match err.put(line) {
        Ok(()) => cause,
        Err(Outage::Failed) => cause,
        Err(Outage::NoMemory) => Cause::NoMemory,
    }
}
