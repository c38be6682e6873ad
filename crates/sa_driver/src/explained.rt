//! The explanation of a cause, which is put on err after the lines where the arguments ask for it.

ghost use Rattle.sa_driver.specs.Report.{ReportsMore};
ghost use Rattle.sa_driver.specs.HostParts.{part};

use crate::cause::Cause;
use crate::host_end::{host_end, store_fault};
use crate::lines::internal_error;
use crate::memory_end::memory_end;
use crate::module_end::module_end;
use crate::outcome::Outcome;
use crate::requests::Request;
use crate::retyped::typed_again;
use crate::usage_end::usage_end;
use failure::{Failure, Invariant};
use host_io::Sink;
use sa_ast::{FaultKind, Pos, Sources};
use sa_cli::{Contracts, Detail};
use sa_explain::{explain_fault, explain_refusals};
use sa_trace::ErrStatus;
use std::alloc::{AllocError, Global};

/// Puts on err what explains the final cause of an outcome, if that is asked for and err still listens. Where memory runs out in it, or err
/// fails, the lines that are there stay as they are; where an invariant is broken in it, the line of that internal error is in its place.
pub fn report_more<E: Sink>(
    alloc: Global,
    asked: Request<'_>,
    outcome: &Outcome<'_>,
    cause: Cause,
    err: &mut E,
)
    ensures { ReportsMore asked.entry.detail (part E.output E.faults err.old err.new) }
{
    match asked.detail {
        Detail::Brief => {}
        Detail::Explained => match outcome.listening {
            ErrStatus::Yes => put_explanation(alloc, asked, outcome, cause, err),
            ErrStatus::Failed | ErrStatus::NoMemory => {}
        },
    }
}

/// Puts on err the explanation of a cause of an outcome.
fn put_explanation<E: Sink>(
    alloc: Global,
    asked: Request<'_>,
    outcome: &Outcome<'_>,
    cause: Cause,
    err: &mut E,
)
    ensures { ReportsMore Detail.Explained (part E.output E.faults err.old err.new) }
{
    match explanation(alloc, asked, outcome, cause) {
        Ok(text) => put_more(text.as_slice(), err),
        Err(Failure::NoMemory) => {}
        Err(Failure::Broken(invariant)) => put_internal_error(alloc, invariant, err),
    }
}

/// Puts the line of an internal error on err, in place of the explanation.
fn put_internal_error<E: Sink>(alloc: Global, invariant: Invariant, err: &mut E)
    ensures { ReportsMore Detail.Explained (part E.output E.faults err.old err.new) }
{
    match internal_error(alloc, invariant) {
        Ok(line) => put_more(line.as_slice(), err),
        Err(AllocError) => {}
    }
}

/// Puts a text on err, or a prefix of it where err fails or has no memory.
fn put_more<E: Sink>(text: &[u8], err: &mut E)
    ensures { ReportsMore Detail.Explained (part E.output E.faults err.old err.new) }
{
    match err.put(text) {
        Ok(()) => {}
        Err(_outage) => {}
    }
}

/// The explanation of a cause of an outcome.
fn explanation(
    alloc: Global,
    asked: Request<'_>,
    outcome: &Outcome<'_>,
    cause: Cause,
) -> Result<Vec<u8>, Failure> {
    let module = outcome.module.as_slice();
    match cause {
        Cause::Refused(refusal) => explain_refusals(
            alloc,
            &outcome.sources,
            refusal,
            outcome.refusals.as_slice(),
        ),
        Cause::Fault(kind, pos) => fault(alloc, asked.contracts, &outcome.sources, kind, pos),
        Cause::StoreFault => store_fault(alloc, asked, module.is_empty()),
        Cause::Spent(_) | Cause::InFault | Cause::OutFault => host_end(alloc, cause),
        Cause::Usage => usage_end(alloc, asked.arguments),
        Cause::NoMemory => memory_end(alloc, module, asked.pages),
        _ => module_end(alloc, module, cause, outcome.func),
    }
}

/// The explanation of a fault at a position. Of one in the prelude, and of an exception, the typed AST says more.
fn fault(
    alloc: Global,
    contracts: Contracts,
    sources: &Sources,
    kind: FaultKind,
    pos: Pos,
) -> Result<Vec<u8>, Failure> {
    if pos.file != 0 && kind != FaultKind::Uncaught {
        return explain_fault(alloc, sources, None, kind, pos);
    }
    let core = typed_again(alloc, sources, contracts)?;
    explain_fault(alloc, sources, core.as_ref(), kind, pos)
}
