//! The command `check`: whether a program is accepted.

ghost use Rattle.std.specs.Prelude.{◌≡◌, ◌⊎◌, [], None, map};
ghost use Rattle.host_io.specs.Output.{Grew};
ghost use Rattle.sa_trace.specs.declared.sinks.ErrStatus.TheVariants as listening;
ghost use Rattle.sa_driver.specs.Answer.{IsChecked};
ghost use Rattle.sa_driver.specs.Ends.{ComesBeforeOutput};
ghost use Rattle.sa_driver.specs.Further.{MayReportFurther, ReportsEach};
ghost use Rattle.sa_driver.specs.Internal.{IsInternal};
ghost use Rattle.sa_driver.specs.Lines.{IsPlaced};
ghost use Rattle.sa_driver.specs.HostParts.{part};

use crate::cause::{Cause, failed};
use crate::compiler::{CheckResult, check_files};
use crate::further::refusal_lines;
use crate::outcome::Outcome;
use crate::print::print;
use host_io::{ReadFiles, Sink};
use sa_ast::{Refusal, Sources};
use sa_cli::{Check, Extent};
use std::alloc::Global;

/// What is put on out for a program that is accepted.
const ACCEPTED: &[u8] = b"accepted\n";

/// Prints on out that the program is accepted, or gives the cause why it isn't, and the further refusals where all is checked.
pub fn check<'a, S: ReadFiles, O: Sink>(
    alloc: Global,
    line: &Check<'a>,
    store: &mut S,
    out: &mut O,
) -> Outcome<'a>
    ensures does { IsChecked (part S.files S.faults store.old store.new) (part O.output O.faults out.old out.new) line.now.extent
        (map (λ file. file.now) line.now.files.items) result }
    ensures placed { IsPlaced result.sources result.cause }
    ensures steps { result.steps ≡ None }
    ensures further { line.now.extent ≡ Extent.Needed → result.further.items ≡ [] }
    ensures file { result.file.now ≡ [] }
    ensures listening { result.listening ≡ listening.Yes }
    ensures done { result.done ≡ 0 }
    ensures files { S.files store.new ≡ S.files store.old }
    ensures output { Grew (O.output out.old) (O.output out.new) }
    ensures untouched { ComesBeforeOutput result.cause → out.new ≡ out.old }
{
    let CheckResult {
        sources,
        core,
        further,
    } = check_files(
        alloc,
        store,
        line.files.as_slice(),
        line.contracts,
        line.extent,
    );
    match core {
        Ok(_core) => Outcome::without_module(alloc, print(ACCEPTED, out), sources),
        Err(cause) => unaccepted(alloc, line.extent, cause, sources, further),
    }
}

/// The outcome for a program that isn't accepted for this cause, with further refusals and their lines where all is checked.
fn unaccepted<'a>(
    alloc: Global,
    extent: Extent,
    cause: Cause,
    sources: Sources,
    further: Vec<Refusal>,
) -> Outcome<'a>
    requires placed { IsPlaced sources cause }
    ensures cause { (result.cause ≡ cause) ⊎ IsInternal result.cause }
    ensures sources { result.sources ≡ sources }
    ensures placed { IsPlaced result.sources result.cause }
    ensures bytes { result.«module».items ≡ [] }
    ensures may_tell { MayReportFurther extent result }
    ensures each { ReportsEach extent cause further.items result }
    ensures further { extent ≡ Extent.Needed → result.further.items ≡ [] }
    ensures steps { result.steps ≡ None }
    ensures file { result.file.now ≡ [] }
    ensures listening { result.listening ≡ listening.Yes }
    ensures done { result.done ≡ 0 }
{
    match extent {
        Extent::Needed => Outcome::without_module(alloc, cause, sources),
        Extent::All => match cause {
            Cause::Refused(first) => all_refused(alloc, first, sources, further),
            _ => Outcome::without_module(alloc, cause, sources),
        },
    }
}

/// The outcome for a program that is refused, with further refusals and their lines.
#[tactic(auto, using(crate::proofs::InternalLemmas::placed))]
fn all_refused<'a>(
    alloc: Global,
    first: Refusal,
    sources: Sources,
    further: Vec<Refusal>,
) -> Outcome<'a>
    requires placed { IsPlaced sources (Cause.Refused first) }
    ensures cause { (result.cause ≡ Cause.Refused first) ⊎ IsInternal result.cause }
    ensures sources { result.sources ≡ sources }
    ensures placed { IsPlaced result.sources result.cause }
    ensures bytes { result.«module».items ≡ [] }
    ensures may_tell { MayReportFurther Extent.All result }
    ensures each { ReportsEach Extent.All (Cause.Refused first) further.items result }
    ensures steps { result.steps ≡ None }
    ensures file { result.file.now ≡ [] }
    ensures listening { result.listening ≡ listening.Yes }
    ensures done { result.done ≡ 0 }
{
    match refusal_lines(alloc, &sources, further.as_slice()) {
        Ok(lines) => {
            let outcome = Outcome::without_module(alloc, Cause::Refused(first), sources);
            Outcome {
                further: lines,
                refusals: further,
                ..outcome
            }
        }
        Err(failure) => Outcome::without_module(alloc, failed(failure), sources),
    }
}
