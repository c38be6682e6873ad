//! The top call of the driver.

ghost use Rattle.std.specs.Prelude.{◌≡◌, ◌≢◌, ◌⊎◌, ◌&&◌, [], None, Some, is_some, map, string_bytes};
ghost use Rattle.host_io.specs.Output.{Grew};
ghost use Rattle.sa_trace.specs.Writing.{Sink as Taken, sink};
ghost use Rattle.sa_trace.specs.declared.sinks.ErrStatus.TheVariants as listening;
ghost use Rattle.sa_cli.specs.Line.{asked_detail, line_in, line_of};
ghost use Rattle.sa_cli.specs.declared.command.Detail.TheVariants.{Brief};
ghost use Rattle.sa_driver.specs.Answer.{Does, IsReportable, Obeys, PrintsNone, ReadsNone};
ghost use Rattle.sa_driver.specs.Answer.{RunsNone, ReportsOne, WritesNone, asks_stats, has_steps, module_file};
ghost use Rattle.sa_driver.specs.Ends.{ComesBeforeOutput};
ghost use Rattle.sa_driver.specs.Lines.{IsPlaced};
ghost use Rattle.sa_driver.specs.Report.{IsExitOf, IsExplained};
ghost use Rattle.sa_driver.specs.HostParts.{between, host_state, part};
ghost use Rattle.sa_driver.specs.declared.outcome.Outcome.{Outcome as Outcomes};

use crate::assemble::assemble;
use crate::build::build;
use crate::cause::{Cause, Exit};
use crate::check::check;
use crate::compiler::no_sources;
use crate::dump::dump;
use crate::exec::exec;
use crate::explained::report_more;
use crate::listing::listing;
use crate::outcome::Outcome;
use crate::print::print_generated;
use crate::report::report;
use crate::requests::Request;
use crate::run::run;
use crate::selftest::selftest;
use crate::texts::{explain, help, library, version};
use crate::traced_run::run_with_trace;
use host_io::{Sink, Source, WriteFiles};
use sa_cli::{ArgsError, Command, Trace, command_of};
use sqlite_items::Items;
use std::alloc::Global;

/// Does what the arguments of a command line, without the program's name, ask for.
pub fn sather<S: WriteFiles, I: Source, O: Sink, E: Sink>(
    alloc: Global,
    words: &[String],
    store: &mut S,
    input: &mut I,
    out: &mut O,
    err: &mut E,
) -> Exit
    // What the arguments ask for was done with an outcome, by the definition of each command, up to some state of err. Wherever a program
    // has a module there is a typed AST that is well typed and never gets stuck, and whose positions the module's numbers name. The exit
    // has the outcome's cause, or out of memory, its status and its module, and from there on err took its lines, and after them an
    // explanation where the arguments ask for one.
    ensures answer { (outcome : Outcomes) × (middle : Taken) × (reported : Taken) ×
        Obeys (host_state (part S.files S.faults store.old store.new) (part I.input I.faults input.old input.new)
        (part O.output O.faults out.old out.new) (between (sink (E.output err.old) (E.faults err.old)) middle))
        (line_in (map string_bytes words.now)) outcome
        × IsReportable (line_in (map string_bytes words.now)) outcome
        × IsExitOf outcome (between middle reported) result
        × IsExplained (map string_bytes words.now) (between reported (sink (E.output err.new) (E.faults err.new))) }

    // A command that runs no module on the input takes nothing from it, and has the status 0 at `Done`.
    ensures input { RunsNone (line_in (map string_bytes words.now)) → input.new ≡ input.old }
    ensures done { RunsNone (line_in (map string_bytes words.now)) → result.cause ≡ Cause.Done → result.status ≡ 0 }

    // `build` and `assemble` alone write to the store, and no other part of the host is touched by a command that has nothing to do with
    // it.
    ensures files { WritesNone (line_in (map string_bytes words.now)) → S.files store.new ≡ S.files store.old }
    ensures store { ReadsNone (line_in (map string_bytes words.now)) → store.new ≡ store.old }
    ensures silent { PrintsNone (line_in (map string_bytes words.now)) → out.new ≡ out.old }

    // What out has is after what it had. Where the cause arises before any output, nothing is put on out or taken from the input.
    ensures output { Grew (O.output out.old) (O.output out.new) }
    ensures untouched { ComesBeforeOutput result.cause → (out.new ≡ out.old) × (input.new ≡ input.old) }
{
    let CommandResult { outcome, asked } = obey(alloc, words, store, input, out, err);
    let cause = report(alloc, &outcome, err);
    report_more(alloc, asked, &outcome, cause, err);
    let status = match cause {
        Cause::Done => outcome.done,
        _ => cause.status(),
    };
    Exit {
        status,
        cause,
        module: Items::from_vec(outcome.module),
    }
}

/// The outcome for the arguments, and what is to be reported of it.
#[derive(Drop)]
struct CommandResult<'a> {
    outcome: Outcome<'a>,
    asked: Request<'a>,
}

/// Does what the arguments ask for, but for the lines on err.
fn obey<'a, S: WriteFiles, I: Source, O: Sink, E: Sink>(
    alloc: Global,
    words: &'a [String],
    store: &mut S,
    input: &mut I,
    out: &mut O,
    err: &mut E,
) -> CommandResult<'a>
    ensures obeys { Obeys (host_state (part S.files S.faults store.old store.new) (part I.input I.faults input.old input.new)
        (part O.output O.faults out.old out.new) (part E.output E.faults err.old err.new))
        (line_in (map string_bytes words.now)) result.outcome }
    ensures detail { (result.asked.detail ≡ asked_detail (map string_bytes words.now)) ⊎ (result.asked.detail ≡ Brief) }
    ensures file { result.outcome.cause ≢ Cause.NoMemory → result.outcome.file.now ≡ module_file (line_in (map string_bytes words.now)) }
    ensures steps { is_some result.outcome.steps ≡ (asks_stats (line_in (map string_bytes words.now)) && has_steps result.outcome.cause) }
    ensures further { ReportsOne (line_in (map string_bytes words.now)) → result.outcome.further.items ≡ [] }
    ensures placed { IsPlaced result.outcome.sources result.outcome.cause }
    ensures input { RunsNone (line_in (map string_bytes words.now)) → input.new ≡ input.old }
    ensures done { RunsNone (line_in (map string_bytes words.now)) → result.outcome.cause ≡ Cause.Done → result.outcome.done ≡ 0 }
    ensures files { WritesNone (line_in (map string_bytes words.now)) → S.files store.new ≡ S.files store.old }
    ensures store { ReadsNone (line_in (map string_bytes words.now)) → store.new ≡ store.old }
    ensures silent { PrintsNone (line_in (map string_bytes words.now)) → out.new ≡ out.old }
    ensures output { Grew (O.output out.old) (O.output out.new) }
    ensures untouched { ComesBeforeOutput result.outcome.cause → (out.new ≡ out.old) × (input.new ≡ input.old) }
{
    let command = match command_of(alloc, words) {
        Ok(command) => command,
        Err(ArgsError::Usage) => {
            let asked = Request::of_arguments(words);
            return without_command(alloc, asked, Cause::Usage);
        }
        Err(ArgsError::NoMemory) => {
            return without_command(alloc, Request::brief(words), Cause::NoMemory);
        }
    };
    let asked = Request::of_command(words, &command);
    let outcome = do_command(alloc, command, store, input, out, err);
    CommandResult { outcome, asked }
}

/// Does what a command asks for.
fn do_command<'a, S: WriteFiles, I: Source, O: Sink, E: Sink>(
    alloc: Global,
    command: Command<'a>,
    store: &mut S,
    input: &mut I,
    out: &mut O,
    err: &mut E,
) -> Outcome<'a>
    ensures does { Does (host_state (part S.files S.faults store.old store.new) (part I.input I.faults input.old input.new)
        (part O.output O.faults out.old out.new) (part E.output E.faults err.old err.new)) (line_of command.entry) result }
    ensures file { result.file.now ≡ module_file (Some (line_of command.entry)) }
    ensures steps { is_some result.steps ≡ (asks_stats (Some (line_of command.entry)) && has_steps result.cause) }
    ensures further { ReportsOne (Some (line_of command.entry)) → result.further.items ≡ [] }
    ensures placed { IsPlaced result.sources result.cause }
    ensures input { RunsNone (Some (line_of command.entry)) → input.new ≡ input.old }
    ensures done { RunsNone (Some (line_of command.entry)) → result.cause ≡ Cause.Done → result.done ≡ 0 }
    ensures files { WritesNone (Some (line_of command.entry)) → S.files store.new ≡ S.files store.old }
    ensures store { ReadsNone (Some (line_of command.entry)) → store.new ≡ store.old }
    ensures silent { PrintsNone (Some (line_of command.entry)) → out.new ≡ out.old }
    ensures output { Grew (O.output out.old) (O.output out.new) }
    ensures untouched { ComesBeforeOutput result.cause → (out.new ≡ out.old) × (input.new ≡ input.old) }
{
    match command {
        Command::Run(line) => match line.trace {
            Trace::Silent => run(alloc, &line, store, input, out),
            Trace::Reported => run_with_trace(alloc, &line, store, input, out, err),
        },
        Command::Build(line) => build(alloc, &line, store),
        Command::Check(line) => check(alloc, &line, store, out),
        Command::Exec(line) => exec(alloc, &line, store, input, out),
        Command::Gen(classes) => print_generated(alloc, classes, out),
        Command::Selftest(classes) => selftest(alloc, classes, out),
        Command::Listing(line) => listing(alloc, &line, store, out),
        Command::Assemble(line) => assemble(alloc, &line, store),
        Command::Dump(line) => dump(alloc, &line, store, out),
        Command::Help(topic) => help(alloc, topic, out),
        Command::Version => version(alloc, out),
        Command::Explain(word) => explain(alloc, word, out),
        Command::Library(name) => library(alloc, name, out),
    }
}

/// The result for arguments that form no command, with this cause, of which this is to be reported.
fn without_command<'a>(alloc: Global, asked: Request<'a>, cause: Cause) -> CommandResult<'a>
    ensures cause { result.outcome.cause ≡ cause }
    ensures detail { result.asked.detail ≡ asked.entry.detail }
    ensures done { result.outcome.done ≡ 0 }
    ensures bytes { result.outcome.«module».items ≡ [] }
    ensures file { result.outcome.file.now ≡ [] }
    ensures steps { result.outcome.steps ≡ None }
    ensures further { result.outcome.further.items ≡ [] }
    ensures listening { result.outcome.listening ≡ listening.Yes }
{
    CommandResult {
        outcome: Outcome::without_module(alloc, cause, no_sources(alloc)),
        asked,
    }
}
