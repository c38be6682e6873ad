//! The command `dump`: a form that a program has inside the compiler is put on out.

ghost use Rattle.std.specs.Prelude.{◌≡◌, [], None, map};
ghost use Rattle.host_io.specs.Output.{Grew};
ghost use Rattle.sa_trace.specs.declared.sinks.ErrStatus.TheVariants as listening;
ghost use Rattle.sa_driver.specs.Answer.{IsDumped, PrintsForm};
ghost use Rattle.sa_driver.specs.Ends.{ComesBeforeOutput};
ghost use Rattle.sa_driver.specs.Lines.{IsPlaced};
ghost use Rattle.sa_driver.specs.HostParts.{part};

use crate::cause::{Cause, failed};
use crate::compiler::{CheckResult, check_files};
use crate::module::cfg_of;
use crate::outcome::Outcome;
use crate::print::print;
use crate::retyped::are_short;
use failure::{Failure, Invariant, broken, limit};
use host_io::{ReadFiles, Sink};
use sa_ast::{Class, Rejection, Sources};
use sa_cli::{Contracts, Dump, DumpForm, Extent};
use sa_contracts::weave;
use sa_dump::{Symbols, dump_ast, dump_cfg, dump_regions, dump_typed};
use sa_read::{ParsedFiles, parse_program};
use sa_typed::TypedProgram;
use sqlite_items::Items;
use std::alloc::Global;

/// Puts the form that is asked for on out, of a program that is accepted, or gives the cause why it isn't.
pub fn dump<'a, S: ReadFiles, O: Sink>(
    alloc: Global,
    line: &Dump<'a>,
    store: &mut S,
    out: &mut O,
) -> Outcome<'a>
    ensures does { IsDumped (part S.files S.faults store.old store.new) (part O.output O.faults out.old out.new)
        (map (λ file. file.now) line.now.files.items) result }
    ensures placed { IsPlaced result.sources result.cause }
    ensures steps { result.steps ≡ None }
    ensures further { result.further.items ≡ [] }
    ensures file { result.file.now ≡ [] }
    ensures listening { result.listening ≡ listening.Yes }
    ensures done { result.done ≡ 0 }
    ensures files { S.files store.new ≡ S.files store.old }
    ensures output { Grew (O.output out.old) (O.output out.new) }
    ensures untouched { ComesBeforeOutput result.cause → out.new ≡ out.old }
{
    let CheckResult { sources, core, .. } = check_files(
        alloc,
        store,
        line.files.as_slice(),
        line.contracts,
        Extent::Needed,
    );
    match core {
        Ok(core) => {
            let cause = print_form(alloc, line, &sources, &core, out);
            Outcome::without_module(alloc, cause, sources)
        }
        Err(cause) => Outcome::without_module(alloc, cause, sources),
    }
}

/// The cause after a form of a program was put on out, or wasn't.
fn print_form<O: Sink>(
    alloc: Global,
    line: &Dump<'_>,
    sources: &Sources,
    core: &TypedProgram,
    out: &mut O,
) -> Cause
    ensures printed { PrintsForm (part O.output O.faults out.old out.new) result }
    ensures output { Grew (O.output out.old) (O.output out.new) }
    ensures later { ComesBeforeOutput result → ⊥ }
{
    match form_of(alloc, line, sources, core) {
        Ok(text) => print(text.as_bytes(), out),
        Err(why) => failed(why),
    }
}

/// The text of the form that is asked for, of a program of these texts.
fn form_of(
    alloc: Global,
    line: &Dump<'_>,
    sources: &Sources,
    core: &TypedProgram,
) -> Result<String, Failure> {
    let texts = sources.texts.as_slice();
    let classes = classes_of(alloc, texts, line.contracts)?;
    let symbols = Symbols {
        core,
        classes: classes.as_slice(),
        texts,
        all: line.all,
    };
    match line.form {
        DumpForm::Ast => Ok(dump_ast(alloc, classes.as_slice(), line.all)?),
        DumpForm::Typed => Ok(dump_typed(alloc, symbols)?),
        DumpForm::Cfg => Ok(dump_cfg(alloc, symbols, &cfg_of(alloc, core)?)?),
        DumpForm::Regions => dump_regions(alloc, symbols, &cfg_of(alloc, core)?),
    }
}

/// The classes that these texts declare, with or without the checks of their contracts.
fn classes_of(
    alloc: Global,
    texts: &[Items<u8>],
    contracts: Contracts,
) -> Result<Items<Class>, Failure> {
    if !are_short(texts) || texts.len() >= u32::MAX as usize {
        return limit();
    }
    match parse_program(alloc, texts) {
        Ok(parsed) => classes_under(alloc, parsed, contracts),
        Err(Rejection::Failed(why)) => Err(why),
        Err(Rejection::Refused(_)) => broken(Invariant::RefusalPhase),
    }
}

/// The classes of what is declared, with or without the checks of its contracts.
fn classes_under(
    alloc: Global,
    parsed: ParsedFiles,
    contracts: Contracts,
) -> Result<Items<Class>, Failure> {
    let ParsedFiles {
        classes,
        contracts: clauses,
    } = parsed;
    match contracts {
        Contracts::Dropped => Ok(classes),
        Contracts::Checked => Ok(weave(alloc, classes, clauses.as_slice())?.classes),
    }
}
