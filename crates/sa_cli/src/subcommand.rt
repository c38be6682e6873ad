//! From a subcommand with its matches to a command.

ghost use Rattle.std.specs.Prelude.{◌≡◌, IfOk, Some, map, option_map};
ghost use Rattle.clap.specs.Words.{all_of, first_of, found_of, rows_of};
ghost use Rattle.sa_cli.specs.Line.{assemble_in, build_in, check_in, classes_in, contracts_in, detail_in, do_clash, dump_in, exec_in, extent_in};
ghost use Rattle.sa_cli.specs.Line.{files_in, form_in, fuel_in, is_among, is_given, is_read_only, line_of, listing_in, named_line, pages_in, room_in};
ghost use Rattle.sa_cli.specs.Line.{run_in, stats_in, trace_in, Gen, Selftest};

use crate::command::{
    Assemble, Build, Check, Command, Contracts, Detail, Dump, DumpForm, Exec, Extent, Listing, Run,
    Trace,
};
use crate::number::{number_in, number_or};
use crate::printing::printing_command;
use clap::ArgMatches;
use std::alloc::{AllocError, Global};

/// The fuel in steps where none is given.
pub(crate) const MOST_FUEL: u64 = u64::MAX;

/// The room in KiB where none is given.
pub const ROOM: u32 = 65_536;

pub(crate) const LEAST_ROOM: u64 = 64;

pub(crate) const MOST_ROOM: u64 = 1_048_576;

/// The greatest number of pages of a memory.
pub(crate) const MOST_PAGES: u64 = 65_536;

/// The greatest number of classes of a generated program.
const MOST_CLASSES: u64 = 500;

/// The name of standard input, where it is read as a file.
pub(crate) const INPUT: &str = "-";

/// The value of the argument with this name, or its first one.
pub(crate) fn value<'a>(matches: &ArgMatches<'a>, name: &str) -> Option<&'a str>
    ensures { option_map (λ text. text.now) result ≡ first_of name.now (rows_of (found_of matches.now)) }
{
    matches.get_str(name)
}

/// The values of the argument with this name, or none where it has no entry.
pub(crate) fn values<'m, 'a>(matches: &'m ArgMatches<'a>, name: &str) -> Option<&'m [&'a str]>
    ensures { option_map (λ texts. map (λ text. text.now) texts.now) result ≡ all_of name.now (rows_of (found_of matches.now)) }
{
    matches.get_strs(name)
}

/// The fuel in steps, or none where it is out of its range.
pub(crate) fn fuel(matches: &ArgMatches<'_>) -> Option<u64>
    ensures { result ≡ fuel_in (rows_of (found_of matches.now)) }
{
    number_or(MOST_FUEL, value(matches, "fuel"), 0, MOST_FUEL)
}

/// The room in KiB, or none where it is out of its range.
pub(crate) fn room(matches: &ArgMatches<'_>) -> Option<u32>
    ensures { result ≡ room_in (rows_of (found_of matches.now)) }
{
    let room = number_or(
        u64::from(ROOM),
        value(matches, "room"),
        LEAST_ROOM,
        MOST_ROOM,
    )?;
    Some(room as u32)
}

/// The bound of the memory in pages, if there is one. None where it is out of its range.
pub(crate) fn pages(matches: &ArgMatches<'_>) -> Option<Option<u32>>
    ensures { result ≡ pages_in (rows_of (found_of matches.now)) }
{
    match value(matches, "pages") {
        Some(text) => {
            let pages = number_in(text, 0, MOST_PAGES)?;
            Some(Some(pages as u32))
        }
        None => Some(None),
    }
}

/// Whether the flag with this name is set. `clap` gives it the value `true` then.
fn is_given(matches: &ArgMatches<'_>, name: &str) -> bool
    ensures { result ≡ is_given name.now (rows_of (found_of matches.now)) }
{
    value(matches, name) == Some("true")
}

/// Whether the statistics are asked for.
fn stats(matches: &ArgMatches<'_>) -> bool
    ensures { result ≡ stats_in (rows_of (found_of matches.now)) }
{
    is_given(matches, "stats")
}

/// Whether contracts are checked.
fn contracts(matches: &ArgMatches<'_>) -> Contracts
    ensures { result ≡ contracts_in (rows_of (found_of matches.now)) }
{
    if is_given(matches, "contracts") {
        Contracts::Checked
    } else {
        Contracts::Dropped
    }
}

/// What is reported about iters.
fn trace(matches: &ArgMatches<'_>) -> Trace
    ensures { result ≡ trace_in (rows_of (found_of matches.now)) }
{
    if is_given(matches, "trace") {
        Trace::Reported
    } else {
        Trace::Silent
    }
}

/// How much is reported about the cause of the end.
fn detail(matches: &ArgMatches<'_>) -> Detail
    ensures { result ≡ detail_in (rows_of (found_of matches.now)) }
{
    if is_given(matches, "explain") {
        Detail::Explained
    } else {
        Detail::Brief
    }
}

/// How much of a program is checked.
fn extent(matches: &ArgMatches<'_>) -> Extent
    ensures { result ≡ extent_in (rows_of (found_of matches.now)) }
{
    if is_given(matches, "all") {
        Extent::All
    } else {
        Extent::Needed
    }
}

/// The names of the files.
fn files<'a>(alloc: Global, matches: &ArgMatches<'a>) -> Result<Vec<&'a str>, AllocError>
    ensures { IfOk result (λ files. map (λ file. file.now) files.items ≡ files_in (rows_of (found_of matches.now))) }
{
    match values(matches, "file") {
        Some(files) => Vec::from_slice(alloc, files),
        None => Ok(Vec::new(alloc)),
    }
}

/// Whether the name is one of these.
pub(crate) fn is_among(name: &str, names: &[&str]) -> bool
    ensures { result ≡ is_among name.now (map (λ other. other.now) names.now) }
{
    names.iter().any(|other| name == *other)
}

fn run<'a>(alloc: Global, matches: &ArgMatches<'a>) -> Result<Option<Command<'a>>, AllocError>
    ensures { IfOk result (λ command. option_map line_of command ≡ run_in (rows_of (found_of matches.now))) }
{
    let files = files(alloc, matches)?;
    // The program itself reads standard input.
    if is_among(INPUT, files.as_slice()) {
        return Ok(None);
    }
    let (Some(fuel), Some(room)) = (fuel(matches), room(matches)) else {
        return Ok(None);
    };
    Ok(Some(Command::Run(Run {
        fuel,
        room,
        stats: stats(matches),
        contracts: contracts(matches),
        trace: trace(matches),
        detail: detail(matches),
        files,
    })))
}

/// Whether this name may not be written: it is that of standard input, or of a file that is read.
pub(crate) fn is_read_only(name: &str, files: &[&str]) -> bool
    ensures { result ≡ is_read_only name.now (map (λ file. file.now) files.now) }
{
    name == INPUT || is_among(name, files)
}

/// Whether two files that are to be written have the same name, or one of them may not be written.
fn do_clash(out: &str, sites: Option<&str>, files: &[&str]) -> bool
    ensures { result ≡ do_clash out.now (option_map (λ name. name.now) sites.entry) (map (λ file. file.now) files.now) }
{
    if is_read_only(out, files) {
        return true;
    }
    match sites {
        Some(name) => name == out || is_read_only(name, files),
        None => false,
    }
}

fn build<'a>(alloc: Global, matches: &ArgMatches<'a>) -> Result<Option<Command<'a>>, AllocError>
    ensures { IfOk result (λ command. option_map line_of command ≡ build_in (rows_of (found_of matches.now))) }
{
    let files = files(alloc, matches)?;
    let (Some(room), Some(out)) = (room(matches), value(matches, "out")) else {
        return Ok(None);
    };
    let sites = value(matches, "sites");
    if do_clash(out, sites, files.as_slice()) {
        return Ok(None);
    }
    Ok(Some(Command::Build(Build {
        room,
        contracts: contracts(matches),
        detail: detail(matches),
        out,
        sites,
        files,
    })))
}

fn check<'a>(alloc: Global, matches: &ArgMatches<'a>) -> Result<Option<Command<'a>>, AllocError>
    ensures { IfOk result (λ command. option_map line_of command ≡ Some (check_in (rows_of (found_of matches.now)))) }
{
    let files = files(alloc, matches)?;
    Ok(Some(Command::Check(Check {
        contracts: contracts(matches),
        extent: extent(matches),
        detail: detail(matches),
        files,
    })))
}

fn exec<'a>(matches: &ArgMatches<'a>) -> Option<Command<'a>>
    ensures { option_map line_of result ≡ exec_in (rows_of (found_of matches.now)) }
{
    let fuel = fuel(matches)?;
    let pages = pages(matches)?;
    let module = value(matches, "module")?;
    // The module itself reads standard input.
    if module == INPUT {
        return None;
    }
    Some(Command::Exec(Exec {
        fuel,
        pages,
        stats: stats(matches),
        detail: detail(matches),
        module,
    }))
}

/// How many classes the generated program is to have, if the number is in its range.
fn classes(matches: &ArgMatches<'_>) -> Option<u32>
    ensures { result ≡ classes_in (rows_of (found_of matches.now)) }
{
    let classes = number_in(value(matches, "classes")?, 1, MOST_CLASSES)?;
    Some(classes as u32)
}

fn generate<'a>(matches: &ArgMatches<'_>) -> Option<Command<'a>>
    ensures { option_map line_of result ≡ option_map Gen (classes_in (rows_of (found_of matches.now))) }
{
    Some(Command::Gen(classes(matches)?))
}

fn selftest<'a>(matches: &ArgMatches<'_>) -> Option<Command<'a>>
    ensures { option_map line_of result ≡ option_map Selftest (classes_in (rows_of (found_of matches.now))) }
{
    Some(Command::Selftest(classes(matches)?))
}

fn listing<'a>(matches: &ArgMatches<'a>) -> Option<Command<'a>>
    ensures { option_map line_of result ≡ listing_in (rows_of (found_of matches.now)) }
{
    let module = value(matches, "module")?;
    Some(Command::Listing(Listing { module }))
}

fn assemble<'a>(matches: &ArgMatches<'a>) -> Option<Command<'a>>
    ensures { option_map line_of result ≡ assemble_in (rows_of (found_of matches.now)) }
{
    let out = value(matches, "out")?;
    let file = value(matches, "file")?;
    if out == file || out == INPUT {
        return None;
    }
    Some(Command::Assemble(Assemble { out, file }))
}

/// The form that is asked for, if it is one alone.
fn form(matches: &ArgMatches<'_>) -> Option<DumpForm>
    ensures { result ≡ form_in (rows_of (found_of matches.now)) }
{
    let asked = (
        is_given(matches, "ast"),
        is_given(matches, "typed"),
        is_given(matches, "cfg"),
        is_given(matches, "regions"),
    );
    match asked {
        (true, false, false, false) => Some(DumpForm::Ast),
        (false, true, false, false) => Some(DumpForm::Typed),
        (false, false, true, false) => Some(DumpForm::Cfg),
        (false, false, false, true) => Some(DumpForm::Regions),
        _ => None,
    }
}

fn dump<'a>(alloc: Global, matches: &ArgMatches<'a>) -> Result<Option<Command<'a>>, AllocError>
    ensures { IfOk result (λ command. option_map line_of command ≡ dump_in (rows_of (found_of matches.now))) }
{
    let files = files(alloc, matches)?;
    let Some(form) = form(matches) else {
        return Ok(None);
    };
    Ok(Some(Command::Dump(Dump {
        form,
        contracts: contracts(matches),
        all: is_given(matches, "all"),
        detail: detail(matches),
        files,
    })))
}

/// The command with this name and these matches, or none where they don't make one.
pub(crate) fn named<'a>(
    alloc: Global,
    name: &str,
    matches: &ArgMatches<'a>,
) -> Result<Option<Command<'a>>, AllocError>
    ensures { IfOk result (λ command. option_map line_of command ≡ named_line name.now (rows_of (found_of matches.now))) }
{
    match name {
        "run" => run(alloc, matches),
        "build" => build(alloc, matches),
        "check" => check(alloc, matches),
        "exec" => Ok(exec(matches)),
        "gen" => Ok(generate(matches)),
        "selftest" => Ok(selftest(matches)),
        "listing" => Ok(listing(matches)),
        "assemble" => Ok(assemble(matches)),
        "dump" => dump(alloc, matches),
        _ => Ok(printing_command(name, matches)),
    }
}
