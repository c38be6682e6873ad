//! The program's command line, described to `clap`.

ghost use Rattle.std.specs.Prelude.{◌≡◌, IfOk, false};
ghost use Rattle.clap.specs.Words.{app_of, rule_of};
ghost use Rattle.clap.specs.declared.builder.command.Command.TheViews.{out-Command};
ghost use Rattle.sa_cli.specs.Program as line;

use clap::{Arg, ArgAction, Command};
use std::alloc::{AllocError, Global};

/// An option with a value.
fn option<'a>(alloc: Global, name: &'a str) -> Arg<'a>
    ensures rule { rule_of result ≡ line.option name.entry.now }
    ensures own { result.global ≡ false }
{
    Arg::new(alloc, name).long(name)
}

/// An option without a value.
fn flag<'a>(alloc: Global, name: &'a str) -> Arg<'a>
    ensures rule { rule_of result ≡ line.flag name.entry.now }
    ensures own { result.global ≡ false }
{
    Arg::new(alloc, name).long(name).action(ArgAction::SetTrue)
}

/// The file that is written.
fn out<'a>(alloc: Global) -> Arg<'a>
    ensures rule { rule_of result ≡ line.out }
    ensures own { result.global ≡ false }
{
    Arg::new(alloc, "out").short('o').required(true)
}

/// One or more files that are read.
fn files<'a>(alloc: Global) -> Arg<'a>
    ensures rule { rule_of result ≡ line.files }
    ensures own { result.global ≡ false }
{
    Arg::new(alloc, "file")
        .action(ArgAction::Append)
        .required(true)
}

/// The file of a module.
fn module_file<'a>(alloc: Global) -> Arg<'a>
    ensures rule { rule_of result ≡ line.module_file }
    ensures own { result.global ≡ false }
{
    Arg::new(alloc, "module").required(true)
}

/// The file of a listing.
fn listing_file<'a>(alloc: Global) -> Arg<'a>
    ensures rule { rule_of result ≡ line.listing_file }
    ensures own { result.global ≡ false }
{
    Arg::new(alloc, "file").required(true)
}

/// The command that help is about.
fn topic<'a>(alloc: Global) -> Arg<'a>
    ensures rule { rule_of result ≡ line.topic }
    ensures own { result.global ≡ false }
{
    Arg::new(alloc, "command")
}

/// The word that is explained.
fn word<'a>(alloc: Global) -> Arg<'a>
    ensures rule { rule_of result ≡ line.word }
    ensures own { result.global ≡ false }
{
    Arg::new(alloc, "word").required(true)
}

/// The name of a file of the library.
fn library_name<'a>(alloc: Global) -> Arg<'a>
    ensures rule { rule_of result ≡ line.library_name }
    ensures own { result.global ≡ false }
{
    Arg::new(alloc, "name")
}

/// How many classes a generated program has.
fn classes<'a>(alloc: Global) -> Arg<'a>
    ensures rule { rule_of result ≡ line.classes }
    ensures own { result.global ≡ false }
{
    Arg::new(alloc, "classes").required(true)
}

/// The options of a command that runs a module: `[--fuel N] [--stats]`
fn running<'a>(alloc: Global, command: Command<'a>) -> Result<Command<'a>, AllocError>
    requires own { (out-Command command).has_globals ≡ false }
    ensures { IfOk result (λ c. (app_of c ≡ line.running (app_of command.entry)) × ((out-Command c).has_globals ≡ false)) }
{
    command
        .arg(option(alloc, "fuel"))?
        .arg(flag(alloc, "stats"))
}

/// The options of a command that compiles a program: `[--room KIB] [--contracts]`
fn compiling<'a>(alloc: Global, command: Command<'a>) -> Result<Command<'a>, AllocError>
    requires own { (out-Command command).has_globals ≡ false }
    ensures { IfOk result (λ c. (app_of c ≡ line.compiling (app_of command.entry)) × ((out-Command c).has_globals ≡ false)) }
{
    command
        .arg(option(alloc, "room"))?
        .arg(flag(alloc, "contracts"))
}

/// The option of a command that explains the cause of its end: `[--explain]`
fn explaining<'a>(alloc: Global, command: Command<'a>) -> Result<Command<'a>, AllocError>
    requires own { (out-Command command).has_globals ≡ false }
    ensures { IfOk result (λ c. (app_of c ≡ line.explaining (app_of command.entry)) × ((out-Command c).has_globals ≡ false)) }
{
    command.arg(flag(alloc, "explain"))
}

/// `run [--fuel N] [--stats] [--room KIB] [--contracts] [--trace] [--explain] FILE..`
fn run<'a>(alloc: Global) -> Result<Command<'a>, AllocError>
    ensures { IfOk result (λ c. (app_of c ≡ line.run) × ((out-Command c).has_globals ≡ false)) }
{
    explaining(
        alloc,
        compiling(alloc, running(alloc, Command::new(alloc, "run"))?)?,
    )?
    .arg(flag(alloc, "trace"))?
    .arg(files(alloc))
}

/// `build [--room KIB] [--contracts] [--explain] [--sites FILE] -o OUT FILE..`
fn build<'a>(alloc: Global) -> Result<Command<'a>, AllocError>
    ensures { IfOk result (λ c. (app_of c ≡ line.build) × ((out-Command c).has_globals ≡ false)) }
{
    explaining(alloc, compiling(alloc, Command::new(alloc, "build"))?)?
        .arg(option(alloc, "sites"))?
        .arg(out(alloc))?
        .arg(files(alloc))
}

/// `check [--contracts] [--all] [--explain] FILE..`
fn check<'a>(alloc: Global) -> Result<Command<'a>, AllocError>
    ensures { IfOk result (λ c. (app_of c ≡ line.check) × ((out-Command c).has_globals ≡ false)) }
{
    explaining(alloc, Command::new(alloc, "check"))?
        .arg(flag(alloc, "contracts"))?
        .arg(flag(alloc, "all"))?
        .arg(files(alloc))
}

/// `exec [--fuel N] [--stats] [--explain] [--pages N] MODULE`
fn exec<'a>(alloc: Global) -> Result<Command<'a>, AllocError>
    ensures { IfOk result (λ c. (app_of c ≡ line.exec) × ((out-Command c).has_globals ≡ false)) }
{
    explaining(alloc, running(alloc, Command::new(alloc, "exec"))?)?
        .arg(option(alloc, "pages"))?
        .arg(module_file(alloc))
}

/// `gen N`
fn generate<'a>(alloc: Global) -> Result<Command<'a>, AllocError>
    ensures { IfOk result (λ c. (app_of c ≡ line.gen) × ((out-Command c).has_globals ≡ false)) }
{
    Command::new(alloc, "gen").arg(classes(alloc))
}

/// `selftest N`
fn selftest<'a>(alloc: Global) -> Result<Command<'a>, AllocError>
    ensures { IfOk result (λ c. (app_of c ≡ line.selftest) × ((out-Command c).has_globals ≡ false)) }
{
    Command::new(alloc, "selftest").arg(classes(alloc))
}

/// `listing MODULE`
fn listing<'a>(alloc: Global) -> Result<Command<'a>, AllocError>
    ensures { IfOk result (λ c. (app_of c ≡ line.listing) × ((out-Command c).has_globals ≡ false)) }
{
    Command::new(alloc, "listing").arg(module_file(alloc))
}

/// `assemble -o OUT FILE`
fn assemble<'a>(alloc: Global) -> Result<Command<'a>, AllocError>
    ensures { IfOk result (λ c. (app_of c ≡ line.assemble) × ((out-Command c).has_globals ≡ false)) }
{
    Command::new(alloc, "assemble")
        .arg(out(alloc))?
        .arg(listing_file(alloc))
}

/// The options of which `dump` takes one: `--ast|--typed|--cfg|--regions`
fn forms<'a>(alloc: Global, command: Command<'a>) -> Result<Command<'a>, AllocError>
    requires own { (out-Command command).has_globals ≡ false }
    ensures { IfOk result (λ c. (app_of c ≡ line.forms (app_of command.entry)) × ((out-Command c).has_globals ≡ false)) }
{
    command
        .arg(flag(alloc, "ast"))?
        .arg(flag(alloc, "typed"))?
        .arg(flag(alloc, "cfg"))?
        .arg(flag(alloc, "regions"))
}

/// `dump --ast|--typed|--cfg|--regions [--contracts] [--all] [--explain] FILE..`
fn dump<'a>(alloc: Global) -> Result<Command<'a>, AllocError>
    ensures { IfOk result (λ c. (app_of c ≡ line.dump) × ((out-Command c).has_globals ≡ false)) }
{
    explaining(alloc, forms(alloc, Command::new(alloc, "dump"))?)?
        .arg(flag(alloc, "contracts"))?
        .arg(flag(alloc, "all"))?
        .arg(files(alloc))
}

/// `help [COMMAND]`
fn help<'a>(alloc: Global) -> Result<Command<'a>, AllocError>
    ensures { IfOk result (λ c. (app_of c ≡ line.help) × ((out-Command c).has_globals ≡ false)) }
{
    Command::new(alloc, "help").arg(topic(alloc))
}

/// `version`
fn version<'a>(alloc: Global) -> Command<'a>
    ensures app { app_of result ≡ line.version }
    ensures own { (out-Command result).has_globals ≡ false }
{
    Command::new(alloc, "version")
}

/// `explain WORD`
fn explain<'a>(alloc: Global) -> Result<Command<'a>, AllocError>
    ensures { IfOk result (λ c. (app_of c ≡ line.explain) × ((out-Command c).has_globals ≡ false)) }
{
    Command::new(alloc, "explain").arg(word(alloc))
}

/// `lib [NAME]`
fn library<'a>(alloc: Global) -> Result<Command<'a>, AllocError>
    ensures { IfOk result (λ c. (app_of c ≡ line.library) × ((out-Command c).has_globals ≡ false)) }
{
    Command::new(alloc, "lib").arg(library_name(alloc))
}

/// A command with the program's name and no arguments of its own, which needs a subcommand.
fn sather<'a>(alloc: Global) -> Command<'a>
    ensures app { app_of result ≡ line.sather }
    ensures own { (out-Command result).has_globals ≡ false }
{
    Command::new(alloc, "sather")
        .no_binary_name(true)
        .disable_help_subcommand(true)
        .subcommand_required(true)
}

/// The commands that do something with programs and modules.
fn working<'a>(alloc: Global) -> Result<Command<'a>, AllocError>
    ensures { IfOk result (λ c. app_of c ≡ line.working) }
{
    sather(alloc)
        .subcommand(run(alloc)?)?
        .subcommand(build(alloc)?)?
        .subcommand(check(alloc)?)?
        .subcommand(exec(alloc)?)?
        .subcommand(generate(alloc)?)?
        .subcommand(selftest(alloc)?)?
        .subcommand(listing(alloc)?)?
        .subcommand(assemble(alloc)?)?
        .subcommand(dump(alloc)?)
}

/// The program's command line: these commands, and those that print a text.
pub(crate) fn program<'a>(alloc: Global) -> Result<Command<'a>, AllocError>
    ensures { IfOk result (λ c. app_of c ≡ line.program) }
{
    working(alloc)?
        .subcommand(help(alloc)?)?
        .subcommand(version(alloc))?
        .subcommand(explain(alloc)?)?
        .subcommand(library(alloc)?)
}
