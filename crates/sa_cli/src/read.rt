//! From arguments to a command.

ghost use Rattle.std.specs.Prelude.{◌≡◌, ◌≢◌, [], None, Some, IfOk, IsErrOf, map, string_bytes};
ghost use Rattle.clap.specs.Words.{subcommand_of, subcommand_rows_of};
ghost use Rattle.clap.specs.Faults.{fault_of};
ghost use Rattle.sa_cli.specs.Line.{line_in, line_of, plain_line_in};
ghost use Rattle.sa_cli.specs.Program as line;

use crate::command::Command;
use crate::fault::ArgsError;
use crate::help::{asked_topic, asks_help, asks_version};
use crate::program::program;
use crate::subcommand::named;
use clap::ArgMatches;
use clap::error::ErrorKind;
use std::alloc::Global;

/// The greatest number of arguments that are accepted.
pub(crate) const MOST_WORDS: usize = 65_535;

/// Parses the arguments of a command line, without the program's name, into the command that they ask for.
///
/// # Errors
///
/// `Usage` where they aren't a command: help is asked for no command, or there are more than 65,535 arguments, or ones that `clap` finds a
/// fault in, or a number is out of its range, or the file that is written is one that is read; and `NoMemory`.
pub fn command_of<'a>(alloc: Global, words: &'a [String]) -> Result<Command<'a>, ArgsError>
    ensures taken { IfOk result (λ command. line_in (map string_bytes words.now) ≡ Some (line_of command)) }
    ensures usage { IsErrOf result ArgsError.Usage → line_in (map string_bytes words.now) ≡ None }
{
    if asks_help(words) {
        let topic = asked_topic(words).ok_or(ArgsError::Usage)?;
        return Ok(Command::Help(topic));
    }
    if asks_version(words) {
        return Ok(Command::Version);
    }
    plain_command_of(alloc, words)
}

/// The command that `clap` parses the arguments into.
fn plain_command_of<'a>(alloc: Global, words: &'a [String]) -> Result<Command<'a>, ArgsError>
    ensures taken { IfOk result (λ command. plain_line_in (map string_bytes words.now) ≡ Some (line_of command)) }
    ensures usage { IsErrOf result ArgsError.Usage → plain_line_in (map string_bytes words.now) ≡ None }
{
    if words.len() > MOST_WORDS {
        return Err(ArgsError::Usage);
    }
    let matches = matches(alloc, words)?;
    let Some((name, matches)) = matches.subcommand() else {
        return Err(ArgsError::Usage);
    };
    named(alloc, name, matches)?.ok_or(ArgsError::Usage)
}

/// The matches that `clap` parses the arguments into.
fn matches<'a>(alloc: Global, words: &'a [String]) -> Result<ArgMatches<'a>, ArgsError>
    ensures free { IfOk result (λ m. fault_of line.program (map string_bytes words.now) ≡ []) }
    ensures subcommand { IfOk result (λ m. subcommand_rows_of m ≡ subcommand_of line.program (map string_bytes words.now)) }
    ensures usage { IsErrOf result ArgsError.Usage → fault_of line.program (map string_bytes words.now) ≢ [] }
{
    match program(alloc)?.try_get_matches_from(words) {
        Ok(matches) => Ok(matches),
        Err(error) => Err(fault(error.kind())),
    }
}

/// The fault for a kind of error of `clap`. What `clap` takes for a request of help, such as `-hx`, is a usage error too.
fn fault(kind: ErrorKind) -> ArgsError
    ensures { result ≡ ArgsError.Usage → kind ≢ ErrorKind.OutOfMemory }
{
    match kind {
        ErrorKind::OutOfMemory => ArgsError::NoMemory,
        _ => ArgsError::Usage,
    }
}
