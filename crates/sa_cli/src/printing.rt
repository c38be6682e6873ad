//! From a subcommand that prints a text, with its matches, to a command.

ghost use Rattle.std.specs.Prelude.{◌≡◌, option_map};
ghost use Rattle.clap.specs.Words.{found_of, rows_of};
ghost use Rattle.sa_cli.specs.Line.{explain_in, help_in, line_of, printing_line};

use crate::command::{Command, Topic};
use crate::help::topic_named;
use crate::subcommand::value;
use clap::ArgMatches;

fn help<'a>(matches: &ArgMatches<'a>) -> Option<Command<'a>>
    ensures { option_map line_of result ≡ help_in (rows_of (found_of matches.now)) }
{
    match value(matches, "command") {
        Some(name) => Some(Command::Help(topic_named(name)?)),
        None => Some(Command::Help(Topic::All)),
    }
}

fn explain<'a>(matches: &ArgMatches<'a>) -> Option<Command<'a>>
    ensures { option_map line_of result ≡ explain_in (rows_of (found_of matches.now)) }
{
    Some(Command::Explain(value(matches, "word")?))
}

/// The command with this name and these matches, if it is one that prints a text.
pub(crate) fn printing_command<'a>(name: &str, matches: &ArgMatches<'a>) -> Option<Command<'a>>
    ensures { option_map line_of result ≡ printing_line name.now (rows_of (found_of matches.now)) }
{
    match name {
        "help" => help(matches),
        "version" => Some(Command::Version),
        "explain" => explain(matches),
        "lib" => Some(Command::Library(value(matches, "name"))),
        _ => None,
    }
}
