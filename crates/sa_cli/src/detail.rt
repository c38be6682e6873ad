//! How much detail arguments ask for in the report of why they ended.

ghost use Rattle.std.specs.Prelude.{◌≡◌, map, string_bytes};
ghost use Rattle.sa_cli.specs.Line.{detail_of, detail_without_command, line_of};

use crate::command::{Command, Detail};
use crate::help::asks_reason;

/// How much detail a command asks for in the report of why it ended.
pub fn detail_of(command: &Command<'_>) -> Detail
    ensures { result ≡ detail_of (line_of command.now) }
{
    match command {
        Command::Run(line) => line.detail,
        Command::Build(line) => line.detail,
        Command::Check(line) => line.detail,
        Command::Exec(line) => line.detail,
        Command::Dump(line) => line.detail,
        _ => Detail::Brief,
    }
}

/// The same of arguments that aren't a command: they ask for the reason where they begin with the name of one and have `--explain` before
/// the first `--`.
pub fn detail_without_command(words: &[String]) -> Detail
    ensures { result ≡ detail_without_command (map string_bytes words.now) }
{
    if asks_reason(words) {
        Detail::Explained
    } else {
        Detail::Brief
    }
}
