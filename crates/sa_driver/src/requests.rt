//! What a command line asks to have reported of the cause of its end, which files a store fault can concern, and the bound of a memory.

ghost use Rattle.std.specs.Prelude.{◌≡◌, map, string_bytes};
ghost use Rattle.sa_cli.specs.Line.{detail_of, detail_without_command, line_of};

use sa_cli::{Command, Contracts, Detail, detail_of, detail_without_command};

/// What is to be reported, and of which files.
#[derive(Clone, Copy)]
pub struct Request<'a> {
    pub detail: Detail,
    /// The arguments of the command line.
    pub arguments: &'a [String],
    /// What was done with the contracts of the program, where one was run.
    pub contracts: Contracts,
    /// The name of the file that the command reads, where it reads exactly one and can be asked to explain.
    pub read: Option<&'a str>,
    /// The name of the file that it writes, where it writes exactly one and can be asked to explain.
    pub written: Option<&'a str>,
    /// How many pages the memory of a module may have at most, where the command bounds that.
    pub pages: Option<u32>,
}

impl<'a> Request<'a> {
    /// A request with this detail, for arguments that form no command.
    fn of_detail(words: &'a [String], detail: Detail) -> Request<'a>
        ensures { result.detail ≡ detail }
    {
        Request {
            detail,
            arguments: words,
            contracts: Contracts::Dropped,
            read: None,
            written: None,
            pages: None,
        }
    }

    /// A request for the line of the cause alone.
    pub fn brief(words: &'a [String]) -> Request<'a>
        ensures { result.detail ≡ Detail.Brief }
    {
        Request::of_detail(words, Detail::Brief)
    }

    /// The request of arguments that form no command.
    pub fn of_arguments(words: &'a [String]) -> Request<'a>
        ensures { result.detail ≡ detail_without_command (map string_bytes words.now) }
    {
        Request::of_detail(words, detail_without_command(words))
    }

    /// The request of the arguments that form this command.
    pub fn of_command(words: &'a [String], command: &Command<'a>) -> Request<'a>
        ensures { result.detail ≡ detail_of (line_of command.now) }
    {
        Request {
            detail: detail_of(command),
            arguments: words,
            contracts: contracts_of(command),
            read: read_by(command),
            written: written_by(command),
            pages: pages_of(command),
        }
    }
}

/// What a command does with the contracts of the program that it runs.
fn contracts_of(command: &Command<'_>) -> Contracts {
    match command {
        Command::Run(line) => line.contracts,
        _ => Contracts::Dropped,
    }
}

/// The file that a command reads, where it reads exactly one and can be asked to explain.
fn read_by<'a>(command: &Command<'a>) -> Option<&'a str> {
    match command {
        Command::Run(line) => only(line.files.as_slice()),
        Command::Build(line) => only(line.files.as_slice()),
        Command::Check(line) => only(line.files.as_slice()),
        Command::Dump(line) => only(line.files.as_slice()),
        Command::Exec(line) => Some(line.module),
        _ => None,
    }
}

/// The file that a command writes, where it writes exactly one and can be asked to explain.
fn written_by<'a>(command: &Command<'a>) -> Option<&'a str> {
    match command {
        Command::Build(line) => match line.sites {
            Some(_) => None,
            None => Some(line.out),
        },
        _ => None,
    }
}

/// How many pages the memory of a module may have at most, where a command bounds that.
fn pages_of(command: &Command<'_>) -> Option<u32> {
    match command {
        Command::Exec(line) => line.pages,
        _ => None,
    }
}

/// The name of a file, if it is the only one.
fn only<'a>(files: &[&'a str]) -> Option<&'a str> {
    match files {
        [file] => Some(*file),
        _ => None,
    }
}
