//! What is wrong with arguments that begin with the name of a command and aren't one.
//!
//! Where `clap` refuses them, the argument at fault is taken from the text of its error. Where it accepts them, the rules by which a
//! command is made from its matches say what is wrong.

use crate::program::program;
use crate::read::MOST_WORDS;
use crate::subcommand::{
    INPUT, LEAST_ROOM, MOST_FUEL, MOST_PAGES, MOST_ROOM, fuel, is_among, is_read_only, pages, room,
    value, values,
};
use clap::error::ErrorKind;
use clap::{Arg, ArgMatches, Command, Error};
use std::alloc::{AllocError, Global};

/// What is wrong with arguments that begin with the name of a command and aren't one.
#[derive(Debug, Drop)]
pub enum Mistake<'a> {
    /// There are more arguments than this number, which is the greatest that is accepted.
    TooMany(usize),
    /// An option that the command hasn't got: with one of its own that is spelled nearly so, and the commands that have it.
    UnknownOption {
        option: String,
        near: Option<String>,
        owners: Vec<&'static str>,
    },
    /// An argument after all that the command takes.
    ExtraArgument(String),
    /// An option without a value that was given one.
    Valued(String),
    /// An option that was given no value.
    Unvalued(String),
    /// An option that was given twice.
    Repeated(String),
    /// The command lacks something that it needs.
    Missing(Needs),
    /// The value of an option isn't a number of its range.
    OutOfRange {
        option: &'static str,
        text: &'a str,
        least: u64,
        most: u64,
    },
    /// Standard input is named as the file that is run.
    InputIsRun,
    /// Standard input is named as a file that is written.
    InputIsWritten,
    /// This file would be read and written.
    ReadAndWritten(&'a str),
    /// This file would be written twice.
    WrittenTwice(&'a str),
    /// Of the forms of a program none is asked for, or more than one.
    NotOneForm,
    /// Something else.
    Other,
}

/// What a command needs and lacks.
#[derive(Clone, Copy, Debug, PartialEq, Eq)]
pub struct Needs {
    /// The name of the file that is written.
    pub out: bool,
    /// Its other argument.
    pub word: bool,
}

/// What is wrong with arguments that aren't a command.
///
/// # Errors
///
/// `AllocError` where memory runs out.
pub fn mistake_in<'a>(alloc: Global, words: &'a [String]) -> Result<Mistake<'a>, AllocError> {
    if words.len() > MOST_WORDS {
        return Ok(Mistake::TooMany(MOST_WORDS));
    }
    match program(alloc)?.try_get_matches_from(words) {
        Ok(matches) => Ok(in_matches(&matches)),
        Err(error) => in_words(alloc, &error),
    }
}

/// What is wrong with arguments that `clap` accepts.
fn in_matches<'a>(matches: &ArgMatches<'a>) -> Mistake<'a> {
    let Some((name, matches)) = matches.subcommand() else {
        return Mistake::Other;
    };
    if let Some(mistake) = in_numbers(matches) {
        return mistake;
    }
    let files = values(matches, "file").unwrap_or(&[]);
    match name {
        "run" if is_among(INPUT, files) => Mistake::InputIsRun,
        "exec" if value(matches, "module") == Some(INPUT) => Mistake::InputIsRun,
        "dump" => Mistake::NotOneForm,
        "build" => in_names(value(matches, "out"), value(matches, "sites"), files),
        _ => Mistake::Other,
    }
}

/// The first number that is out of its range.
fn in_numbers<'a>(matches: &ArgMatches<'a>) -> Option<Mistake<'a>> {
    if fuel(matches).is_none() {
        return out_of_range(matches, "fuel", 0, MOST_FUEL);
    }
    if room(matches).is_none() {
        return out_of_range(matches, "room", LEAST_ROOM, MOST_ROOM);
    }
    if pages(matches).is_none() {
        return out_of_range(matches, "pages", 0, MOST_PAGES);
    }
    None
}

fn out_of_range<'a>(
    matches: &ArgMatches<'a>,
    option: &'static str,
    least: u64,
    most: u64,
) -> Option<Mistake<'a>> {
    Some(Mistake::OutOfRange {
        option,
        text: value(matches, option)?,
        least,
        most,
    })
}

/// What is wrong with the names of files that are written, given those that are read.
fn in_names<'a>(out: Option<&'a str>, sites: Option<&'a str>, files: &[&'a str]) -> Mistake<'a> {
    for name in [out, sites] {
        if let Some(name) = name
            && is_read_only(name, files)
        {
            return if name == INPUT {
                Mistake::InputIsWritten
            } else {
                Mistake::ReadAndWritten(name)
            };
        }
    }
    match out {
        Some(name) if sites == Some(name) => Mistake::WrittenTwice(name),
        _ => Mistake::Other,
    }
}

/// What is wrong with arguments that `clap` refuses.
fn in_words<'a>(alloc: Global, error: &Error) -> Result<Mistake<'a>, AllocError> {
    let text = format!(in alloc; "{error}")?;
    let text = text.as_str();
    match error.kind() {
        ErrorKind::UnknownArgument => unknown(alloc, text),
        ErrorKind::MissingRequiredArgument => Ok(missing(text)),
        kind => about_option(alloc, kind, text),
    }
}

/// What is wrong with an option that the command has.
fn about_option<'a>(alloc: Global, kind: ErrorKind, text: &str) -> Result<Mistake<'a>, AllocError> {
    let front = match kind {
        ErrorKind::TooManyValues => "' for '",
        ErrorKind::InvalidValue => "is required for '",
        ErrorKind::ArgumentConflict => "the argument '",
        _ => return Ok(Mistake::Other),
    };
    let Some(option) = between(text, front, "'") else {
        return Ok(Mistake::Other);
    };
    let option = String::from_str(alloc, without_value(option))?;
    Ok(match kind {
        ErrorKind::TooManyValues => Mistake::Valued(option),
        ErrorKind::InvalidValue => Mistake::Unvalued(option),
        _ => Mistake::Repeated(option),
    })
}

/// An option without the name of its value.
fn without_value(option: &str) -> &str {
    match option.split_once(' ') {
        Some((name, _)) => name,
        None => option,
    }
}

/// The part of a text between two others.
fn between<'t>(text: &'t str, front: &str, back: &str) -> Option<&'t str> {
    let (_, rest) = text.split_once(front)?;
    let (part, _) = rest.split_once(back)?;
    Some(part)
}

/// An argument that the command doesn't take.
fn unknown<'a>(alloc: Global, text: &str) -> Result<Mistake<'a>, AllocError> {
    let Some(word) = between(text, "unexpected argument '", "' found") else {
        return Ok(Mistake::Other);
    };
    let option = String::from_str(alloc, word)?;
    if !word.starts_with('-') {
        return Ok(Mistake::ExtraArgument(option));
    }
    let near = match between(text, "a similar argument exists: '", "'") {
        Some(near) => Some(String::from_str(alloc, near)?),
        None => None,
    };
    Ok(Mistake::UnknownOption {
        option,
        near,
        owners: owners(alloc, word)?,
    })
}

/// The commands that have an option.
fn owners(alloc: Global, option: &str) -> Result<Vec<&'static str>, AllocError> {
    let mut owners = Vec::new(alloc);
    let program = program(alloc)?;
    for command in program.get_subcommands() {
        if has_option(command, option) {
            owners.push(command.get_name())?;
        }
    }
    Ok(owners)
}

fn has_option(command: &Command<'_>, option: &str) -> bool {
    command
        .get_arguments()
        .iter()
        .any(|arg| is_option(arg, option))
}

/// Whether an option has this spelling. Only `-o` has a short form of one letter.
fn is_option(arg: &Arg<'_>, option: &str) -> bool {
    match arg.get_long() {
        Some(long) => option.strip_prefix("--") == Some(long),
        None => arg.get_short() == Some('o') && option == "-o",
    }
}

/// What is lacking, by the list before the first empty line.
fn missing<'a>(text: &str) -> Mistake<'a> {
    let list = match text.split_once("\n\n") {
        Some((list, _)) => list,
        None => text,
    };
    let out = list.split_once("\n  -o").is_some();
    let word = list.split_once("\n  <").is_some();
    Mistake::Missing(Needs { out, word })
}
