//! Arguments that ask for help, for the version, or for the reason why they aren't a command.

ghost use Rattle.std.specs.Prelude.{◌≡◌, map, string_bytes};
ghost use Rattle.sa_cli.specs.Help.{asked_topic, asks_explanation, asks_help, asks_reason, asks_version, begins_with_command};
ghost use Rattle.sa_cli.specs.Help.{ends_options, is_explain, is_help, printing_topic, topic_named};

use crate::command::Topic;

/// Whether help is asked for by an option: by `--help` or `-h` before the first `--`.
pub(crate) fn asks_help(words: &[String]) -> bool
    ensures { result ≡ asks_help (map string_bytes words.now) }
{
    match words.iter().find(|word| { is_help(word.as_str()) || ends_options(word.as_str()) }) {
        Some(word) => is_help(word.as_str()),
        None => false,
    }
}

/// Whether an argument asks for help, in any position.
fn is_help(word: &str) -> bool
    ensures { result ≡ is_help word.now }
{
    word == "--help" || word == "-h"
}

/// Whether all arguments after this one are names.
fn ends_options(word: &str) -> bool
    ensures { result ≡ ends_options word.now }
{
    word == "--"
}

/// The topic of help that an option asks for: the command that the arguments begin with, if it is one, or all commands.
pub(crate) fn asked_topic(words: &[String]) -> Option<Topic>
    ensures { result ≡ asked_topic (map string_bytes words.now) }
{
    let first = words.first()?;
    if is_help(first.as_str()) {
        return Some(Topic::All);
    }
    topic_named(first.as_str())
}

/// The command with this name, or none.
pub fn topic_named(name: &str) -> Option<Topic>
    ensures { result ≡ topic_named name.now }
{
    match name {
        "run" => Some(Topic::Run),
        "build" => Some(Topic::Build),
        "check" => Some(Topic::Check),
        "exec" => Some(Topic::Exec),
        "gen" => Some(Topic::Gen),
        "selftest" => Some(Topic::Selftest),
        "listing" => Some(Topic::Listing),
        "assemble" => Some(Topic::Assemble),
        "dump" => Some(Topic::Dump),
        _ => telling_topic(name),
    }
}

/// The command with this name, if it is one that prints a text.
fn telling_topic(name: &str) -> Option<Topic>
    ensures { result ≡ printing_topic name.now }
{
    match name {
        "help" => Some(Topic::Help),
        "version" => Some(Topic::Version),
        "explain" => Some(Topic::Explain),
        "lib" => Some(Topic::Library),
        _ => None,
    }
}

/// Whether the version is asked for by an option, which must be the only argument.
pub(crate) fn asks_version(words: &[String]) -> bool
    ensures { result ≡ asks_version (map string_bytes words.now) }
{
    match words {
        [word] => word.as_str() == "--version" || word.as_str() == "-V",
        _ => false,
    }
}

/// Whether arguments that aren't a command ask for the reason: they begin with the name of one, and ask for an explanation.
pub(crate) fn asks_reason(words: &[String]) -> bool
    ensures { result ≡ asks_reason (map string_bytes words.now) }
{
    begins_with_command(words) && asks_explanation(words)
}

/// Whether the arguments begin with the name of a command.
fn begins_with_command(words: &[String]) -> bool
    ensures { result ≡ begins_with_command (map string_bytes words.now) }
{
    match words.first() {
        Some(word) => topic_named(word.as_str()).is_some(),
        None => false,
    }
}

/// Whether an explanation is asked for: by `--explain` before the first `--`.
fn asks_explanation(words: &[String]) -> bool
    ensures { result ≡ asks_explanation (map string_bytes words.now) }
{
    match words.iter().find(|word| { is_explain(word.as_str()) || ends_options(word.as_str()) }) {
        Some(word) => is_explain(word.as_str()),
        None => false,
    }
}

/// Whether an argument asks for an explanation, in any position.
fn is_explain(word: &str) -> bool
    ensures { result ≡ is_explain word.now }
{
    word == "--explain"
}
