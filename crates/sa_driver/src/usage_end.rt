//! The explanation for arguments that begin with the name of a command and form none.

use failure::Failure;
use sa_cli::{Mistake, Needs, help_text, mistake_in, topic_named};
use sa_diagnostics::{MessagePart, Sentences};
use std::alloc::{AllocError, Global};

/// Explains what is wrong with arguments that form no command, and what to type.
pub fn usage_end(alloc: Global, words: &[String]) -> Result<Vec<u8>, Failure> {
    let mut said = Sentences::new(alloc);
    if let Some(name) = words.first() {
        let name = name.as_str();
        say_mistake(alloc, name, &mistake_in(alloc, words)?, &mut said)?;
        say_form(name, &mut said)?;
    }
    Ok(said.text)
}

/// A sentence on what is wrong.
fn say_mistake(
    alloc: Global,
    command: &str,
    mistake: &Mistake<'_>,
    said: &mut Sentences,
) -> Result<(), AllocError> {
    match mistake {
        Mistake::TooMany(most) => said.say(&[
            MessagePart::Words("These are more than "),
            MessagePart::Number(*most),
            MessagePart::Words(" words."),
        ]),
        Mistake::UnknownOption {
            option,
            near,
            owners,
        } => {
            unknown_option(alloc, command, option.as_str(), owners.as_slice(), said)?;
            if owners.is_empty() {
                did_you_mean(near, said)?;
            }
            behind_one_dash(option.as_bytes(), said)
        }
        Mistake::ExtraArgument(word) => about(
            word.as_str(),
            " is a word more than ",
            command,
            " takes.",
            said,
        ),
        Mistake::Valued(option) => about_option(option, " takes no value.", said),
        Mistake::Unvalued(option) => about_option(
            option,
            " wants a value behind it, which doesn't begin with a dash.",
            said,
        ),
        Mistake::Repeated(option) => about_option(option, " is given twice.", said),
        Mistake::Missing(needs) => missing(command, *needs, said),
        Mistake::OutOfRange {
            option,
            text,
            least,
            most,
        } => said.say(&[
            MessagePart::Words("`--"),
            MessagePart::Words(*option),
            MessagePart::Words("` takes a number from "),
            MessagePart::Number(*least as usize),
            MessagePart::Words(" to "),
            MessagePart::Number(*most as usize),
            MessagePart::Words(", in decimal digits alone, and "),
            MessagePart::Code(text.as_bytes()),
            MessagePart::Words(" is none."),
        ]),
        _ => about_files(command, mistake, said),
    }
}

/// A sentence on what is wrong with the names of files.
fn about_files(
    command: &str,
    mistake: &Mistake<'_>,
    said: &mut Sentences,
) -> Result<(), AllocError> {
    match mistake {
        Mistake::InputIsRun => {
            about(
                "-",
                " is the input, which belongs to what ",
                command,
                " runs.",
                said,
            )?;
            said.say_words("Name a file; one that is called so is `./-`.")
        }
        Mistake::InputIsWritten => said.say_words(
            "`-` is the input, so nothing is written under this name; a file that is called so is `./-`.",
        ),
        Mistake::ReadAndWritten(name) => {
            said.say(&[
                MessagePart::Code(name.as_bytes()),
                MessagePart::Words(" is read, so that nothing is written over it."),
            ])?;
            said.say_words("Write to another file.")
        }
        Mistake::WrittenTwice(name) => {
            said.say(&[
                MessagePart::Words("The module and its sites would both be written to "),
                MessagePart::Code(name.as_bytes()),
                MessagePart::Words("."),
            ])?;
            said.say_words("Write the sites to a file of their own.")
        }
        Mistake::NotOneForm => said.say_words(
            "One of `--ast`, `--typed`, `--cfg` and `--regions` is wanted, and no second one.",
        ),
        _ => said.say(&[
            MessagePart::Words("The words behind "),
            MessagePart::Code(command.as_bytes()),
            MessagePart::Words(" are none that it takes."),
        ]),
    }
}

/// A sentence about an argument and a command.
fn about<'a>(
    word: &'a str,
    is: &'a str,
    command: &'a str,
    end: &'a str,
    said: &mut Sentences,
) -> Result<(), AllocError> {
    said.say(&[
        MessagePart::Code(word.as_bytes()),
        MessagePart::Words(is),
        MessagePart::Code(command.as_bytes()),
        MessagePart::Words(end),
    ])
}

/// A sentence about an option.
fn about_option<'a>(
    option: &'a String,
    is: &'a str,
    said: &mut Sentences,
) -> Result<(), AllocError> {
    said.say(&[MessagePart::Code(option.as_bytes()), MessagePart::Words(is)])
}

/// A sentence on an option that this command doesn't have, and which commands have it.
fn unknown_option<'a>(
    alloc: Global,
    command: &'a str,
    option: &'a str,
    owners: &'a [&'a str],
    said: &mut Sentences,
) -> Result<(), AllocError> {
    let mut parts = Vec::new(alloc);
    parts.push(MessagePart::Code(command.as_bytes()))?;
    parts.push(MessagePart::Words(" has no option "))?;
    parts.push(MessagePart::Code(option.as_bytes()))?;
    let mut before = ", which belongs to ";
    for (at, owner) in owners.iter().enumerate() {
        parts.push(MessagePart::Words(before))?;
        parts.push(MessagePart::Code(owner.as_bytes()))?;
        before = if at.saturating_add(2) == owners.len() {
            " and "
        } else {
            ", "
        };
    }
    parts.push(MessagePart::Words("."))?;
    said.say(parts.as_slice())
}

/// A sentence on the option that is nearly the one that was given, where there is one.
fn did_you_mean(near: &Option<String>, said: &mut Sentences) -> Result<(), AllocError> {
    match near {
        Some(option) => said.say(&[
            MessagePart::Words("Did you mean "),
            MessagePart::Code(option.as_bytes()),
            MessagePart::Words("?"),
        ]),
        None => Ok(()),
    }
}

/// A sentence on what may have been meant by an argument that begins with one dash and is no option.
fn behind_one_dash(option: &[u8], said: &mut Sentences) -> Result<(), AllocError> {
    match option {
        [b'-', b'-', ..] | [b'-', b'o'] => Ok(()),
        [b'-', b'0'..=b'9'] => said.say_words("A number has no sign."),
        _ => said.say_words(
            "If it is a file whose name begins with a dash, write `./` in front of it.",
        ),
    }
}

/// A sentence on what is missing.
fn missing(command: &str, needs: Needs, said: &mut Sentences) -> Result<(), AllocError> {
    if needs.out {
        said.say_words("`-o OUT`, the file to which the module is written, is missing.")?;
    }
    if needs.word {
        said.say(&[
            MessagePart::Words("No file is named that "),
            MessagePart::Code(command.as_bytes()),
            MessagePart::Words(" reads."),
        ])?;
    }
    Ok(())
}

/// A sentence on what to type: the command as its help has it.
fn say_form(command: &str, said: &mut Sentences) -> Result<(), AllocError> {
    let Some(topic) = topic_named(command) else {
        return Ok(());
    };
    let Some((form, _)) = help_text(topic).split_once('\n') else {
        return Ok(());
    };
    said.say(&[
        MessagePart::Words("Type `"),
        MessagePart::Words(form),
        MessagePart::Words("`; `sather help "),
        MessagePart::Words(command),
        MessagePart::Words("` says more."),
    ])
}
