//! The explanation for a command that ended by a fault of a file or a stream, or because its fuel was spent.

use crate::cause::Cause;
use crate::requests::Request;
use failure::Failure;
use sa_diagnostics::{MessagePart, Sentences};
use std::alloc::{AllocError, Global};

/// The explanation of a store fault: a file couldn't be read, or the module couldn't be written.
pub fn store_fault(
    alloc: Global,
    asked: Request<'_>,
    is_reading: bool,
) -> Result<Vec<u8>, Failure> {
    let mut said = Sentences::new(alloc);
    if is_reading {
        unread(asked.read, &mut said)?;
    } else {
        unwritten(asked.written, &mut said)?;
    }
    Ok(said.text)
}

fn unread(file: Option<&str>, said: &mut Sentences) -> Result<(), AllocError> {
    let reason = MessagePart::Words(
        " can't be read: it isn't there, it is a folder or a pipe, or it may not be read.",
    );
    match file {
        Some("-") => {
            said.say_words("The input can't be read: it was closed, or it is a folder.")?;
            said.say_words("Give it a text, as by `< FILE`.")
        }
        Some(name) => {
            said.say(&[MessagePart::Code(name.as_bytes()), reason])?;
            said.say_words("See how its name is written, and from which folder it is named.")
        }
        None => {
            said.say(&[MessagePart::Words("One of the files"), reason])?;
            said.say_words("See how their names are written, and try them one by one.")
        }
    }
}

fn unwritten(file: Option<&str>, said: &mut Sentences) -> Result<(), AllocError> {
    let what = match file {
        Some(name) => MessagePart::Code(name.as_bytes()),
        None => MessagePart::Words("One of the files that are written"),
    };
    let reason = MessagePart::Words(
        " can't be written: its folder isn't there, it may not be written, or the disk is full.",
    );
    said.say(&[what, reason])?;
    said.say_words("Write to another file.")
}

/// The explanation of fuel that was spent, or of a fault of a stream.
pub fn host_end(alloc: Global, cause: Cause) -> Result<Vec<u8>, Failure> {
    let mut said = Sentences::new(alloc);
    match cause {
        Cause::Spent(steps) => {
            said.say(&[
                MessagePart::Words("It hadn't ended within "),
                MessagePart::Number(usize::try_from(steps).unwrap_or(usize::MAX)),
                MessagePart::Words(
                    " steps, which are those that `--fuel` gives: it needs more, or it doesn't end at all.",
                ),
            ])?;
            said.say_words(
                "In which line it was isn't kept. Give more, or print something in each loop to see which one doesn't end.",
            )?;
        }
        Cause::InFault => {
            said.say_words(
                "The program wants to read, and its input can't be read: it was closed, or it is a folder.",
            )?;
            said.say_words("Give it an input, as by `< FILE` or `echo Ada |`.")?;
        }
        Cause::OutFault => {
            said.say_words(
                "What is printed can't be written: the disk is full, out is closed, or nobody reads the pipe any more.",
            )?;
            said.say_words("Write to another place.")?;
        }
        _ => {}
    }
    Ok(said.text)
}
