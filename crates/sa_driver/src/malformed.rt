//! The explanation for bytes that spell no module: where they stop being one.

use sa_diagnostics::{MessagePart, Sentences};
use std::alloc::AllocError;
use wa_diagnose::{FormatError, FormatErrorKind, ModulePart, find_format_error};

/// Explains why bytes spell no module: by what they begin with, or by the first position at which they are wrong.
pub fn malformed(module: &[u8], said: &mut Sentences) -> Result<(), AllocError> {
    if module.is_empty() {
        said.say_words("The file has no bytes, or more than 67108864.")?;
        return for_another(said);
    }
    match find_format_error(module) {
        Some(
            FormatError {
                lack: FormatErrorKind::Magic,
                ..
            },
        ) => {
            said.say_words(
                "The file is no module of WebAssembly 1.0: these begin with the bytes 00 61 73 6d 01 00 00 00.",
            )?;
            for_another(said)
        }
        Some(flaw) => wrong_at(flaw, module.get(flaw.at).copied(), said),
        None => {
            said.say_words(
                "The file begins as a module of WebAssembly 1.0, and goes on as none without floating point.",
            )?;
            for_another(said)
        }
    }
}

/// A sentence on what to do with a file of another kind.
fn for_another(said: &mut Sentences) -> Result<(), AllocError> {
    said.say_words(
        "A source is run by `run`, a listing is made a module by `assemble`, and `exec` takes what `build` has made.",
    )
}

/// A sentence on what is wrong at a position of a module, where this byte is, or none any more.
fn wrong_at(flaw: FormatError, byte: Option<u8>, said: &mut Sentences) -> Result<(), AllocError> {
    let (following, there, occurs) = occurrence(byte);
    let (inside, number, name) = part_of_module(flaw.place);
    said.say(&[
        MessagePart::Words("At byte "),
        MessagePart::Number(flaw.at),
        MessagePart::Words(" ("),
        MessagePart::Hex(flaw.at),
        following,
        there,
        occurs,
        inside,
        number,
        name,
        MessagePart::Words(": "),
        MessagePart::Words(flaw.lack.text()),
    ])?;
    said.say_words(
        "`exec` takes modules of WebAssembly 1.0 without floating point: see that the file is whole, and how it was made.",
    )
}

/// What is said of the byte at the position, after its number.
fn occurrence(
    byte: Option<u8>,
) -> (
    MessagePart<'static>,
    MessagePart<'static>,
    MessagePart<'static>,
) {
    match byte {
        Some(byte) => (
            MessagePart::Words("), where "),
            MessagePart::Byte(byte),
            MessagePart::Words(" stands"),
        ),
        None => (
            MessagePart::Words(")"),
            MessagePart::Words(""),
            MessagePart::Words(""),
        ),
    }
}

/// What is said of the part of the module that contains the position.
fn part_of_module(
    place: ModulePart,
) -> (
    MessagePart<'static>,
    MessagePart<'static>,
    MessagePart<'static>,
) {
    match place {
        ModulePart::File => (
            MessagePart::Words(""),
            MessagePart::Words(""),
            MessagePart::Words(""),
        ),
        ModulePart::Section(number) => (
            MessagePart::Words(", in section "),
            MessagePart::Number(usize::from(number)),
            MessagePart::Words(section_name(number)),
        ),
        ModulePart::Body(number) => (
            MessagePart::Words(", in the body of function "),
            MessagePart::Number(number as usize),
            MessagePart::Words(" of the module's own, from 0"),
        ),
    }
}

/// The name of the section with this number.
fn section_name(number: u8) -> &'static str {
    match number {
        0 => ", a custom one",
        1 => ", that of types",
        2 => ", that of imports",
        3 => ", that of functions",
        4 => ", that of tables",
        5 => ", that of memories",
        6 => ", that of globals",
        7 => ", that of exports",
        8 => ", that of the start",
        9 => ", that of elements",
        10 => ", that of code",
        _ => ", that of data",
    }
}
