//! A sentence on the function of a module in which its run ended.

use crate::decoded_module::decoded_module;
use failure::Failure;
use sa_diagnostics::{MessagePart, Sentences};
use std::alloc::{AllocError, Global};
use wa_syntax::{Export, ExportKind, Module};

/// A sentence that begins with these words and names a function of the module of these bytes: by its index, and by the name under which it
/// is exported, where it has one. No sentence where no function is known.
pub fn say_function(
    alloc: Global,
    bytes: &[u8],
    func: Option<usize>,
    front: &str,
    said: &mut Sentences,
) -> Result<(), Failure> {
    let Some(number) = func else {
        return Ok(());
    };
    let module = decoded_module(alloc, bytes)?;
    match exported_name(module.as_ref(), number) {
        Some(name) => exported(front, number, name, said)?,
        None => unnamed(front, number, said)?,
    }
    Ok(())
}

fn exported<'a>(
    front: &'a str,
    number: usize,
    name: &'a [u8],
    said: &mut Sentences,
) -> Result<(), AllocError> {
    said.say(&[
        MessagePart::Words(front),
        MessagePart::Number(number),
        MessagePart::Words(", counted from 0 with the imports, which is exported as "),
        MessagePart::Code(name),
        MessagePart::Words("."),
    ])
}

fn unnamed(front: &str, number: usize, said: &mut Sentences) -> Result<(), AllocError> {
    said.say(&[
        MessagePart::Words(front),
        MessagePart::Number(number),
        MessagePart::Words(", counted from 0 with the imports."),
    ])
}

/// The first name under which the function with this index is exported.
fn exported_name(module: Option<&Module>, number: usize) -> Option<&[u8]> {
    let export = module?
        .exports
        .as_slice()
        .iter()
        .find(|export| is_of(export, number))?;
    Some(export.name.as_slice())
}

/// Whether an export is that of the function with this index.
fn is_of(export: &Export, number: usize) -> bool {
    match export.kind {
        ExportKind::Func(func) => func as usize == number,
        _ => false,
    }
}
