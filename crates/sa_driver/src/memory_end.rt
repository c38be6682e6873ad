//! The explanation where the memory of a module is bounded and is larger at its start.

use crate::decoded_module::decoded_module;
use failure::Failure;
use sa_diagnostics::{MessagePart, Sentences};
use std::alloc::{AllocError, Global};
use wa_syntax::Module;

/// The explanation of want of memory where the memory of the module of these bytes is bounded: it begins with more than that. Else nothing.
pub fn memory_end(alloc: Global, module: &[u8], pages: Option<u32>) -> Result<Vec<u8>, Failure> {
    let mut said = Sentences::new(alloc);
    if let Some(pages) = pages {
        if let Some(module) = decoded_module(alloc, module)? {
            begins_past(&module, pages, &mut said)?;
        }
    }
    Ok(said.text)
}

/// A sentence on a memory that has more than this number of pages at its start.
fn begins_past(module: &Module, pages: u32, said: &mut Sentences) -> Result<(), AllocError> {
    match module.memories.as_slice().first() {
        Some(limits) if limits.min > pages => {
            said.say(&[
                MessagePart::Words("The memory of the module begins with "),
                MessagePart::Number(limits.min as usize),
                MessagePart::Words(" pages of 64 KiB, and `--pages` lets it have "),
                MessagePart::Number(pages as usize),
                MessagePart::Words("."),
            ])?;
            said.say_words(
                "Let it have more, or make the module with less: `build` gives room by `--room`.",
            )
        }
        _ => Ok(()),
    }
}
