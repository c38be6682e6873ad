//! The explanation for a module that isn't linked: an import that can't be given, with its type, or no `main`.

use crate::decoded_module::decoded_module;
use failure::Failure;
use sa_diagnostics::{MessagePart, Sentences};
use std::alloc::{AllocError, Global};
use wa_syntax::{Import, ImportKind, Module, ValTy};

/// The explanation for a module whose import with this index can't be given, or, where there is no such import, which has no `main` to
/// call.
pub fn unlinked(
    alloc: Global,
    bytes: &[u8],
    number: u32,
    said: &mut Sentences,
) -> Result<(), Failure> {
    let Some(module) = decoded_module(alloc, bytes)? else {
        return Ok(());
    };
    match module.imports.get(number as usize) {
        Some(import) => not_given(alloc, &module, import, said)?,
        None => without_main(&module, said)?,
    }
    Ok(())
}

fn not_given(
    alloc: Global,
    module: &Module,
    import: &Import,
    said: &mut Sentences,
) -> Result<(), Failure> {
    let mut parts = Vec::new(alloc);
    parts.push(MessagePart::Words("`exec` can't give the import `"))?;
    parts.push(MessagePart::Plain(import.module.as_slice()))?;
    parts.push(MessagePart::Words("."))?;
    parts.push(MessagePart::Plain(import.name.as_slice()))?;
    parts.push(MessagePart::Words("`, "))?;
    put_kind(&mut parts, module, &import.kind)?;
    parts.push(MessagePart::Words(
        ": it has the functions `env.put`, which takes an i32, `env.get`, which gives one, and `env.stop`, which takes two.",
    ))?;
    said.say(parts.as_slice())?;
    said.say_words("Give the module these imports alone.")?;
    Ok(())
}

/// Adds the kind of an import, with its type.
fn put_kind(
    parts: &mut Vec<MessagePart<'_>>,
    module: &Module,
    kind: &ImportKind,
) -> Result<(), AllocError> {
    match kind {
        ImportKind::Func(number) => match module.types.get(*number as usize) {
            Some(ty) => {
                parts.push(MessagePart::Words("a function of type ("))?;
                put_types(parts, ty.params.as_slice())?;
                parts.push(MessagePart::Words(") -> ("))?;
                put_types(parts, ty.results.as_slice())?;
                parts.push(MessagePart::Words(")"))?;
            }
            None => parts.push(MessagePart::Words("a function"))?,
        },
        ImportKind::Table(_) => parts.push(MessagePart::Words("a table"))?,
        ImportKind::Memory(_) => parts.push(MessagePart::Words("a memory"))?,
        ImportKind::Global(ty) => {
            parts.push(MessagePart::Words(if ty.mutable {
                "a global that can be written, of type "
            } else {
                "a global of type "
            }))?;
            parts.push(MessagePart::Words(type_name(ty.val)))?;
        }
    }
    Ok(())
}

/// Adds types, with commas between them.
fn put_types(parts: &mut Vec<MessagePart<'_>>, types: &[ValTy]) -> Result<(), AllocError> {
    let mut before = "";
    for ty in types {
        parts.push(MessagePart::Words(before))?;
        parts.push(MessagePart::Words(type_name(*ty)))?;
        before = ", ";
    }
    Ok(())
}

fn type_name(ty: ValTy) -> &'static str {
    match ty {
        ValTy::I32 => "i32",
        ValTy::I64 => "i64",
    }
}

fn without_main(module: &Module, said: &mut Sentences) -> Result<(), AllocError> {
    let has_main = module
        .exports
        .as_slice()
        .iter()
        .any(|export| export.name.as_slice() == b"main".as_slice());
    if has_main {
        said.say_words(
            "A run begins at the export `main`, and this one isn't a function of the module's own that takes nothing and gives nothing or an i32.",
        )?;
    } else {
        said.say_words("A run begins at the export `main`, and this module has none.")?;
    }
    said.say_words(
        "Export such a function; in C write `__attribute__((export_name(\"main\"))) int run(void)`.",
    )
}
