//! The typed AST of a program once more, for the explanations of faults that need it. It was dropped when the module was made.

ghost use Rattle.std.specs.Prelude.{◌↔◌, ◌<◌, All, IsTrue, length};

use crate::cause::Cause;
use crate::compiler::typed;
use failure::Failure;
use sa_ast::Sources;
use sa_cli::{Contracts, Extent};
use sa_typed::TypedProgram;
use sqlite_items::Items;
use std::alloc::Global;

/// The typed AST of a program of these texts, with or without the checks of its contracts. Nothing where there is none, or no memory.
///
/// # Errors
/// An invariant that is broken in a pass.
pub fn typed_again(
    alloc: Global,
    sources: &Sources,
    contracts: Contracts,
) -> Result<Option<TypedProgram>, Failure> {
    let texts = sources.texts.as_slice();
    if !are_short(texts) || texts.len() >= u32::MAX as usize {
        return Ok(None);
    }
    let mut further = Vec::new(alloc);
    match typed(alloc, texts, contracts, Extent::Needed, &mut further) {
        Ok(program) => Ok(Some(program)),
        Err(Cause::Broken(invariant)) => Err(Failure::Broken(invariant)),
        Err(_) => Ok(None),
    }
}

/// Whether the lines of each text can be counted.
pub(crate) fn are_short(texts: &[Items<u8>]) -> bool
    ensures { IsTrue result ↔ All (λ text. length text < 4294967295) texts.now }
{
    texts.iter().all(|text| is_short(text))
}

/// Whether the lines of a text can be counted.
fn is_short(text: &Items<u8>) -> bool
    ensures { IsTrue result ↔ (length text.now < 4294967295) }
{
    text.len() < u32::MAX as usize
}
