//! What is done where an operand isn't 0, and where it is.

use failure::Failure;
use sqlite_items::Items;
use std::alloc::Global;
use wa_syntax::Instr;

/// Emits an `if` that does this where the operand isn't 0.
pub fn emit_if(alloc: Global, code: &mut Items<Instr>, then: Items<Instr>) -> Result<(), Failure> {
    code.push(Instr::if_of(alloc, None, then, Items::new(alloc))?)?;
    Ok(())
}

/// Emits an `if` that does `then` where the operand isn't 0, and else `other`.
pub fn emit_if_else(
    alloc: Global,
    code: &mut Items<Instr>,
    then: Items<Instr>,
    other: Items<Instr>,
) -> Result<(), Failure> {
    code.push(Instr::if_of(alloc, None, then, other)?)?;
    Ok(())
}
