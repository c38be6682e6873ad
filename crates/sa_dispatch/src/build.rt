//! The implementations of a typed program's signatures.

ghost use Rattle.std.specs.Prelude.{◌≡◌, IfOk};
ghost use Rattle.sa_dispatch.specs.Implementations.{tables_of};

use crate::packing::Packing;
use crate::search::implemented;
use crate::table::ImplementationTable;
use failure::Failure;
use sa_typed::TypedProgram;
use std::alloc::Global;

/// The implementations of a program's signatures.
///
/// # Errors
///
/// A `Failure`: `Broken` where there are so many that 32 bits don't hold their number or that of the places, or where the types of a
/// signature don't rise, which the checker sees to.
pub fn implementation_table(
    alloc: Global,
    core: &TypedProgram,
) -> Result<ImplementationTable, Failure>
    ensures { IfOk result (λ rows. rows ≡ tables_of core.now.sigs) }
{
    let mut rows = ImplementationTable::new(alloc);
    let mut packing = Packing::new(alloc);
    for signature in core.sigs.as_slice() {
        let types = implemented(alloc, signature.impls.as_slice())?;
        let span = packing.part(types.as_slice())?;
        rows.add(types, span)?;
    }
    Ok(rows)
}
