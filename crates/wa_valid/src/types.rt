//! Which types are valid (section 3.2).

ghost use Rattle.std.specs.Prelude.{◌≤◌, length};
ghost use Rattle.wa_syntax.specs.ValidModule.{AreLimits, IsTable, IsMemory, IsImport};
ghost use Rattle.wa_valid.specs.Names.{names};
ghost use Rattle.wa_valid.specs.Rules.{Says};

use crate::context::Context;
use crate::fault::{ValidationRule, require};
use wa_syntax::{FuncTy, ImportKind, Limits};

/// The greatest size of a memory, in pages (3.2.5).
const MAX_PAGES: u32 = 65_536;

/// Limits within a range (3.2.1): the least is in the range, and so is the greatest, which isn't below the least.
fn limits(limits: Limits, range: u32) -> ValidationRule
    ensures { Says (AreLimits range limits) result }
{
    match limits.max {
        Some(max) => require(limits.min <= range && limits.min <= max && max <= range),
        None => require(limits.min <= range),
    }
}

/// The type of a function (3.2.3): it has at most one result.
pub fn function_type(ty: &FuncTy) -> ValidationRule
    ensures { Says (length ty.now.results ≤ 1) result }
{
    require(ty.results.len() <= 1)
}

/// The type of a table (3.2.4): its limits are in the range of `u32`.
pub fn table_type(ty: Limits) -> ValidationRule
    ensures { Says (IsTable ty) result }
{
    limits(ty, u32::MAX)
}

/// The type of a memory (3.2.5): it has at most 65,536 pages.
pub fn memory_type(ty: Limits) -> ValidationRule
    ensures { Says (IsMemory ty) result }
{
    limits(ty, MAX_PAGES)
}

/// What an import asks for (3.2.7). Every type of a global is valid (3.2.6).
pub fn external_type(context: &Context, kind: ImportKind) -> ValidationRule
    ensures { Says (IsImport (names context.now) kind) result }
{
    match kind {
        ImportKind::Func(ty) => require((ty as usize) < context.types.len()),
        ImportKind::Table(ty) => table_type(ty),
        ImportKind::Memory(ty) => memory_type(ty),
        ImportKind::Global(_) => Ok(()),
    }
}
