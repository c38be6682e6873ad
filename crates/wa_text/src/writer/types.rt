//! Types.

ghost use Rattle.std.specs.Prelude.{OnOk};
ghost use Rattle.wa_text.specs.Instructions.{block_result};
ghost use Rattle.wa_text.specs.Listing.{functype, globaltype};
ghost use Rattle.wa_text.specs.Listing as listing;
ghost use Rattle.wa_text.specs.Words.{line, mut, val};
ghost use Rattle.wa_text.specs.Writing.{AddsLines, AddsWords};

use crate::writer::words::{each, end_line, first, index, word};
use wa_syntax::{FuncTy, GlobalTy, Limits, NoMemory, ValTy};

/// The type of a value.
pub fn value_type(out: &mut Vec<u8>, ty: &ValTy) -> Result<(), NoMemory>
    ensures { OnOk result (AddsWords (val ty.now) out.old.items out.new.items) }
{
    match ty {
        ValTy::I32 => word(out, b"i32"),
        ValTy::I64 => word(out, b"i64"),
    }
}

/// The type of a block's result, if it has one.
pub fn block_result(out: &mut Vec<u8>, ty: Option<ValTy>) -> Result<(), NoMemory>
    ensures { OnOk result (AddsWords (block_result ty) out.old.items out.new.items) }
{
    match ty {
        Some(ty) => value_type(out, &ty),
        None => Ok(()),
    }
}

/// The line of a function type.
pub fn function_type(out: &mut Vec<u8>, ty: &FuncTy) -> Result<(), NoMemory>
    ensures { OnOk result (AddsLines (line (functype ty.now)) out.old.items out.new.items) }
{
    first(out, b"type")?;
    each(out, ty.params.as_slice(), value_type)?;
    word(out, b"->")?;
    each(out, ty.results.as_slice(), value_type)?;
    end_line(out)
}

/// The minimum, and the maximum if there is one.
pub fn limits(out: &mut Vec<u8>, limits: &Limits) -> Result<(), NoMemory>
    ensures { OnOk result (AddsWords (listing.limits limits.now) out.old.items out.new.items) }
{
    match limits.max {
        None => index(out, &limits.min),
        Some(max) => {
            index(out, &limits.min)?;
            index(out, &max)
        }
    }
}

/// The type of a global.
pub fn global_type(out: &mut Vec<u8>, ty: GlobalTy) -> Result<(), NoMemory>
    ensures { OnOk result (AddsWords (globaltype ty) out.old.items out.new.items) }
{
    value_type(out, &ty.val)?;
    mutability(out, ty.mutable)
}

/// Whether a global may be changed.
fn mutability(out: &mut Vec<u8>, mutable: bool) -> Result<(), NoMemory>
    ensures { OnOk result (AddsWords (mut mutable) out.old.items out.new.items) }
{
    if mutable {
        return word(out, b"var");
    }
    word(out, b"const")
}
