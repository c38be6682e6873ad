//! Types (section 5.3).

ghost use Rattle.std.specs.Prelude.{OnOk};
ghost use Rattle.wa_syntax.specs.Binary.{functype, globaltype, memtype, mut, tabletype};
ghost use Rattle.wa_syntax.specs.BinaryInstructions.{blocktype, valtype};
ghost use Rattle.wa_encode.specs.Spelling.{Adds};

use crate::value::{byte, number, vector};
use wa_syntax::{FuncTy, GlobalTy, Limits, NoMemory, ValTy};

/// A value type (5.3.1).
pub fn value_type(out: &mut Vec<u8>, ty: &ValTy) -> Result<(), NoMemory>
    ensures { OnOk result (Adds (valtype ty.now) out.old.items out.new.items) }
{
    match ty {
        ValTy::I32 => byte(out, 0x7f),
        ValTy::I64 => byte(out, 0x7e),
    }
}

/// A result type, as a block has it (5.3.2).
pub fn block_type(out: &mut Vec<u8>, ty: Option<ValTy>) -> Result<(), NoMemory>
    ensures { OnOk result (Adds (blocktype ty) out.old.items out.new.items) }
{
    match ty {
        Some(ty) => value_type(out, &ty),
        None => byte(out, 0x40),
    }
}

/// A function type (5.3.3).
pub fn function_type(out: &mut Vec<u8>, ty: &FuncTy) -> Result<(), NoMemory>
    ensures { OnOk result (Adds (functype ty.now) out.old.items out.new.items) }
{
    byte(out, 0x60)?;
    vector(out, ty.params.as_slice(), value_type)?;
    vector(out, ty.results.as_slice(), value_type)
}

/// Limits (5.3.4), which are a memory type too (5.3.5).
pub fn limits(out: &mut Vec<u8>, limits: &Limits) -> Result<(), NoMemory>
    ensures { OnOk result (Adds (memtype limits.now) out.old.items out.new.items) }
{
    match limits.max {
        None => {
            byte(out, 0x00)?;
            number(out, &limits.min)
        }
        Some(max) => {
            byte(out, 0x01)?;
            number(out, &limits.min)?;
            number(out, &max)
        }
    }
}

/// A table type (5.3.6), whose elements are functions.
pub fn table_type(out: &mut Vec<u8>, ty: &Limits) -> Result<(), NoMemory>
    ensures { OnOk result (Adds (tabletype ty.now) out.old.items out.new.items) }
{
    byte(out, 0x70)?;
    limits(out, ty)
}

/// A global type (5.3.7).
pub fn global_type(out: &mut Vec<u8>, ty: GlobalTy) -> Result<(), NoMemory>
    ensures { OnOk result (Adds (globaltype ty) out.old.items out.new.items) }
{
    value_type(out, &ty.val)?;
    mutability(out, ty.mutable)
}

/// Whether a global may be changed (5.3.7).
fn mutability(out: &mut Vec<u8>, mutable: bool) -> Result<(), NoMemory>
    ensures { OnOk result (Adds (mut mutable) out.old.items out.new.items) }
{
    if mutable {
        return byte(out, 0x01);
    }
    byte(out, 0x00)
}
