//! Control instructions (section 3.3.5) that hold no others.

ghost use Rattle.std.specs.Prelude.{◌≡◌, ◌<◌, All, map, reverse, slice_get, Some, None, IfOk, IfErr, option_to_list, List};
ghost use Rattle.wa_syntax.specs.Instructions.{Br, BrIf, BrTable, Return, Call, CallIndirect};
ghost use Rattle.wa_syntax.specs.Validity.{IsTyped, Gives};
ghost use Rattle.wa_syntax.specs.Validity as validity;
ghost use Rattle.wa_valid.specs.Operands.{stack, Answers};
ghost use Rattle.wa_valid.specs.Rules.{Says};

use crate::context::Context;
use crate::fault::{Fault, ValidationRule, require};
use crate::operands::Operands;
use wa_syntax::{FuncTy, ValTy};

/// The type that the label with this index, counted outwards from 0, wants, if there is one. The labels are those that a point may
/// branch to, the outermost first: for each the type of what it wants, if anything.
fn label_type(labels: &[Option<ValTy>], label: u32) -> Result<Option<ValTy>, Fault>
    ensures ok { IfOk result (λ wanted. slice_get (reverse labels.now) label ≡ Some wanted) }
    ensures err { IfErr result (λ fault. (fault ≡ Fault.Invalid) × (slice_get (reverse labels.now) label ≡ None)) }
{
    let label = label as usize;
    if label < labels.len() {
        Ok(labels[labels.len() - 1 - label])
    } else {
        Err(Fault::Invalid)
    }
}

/// `br`: [t1* t?] → [t2*].
pub fn br(labels: &[Option<ValTy>], operands: &mut Operands, label: u32) -> ValidationRule
    ensures { (c : validity.Context) → c.labels ≡ map option_to_list (reverse labels.now)
        → Answers (IsTyped c (Br label)) (stack operands.old) (stack operands.new) result }
{
    let wanted = label_type(labels, label)?;
    operands.pop_result(wanted)?;
    operands.set_unreachable();
    Ok(())
}

/// `br_if`: [t? i32] → [t?].
pub fn br_if(labels: &[Option<ValTy>], operands: &mut Operands, label: u32) -> ValidationRule
    ensures { (c : validity.Context) → c.labels ≡ map option_to_list (reverse labels.now)
        → Answers (IsTyped c (BrIf label)) (stack operands.old) (stack operands.new) result }
{
    let wanted = label_type(labels, label)?;
    operands.apply(wanted, Some(ValTy::I32), wanted)
}

/// `br_table`: [t1* t? i32] → [t2*]. All its labels want what the default one does, also where it can't be reached.
pub fn br_table(
    labels: &[Option<ValTy>],
    operands: &mut Operands,
    table: &[u32],
    default: u32,
) -> ValidationRule
    ensures { (c : validity.Context) → c.labels ≡ map option_to_list (reverse labels.now)
        → Answers (IsTyped c (BrTable table.now default)) (stack operands.old) (stack operands.new) result }
{
    let wanted = label_type(labels, default)?;
    all_want(labels, table, wanted)?;
    operands.apply(wanted, Some(ValTy::I32), None)?;
    operands.set_unreachable();
    Ok(())
}

/// The labels with these indices all want this.
fn all_want(labels: &[Option<ValTy>], table: &[u32], wanted: Option<ValTy>) -> ValidationRule
    ensures { Says (All (λ label. slice_get (reverse labels.now) label ≡ Some wanted) table.now) result }
{
    for label in table {
        wants(labels, *label, wanted)?;
    }
    Ok(())
}

/// The label with this index wants this.
fn wants(labels: &[Option<ValTy>], label: u32, wanted: Option<ValTy>) -> ValidationRule
    ensures { Says (slice_get (reverse labels.now) label ≡ Some wanted) result }
{
    let found = label_type(labels, label)?;
    require(found == wanted)
}

/// `return`: [t1* t?] → [t2*], where the function gives t?.
pub fn return_(operands: &mut Operands, func: &FuncTy) -> ValidationRule
    ensures { (c : validity.Context) → c.results ≡ func.now.results
        → Answers (IsTyped c Return) (stack operands.old) (stack operands.new) result }
{
    operands.pop_all(func.results.as_slice())?;
    operands.set_unreachable();
    Ok(())
}

/// A call of a function of this type.
fn call_of(operands: &mut Operands, func: &FuncTy) -> ValidationRule
    ensures { Answers (Gives func.now.params func.now.results) (stack operands.old) (stack operands.new) result }
{
    operands.pop_all(func.params.as_slice())?;
    operands.push_all(func.results.as_slice())
}

/// `call`, by the type of the function.
pub fn call(context: &Context, operands: &mut Operands, func: u32) -> ValidationRule
    ensures { (c : validity.Context) → c.funcs ≡ context.now.funcs → c.types ≡ context.now.types.now
        → Answers (IsTyped c (Call func)) (stack operands.old) (stack operands.new) result }
{
    let number = context.func_type_number(func)?;
    let ty = context.type_at(number)?;
    call_of(operands, ty)
}

/// `call_indirect`, of a function in the table with the type of this index: as a call, with the index in the table on top.
pub fn call_indirect(context: &Context, operands: &mut Operands, number: u32) -> ValidationRule
    ensures { (c : validity.Context) → c.tables ≡ context.now.tables → c.types ≡ context.now.types.now
        → Answers (IsTyped c (CallIndirect number)) (stack operands.old) (stack operands.new) result }
{
    require(0 < context.tables)?;
    let ty = context.type_at(number)?;
    operands.pop_result(Some(ValTy::I32))?;
    call_of(operands, ty)
}
