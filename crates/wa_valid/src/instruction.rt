//! Instructions and their sequences (sections 3.3.5 to 3.3.7), and functions (section 3.4.1).

ghost use Rattle.std.specs.Prelude.{◌≡◌, ◌≤◌, [], ◌∷◌, ◌++◌, All, length, OnOk, option_to_list, List, Option};
ghost use Rattle.wa_syntax.specs.Instructions.{LocalGet, LocalSet, LocalTee, instruction, plain, sequence};
ghost use Rattle.wa_syntax.specs.Validity.{IsTyped, AreTyped, IsTypedFunction, with_label};
ghost use Rattle.wa_syntax.specs.declared.module.ValTy.{ValTy};
ghost use Rattle.wa_valid.specs.Names.{HoldsNone, names, names_in};
ghost use Rattle.wa_valid.specs.Operands.{stack, Answers};
ghost use Rattle.wa_valid.specs.Rules.{Says};

use crate::context::Context;
use crate::control::*;
use crate::fault::{Fault, ValidationRule};
use crate::locals::DeclaredLocals;
use crate::memory::{load_or_store, memory_grow, memory_size};
use crate::numeric::numeric;
use crate::operands::Operands;
use crate::variable::*;
use sqlite_items::Items;
use std::alloc::Global;
use wa_syntax::opcode::*;
use wa_syntax::{Func, FuncTy, Instr, ValTy};

/// What every point in a body may name.
#[derive(Clone, Copy)]
pub struct Scope<'a, 'm> {
    context: &'a Context<'m>,
    func: &'a FuncTy,
    declared: &'a DeclaredLocals,
    alloc: Global,
}

/// The labels that a point in a body may branch to, the outermost first: for each the type of what it wants, if anything.
type Labels = Items<Option<ValTy>>;

/// A function (3.4.1): its body leaves the results of its type, and may branch to its end.
pub fn function(alloc: Global, context: &Context, func: &Func) -> ValidationRule
    requires { All (λ ty. length ty.results ≤ 1) context.now.types.now }
    ensures { Says (IsTypedFunction (names context.now) func.now) result }
{
    let ty = context.type_at(func.ty)?;
    let declared = DeclaredLocals::new(alloc, &func.locals)?;
    let scope = Scope {
        context,
        func: ty,
        declared: &declared,
        alloc,
    };
    let result = ty.results.as_slice().first().copied();
    let mut labels = Items::new(alloc);
    block(&scope, &mut labels, result, result, func.body.as_slice())
}

/// The instructions of a block (3.3.5): they find no operands, may branch to the block's label, and leave its result, if
/// it has one, and nothing else.
#[cycle(instructions)]
fn block(
    scope: &Scope,
    labels: &mut Labels,
    label: Option<ValTy>,
    ty: Option<ValTy>,
    body: &[Instr],
) -> ValidationRule
    ensures says { Says
        (AreTyped (with_label (option_to_list label) (names_in scope.now labels.old)) (sequence body.now) [] (option_to_list ty)) result }
    ensures labels { OnOk result (labels.new ≡ labels.old) }
{
    labels.push(label)?;
    let mut operands = Operands::new(scope.alloc);
    sequence(scope, labels, &mut operands, body)?;
    labels.pop();
    operands.finish(ty)
}

/// Instructions one after another (3.3.6).
#[cycle(instructions)]
fn sequence(
    scope: &Scope,
    labels: &mut Labels,
    operands: &mut Operands,
    instrs: &[Instr],
) -> ValidationRule
    ensures answers { Answers (AreTyped (names_in scope.now labels.old) (sequence instrs.now))
        (stack operands.old) (stack operands.new) result }
    ensures labels { OnOk result (labels.new ≡ labels.old) }
{
    for instr in instrs {
        instruction(scope, labels, operands, instr)?;
    }
    Ok(())
}

/// An instruction (3.3).
#[cycle(instructions)]
fn instruction(
    scope: &Scope,
    labels: &mut Labels,
    operands: &mut Operands,
    instr: &Instr,
) -> ValidationRule
    ensures answers { Answers (IsTyped (names_in scope.now labels.old) (instruction instr.now))
        (stack operands.old) (stack operands.new) result }
    ensures labels { OnOk result (labels.new ≡ labels.old) }
{
    match instr {
        Instr::Block(result, body) => {
            block(scope, labels, *result, *result, body.get().as_slice())?;
            operands.push_result(*result)
        }
        Instr::Loop(result, body) => {
            block(scope, labels, None, *result, body.get().as_slice())?;
            operands.push_result(*result)
        }
        Instr::If(result, arms) => {
            let (then, otherwise) = arms.get();
            block(scope, labels, *result, *result, then.as_slice())?;
            block(scope, labels, *result, *result, otherwise.as_slice())?;
            operands.apply(Some(ValTy::I32), None, *result)
        }
        _ => simple(scope, labels.as_slice(), operands, instr),
    }
}

/// An instruction that holds no others.
fn simple(
    scope: &Scope,
    labels: &[Option<ValTy>],
    operands: &mut Operands,
    instr: &Instr,
) -> ValidationRule
    requires { HoldsNone instr.now }
    ensures { Answers (IsTyped (names_in scope.now labels.now) (instruction instr.now)) (stack operands.old) (stack operands.new) result }
{
    let context = scope.context;
    match instr {
        Instr::Plain(opcode) => plain(scope, operands, *opcode),
        Instr::Br(label) => br(labels, operands, *label),
        Instr::BrIf(label) => br_if(labels, operands, *label),
        Instr::BrTable(table) => {
            let (table, default) = table.get();
            br_table(labels, operands, table.as_slice(), *default)
        }
        Instr::Call(func) => call(context, operands, *func),
        Instr::CallIndirect(ty) => call_indirect(context, operands, *ty),
        Instr::LocalGet(number) => local_get(scope, operands, *number),
        Instr::LocalSet(number) => local_set(scope, operands, *number),
        Instr::LocalTee(number) => local_tee(scope, operands, *number),
        Instr::GlobalGet(global) => global_get(context, operands, *global),
        Instr::GlobalSet(global) => global_set(context, operands, *global),
        Instr::Memory(opcode, align, _) => load_or_store(context, operands, *opcode, *align),
        Instr::I32Const(_) => operands.apply(None, None, Some(ValTy::I32)),
        Instr::I64Const(_) => operands.apply(None, None, Some(ValTy::I64)),
        Instr::Block(..) | Instr::Loop(..) | Instr::If(..) => Err(Fault::Invalid),
    }
}

/// An instruction that is its opcode alone.
fn plain(scope: &Scope, operands: &mut Operands, opcode: u8) -> ValidationRule
    ensures { (labels : List (Option ValTy))
        → Answers (IsTyped (names_in scope.now labels) (plain opcode)) (stack operands.old) (stack operands.new) result }
{
    if opcode == UNREACHABLE {
        operands.set_unreachable();
        return Ok(());
    }
    if opcode == NOP {
        return Ok(());
    }
    if opcode == RETURN {
        return return_(operands, scope.func);
    }
    if opcode == DROP {
        return operands.drop_one();
    }
    if opcode == SELECT {
        return operands.select();
    }
    if opcode == MEMORY_SIZE {
        return memory_size(scope.context, operands);
    }
    if opcode == MEMORY_GROW {
        return memory_grow(scope.context, operands);
    }
    numeric(operands, opcode)
}

/// `local.get`: [] → [t].
fn local_get(scope: &Scope, operands: &mut Operands, local: u32) -> ValidationRule
    ensures { (labels : List (Option ValTy))
        → Answers (IsTyped (names_in scope.now labels) (LocalGet local)) (stack operands.old) (stack operands.new) result }
{
    let ty = scope.declared.type_at(scope.func, local)?;
    operands.apply(None, None, Some(ty))
}

/// `local.set`: [t] → [].
fn local_set(scope: &Scope, operands: &mut Operands, local: u32) -> ValidationRule
    ensures { (labels : List (Option ValTy))
        → Answers (IsTyped (names_in scope.now labels) (LocalSet local)) (stack operands.old) (stack operands.new) result }
{
    let ty = scope.declared.type_at(scope.func, local)?;
    operands.apply(Some(ty), None, None)
}

/// `local.tee`: [t] → [t].
fn local_tee(scope: &Scope, operands: &mut Operands, local: u32) -> ValidationRule
    ensures { (labels : List (Option ValTy))
        → Answers (IsTyped (names_in scope.now labels) (LocalTee local)) (stack operands.old) (stack operands.new) result }
{
    let ty = scope.declared.type_at(scope.func, local)?;
    operands.apply(Some(ty), None, Some(ty))
}
