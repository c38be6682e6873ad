//! The runtime's functions that a module has: those that its bodies call, and those that these call.

use crate::memory::Memory;
use crate::sums::{number, sum};
use crate::types::{GET_TYPE, PUT_TYPE, host_types};
use failure::{Failure, Invariant, broken, known};
use sa_pool::PoolCode;
use sa_runtime::layout::{FIRST_BUILTIN, FUNCTIONS};
use sa_runtime::trace::Tracing;
use sa_runtime::{RuntimeCode, code, frames, support, trace_code};
use sqlite_items::Items;
use std::alloc::Global;
use wa_syntax::{Func, FuncTy, Instr, Locals};

/// All functions of the runtime, with the types that they name. The first two are those of `put` and of `get`, which the module has at
/// the same numbers.
#[derive(Drop)]
struct All {
    types: Items<FuncTy>,
    funcs: Items<Func>,
}

/// The functions of the runtime that a module has.
#[derive(Drop)]
pub(crate) struct Runtime {
    pub funcs: Items<Func>,
    /// For each function of the runtime its number in the module, if the module has it. The imported ones have their own.
    pub numbers: Items<Option<u32>>,
}

/// The functions of the runtime that are called, and those that these call. Their types are added.
pub(crate) fn runtime_of(
    alloc: Global,
    types: &mut Items<FuncTy>,
    memory: &Memory,
    room: u32,
    tracing: Tracing,
    called: &[bool],
) -> Result<Runtime, Failure> {
    let all = all_functions(alloc, memory, room, tracing)?;
    let NeededFunctions { marks, .. } = NeededFunctions::of(alloc, all.funcs.as_slice(), called)?;
    let numbers = numbers_of(alloc, &marks)?;
    let funcs = kept(alloc, types, &all, &marks, numbers.as_slice())?;
    Ok(Runtime { funcs, numbers })
}

/// Those of the functions that are needed, with the numbers of the module.
fn kept(
    alloc: Global,
    types: &mut Items<FuncTy>,
    all: &All,
    needed: &[bool],
    numbers: &[Option<u32>],
) -> Result<Items<Func>, Failure> {
    let mut kept = TypeNumbers {
        types: vec![in alloc; None; all.types.len()]?,
    };
    let mut funcs = Items::new(alloc);
    for (func, is_needed) in all.funcs.as_slice().iter().zip(needed.iter()) {
        if *is_needed {
            let ty = kept.type_of(alloc, types, all.types.as_slice(), func.ty)?;
            funcs.push(copied(alloc, numbers, func, ty)?)?;
        }
    }
    Ok(funcs)
}

/// The function once more, with another type, and with the numbers that functions have in the module.
fn copied(alloc: Global, numbers: &[Option<u32>], func: &Func, ty: u32) -> Result<Func, Failure> {
    let locals = copied_locals(alloc, &func.locals)?;
    let body = renumbered(alloc, numbers, func.body.as_slice())?;
    Ok(Func { ty, locals, body })
}

fn copied_locals(alloc: Global, locals: &Locals) -> Result<Locals, Failure> {
    let mut copy = Locals::new(alloc);
    for run in locals.runs() {
        copy.push(run.count, run.ty)?;
    }
    Ok(copy)
}

/// For each type of the runtime its number in the module, if one of the functions of the module has it.
#[derive(Drop)]
struct TypeNumbers {
    types: Vec<Option<u32>>,
}

impl TypeNumbers {
    /// The number of a type in the module, which gets the type where it isn't there yet.
    fn type_of(
        &mut self,
        alloc: Global,
        types: &mut Items<FuncTy>,
        own: &[FuncTy],
        ty: u32,
    ) -> Result<u32, Failure> {
        if ty == PUT_TYPE || ty == GET_TYPE {
            return Ok(ty);
        }
        if let Some(number) = known(self.types.get(ty as usize).copied(), Invariant::CfgNumber)? {
            return Ok(number);
        }
        let added = number(types.len())?;
        let own = known(own.get(ty as usize), Invariant::CfgNumber)?;
        types.push(FuncTy {
            params: Items::from_slice(alloc, own.params.as_slice())?,
            results: Items::from_slice(alloc, own.results.as_slice())?,
        })?;
        match self.types.get_mut(ty as usize) {
            Some(place) => *place = Some(added),
            None => return broken(Invariant::CfgNumber),
        }
        Ok(added)
    }
}

/// All functions of the runtime, in the order of their numbers. Those that write trace records come after the others.
fn all_functions(
    alloc: Global,
    memory: &Memory,
    room: u32,
    tracing: Tracing,
) -> Result<All, Failure> {
    let mut all = All {
        types: host_types(alloc)?,
        funcs: Items::new(alloc),
    };
    all.add(code(alloc, memory.base, room, tracing)?)?;
    all.add(support(alloc, tracing)?)?;
    let PoolCode { take, give } = sa_pool::code(alloc, memory.pool, memory.slot_bytes)?;
    all.funcs.push(typed(take, GET_TYPE))?;
    all.funcs.push(typed(give, PUT_TYPE))?;
    all.add(frames(alloc, tracing)?)?;
    if let Tracing::On(tellers) = tracing {
        all.add(trace_code(alloc, tellers, memory.slot_bytes)?)?;
    }
    Ok(all)
}

impl All {
    /// Appends functions, whose types come after those that are there. They are few, so each is taken from the front.
    fn add(&mut self, code: RuntimeCode) -> Result<(), Failure> {
        let RuntimeCode {
            types: more,
            funcs: mut waiting,
        } = code;
        let first = number(self.types.len())?;
        self.types.append(more)?;
        for _ in 0..waiting.len() {
            if waiting.is_empty() {
                return Ok(());
            }
            let Func { ty, locals, body } = waiting.remove(0);
            let ty = sum(first, ty)?;
            self.funcs.push(Func { ty, locals, body })?;
        }
        Ok(())
    }
}

/// The function with another type.
fn typed(func: Func, ty: u32) -> Func {
    let Func {
        ty: _,
        locals,
        body,
    } = func;
    Func { ty, locals, body }
}

/// The functions of the runtime, after the imported ones, that are needed.
#[derive(Drop)]
struct NeededFunctions {
    /// For each whether it is.
    marks: Vec<bool>,
    /// Those that are needed and whose calls haven't been looked at.
    waiting: Vec<u32>,
}

impl NeededFunctions {
    /// The functions that are called, and those that needed ones call.
    fn of(alloc: Global, funcs: &[Func], called: &[bool]) -> Result<NeededFunctions, Failure> {
        let mut needed = NeededFunctions {
            marks: vec![in alloc; false; funcs.len()]?,
            waiting: Vec::new(alloc),
        };
        needed.need_each(called)?;
        needed.follow(funcs)?;
        Ok(needed)
    }

    /// The functions that are called are needed.
    fn need_each(&mut self, called: &[bool]) -> Result<(), Failure> {
        for (function, is_called) in called.iter().enumerate() {
            if *is_called {
                self.need(number(function)?)?;
            }
        }
        Ok(())
    }

    /// What needed functions call is needed.
    fn follow(&mut self, funcs: &[Func]) -> Result<(), Failure> {
        for _ in 0..funcs.len() {
            let Some(place) = self.waiting.pop() else {
                break;
            };
            let func = known(funcs.get(place as usize), Invariant::CfgNumber)?;
            self.need_called(func.body.as_slice())?;
        }
        Ok(())
    }

    /// The functions that instructions call are needed.
    #[cycle(needed)]
    fn need_called(&mut self, code: &[Instr]) -> Result<(), Failure> {
        for instr in code {
            match instr {
                Instr::Call(function) => self.need(*function)?,
                Instr::Block(_, body) => self.need_called(body.get().as_slice())?,
                Instr::Loop(_, body) => self.need_called(body.get().as_slice())?,
                Instr::If(_, arms) => {
                    let (then, other) = arms.get();
                    self.need_called(then.as_slice())?;
                    self.need_called(other.as_slice())?;
                }
                _ => {}
            }
        }
        Ok(())
    }

    /// A function is needed. Those that are imported are there anyway.
    fn need(&mut self, function: u32) -> Result<(), Failure> {
        let Some(place) = function.checked_sub(FIRST_BUILTIN) else {
            return Ok(());
        };
        let marked = known(self.marks.get_mut(place as usize), Invariant::CfgNumber)?;
        if !*marked {
            *marked = true;
            self.waiting.push(place)?;
        }
        Ok(())
    }
}

/// The numbers in the module of the imported functions, and of those after them that are needed.
fn numbers_of(alloc: Global, needed: &[bool]) -> Result<Items<Option<u32>>, Failure> {
    let mut numbers = Items::new(alloc);
    let mut next = 0;
    for function in 0..FUNCTIONS {
        if is_there(needed, function) {
            numbers.push(Some(next))?;
            next = sum(next, 1)?;
        } else {
            numbers.push(None)?;
        }
    }
    Ok(numbers)
}

/// Whether the module has a function of the runtime: an imported one, or one that is needed.
fn is_there(needed: &[bool], function: u32) -> bool {
    match function.checked_sub(FIRST_BUILTIN) {
        Some(place) => needed.get(place as usize) == Some(&true),
        None => true,
    }
}

/// The instructions with the numbers that functions have in the module.
#[cycle(renumbered)]
fn renumbered(
    alloc: Global,
    numbers: &[Option<u32>],
    code: &[Instr],
) -> Result<Items<Instr>, Failure> {
    let mut copy = Items::new(alloc);
    for instr in code {
        copy.push(renumbered_one(alloc, numbers, instr)?)?;
    }
    Ok(copy)
}

#[cycle(renumbered)]
fn renumbered_one(alloc: Global, numbers: &[Option<u32>], instr: &Instr) -> Result<Instr, Failure> {
    Ok(match instr {
        Instr::Call(function) => {
            let number = known(
                numbers.get(*function as usize).copied(),
                Invariant::CfgNumber,
            )?;
            Instr::Call(known(number, Invariant::CfgNumber)?)
        }
        Instr::Block(result, body) => {
            let body = renumbered(alloc, numbers, body.get().as_slice())?;
            Instr::block_of(alloc, *result, body)?
        }
        Instr::Loop(result, body) => {
            let body = renumbered(alloc, numbers, body.get().as_slice())?;
            Instr::loop_of(alloc, *result, body)?
        }
        Instr::If(result, arms) => {
            let (then, other) = arms.get();
            let then = renumbered(alloc, numbers, then.as_slice())?;
            let other = renumbered(alloc, numbers, other.as_slice())?;
            Instr::if_of(alloc, *result, then, other)?
        }
        Instr::BrTable(table) => {
            let (labels, last) = table.get();
            let labels = Items::from_slice(alloc, labels.as_slice())?;
            Instr::br_table_of(alloc, labels, *last)?
        }
        Instr::Plain(opcode) => Instr::Plain(*opcode),
        Instr::Br(label) => Instr::Br(*label),
        Instr::BrIf(label) => Instr::BrIf(*label),
        Instr::CallIndirect(ty) => Instr::CallIndirect(*ty),
        Instr::LocalGet(local) => Instr::LocalGet(*local),
        Instr::LocalSet(local) => Instr::LocalSet(*local),
        Instr::LocalTee(local) => Instr::LocalTee(*local),
        Instr::GlobalGet(global) => Instr::GlobalGet(*global),
        Instr::GlobalSet(global) => Instr::GlobalSet(*global),
        Instr::Memory(opcode, alignment, offset) => Instr::Memory(*opcode, *alignment, *offset),
        Instr::I32Const(bits) => Instr::I32Const(*bits),
        Instr::I64Const(bits) => Instr::I64Const(*bits),
    })
}
