//! Templates: how functions are written down as constants, and how they become functions of a module.

ghost use Rattle.std.specs.Prelude.{◌≡◌, length, IfOk};

use crate::signatures::FnSignature;
use crate::template_ops::{TemplateOp, emit_ops};
use crate::trace::{TraceEvent, Tracing, emit_event, emit_outcome, emit_put};
use failure::Failure;
use sqlite_items::Items;
use std::alloc::Global;
use wa_syntax::{Func, FuncTy, Instr, Locals, ValTy};

/// A template: a part of the body of a function.
#[derive(Clone, Copy)]
pub enum Template {
    /// A sequence of instructions.
    Line(&'static [TemplateOp]),
    /// A sequence of templates.
    Sequence(&'static [Template]),
    /// A block of templates, whose label is its end.
    Block(&'static [Template]),
    /// A loop of templates, whose label is its beginning.
    Loop(&'static [Template]),
    /// What is done where the operand isn't 0. Its label is its end.
    If(&'static [Template]),
    /// What is done where the operand isn't 0, and what is done where it is. The label of each is its end.
    IfElse(&'static [Template], &'static [Template]),
    /// Writes the low byte of the operand to the output.
    Put,
    /// In a traced module, reports this event of the instance whose frame is in this local.
    EmitEvent(u32, TraceEvent),
    /// In a traced module, reports how the body of the instance was left whose frame is in the first local, by the status in the second.
    EmitOutcome(u32, u32),
}

/// The locals after the parameters of a function: so many of the type `i64`, and then so many of the type `i32`.
#[derive(Clone, Copy)]
pub struct LocalCounts(pub u32, pub u32);

/// A function: the index of its type in a table of types, its locals, and its body.
#[derive(Clone, Copy)]
pub struct Function(pub u32, pub LocalCounts, pub &'static [Template]);

/// The functions, in order.
pub fn functions(alloc: Global, list: &[Function], tracing: Tracing) -> Result<Items<Func>, Failure>
    ensures { IfOk result (λ funcs. length funcs ≡ length list.now) }
{
    let mut funcs = Items::new(alloc);
    for function in list {
        funcs.push(func(alloc, function, tracing)?)?;
    }
    Ok(funcs)
}

/// The function.
pub(crate) fn func(alloc: Global, function: &Function, tracing: Tracing) -> Result<Func, Failure> {
    Ok(Func {
        ty: function.0,
        locals: locals(alloc, function.1)?,
        body: instructions(alloc, function.2, tracing)?,
    })
}

/// The locals.
pub(crate) fn locals(alloc: Global, working: LocalCounts) -> Result<Locals, Failure> {
    let mut locals = Locals::new(alloc);
    locals.push(working.0, ValTy::I64)?;
    locals.push(working.1, ValTy::I32)?;
    Ok(locals)
}

/// The types of functions, in order.
pub(crate) fn types(alloc: Global, list: &[FnSignature]) -> Result<Items<FuncTy>, Failure> {
    let mut types = Items::new(alloc);
    for signature in list {
        types.push(FuncTy {
            params: Items::from_slice(alloc, signature.params)?,
            results: Items::from_slice(alloc, signature.results)?,
        })?;
    }
    Ok(types)
}

/// The instructions of these templates.
#[cycle(parts)]
pub fn instructions(
    alloc: Global,
    parts: &[Template],
    tracing: Tracing,
) -> Result<Items<Instr>, Failure> {
    let mut body = Items::new(alloc);
    emit_templates(alloc, parts, tracing, &mut body)?;
    Ok(body)
}

/// Appends the instructions of these templates.
#[cycle(parts)]
pub(crate) fn emit_templates(
    alloc: Global,
    parts: &[Template],
    tracing: Tracing,
    to: &mut Items<Instr>,
) -> Result<(), Failure> {
    for part in parts {
        emit_template(alloc, part, tracing, to)?;
    }
    Ok(())
}

/// Appends the instructions of this template.
#[cycle(parts)]
fn emit_template(
    alloc: Global,
    part: &Template,
    tracing: Tracing,
    to: &mut Items<Instr>,
) -> Result<(), Failure> {
    match part {
        Template::Line(ops) => emit_ops(to, ops),
        Template::Sequence(parts) => emit_templates(alloc, parts, tracing, to),
        Template::Block(parts) => {
            let body = instructions(alloc, parts, tracing)?;
            Ok(to.push(Instr::block_of(alloc, None, body)?)?)
        }
        Template::Loop(parts) => {
            let body = instructions(alloc, parts, tracing)?;
            Ok(to.push(Instr::loop_of(alloc, None, body)?)?)
        }
        Template::If(parts) => {
            let body = instructions(alloc, parts, tracing)?;
            Ok(to.push(Instr::if_of(alloc, None, body, Items::new(alloc))?)?)
        }
        Template::IfElse(parts, others) => {
            let body = instructions(alloc, parts, tracing)?;
            let other = instructions(alloc, others, tracing)?;
            Ok(to.push(Instr::if_of(alloc, None, body, other)?)?)
        }
        Template::Put => emit_put(to, tracing),
        Template::EmitEvent(frame, event) => emit_event(to, tracing, *frame, *event),
        Template::EmitOutcome(frame, status) => emit_outcome(to, tracing, *frame, *status),
    }
}
