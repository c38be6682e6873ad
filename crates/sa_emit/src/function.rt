//! The function of a body.

ghost use Rattle.std.specs.Prelude.{IfOk};
ghost use Rattle.sa_emit.specs.Tables.{IsFunctionOf};

use crate::dispatch::{BlockDispatch, emit_loop};
use crate::pool::has_frames;
use crate::predecessors::predecessors_of;
use crate::resuming::emit_before_dispatch;
use crate::steps::Writer;
use crate::structured::emit_structured;
use crate::targets::targets_of;
use crate::verifier::tried;
use failure::Failure;
use sa_cfg::CfgBody;
use sa_runtime::layout::BODY_TYPE;
use sa_stackify::{ResultPlace, SaveSet};
use sa_structure::{StructuredBody, structure_of};
use sa_templates::{
    EmitContext, EmitProgram, LabelDepth, Role, emit_prologue, emit_suspension, locals_of,
    parameters_of,
};
use sqlite_items::Items;
use std::alloc::Global;
use wa_syntax::{Func, Instr};

/// The function of a body, whose first site has this index among all sites of the program. It has the structured regions of the body where
/// there are any, and else dispatches between the blocks.
pub(crate) fn function(
    alloc: Global,
    program: EmitProgram<'_>,
    body: &CfgBody,
    role: Role,
    first_site: u32,
) -> Result<Func, Failure>
    ensures { IfOk result (λ func. IsFunctionOf body.now func) }
{
    let keeping = SaveSet::of(alloc, body)?;
    let around = EmitContext {
        program,
        body,
        role,
        labels: &[],
        again: &[],
        numbers: &[],
        nesting: LabelDepth::outermost(),
        readings: &[],
        given: ResultPlace::Local,
        left: None,
        keeping: &keeping,
        first_site,
    };
    let shaped = structure_of(alloc, body)?;
    let code = match &shaped {
        Some(shaped) => shaped_code(alloc, &around, shaped)?,
        None => dispatched_code(alloc, &around)?,
    };
    let func = Func {
        ty: BODY_TYPE.saturating_add(parameters_of(body)),
        locals: locals_of(alloc, body)?,
        body: suspending(alloc, &around, code)?,
    };
    tried(body, shaped.is_some(), func)
}

/// The code of a body that has structured regions.
fn shaped_code(
    alloc: Global,
    around: &EmitContext<'_>,
    shaped: &StructuredBody,
) -> Result<Items<Instr>, Failure> {
    let around = EmitContext {
        again: shaped.again.as_slice(),
        numbers: shaped.numbers.as_slice(),
        ..*around
    };
    let mut code = Items::new(alloc);
    if shaped.entries.len() == 1 {
        emit_prologue(&mut code, around.body)?;
    } else if shaped.repeats() {
        emit_before_dispatch(alloc, &mut code, &around)?;
    }
    let mut writer = Writer::new(alloc, around.body)?;
    emit_structured(alloc, &mut code, &around, &mut writer, shaped)?;
    Ok(code)
}

/// The code of a body that dispatches between its blocks.
fn dispatched_code(alloc: Global, around: &EmitContext<'_>) -> Result<Items<Instr>, Failure> {
    let predecessors = predecessors_of(alloc, around.body)?;
    let targets = targets_of(alloc, around.body, predecessors.as_slice())?;
    let around = EmitContext {
        again: targets.numbers.as_slice(),
        numbers: targets.numbers.as_slice(),
        ..*around
    };
    let mut code = Items::new(alloc);
    if has_frames(around.body) {
        emit_before_dispatch(alloc, &mut code, &around)?;
    } else {
        emit_prologue(&mut code, around.body)?;
    }
    let mut writer = Writer::new(alloc, around.body)?;
    let dispatch = BlockDispatch {
        around,
        targets: targets.blocks.as_slice(),
        repeats: targets.repeats.as_slice(),
    };
    emit_loop(alloc, &mut code, &mut writer, &dispatch)?;
    Ok(code)
}

/// The code of a body with the code that its suspensions share, where there are several.
fn suspending(
    alloc: Global,
    around: &EmitContext<'_>,
    code: Items<Instr>,
) -> Result<Items<Instr>, Failure> {
    let body = around.body;
    let mut whole = Items::new(alloc);
    if !has_frames(body) || around.keeping.suspensions < 2 {
        whole.append(code)?;
        whole.push(Instr::Plain(wa_syntax::opcode::UNREACHABLE))?;
        return Ok(whole);
    }
    whole.push(Instr::block_of(alloc, None, code)?)?;
    emit_suspension(alloc, &mut whole, body, around.keeping)?;
    Ok(whole)
}
