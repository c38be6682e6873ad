//! How an instance is suspended, and how its body is resumed: what it saves is in its frame.
//!
//! The function of an iter's body is entered alike at a start and at a resumption: the frame alone says which it is, by the number of the
//! block in which the body continues, which is 0 at a start. No suspension resumes in the first block.
//!
//! What a start knows is stored by it: `self` and the saved arguments that never change, and the number of the block in which the body
//! resumes where there is one suspension.

use crate::{
    EmitContext, address_local, block_local, emit_copies_out, emit_formals, emit_if,
    emit_once_formals, frame_local, local_of, self_local, site_local, target_number,
};
use failure::{Failure, Invariant, known};
use sa_cfg::CfgBody;
use sa_runtime::layout::{
    BLOCK_AT, FIRST_SAVED_AT, FRAME_SELF_AT, INSIDE_AT, RESULT, SIBLING_AT, SITE_AT, SUSPENDED,
};
use sa_runtime::template_ops::{TemplateOp, emit_ops};
use sa_stackify::SaveSet;
use sqlite_items::Items;
use std::alloc::Global;
use wa_syntax::Instr;
use wa_syntax::opcode::{I32_EQ, I32_LOAD, I32_STORE, I64_LOAD, I64_STORE, RETURN};

/// Emits the code that the body of an iter's feature begins with, at a start and at each resumption: the loads of the arguments that are in
/// the area. Then the number of the block in which the body continues is the operand.
///
/// # Errors
///
/// A `Failure`: `Broken` where the body has more arguments than the area has room for.
pub fn emit_entry_prologue(code: &mut Items<Instr>, body: &CfgBody) -> Result<(), Failure> {
    emit_formals(code, body)?;
    let line = [
        TemplateOp::Get(frame_local(body)),
        TemplateOp::Memory(I32_LOAD, BLOCK_AT),
    ];
    emit_ops(code, &line)
}

/// Emits what a start alone does before the first block: it loads its arguments in the area, and stores what suspensions don't. `resume` is
/// the number of the block in which the body resumes after the one suspension, where there is one.
///
/// # Errors
///
/// A `Failure`: `Broken` where the body has more arguments than the area has room for.
pub fn emit_start_prologue(
    code: &mut Items<Instr>,
    body: &CfgBody,
    keeping: &SaveSet,
    resume: Option<u32>,
) -> Result<(), Failure> {
    emit_once_formals(code, body)?;
    if let Some(number) = resume {
        emit_number(code, body, TemplateOp::I32(number))?;
    }
    if keeping.reads_self {
        let frame = TemplateOp::Get(frame_local(body));
        let line = [
            frame,
            TemplateOp::Get(self_local(body)),
            TemplateOp::Memory(I64_STORE, FRAME_SELF_AT),
        ];
        emit_ops(code, &line)?;
    }
    for (place, var) in body.saved.as_slice().iter().enumerate() {
        if !keeping.is_changed(place) {
            emit_saved_write(code, body, place, *var)?;
        }
    }
    Ok(())
}

/// Emits the store, in the frame, of the number of the block in which the body resumes.
fn emit_number(code: &mut Items<Instr>, body: &CfgBody, number: TemplateOp) -> Result<(), Failure> {
    let line = [
        TemplateOp::Get(frame_local(body)),
        number,
        TemplateOp::Memory(I32_STORE, BLOCK_AT),
    ];
    emit_ops(code, &line)
}

/// Emits what a resumption loads: `self` where it is read, the saved variables and the frames of the sites.
///
/// # Errors
///
/// A `Failure`: `Broken` where 32 bits don't hold the size of a frame.
pub fn emit_resume_prologue(
    alloc: Global,
    code: &mut Items<Instr>,
    body: &CfgBody,
    keeping: &SaveSet,
) -> Result<(), Failure> {
    if keeping.reads_self {
        let line = [
            TemplateOp::Get(frame_local(body)),
            TemplateOp::Memory(I64_LOAD, FRAME_SELF_AT),
            TemplateOp::Set(self_local(body)),
        ];
        emit_ops(code, &line)?;
    }
    for (place, var) in body.saved.as_slice().iter().enumerate() {
        emit_saved_read(code, body, place, *var)?;
    }
    match body.sites {
        0 => Ok(()),
        1 => emit_inside(code, body, site_local(body, 0)),
        _ => emit_sites_read(alloc, code, body),
    }
}

/// Emits the load of the first of the instances inside the frame.
fn emit_inside(code: &mut Items<Instr>, body: &CfgBody, local: u32) -> Result<(), Failure> {
    let line = [
        TemplateOp::Get(frame_local(body)),
        TemplateOp::Memory(I32_LOAD, INSIDE_AT),
        TemplateOp::Set(local),
    ];
    emit_ops(code, &line)
}

/// Emits the code that takes the frames of several sites out of their list.
fn emit_sites_read(alloc: Global, code: &mut Items<Instr>, body: &CfgBody) -> Result<(), Failure> {
    emit_inside(code, body, address_local(body))?;
    for site in 0..body.sites {
        emit_site_read(alloc, code, body, site)?;
    }
    Ok(())
}

fn emit_saved_read(
    code: &mut Items<Instr>,
    body: &CfgBody,
    place: usize,
    var: u32,
) -> Result<(), Failure> {
    let line = [
        TemplateOp::Get(frame_local(body)),
        TemplateOp::Memory(I64_LOAD, saved_at(place)?),
        TemplateOp::Set(local_of(body, var)),
    ];
    emit_ops(code, &line)
}

/// Emits the code that takes the next frame of the list in the local for an address where it belongs to this site. At the end of the
/// list, which is 0, the site 0 gets 0, since the memory there stays 0.
fn emit_site_read(
    alloc: Global,
    code: &mut Items<Instr>,
    body: &CfgBody,
    site: u32,
) -> Result<(), Failure> {
    let address = address_local(body);
    let mut found = Items::new(alloc);
    let line = [
        TemplateOp::Get(address),
        TemplateOp::Tee(site_local(body, site)),
        TemplateOp::Memory(I32_LOAD, SIBLING_AT),
        TemplateOp::Set(address),
    ];
    emit_ops(&mut found, &line)?;
    let line = [
        TemplateOp::Get(address),
        TemplateOp::Memory(I32_LOAD, SITE_AT),
        TemplateOp::I32(site),
        TemplateOp::Do(I32_EQ),
    ];
    emit_ops(code, &line)?;
    emit_if(alloc, code, found)
}

/// Emits the code that all suspensions of the body of an iter's feature jump to, after all its other code, where there are several: what
/// they store, and the number of the block in which the body resumes, which is in its local. The status is left as the operand that the
/// function returns.
///
/// # Errors
///
/// A `Failure`: `Broken` where the body has more arguments than the area has room for.
pub fn emit_suspension(
    alloc: Global,
    code: &mut Items<Instr>,
    body: &CfgBody,
    keeping: &SaveSet,
) -> Result<(), Failure> {
    emit_stores(alloc, code, body, keeping)?;
    emit_number(code, body, TemplateOp::Get(block_local(body)))?;
    emit_copies_out(code, body)?;
    emit_ops(code, &[TemplateOp::I32(SUSPENDED)])
}

/// Emits what a suspension stores: the saved variables that may have changed, and the frames of the sites.
fn emit_stores(
    alloc: Global,
    code: &mut Items<Instr>,
    body: &CfgBody,
    keeping: &SaveSet,
) -> Result<(), Failure> {
    for (place, var) in body.saved.as_slice().iter().enumerate() {
        if keeping.is_changed(place) {
            emit_saved_write(code, body, place, *var)?;
        }
    }
    match body.sites {
        0 => Ok(()),
        1 => emit_inside_write(code, body, site_local(body, 0)),
        _ => emit_list(alloc, code, body),
    }
}

/// Emits the store, in the frame, of the first of the instances inside.
fn emit_inside_write(code: &mut Items<Instr>, body: &CfgBody, local: u32) -> Result<(), Failure> {
    let line = [
        TemplateOp::Get(frame_local(body)),
        TemplateOp::Get(local),
        TemplateOp::Memory(I32_STORE, INSIDE_AT),
    ];
    emit_ops(code, &line)
}

fn emit_saved_write(
    code: &mut Items<Instr>,
    body: &CfgBody,
    place: usize,
    var: u32,
) -> Result<(), Failure> {
    let line = [
        TemplateOp::Get(frame_local(body)),
        TemplateOp::Get(local_of(body, var)),
        TemplateOp::Memory(I64_STORE, saved_at(place)?),
    ];
    emit_ops(code, &line)
}

/// Emits the code that makes the list of the frames of the sites, in the order of the sites, from its end on.
fn emit_list(alloc: Global, code: &mut Items<Instr>, body: &CfgBody) -> Result<(), Failure> {
    let address = address_local(body);
    emit_ops(code, &[TemplateOp::I32(0), TemplateOp::Set(address)])?;
    for site in (0..body.sites).rev() {
        emit_link(alloc, code, site_local(body, site), address)?;
    }
    emit_inside_write(code, body, address)
}

/// Emits the code that links the frame of a site, where it has one, before the list in a local.
fn emit_link(alloc: Global, code: &mut Items<Instr>, frame: u32, list: u32) -> Result<(), Failure> {
    let mut linked = Items::new(alloc);
    let line = [
        TemplateOp::Get(frame),
        TemplateOp::Get(list),
        TemplateOp::Memory(I32_STORE, SIBLING_AT),
        TemplateOp::Get(frame),
        TemplateOp::Set(list),
    ];
    emit_ops(&mut linked, &line)?;
    emit_ops(code, &[TemplateOp::Get(frame)])?;
    emit_if(alloc, code, linked)
}

/// The offset in a frame, in bytes, of the variable with this index among the saved ones.
fn saved_at(place: usize) -> Result<u32, Failure> {
    let place = known(u32::try_from(place).ok(), Invariant::CfgNumber)?;
    known(
        known(place.checked_mul(8), Invariant::CfgNumber)?.checked_add(FIRST_SAVED_AT),
        Invariant::CfgNumber,
    )
}

/// A suspension with a value. An adapter, which has no block of its own to resume in, returns to its caller at once.
pub(crate) fn emit_suspend(
    alloc: Global,
    code: &mut Items<Instr>,
    around: &EmitContext<'_>,
    value: Option<u32>,
    resume: Option<u32>,
) -> Result<(), Failure> {
    emit_value(code, around, value)?;
    match resume {
        Some(_) if around.keeping.suspensions == 1 => emit_only_suspension(alloc, code, around),
        Some(block) => emit_to_suspension(code, around, block),
        None => emit_adapter_suspension(code, around),
    }
}

/// The one suspension of the body of a feature. The number of the block in which the body resumes is in the frame since the start.
fn emit_only_suspension(
    alloc: Global,
    code: &mut Items<Instr>,
    around: &EmitContext<'_>,
) -> Result<(), Failure> {
    emit_stores(alloc, code, around.body, around.keeping)?;
    emit_copies_out(code, around.body)?;
    emit_ops(code, &[TemplateOp::I32(SUSPENDED), TemplateOp::Do(RETURN)])
}

/// One of several suspensions of the body of a feature: the rest of it is outside the block around the code of the body.
fn emit_to_suspension(
    code: &mut Items<Instr>,
    around: &EmitContext<'_>,
    resume: u32,
) -> Result<(), Failure> {
    let line = [
        TemplateOp::I32(target_number(around, resume)?),
        TemplateOp::Set(around.block()),
        TemplateOp::Br(around.nesting.outer_label()),
    ];
    emit_ops(code, &line)
}

/// A suspension of an adapter.
fn emit_adapter_suspension(
    code: &mut Items<Instr>,
    around: &EmitContext<'_>,
) -> Result<(), Failure> {
    emit_copies_out(code, around.body)?;
    emit_ops(code, &[TemplateOp::I32(SUSPENDED), TemplateOp::Do(RETURN)])
}

/// Emits the store of the result, where there is one.
fn emit_value(
    code: &mut Items<Instr>,
    around: &EmitContext<'_>,
    value: Option<u32>,
) -> Result<(), Failure> {
    match value {
        Some(var) => emit_ops(code, &[around.operand(var), TemplateOp::SetGlobal(RESULT)]),
        None => Ok(()),
    }
}
