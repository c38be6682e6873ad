//! One operation, as the instructions that its own function emits.

use crate::entering::{EnterStep, emit_enter, emit_has_frame};
use crate::frames::{emit_has_instance, emit_release};
use crate::sites::{emit_resume, emit_start};
use crate::{
    Boxing, BoxingReceivers, EmitContext, NewArray, emit_bind, emit_box, emit_box_for, emit_call,
    emit_const, emit_init_shared, emit_is_void, emit_move, emit_new, emit_new_array, emit_self,
    emit_set_element, emit_type_is, emit_unbox, emit_void_test,
};
use failure::Failure;
use sa_cfg::{CfgOperation, Handler};
use sa_runtime::fault_numbers::UNCAUGHT;
use sa_runtime::template_ops::{TemplateOp, emit_ops};
use sqlite_items::Items;
use std::alloc::Global;
use wa_syntax::Instr;

/// Emits an operation.
///
/// # Errors
///
/// A `Failure`: `Broken` where a number of the step is out of range.
pub fn emit_step(
    alloc: Global,
    code: &mut Items<Instr>,
    around: &EmitContext<'_>,
    step: &CfgOperation,
) -> Result<(), Failure> {
    match step {
        CfgOperation::Const { to, value } => emit_const(code, around, *to, value),
        CfgOperation::Move { to, from } => emit_move(code, around, *to, *from),
        CfgOperation::SelfRef { to } => emit_self(code, around, *to),
        CfgOperation::IsVoid { to, from } => emit_is_void(code, around, *to, *from),
        CfgOperation::Turn => Ok(()),
        CfgOperation::New { to, ty, fail } => emit_new(alloc, code, around, *to, *ty, fail),
        CfgOperation::NewArray {
            to,
            ty,
            count,
            fail,
        } => {
            let array = NewArray {
                to: *to,
                ty: *ty,
                count: *count,
            };
            emit_new_array(alloc, code, around, array, fail)
        }
        CfgOperation::SetElement {
            array,
            ty,
            at,
            value,
        } => emit_set_element(code, around, *array, *ty, *at, *value),
        CfgOperation::Box { to, from, ty, fail } => {
            emit_box(alloc, code, around, boxing_of(*to, *from, *ty), fail)
        }
        CfgOperation::Unbox { to, from, ty } => emit_unbox(code, around, *to, *from, *ty),
        CfgOperation::TypeIs { to, from, ty } => emit_type_is(code, around, *to, *from, *ty),
        CfgOperation::CheckNotVoid { from, fail } => emit_void_test(
            alloc, code, around, *from, fail,
        ),
        CfgOperation::InitShared { shared, from } => emit_init_shared(code, around, *shared, *from),
        CfgOperation::Call { plan } => emit_call(alloc, code, around, plan),
        CfgOperation::SetException { value, place, to } => emit_set_exception(
            code, around, *value, *place, to,
        ),
        CfgOperation::BoxFor {
            to,
            from,
            ty,
            recv,
            types,
            fail,
        } => {
            let takers = BoxingReceivers {
                recv: *recv,
                types: types.as_slice(),
            };
            emit_box_for(
                alloc,
                code,
                around,
                boxing_of(*to, *from, *ty),
                takers,
                fail,
            )
        }
        CfgOperation::Bind { plan, entry } => emit_bind(alloc, code, around, plan, *entry),
        CfgOperation::HasInstance { to, site } => emit_has_instance(code, around, *to, *site),
        CfgOperation::Start { site, plan, quit } => {
            emit_start(alloc, code, around, *site, plan, *quit)
        }
        CfgOperation::Resume { site, plan, quit } => {
            emit_resume(alloc, code, around, *site, plan, *quit)
        }
        CfgOperation::HasFrame { to } => emit_has_frame(code, around, *to),
        CfgOperation::Enter {
            body,
            recv,
            args,
            value,
            quit,
        } => {
            let entering = EnterStep {
                body: *body,
                recv: *recv,
                args: args.as_slice(),
                value: *value,
                quit: *quit,
            };
            emit_enter(alloc, code, around, &entering)
        }
        CfgOperation::Release { sites } => emit_release(alloc, code, around, sites.as_slice()),
    }
}

/// The boxing of a value of the immutable class `ty` into a variable.
fn boxing_of(to: u32, from: u32, ty: u32) -> Boxing {
    Boxing { to, from, ty }
}

/// Sets the variables of a raise by the statement `raise` at a position.
fn emit_set_exception(
    code: &mut Items<Instr>,
    around: &EmitContext<'_>,
    value: u32,
    place: u32,
    to: &Handler,
) -> Result<(), Failure> {
    let line = [
        around.operand(value),
        TemplateOp::Set(around.local(to.value)),
        TemplateOp::I64(u64::from(place)),
        TemplateOp::Set(around.local(to.place)),
        TemplateOp::I64(u64::from(UNCAUGHT)),
        TemplateOp::Set(around.local(to.kind)),
    ];
    emit_ops(code, &line)
}
