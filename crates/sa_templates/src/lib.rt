//! The instructions of WebAssembly for the operations of a CFG body: values, objects, attributes, built-in features, calls, binds and
//! instances of iters, and the context that they have in common.
//!
//! What is named `emit_..` appends its instructions to the list `code`. `around` is the context of their position.
//! The answer is `Failure::NoMemory` where memory has run out, and `Broken` where a number that an operation has names nothing.
#![tactic(auto)]

mod area;
mod attributes;
mod binding;
mod builtins;
mod calls;
mod conditionals;
mod context;
mod dispatch;
mod entering;
mod entry;
mod failing;
mod frames;
mod leaving;
mod nesting;
mod objects;
mod operand_source;
mod outcome;
mod sites;
mod step;
mod subtype_ranges;
mod suspension;
mod values;

pub use area::{
    ARGUMENTS, CallPhase, emit_args, emit_copies_out, emit_formals, emit_once_formals,
    emit_prologue, emit_results, emit_stored_args, is_copied_out, is_once, parameters,
};
pub use attributes::{
    emit_get, emit_get_shared, emit_init_shared, emit_set, emit_set_shared, is_immutable, shared_at,
};
pub use binding::{BoxingReceivers, emit_bind, emit_box_for};
pub use builtins::emit_builtin;
pub use calls::{emit_call, emit_deeper, emit_depth_test, emit_too_deep};
pub use conditionals::{emit_if, emit_if_else};
pub use context::{
    EmitContext, EmitProgram, Role, address_local, block_local, frame_local, local_of, locals_of,
    parameters_of, self_local, site_local,
};
pub use dispatch::{
    ClassSource, DispatchedCall, Implementations, emit_chosen_call, emit_forwarded_fault,
    implementations_of,
};
pub use failing::{
    Jump, emit_fail, emit_fail_if, emit_forward, emit_jump, emit_raise, emit_void_test, jump_to,
    target_number,
};
pub use leaving::emit_leaving;
pub use nesting::LabelDepth;
pub use objects::{
    Boxing, NewArray, emit_box, emit_boxed, emit_new, emit_new_array, emit_set_element, emit_unbox,
};
pub use operand_source::OperandSource;
pub use step::emit_step;
pub use subtype_ranges::{SubtypeRanges, TypeRange, ranges_of};
pub use suspension::{
    emit_entry_prologue, emit_resume_prologue, emit_start_prologue, emit_suspension,
};
pub use values::{
    emit_any_range, emit_const, emit_is_void, emit_move, emit_self, emit_test, emit_truth,
    emit_type_is, emit_type_of, word_of,
};
