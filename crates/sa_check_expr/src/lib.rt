//! Typed expressions from those of a source: the recursion over expressions, and the typing rules of operators, objects and binds.
#![tactic(auto)]

mod bind;
mod children;
mod inside;
mod leaving;
mod object;
mod operator;
mod part;
mod receiver;
mod reversed;
mod rows;

pub use bind::bind_form;
pub use children::{synthesise, synthesise_all};
pub use leaving::leave;
pub use object::{create, is_void, new_array, new_object};
pub use operator::{OperatorCall, binary, index, short_circuit, unary};
pub use part::parts;
pub use receiver::operand;
pub use rows::type_expr;
pub use sa_check_calls::{
    BodyOutput, Call, CheckContext, CheckScope, CheckTables, CheckedExpr, Expected, LeavingCall,
    Receiver, Synthesised, SynthesisedArg, Variable, boxed, is_iter_name, is_sub, leave_form,
    only_argument, position, typed_call, variable_named, written_type,
};
