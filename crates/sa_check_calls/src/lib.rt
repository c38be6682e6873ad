//! Overload resolution and the typing rules of calls, which are applied once their arguments are typed, and the contextual forms: they take
//! their type from their context.
#![tactic(auto)]

mod bound;
mod calls;
mod candidates;
mod check_tables;
mod checked_expr;
mod checking;
mod choice;
mod const_call;
mod constant;
mod expected;
mod iter;
mod leaving;
mod literal;
mod passing;
mod receiver;
mod synthesised;
mod target;
mod types;
mod variables;

pub use bound::{bound_callee, bound_name};
pub use calls::{Call, CallHead, call_form, typed_call};
pub use candidates::{Candidate, description};
pub use check_tables::{CheckContext, CheckScope, CheckTables, Variable};
pub use checked_expr::{BodyOutput, CheckedExpr, first_iter, position};
pub use checking::check_value;
pub use choice::{ChosenFeature, ChosenParam, bound_candidate, described_choice, resolve_call};
pub use expected::Expected;
pub use iter::is_iter_name;
pub use leaving::{LeavingCall, leave_form};
pub use literal::{character, exception, int, of_type, self_ref, text, truth};
pub use passing::{PassedArgs, actual_args, pass_args};
pub use receiver::Receiver;
pub use synthesised::{Synthesised, SynthesisedArg, only_argument};
pub use target::{Resolved, member_target};
pub use types::{boxed, is_concrete, is_sub, kind_of, number_of, type_of, written_type};
pub use variables::{variable_named, variable_value};
