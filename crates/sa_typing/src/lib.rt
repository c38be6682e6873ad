//! The typing rules of the typed AST, and the verifier: whether a program is well typed, by the conditions of `specs/WellTyped.antt`. (The AST
//! itself is in `sa_typed`.)
#![tactic(auto)]

mod binds;
mod builtins;
mod call_type;
mod callee;
mod context;
mod expr;
mod expr_type;
mod features;
mod forms;
mod layout;
mod passing;
mod signatures;
mod sites;
mod stmt;
mod targets;
mod types;
mod verifier;
mod view;

pub use builtins::{BOOL, CHAR, INT, OB, STR};
pub use call_type::CallType;
pub use callee::{parameter, result_type};
pub use context::{TypingContext, TypingEnv};
pub use expr_type::{ExprType, ParamType, ResolvedCallee};
pub use features::{env_of, env_of_initialiser};
pub use targets::{is_target_iter, target_parameter, target_result};
pub use verifier::{CallTypes, is_well_typed};
pub use view::TypingView;
