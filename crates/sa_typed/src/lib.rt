//! The typed AST of an accepted program. Classes and their type parameters are gone, calls are resolved, and everything that the semantics
//! of the program speaks of has a number. (The rules by which it is well typed are in `sa_typing`.)
#![tactic(auto)]

mod count;
mod expr;
mod feature;
mod position_list;
mod program;
mod stmt;

pub use count::{expr_nodes, feature_nodes, shared_nodes};
pub use expr::{TypedArg, TypedExpr};
pub use feature::{Site, Target, TypedCallee, TypedFeature};
pub use position_list::positions;
pub use program::{TypeDef, TypedImplementation, TypedProgram, TypedShared, TypedSignature};
pub use stmt::{LoopExit, TypedArm, TypedBranch, TypedStmt};
