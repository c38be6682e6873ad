//! The control-flow graph (CFG) of a program, as types: bodies of numbered basic blocks, whose operations work on numbered variables and
//! whose terminators name the next block. It comes between the typed AST, which nests, and a module's functions, which suspend and are
//! resumed.
#![tactic(auto)]

mod body;
mod call;
mod operation;
mod program;

pub use body::{BasicBlock, BodyParam, CfgBody, FIRST_TEMPORARY, UNWIND_BLOCK};
pub use call::{CallOperand, CallOperation, CallTarget, FaultExit, Handler};
pub use operation::{CfgOperation, Constant, Terminator};
pub use program::{BoundLayout, CfgProgram, TypeLayout};
