//! The abstract syntax tree (AST) of a Sather program, with the positions that refusals and faults name.
#![tactic(auto)]

mod class;
mod contract;
mod expr;
mod fault_kind;
mod name;
mod pos;
mod refusal;
mod rule;
mod shared;
mod stmt;
mod ty;

pub use class::{
    Access, Class, ClassKind, Feature, FeatureBody, FeatureModifier, FlatClass, FormalParam,
    Include, TypeParam,
};
pub use contract::{Condition, Contract};
pub use expr::{Expr, ExprArg, ExprReceiver, Operator};
pub use failure::NoMemory;
pub use fault_kind::FaultKind;
pub use name::Name;
pub use pos::{Pos, Sources, line_of};
pub use refusal::{Refusal, Rejection};
pub use rule::Rule;
pub use shared::Shared;
pub use stmt::{Body, BranchArm, CaseArm, Local, Stmt, TypeArm};
pub use ty::{Mode, ModeTy, Ty};
