//! Bodies and their basic blocks: the control-flow graph of a routine or an iter.

use crate::operation::{CfgOperation, Terminator};
use sa_ast::Mode;
use sqlite_items::Items;

/// The number of the first temporary. A feature has fewer variables.
pub const FIRST_TEMPORARY: u32 = 200;

/// The number of the block of each body that leaves it with a raise.
pub const UNWIND_BLOCK: u32 = 1;

/// A parameter of a body: its mode and its type.
#[derive(Clone, Copy, Debug, PartialEq, Eq, Hash)]
pub struct BodyParam {
    pub mode: Mode,
    /// The index of its type.
    pub ty: u32,
}

/// A basic block: operations that are done one after the other, and then a terminator.
#[derive(Drop)]
pub struct BasicBlock {
    pub steps: Items<CfgOperation>,
    pub exit: Terminator,
}

/// The control-flow graph of a routine or an iter. It begins in block 0, with its arguments in the first variables.
#[derive(Drop)]
pub struct CfgBody {
    /// The index of the feature, in which the variables have the same numbers. The last body of a program has none, nor has an adapter.
    pub feature: Option<u32>,
    pub iter: bool,
    pub formals: Items<BodyParam>,
    /// How many variables it has, arguments included and temporaries not. Numbers from `FIRST_TEMPORARY` on are temporaries.
    pub variable_count: u32,
    /// One more than the greatest number of a temporary.
    pub temporaries: u32,
    /// How many sites of iter calls it has.
    pub sites: u32,
    /// The variables that are saved while the body is suspended, rising.
    pub saved: Items<u32>,
    pub blocks: Items<BasicBlock>,
}
