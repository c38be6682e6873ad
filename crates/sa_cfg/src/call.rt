//! Calls: their targets, their operands, and where their faults and raises go.

use failure::Failure;
use sa_ast::Mode;
use sa_prelude::BuiltinFeature;
use sqlite_items::Items;
use std::alloc::Global;

/// The target of a call.
#[derive(Clone, Copy, Debug, PartialEq, Eq, Hash)]
pub enum CallTarget {
    /// The body at this index.
    Body(u32),
    /// A built-in feature of the prelude.
    Builtin(BuiltinFeature),
    /// Reads the attribute at this index.
    Get(u32),
    /// Writes the attribute at this index. Of an immutable value it gives the changed copy.
    Set(u32),
    /// Reads the shared at this index.
    GetShared(u32),
    /// Writes the shared at this index.
    SetShared(u32),
    /// Dispatches: calls the implementation of the signature at this index by the receiver's class.
    Dispatch(u32),
    /// The bound value that is the receiver.
    Bound,
}

/// An operand of a call: its mode, and the variable that holds it and gets what is copied out. Without a variable it is an argument that a
/// bind leaves open.
#[derive(Clone, Copy, Debug, PartialEq, Eq, Hash)]
pub struct CallOperand {
    pub mode: Mode,
    pub var: Option<u32>,
}

/// The handler of a raise: a block, and the variables that get the raised value, the index of its position and its kind.
#[derive(Clone, Copy, Debug, PartialEq, Eq, Hash)]
pub struct Handler {
    pub block: u32,
    pub value: u32,
    pub place: u32,
    pub kind: u32,
}

/// The fault exit of an operation: the position that a fault reports, and the handler to which it goes.
#[derive(Clone, Copy, Debug, PartialEq, Eq, Hash)]
pub struct FaultExit {
    /// The index of its position in the program's `positions`.
    pub place: u32,
    /// The line of that position.
    pub line: u32,
    pub raised: Handler,
}

/// A call: its target, its operands, the variable of its result, and its fault exit.
#[derive(Drop)]
pub struct CallOperation {
    pub callee: CallTarget,
    /// The index of the type whose feature is called.
    pub class: u32,
    /// The variable that holds the receiver.
    pub recv: u32,
    pub args: Items<CallOperand>,
    /// The variable that gets the result, where one is wanted.
    pub value: Option<u32>,
    pub fail: FaultExit,
}

impl CallOperation {
    /// A copy of the call.
    pub fn copy(&self, alloc: Global) -> Result<CallOperation, Failure> {
        Ok(CallOperation {
            callee: self.callee,
            class: self.class,
            recv: self.recv,
            args: Items::from_slice(alloc, self.args.as_slice())?,
            value: self.value,
            fail: self.fail,
        })
    }
}
