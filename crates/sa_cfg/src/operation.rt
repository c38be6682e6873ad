//! Operations and terminators.

use crate::call::{CallOperand, CallOperation, FaultExit, Handler};
use sa_ast::FaultKind;
use sqlite_items::Items;

/// A constant.
#[derive(Clone, Copy, Debug, PartialEq, Eq, Hash)]
pub enum Constant {
    /// The void value of the type at this index.
    Void(u32),
    Int(i32),
    Bool(bool),
    Char(u8),
    /// The text at this index of the program's texts.
    Text(u32),
}

/// An operation on the variables of a body. `to` is the variable that gets the result.
#[derive(Drop)]
pub enum CfgOperation {
    Const {
        to: u32,
        value: Constant,
    },
    Move {
        to: u32,
        from: u32,
    },
    /// The body's `self`.
    SelfRef {
        to: u32,
    },
    IsVoid {
        to: u32,
        from: u32,
    },
    /// Spends a turn: a round of a loop, or the initialiser of a shared.
    Turn,
    /// Makes a new object. It may fail for want of room.
    New {
        to: u32,
        ty: u32,
        fail: FaultExit,
    },
    /// Makes a new object with an array part of `count` elements. A negative count is a fault, want of room another.
    NewArray {
        to: u32,
        ty: u32,
        count: u32,
        fail: FaultExit,
    },
    /// Sets an element of an array literal at the index `at`, which can't fail.
    SetElement {
        array: u32,
        ty: u32,
        at: u32,
        value: u32,
    },
    /// Boxes a value of the immutable class `ty`, for an abstract type. It may fail for want of room.
    Box {
        to: u32,
        from: u32,
        ty: u32,
        fail: FaultExit,
    },
    /// Makes the value that a bind stores for an argument whose type in the signature is the immutable class `ty`: the value boxed where
    /// the class of `recv` is one of `types`, whose implementations take the argument at an abstract type, otherwise the value itself. It
    /// may fail for want of room.
    BoxFor {
        to: u32,
        from: u32,
        ty: u32,
        recv: u32,
        /// The indices of these types, rising.
        types: Items<u32>,
        fail: FaultExit,
    },
    /// Unboxes a boxed value of the immutable class `ty`.
    Unbox {
        to: u32,
        from: u32,
        ty: u32,
    },
    /// Tests whether the class of the value is `ty` or a subtype of it. The result is false for void.
    TypeIs {
        to: u32,
        from: u32,
        ty: u32,
    },
    /// Checks that the value of a raise isn't void: a void one is a fault.
    CheckNotVoid {
        from: u32,
        fail: FaultExit,
    },
    InitShared {
        shared: u32,
        from: u32,
    },
    Call {
        plan: CallOperation,
    },
    /// Makes a bound value with the layout at the index `entry`, from the receiver and the arguments that are given.
    Bind {
        plan: CallOperation,
        entry: u32,
    },
    /// Tests whether the site has an instance.
    HasInstance {
        to: u32,
        site: u32,
    },
    /// Starts an instance at the site. Afterwards `quit` is true where it has ended.
    Start {
        site: u32,
        plan: CallOperation,
        quit: u32,
    },
    /// Resumes the instance at the site. The receiver and the `once` arguments of the plan aren't read.
    Resume {
        site: u32,
        plan: CallOperation,
        quit: u32,
    },
    /// In an adapter of an iter: tests whether the instance for which it is entered has a frame already, so that it is resumed.
    HasFrame {
        to: u32,
    },
    /// In an adapter of an iter: at a start makes the instance's frame, and runs the iter's body on that frame. `recv` is the instance's
    /// `self`, which is read at a start alone.
    Enter {
        body: u32,
        recv: u32,
        args: Items<CallOperand>,
        value: Option<u32>,
        quit: u32,
    },
    /// Ends the instances at the sites in this order, with those inside them.
    Release {
        sites: Items<u32>,
    },
    /// Sets the variables of a handler as the statement `raise` does. `place` is the index of its position.
    SetException {
        value: u32,
        place: u32,
        to: Handler,
    },
}

/// The terminator of a block: what comes after its operations.
#[derive(Clone, Copy, Debug, PartialEq, Eq, Hash)]
pub enum Terminator {
    Jump(u32),
    /// Goes on in `yes` where the variable `test` is true, else in `no`.
    Branch {
        test: u32,
        yes: u32,
        no: u32,
    },
    /// Leaves the body with this value, and copies arguments out.
    Return {
        value: Option<u32>,
    },
    /// Yields this value, copies arguments out, and goes on in `resume` when the instance is resumed. An adapter has no block of its own in
    /// which it goes on.
    Suspend {
        value: Option<u32>,
        resume: Option<u32>,
    },
    /// Ends the instance.
    Quit,
    /// Leaves the body with a raise. `place` is the index of its position.
    Raise {
        value: u32,
        place: u32,
        kind: u32,
    },
    /// A fault of a statement.
    Fault {
        kind: FaultKind,
        fail: FaultExit,
    },
}
