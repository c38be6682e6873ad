//! Which variables operations and terminators read and set, and which a suspension copies out and a resumption passes.

use crate::sets::VarSet;
use failure::{Failure, Invariant, known};
use sa_ast::Mode;
use sa_cfg::{BodyParam, CallOperand, CfgOperation, Terminator};

/// The arguments of a body by what a suspension and a resumption do with them.
#[derive(Clone, Copy)]
pub struct PassedVars {
    /// Those that are copied out where the body is suspended or left: `out` and `inout` ones.
    pub back: VarSet,
    /// Those that a resumption sets: all but the `once` ones.
    pub anew: VarSet,
}

impl PassedVars {
    /// The arguments of a body, which are its first variables.
    pub fn of(formals: &[BodyParam]) -> Result<PassedVars, Failure> {
        let mut delivered = PassedVars {
            back: VarSet::NONE,
            anew: VarSet::NONE,
        };
        for (var, formal) in formals.iter().enumerate() {
            let var = known(u32::try_from(var).ok(), Invariant::CfgNumber)?;
            delivered = delivered.with(var, formal.mode);
        }
        Ok(delivered)
    }

    /// With one more argument.
    fn with(self, var: u32, mode: Mode) -> PassedVars {
        match mode {
            Mode::In => PassedVars {
                back: self.back,
                anew: self.anew.with(var),
            },
            Mode::Out => self.with_back(var),
            Mode::Inout => self.with_back(var),
            Mode::Once => self,
        }
    }

    /// With one more argument that is copied out.
    fn with_back(self, var: u32) -> PassedVars {
        PassedVars {
            back: self.back.with(var),
            anew: self.anew.with(var),
        }
    }
}

/// The variables that an operation reads.
pub fn read_by_operation(step: &CfgOperation) -> VarSet {
    match step {
        CfgOperation::Const { .. } => VarSet::NONE,
        CfgOperation::Move { from, .. } => VarSet::of(*from),
        CfgOperation::SelfRef { .. } => VarSet::NONE,
        CfgOperation::IsVoid { from, .. } => VarSet::of(*from),
        CfgOperation::Turn => VarSet::NONE,
        CfgOperation::New { .. } => VarSet::NONE,
        CfgOperation::NewArray { count, .. } => VarSet::of(*count),
        CfgOperation::SetElement {
            array,
            at,
            value,
            ..
        } => VarSet::of(*array).with(*at).with(*value),
        CfgOperation::Box { from, .. } => VarSet::of(*from),
        CfgOperation::BoxFor { from, recv, .. } => VarSet::of(*from).with(*recv),
        CfgOperation::Unbox { from, .. } => VarSet::of(*from),
        CfgOperation::TypeIs { from, .. } => VarSet::of(*from),
        CfgOperation::CheckNotVoid { from, .. } => VarSet::of(*from),
        CfgOperation::InitShared { from, .. } => VarSet::of(*from),
        CfgOperation::Call { plan } => passed_variables(plan.args.as_slice()).with(plan.recv),
        CfgOperation::Bind { plan, .. } => given(plan.args.as_slice()).with(plan.recv),
        CfgOperation::HasInstance { .. } => VarSet::NONE,
        CfgOperation::Start { plan, .. } => passed_variables(plan.args.as_slice()).with(plan.recv),
        CfgOperation::Resume { plan, .. } => passed_on_resume(plan.args.as_slice()),
        CfgOperation::HasFrame { .. } => VarSet::NONE,
        CfgOperation::Enter { recv, args, .. } => passed_variables(args.as_slice()).with(*recv),
        CfgOperation::Release { .. } => VarSet::NONE,
        CfgOperation::SetException { value, .. } => VarSet::of(*value),
    }
}

/// The variables that an operation sets where it doesn't raise. A start and a resumption set none of the arguments, since an instance that
/// ends copies nothing out.
pub fn set_by_operation(step: &CfgOperation) -> VarSet {
    match step {
        CfgOperation::Const { to, .. } => VarSet::of(*to),
        CfgOperation::Move { to, .. } => VarSet::of(*to),
        CfgOperation::SelfRef { to } => VarSet::of(*to),
        CfgOperation::IsVoid { to, .. } => VarSet::of(*to),
        CfgOperation::Turn => VarSet::NONE,
        CfgOperation::New { to, .. } => VarSet::of(*to),
        CfgOperation::NewArray { to, .. } => VarSet::of(*to),
        CfgOperation::SetElement { .. } => VarSet::NONE,
        CfgOperation::Box { to, .. } => VarSet::of(*to),
        CfgOperation::BoxFor { to, .. } => VarSet::of(*to),
        CfgOperation::Unbox { to, .. } => VarSet::of(*to),
        CfgOperation::TypeIs { to, .. } => VarSet::of(*to),
        CfgOperation::CheckNotVoid { .. } => VarSet::NONE,
        CfgOperation::InitShared { .. } => VarSet::NONE,
        CfgOperation::Call { plan } => copied_back(plan.args.as_slice()).with_some(plan.value),
        CfgOperation::Bind { plan, .. } => VarSet::NONE.with_some(plan.value),
        CfgOperation::HasInstance { to, .. } => VarSet::of(*to),
        CfgOperation::Start { plan, quit, .. } => VarSet::of(*quit).with_some(plan.value),
        CfgOperation::Resume { plan, quit, .. } => VarSet::of(*quit).with_some(plan.value),
        CfgOperation::HasFrame { to } => VarSet::of(*to),
        CfgOperation::Enter { value, quit, .. } => VarSet::of(*quit).with_some(*value),
        CfgOperation::Release { .. } => VarSet::NONE,
        CfgOperation::SetException { to, .. } => VarSet::of(to.value).with(to.place).with(to.kind),
    }
}

/// The block to which a fault or a raise of an operation goes.
pub fn raised_by_operation(step: &CfgOperation) -> Option<u32> {
    match step {
        CfgOperation::New { fail, .. } => Some(fail.raised.block),
        CfgOperation::NewArray { fail, .. } => Some(fail.raised.block),
        CfgOperation::Box { fail, .. } => Some(fail.raised.block),
        CfgOperation::BoxFor { fail, .. } => Some(fail.raised.block),
        CfgOperation::CheckNotVoid { fail, .. } => Some(fail.raised.block),
        CfgOperation::Call { plan } => Some(plan.fail.raised.block),
        CfgOperation::Bind { plan, .. } => Some(plan.fail.raised.block),
        CfgOperation::Start { plan, .. } => Some(plan.fail.raised.block),
        CfgOperation::Resume { plan, .. } => Some(plan.fail.raised.block),
        _ => None,
    }
}

/// The variables that a terminator reads.
pub fn read_by_terminator(exit: &Terminator, delivered: PassedVars) -> VarSet {
    match exit {
        Terminator::Jump(_) => VarSet::NONE,
        Terminator::Branch { test, .. } => VarSet::of(*test),
        Terminator::Return { value } => delivered.back.with_some(*value),
        Terminator::Suspend { value, .. } => delivered.back.with_some(*value),
        Terminator::Quit => VarSet::NONE,
        Terminator::Raise { value, place, kind } => VarSet::of(*value).with(*place).with(*kind),
        Terminator::Fault { .. } => VarSet::NONE,
    }
}

/// The arguments that a call or a start reads: all but the `out` ones.
fn passed_variables(args: &[CallOperand]) -> VarSet {
    let mut vars = VarSet::NONE;
    for arg in args {
        if arg.mode != Mode::Out {
            vars = vars.with_some(arg.var);
        }
    }
    vars
}

/// The arguments that a resumption reads: the `in` and `inout` ones.
fn passed_on_resume(args: &[CallOperand]) -> VarSet {
    let mut vars = VarSet::NONE;
    for arg in args {
        if arg.mode == Mode::In || arg.mode == Mode::Inout {
            vars = vars.with_some(arg.var);
        }
    }
    vars
}

/// The arguments that a bind reads: those that aren't left open.
fn given(args: &[CallOperand]) -> VarSet {
    let mut vars = VarSet::NONE;
    for arg in args {
        vars = vars.with_some(arg.var);
    }
    vars
}

/// The arguments that a call sets: the `out` and `inout` ones.
fn copied_back(args: &[CallOperand]) -> VarSet {
    let mut vars = VarSet::NONE;
    for arg in args {
        if arg.mode == Mode::Out || arg.mode == Mode::Inout {
            vars = vars.with_some(arg.var);
        }
    }
    vars
}
