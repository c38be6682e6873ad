//! Which variables operations and terminators read and set.

use failure::Failure;
use sa_ast::Mode;
use sa_cfg::{CallOperand, CallOperation, CfgOperation, Terminator};

/// Adds the variables that an operation reads.
pub(crate) fn add_read(vars: &mut Vec<u32>, step: &CfgOperation) -> Result<(), Failure> {
    match step {
        CfgOperation::Const { .. } => Ok(()),
        CfgOperation::Move { from, .. } => add(vars, *from),
        CfgOperation::SelfRef { .. } => Ok(()),
        CfgOperation::IsVoid { from, .. } => add(vars, *from),
        CfgOperation::Turn => Ok(()),
        CfgOperation::New { .. } => Ok(()),
        CfgOperation::NewArray { count, .. } => add(vars, *count),
        CfgOperation::SetElement {
            array,
            at,
            value,
            ..
        } => {
            add(vars, *array)?;
            add(vars, *at)?;
            add(vars, *value)
        }
        CfgOperation::Box { from, .. } => add(vars, *from),
        CfgOperation::BoxFor { from, recv, .. } => {
            add(vars, *from)?;
            add(vars, *recv)
        }
        CfgOperation::Unbox { from, .. } => add(vars, *from),
        CfgOperation::TypeIs { from, .. } => add(vars, *from),
        CfgOperation::CheckNotVoid { from, .. } => add(vars, *from),
        CfgOperation::InitShared { from, .. } => add(vars, *from),
        CfgOperation::Call { plan } => add_plan(vars, plan),
        CfgOperation::Bind { plan, .. } => add_plan(vars, plan),
        CfgOperation::HasInstance { .. } => Ok(()),
        CfgOperation::Start { plan, .. } => add_plan(vars, plan),
        CfgOperation::Resume { plan, .. } => add_plan(vars, plan),
        CfgOperation::HasFrame { .. } => Ok(()),
        CfgOperation::Enter { recv, args, .. } => {
            add(vars, *recv)?;
            add_args(vars, args.as_slice())
        }
        CfgOperation::Release { .. } => Ok(()),
        CfgOperation::SetException { value, .. } => add(vars, *value),
    }
}

/// Adds the variables that an operation sets.
pub fn add_set(vars: &mut Vec<u32>, step: &CfgOperation) -> Result<(), Failure> {
    match step {
        CfgOperation::Const { to, .. } => add(vars, *to),
        CfgOperation::Move { to, .. } => add(vars, *to),
        CfgOperation::SelfRef { to } => add(vars, *to),
        CfgOperation::IsVoid { to, .. } => add(vars, *to),
        CfgOperation::Turn => Ok(()),
        CfgOperation::New { to, .. } => add(vars, *to),
        CfgOperation::NewArray { to, .. } => add(vars, *to),
        CfgOperation::SetElement { .. } => Ok(()),
        CfgOperation::Box { to, .. } => add(vars, *to),
        CfgOperation::BoxFor { to, .. } => add(vars, *to),
        CfgOperation::Unbox { to, .. } => add(vars, *to),
        CfgOperation::TypeIs { to, .. } => add(vars, *to),
        CfgOperation::CheckNotVoid { .. } => Ok(()),
        CfgOperation::InitShared { .. } => Ok(()),
        CfgOperation::Call { plan } => add_answers(vars, plan),
        CfgOperation::Bind { plan, .. } => add_some(vars, plan.value),
        CfgOperation::HasInstance { to, .. } => add(vars, *to),
        CfgOperation::Start { plan, quit, .. } => add_outcome(vars, plan, *quit),
        CfgOperation::Resume { plan, quit, .. } => add_outcome(vars, plan, *quit),
        CfgOperation::HasFrame { to } => add(vars, *to),
        CfgOperation::Enter {
            args,
            value,
            quit,
            ..
        } => {
            add(vars, *quit)?;
            add_some(vars, *value)?;
            add_copied_back(vars, args.as_slice())
        }
        CfgOperation::Release { .. } => Ok(()),
        CfgOperation::SetException { to, .. } => {
            add(vars, to.value)?;
            add(vars, to.place)?;
            add(vars, to.kind)
        }
    }
}

/// Adds the variables that a terminator reads.
pub(crate) fn add_read_by_exit(vars: &mut Vec<u32>, exit: &Terminator) -> Result<(), Failure> {
    match exit {
        Terminator::Jump(_) => Ok(()),
        Terminator::Branch { test, .. } => add(vars, *test),
        Terminator::Return { value } => add_some(vars, *value),
        Terminator::Suspend { value, .. } => add_some(vars, *value),
        Terminator::Quit => Ok(()),
        Terminator::Raise { value, place, kind } => {
            add(vars, *value)?;
            add(vars, *place)?;
            add(vars, *kind)
        }
        Terminator::Fault { .. } => Ok(()),
    }
}

fn add(vars: &mut Vec<u32>, var: u32) -> Result<(), Failure> {
    vars.push(var)?;
    Ok(())
}

fn add_some(vars: &mut Vec<u32>, var: Option<u32>) -> Result<(), Failure> {
    match var {
        Some(var) => add(vars, var),
        None => Ok(()),
    }
}

/// A call reads its receiver and its arguments. Those that it doesn't pass count as read too.
fn add_plan(vars: &mut Vec<u32>, plan: &CallOperation) -> Result<(), Failure> {
    add(vars, plan.recv)?;
    add_args(vars, plan.args.as_slice())
}

fn add_args(vars: &mut Vec<u32>, args: &[CallOperand]) -> Result<(), Failure> {
    for arg in args {
        add_some(vars, arg.var)?;
    }
    Ok(())
}

fn add_answers(vars: &mut Vec<u32>, plan: &CallOperation) -> Result<(), Failure> {
    add_some(vars, plan.value)?;
    add_copied_back(vars, plan.args.as_slice())
}

fn add_outcome(vars: &mut Vec<u32>, plan: &CallOperation, quit: u32) -> Result<(), Failure> {
    add(vars, quit)?;
    add_answers(vars, plan)
}

fn add_copied_back(vars: &mut Vec<u32>, args: &[CallOperand]) -> Result<(), Failure> {
    for arg in args {
        if is_copied_back(arg.mode) {
            add_some(vars, arg.var)?;
        }
    }
    Ok(())
}

fn is_copied_back(mode: Mode) -> bool {
    matches!(mode, Mode::Out | Mode::Inout)
}
