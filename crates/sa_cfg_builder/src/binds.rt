//! The fragment for a bind, at the end of the open block.

use crate::builder::ProgramBuilder;
use failure::Failure;
use sa_cfg::{BoundLayout, CallOperand, CallOperation, CallTarget, CfgOperation};
use sqlite_items::Items;
use std::alloc::Global;

impl ProgramBuilder {
    /// Adds an operation that makes a value of the bound type `ty` from the receiver and the arguments that are given.
    pub fn bind(&mut self, alloc: Global, plan: CallOperation, ty: u32) -> Result<(), Failure> {
        let entry = self.tables.bind(BoundLayout {
            ty,
            callee: plan.callee,
            class: class_of(&plan),
            open: open(alloc, plan.args.as_slice())?,
        })?;
        self.body.step(CfgOperation::Bind { plan, entry })
    }
}

/// The class whose feature is called. Of a signature the receiver chooses it.
fn class_of(plan: &CallOperation) -> u32 {
    match plan.callee {
        CallTarget::Dispatch(_) => 0,
        _ => plan.class,
    }
}

/// For each argument, whether it is left open.
fn open(alloc: Global, args: &[CallOperand]) -> Result<Items<bool>, Failure> {
    let mut open = Items::new(alloc);
    for arg in args {
        open.push(arg.var.is_none())?;
    }
    Ok(open)
}
