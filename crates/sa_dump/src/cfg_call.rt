//! What operations are made of: variables, calls with their operands, and where faults go.

use crate::symbols::Symbols;
use crate::writer::Writer;
use sa_cfg::{
    CallOperand, CallOperation, CallTarget, CfgProgram, FIRST_TEMPORARY, FaultExit, Handler,
};
use sa_typed::Target;
use std::alloc::AllocError;

/// A program as control-flow graphs, with what its numbers stand for.
#[derive(Clone, Copy)]
pub(crate) struct Cfg<'a> {
    pub symbols: Symbols<'a>,
    pub program: &'a CfgProgram,
}

impl<'a> Cfg<'a> {
    /// A variable: `v0` is the first of the feature's, `t0` the first temporary.
    pub fn put_var(self, to: &mut Writer, var: u32) -> Result<(), AllocError> {
        match var.checked_sub(FIRST_TEMPORARY) {
            Some(temporary) => to.numbered("t", temporary),
            None => to.numbered("v", var),
        }
    }

    /// A variable after a space.
    pub fn put_part(self, to: &mut Writer, var: u32) -> Result<(), AllocError> {
        to.put(" ")?;
        self.put_var(to, var)
    }

    /// A variable that is given, and the sign after it.
    pub fn put_result(self, to: &mut Writer, var: u32) -> Result<(), AllocError> {
        self.put_var(to, var)?;
        to.put(" = ")
    }

    /// A variable after a word, where there is one.
    pub fn put_optional(self, to: &mut Writer, var: Option<u32>) -> Result<(), AllocError> {
        match var {
            Some(var) => self.put_part(to, var),
            None => Ok(()),
        }
    }

    /// The variable that gets a result, where there is one.
    pub fn put_optional_result(self, to: &mut Writer, var: Option<u32>) -> Result<(), AllocError> {
        match var {
            Some(var) => self.put_result(to, var),
            None => Ok(()),
        }
    }

    /// A block after a space.
    pub fn put_block(self, to: &mut Writer, block: u32) -> Result<(), AllocError> {
        to.numbered(" b", block)
    }

    /// A type after a word.
    pub fn put_with_type(self, to: &mut Writer, word: &str, ty: u32) -> Result<(), AllocError> {
        to.put(word)?;
        self.symbols.put_type(to, ty)
    }

    /// The line of a fault, where it is in one, and where it goes.
    pub fn put_fail(self, to: &mut Writer, fail: FaultExit) -> Result<(), AllocError> {
        if fail.line != 0 {
            to.numbered(", line ", fail.line)?;
        }
        self.put_unwind(to, fail.raised)
    }

    /// Where a raise goes, with the variables that get what is raised, unless these are the first three temporaries.
    pub fn put_unwind(self, to: &mut Writer, raised: Handler) -> Result<(), AllocError> {
        to.put(", unwind")?;
        self.put_block(to, raised.block)?;
        if raised.value == FIRST_TEMPORARY {
            return Ok(());
        }
        to.put(" with")?;
        self.put_raised(to, raised.value, raised.place, raised.kind)
    }

    /// The variables of what is raised: the object, the number of the position, and the kind of the fault.
    pub fn put_raised(
        self,
        to: &mut Writer,
        value: u32,
        place: u32,
        kind: u32,
    ) -> Result<(), AllocError> {
        self.put_part(to, value)?;
        self.put_part(to, place)?;
        self.put_part(to, kind)
    }

    /// A call: what is called, the receiver, the operands, and where its faults go.
    pub fn put_call(self, to: &mut Writer, plan: &CallOperation) -> Result<(), AllocError> {
        to.put(" ")?;
        self.put_callee(to, plan.callee, plan.class)?;
        to.put(" on")?;
        self.put_part(to, plan.recv)?;
        self.put_args(to, plan.args.as_slice())
    }

    /// What a call of a feature of this type reaches.
    pub fn put_callee(
        self,
        to: &mut Writer,
        callee: CallTarget,
        class: u32,
    ) -> Result<(), AllocError> {
        let symbols = self.symbols;
        let ty = Some(class);
        match callee {
            CallTarget::Body(number) => self.put_body(to, number),
            CallTarget::Builtin(feature) => symbols.put_builtin(to, feature, ty),
            CallTarget::Get(place) => symbols.put_target(to, Target::Get(place), ty),
            CallTarget::Set(place) => symbols.put_target(to, Target::Set(place), ty),
            CallTarget::GetShared(number) => symbols.put_target(to, Target::GetShared(number), ty),
            CallTarget::SetShared(number) => symbols.put_target(to, Target::SetShared(number), ty),
            CallTarget::Dispatch(number) => {
                to.put("dispatch ")?;
                symbols.put_signature(to, number as usize)
            }
            CallTarget::Bound => to.put("bound"),
        }
    }

    /// A body by the name of its feature, or by its number where it is an adapter.
    pub fn put_body(self, to: &mut Writer, number: u32) -> Result<(), AllocError> {
        match self.symbols.feature(number) {
            Some(_) => self.symbols.put_feature(to, number),
            None => to.numbered("body ", number),
        }
    }

    /// Operands with their modes, or `_` for one that a bind leaves open.
    pub fn put_args(self, to: &mut Writer, args: &[CallOperand]) -> Result<(), AllocError> {
        for arg in args {
            to.mode_before(arg.mode)?;
            match arg.var {
                Some(var) => self.put_part(to, var)?,
                None => to.put(" _")?,
            }
        }
        Ok(())
    }
}
