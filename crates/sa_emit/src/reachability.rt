//! What a program can reach from its last body: bodies, signatures, binds, texts, and functions of the runtime.

use crate::sums::{number, sum};
use failure::{Failure, Invariant, broken, known};
use sa_cfg::{
    BasicBlock, CallOperation, CallTarget, CfgOperation, CfgProgram, Constant, Terminator,
};
use sa_dispatch::ImplementationTable;
use sa_prelude::BuiltinFeature;
use sa_runtime::layout::{
    ALLOCATE, BOOL, BOUND_CALL, BOX_IMMUTABLE, BOX_WORD, CHANGED, CHAR, END_FRAME, FAULT,
    FIRST_BUILTIN, FIRST_TRACE_FUNCTION, FUNCTIONS, INT, NEW_FRAME, RELEASE, UNBOX,
};
use sa_runtime::trace::Tracing;
use sa_stackify::{BuiltinForm, form_of};
use sa_structure::raised_of;
use std::alloc::Global;

/// What is reached.
#[derive(Drop)]
pub(crate) struct Reachable {
    /// For each body whether it is.
    pub bodies: Vec<bool>,
    /// For each signature whether a reached body calls or binds it.
    pub signatures: Vec<bool>,
    /// For each bind whether a reached body makes its values.
    pub binds: Vec<bool>,
    /// For each text whether a reached body has it.
    pub texts: Vec<bool>,
    /// For each function of the runtime whether a reached body calls it.
    pub runtime: Vec<bool>,
    /// The bodies that are reached and haven't been gone through.
    waiting: Vec<u32>,
}

/// What a program reaches. A traced one has all functions that write trace records.
pub(crate) fn reachable_of(
    alloc: Global,
    flat: &CfgProgram,
    rows: &ImplementationTable,
    tracing: Tracing,
) -> Result<Reachable, Failure> {
    let mut reached = Reachable {
        bodies: vec![in alloc; false; flat.bodies.len()]?,
        signatures: vec![in alloc; false; rows.signatures() as usize]?,
        binds: vec![in alloc; false; flat.binds.len()]?,
        texts: vec![in alloc; false; flat.texts.len()]?,
        runtime: vec![in alloc; false; FUNCTIONS as usize]?,
        waiting: Vec::new(alloc),
    };
    reached.reach_trace_functions(tracing)?;
    if let Some(last) = flat.bodies.len().checked_sub(1) {
        reached.reach_body(number(last)?)?;
    }
    for _ in 0..flat.bodies.len() {
        let Some(body) = reached.waiting.pop() else {
            break;
        };
        reached.go_through_body(flat, rows, body)?;
    }
    Ok(reached)
}

/// Marks an entry: whether it wasn't marked before.
fn mark(list: &mut Vec<bool>, at: u32) -> Result<bool, Failure> {
    match list.get_mut(at as usize) {
        Some(marked) => {
            let fresh = !*marked;
            *marked = true;
            Ok(fresh)
        }
        None => broken(Invariant::CfgNumber),
    }
}

impl Reachable {
    fn reach_body(&mut self, body: u32) -> Result<(), Failure> {
        if mark(&mut self.bodies, body)? {
            self.waiting.push(body)?;
        }
        Ok(())
    }

    fn reach_signature(
        &mut self,
        flat: &CfgProgram,
        rows: &ImplementationTable,
        sig: u32,
    ) -> Result<(), Failure> {
        if !mark(&mut self.signatures, sig)? || rows.types(sig).is_empty() {
            return Ok(());
        }
        let first = known(rows.first(sig), Invariant::CfgNumber)?;
        let end = sum(first, number(rows.types(sig).len())?)?;
        for row in first..end {
            self.reach_body(*known(flat.targets.get(row as usize), Invariant::CfgNumber)?)?;
        }
        Ok(())
    }

    fn reach_trace_functions(&mut self, tracing: Tracing) -> Result<(), Failure> {
        match tracing {
            Tracing::Off => Ok(()),
            Tracing::On(_) => {
                for function in FIRST_TRACE_FUNCTION..FUNCTIONS {
                    self.reach_runtime(function)?;
                }
                Ok(())
            }
        }
    }

    fn reach_runtime(&mut self, function: u32) -> Result<(), Failure> {
        mark(&mut self.runtime, function)?;
        Ok(())
    }

    fn go_through_body(
        &mut self,
        flat: &CfgProgram,
        rows: &ImplementationTable,
        body: u32,
    ) -> Result<(), Failure> {
        for block in known(flat.bodies.get(body as usize), Invariant::CfgNumber)?
            .blocks
            .as_slice()
        {
            self.go_through(flat, rows, block)?;
        }
        Ok(())
    }

    fn go_through(
        &mut self,
        flat: &CfgProgram,
        rows: &ImplementationTable,
        block: &BasicBlock,
    ) -> Result<(), Failure> {
        for step in block.steps.as_slice() {
            if raised_of(step).is_some() {
                self.reach_runtime(FAULT)?;
            }
            self.reach_by(flat, rows, step)?;
        }
        if let Terminator::Fault { .. } = block.exit {
            self.reach_runtime(FAULT)?;
        }
        Ok(())
    }

    fn reach_by(
        &mut self,
        flat: &CfgProgram,
        rows: &ImplementationTable,
        step: &CfgOperation,
    ) -> Result<(), Failure> {
        match step {
            CfgOperation::Const {
                value: Constant::Text(text),
                ..
            } => {
                mark(&mut self.texts, *text)?;
                Ok(())
            }
            CfgOperation::New { .. } => self.reach_runtime(ALLOCATE),
            CfgOperation::NewArray { .. } => {
                self.reach_runtime(FIRST_BUILTIN + BuiltinFeature::ArrayCreate as u32)
            }
            CfgOperation::Box { ty, .. } => self.reach_boxing(*ty),
            CfgOperation::BoxFor { ty, .. } => self.reach_boxing(*ty),
            CfgOperation::Unbox { .. } => self.reach_runtime(UNBOX),
            CfgOperation::Call { plan } => self.reach_called(flat, rows, plan),
            CfgOperation::Bind { entry, .. } => self.reach_bind(flat, rows, *entry),
            CfgOperation::Start { plan, .. } => self.reach_iter(flat, rows, plan),
            CfgOperation::Resume { plan, .. } => self.reach_iter(flat, rows, plan),
            CfgOperation::Enter { body, .. } => {
                self.reach_frames()?;
                self.reach_body(*body)
            }
            CfgOperation::Release { .. } => self.reach_runtime(RELEASE),
            _ => Ok(()),
        }
    }

    fn reach_boxing(&mut self, ty: u32) -> Result<(), Failure> {
        if ty == BOOL || ty == INT || ty == CHAR {
            return self.reach_runtime(BOX_WORD);
        }
        self.reach_runtime(BOX_IMMUTABLE)
    }

    fn reach_frames(&mut self) -> Result<(), Failure> {
        self.reach_runtime(NEW_FRAME)?;
        self.reach_runtime(END_FRAME)
    }

    fn reach_iter(
        &mut self,
        flat: &CfgProgram,
        rows: &ImplementationTable,
        plan: &CallOperation,
    ) -> Result<(), Failure> {
        self.reach_frames()?;
        self.reach_called(flat, rows, plan)
    }

    fn reach_called(
        &mut self,
        flat: &CfgProgram,
        rows: &ImplementationTable,
        plan: &CallOperation,
    ) -> Result<(), Failure> {
        match plan.callee {
            CallTarget::Body(body) => self.reach_body(body),
            CallTarget::Builtin(feature) => self.reach_builtin(feature),
            CallTarget::Set(_) => self.reach_runtime(CHANGED),
            CallTarget::Dispatch(sig) => self.reach_signature(flat, rows, sig),
            CallTarget::Bound => self.reach_runtime(BOUND_CALL),
            CallTarget::Get(_) => Ok(()),
            CallTarget::GetShared(_) => Ok(()),
            CallTarget::SetShared(_) => Ok(()),
        }
    }

    fn reach_builtin(&mut self, feature: BuiltinFeature) -> Result<(), Failure> {
        match form_of(feature) {
            BuiltinForm::Called => self.reach_runtime(FIRST_BUILTIN + u32::from(feature.number())),
            _ => Ok(()),
        }
    }

    /// What the values of a bind call is reached where they are made.
    fn reach_bind(
        &mut self,
        flat: &CfgProgram,
        rows: &ImplementationTable,
        entry: u32,
    ) -> Result<(), Failure> {
        self.reach_runtime(ALLOCATE)?;
        if !mark(&mut self.binds, entry)? {
            return Ok(());
        }
        match known(flat.binds.get(entry as usize), Invariant::CfgNumber)?.callee {
            CallTarget::Body(body) => self.reach_body(body),
            CallTarget::Dispatch(sig) => self.reach_signature(flat, rows, sig),
            _ => Ok(()),
        }
    }
}
