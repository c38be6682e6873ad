//! An implementation of a signature, and the arguments that its adapter has.

use failure::Failure;
use sa_cfg::BodyParam;
use sa_typed::TypedImplementation;
use sa_typing::{CallType, ParamType, TypingView, target_parameter, target_result};
use sqlite_items::Items;
use std::alloc::Global;

/// A signature of a program as it is implemented: by what, and with which parameters and which result.
#[derive(Clone, Copy)]
pub(crate) struct AdapterCall<'a> {
    pub view: &'a TypingView<'a>,
    pub implementation: &'a TypedImplementation,
    pub shape: &'a CallType,
}

impl<'a> AdapterCall<'a> {
    /// The parameters of the signature.
    pub fn params(&self) -> &'a [ParamType] {
        self.shape.params.as_slice()
    }

    /// The parameter at this index, as the implementation has it.
    pub fn parameter(&self, place: usize) -> Option<ParamType> {
        let TypedImplementation { ty, target } = *self.implementation;
        target_parameter(self.view, ty, target, place)
    }

    /// The type of what the implementation gives, if it gives anything.
    pub fn result(&self) -> Option<u32> {
        let TypedImplementation { ty, target } = *self.implementation;
        target_result(self.view, ty, target)
    }
}

/// The arguments of a body that has the parameters of a signature.
pub(crate) fn formals_of(alloc: Global, params: &[ParamType]) -> Result<Items<BodyParam>, Failure> {
    let mut formals = Items::new(alloc);
    for param in params {
        formals.push(BodyParam {
            mode: param.mode,
            ty: param.ty,
        })?;
    }
    Ok(formals)
}
