//! Substitution of an instance's types for the parameters in what its class writes.

use crate::type_list::type_args;
use failure::{Failure, limit};
use sa_ast::{Ty, TypeParam};
use sa_subst::{Substitution, subst_with};
use sa_terms::size;
use std::alloc::Global;

/// The greatest number of types that the needed instances are made of, counted by place, as many as a source has bytes.
/// Past it the answer is that memory has run out.
pub(crate) const MOST_NODES: u64 = 4_194_304;

/// The substitution at an instance: the types for the parameters of its class and for SAME.
#[derive(Drop)]
pub(crate) struct Instantiation<'a> {
    by: Substitution<'a>,
    /// Of how many types the instance consists.
    size: u64,
}

impl<'a> Instantiation<'a> {
    pub(crate) fn of(
        alloc: Global,
        params: &[TypeParam],
        own: &'a Ty,
    ) -> Result<Instantiation<'a>, Failure> {
        let by = Substitution::make(alloc, params, type_args(own), own)?;
        Ok(Instantiation {
            by,
            size: size(own),
        })
    }

    /// What a written type is at the instance. Where it may be made of more types than a program's types may be, the answer
    /// is that memory has run out.
    pub(crate) fn put_into(&self, alloc: Global, written: &Ty) -> Result<Ty, Failure> {
        if size(written).saturating_mul(self.size) > MOST_NODES {
            return limit();
        }
        subst_with(alloc, written, &self.by)
    }
}
