//! Signature keys. A signature that a type writes hides those with its key that it would inherit.

use crate::features::feature_of;
use failure::{Failure, Invariant, known};
use indexmap::IndexMap;
use sa_ast::{Mode, Name};
use sa_graph::word;
use sa_instantiate::{Instances, Member};
use std::alloc::Global;

/// The key by which a signature hides others: its name, the modes and types of its parameters, and whether it has a result.
#[derive(Clone, Copy, PartialEq, Eq, Hash)]
pub(crate) struct SignatureKey {
    /// The number of the name.
    name: u32,
    /// The number of the list of parameters.
    args: u32,
    gives: bool,
}

/// A list of parameters that isn't empty: the list of all but the last, and the last one.
#[derive(Clone, Copy, PartialEq, Eq, Hash)]
struct ArgList {
    others: u32,
    mode: Mode,
    ty: u32,
}

/// The names and the lists of parameters of signatures, each with a number.
#[derive(Drop)]
pub(crate) struct SignatureKeys {
    names: IndexMap<Name, ()>,
    /// The lists from number 1 on. The empty list has number 0.
    lists: IndexMap<ArgList, ()>,
}

impl SignatureKeys {
    /// No names and no lists but the empty one.
    pub(crate) fn new(alloc: Global) -> SignatureKeys {
        SignatureKeys {
            names: IndexMap::new(alloc),
            lists: IndexMap::new(alloc),
        }
    }

    /// The signature key of a member of a type.
    pub(crate) fn of(
        &mut self,
        alloc: Global,
        program: &Instances<'_>,
        ty: u32,
        member: &Member,
    ) -> Result<SignatureKey, Failure> {
        let feature = feature_of(program, ty, member)?;
        let (name, _) = self.names.insert_full(feature.name.name.copy(alloc)?, ())?;
        Ok(SignatureKey {
            name: word(name, Invariant::SignatureTable)?,
            args: self.args(program, ty, member)?,
            gives: member.result.is_some(),
        })
    }

    /// The number of the list of a member's parameters.
    fn args(&mut self, program: &Instances<'_>, ty: u32, member: &Member) -> Result<u32, Failure> {
        let mut list = 0;
        for (k, mode) in member.modes.as_slice().iter().enumerate() {
            let ty = known(program.argument(ty, member, k), Invariant::SignatureTable)?;
            list = self.longer(ArgList {
                others: list,
                mode: *mode,
                ty,
            })?;
        }
        Ok(list)
    }

    /// The number of a list that isn't empty.
    fn longer(&mut self, list: ArgList) -> Result<u32, Failure> {
        let (place, _) = self.lists.insert_full(list, ())?;
        word(place.saturating_add(1), Invariant::SignatureTable)
    }
}
