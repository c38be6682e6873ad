//! How many AST nodes there are, and how many count for each parameter.

use failure::Failure;
use indexmap::IndexMap;
use sa_ast::{Name, TypeParam};
use std::alloc::Global;

/// How many AST nodes a tree has, and whether it writes one of the parameters in question.
#[derive(Clone, Copy)]
pub(crate) struct Size {
    pub(crate) forms: u64,
    pub(crate) has_params: bool,
}

impl Size {
    pub(crate) const ZERO: Size = Size {
        forms: 0,
        has_params: false,
    };

    pub(crate) const ONE: Size = Size {
        forms: 1,
        has_params: false,
    };

    /// That of two trees.
    pub(crate) fn plus(self, other: Size) -> Size {
        Size {
            forms: self.forms.saturating_add(other.forms),
            has_params: self.has_params || other.has_params,
        }
    }
}

/// What the bytes of a name or a text count besides the AST node that it belongs to.
pub(crate) fn size_of_bytes(name: &Name) -> Size {
    Size {
        forms: (name.as_slice().len() / 16) as u64,
        has_params: false,
    }
}

/// Names of parameters, and how many AST nodes count for each.
#[derive(Drop)]
pub(crate) struct Weights {
    by_name: IndexMap<Name, u64>,
}

impl Weights {
    pub(crate) fn new(alloc: Global) -> Weights {
        Weights {
            by_name: IndexMap::new(alloc),
        }
    }

    /// Gives a parameter its AST nodes if it has none yet: the first of two parameters with one name counts.
    pub(crate) fn add(
        &mut self,
        alloc: Global,
        param: &TypeParam,
        forms: u64,
    ) -> Result<(), Failure> {
        let name = &param.name.name;
        if self.by_name.get(name).is_some() {
            return Ok(());
        }
        self.by_name.insert(name.copy(alloc)?, forms)?;
        Ok(())
    }

    /// Gives each of these parameters one AST node if it has none yet.
    pub(crate) fn add_all(&mut self, alloc: Global, params: &[TypeParam]) -> Result<(), Failure> {
        for param in params {
            self.add(alloc, param, 1)?;
        }
        Ok(())
    }

    /// The size of a type that is a name alone.
    pub(crate) fn size_of_name(&self, name: &Name) -> Size {
        match self.by_name.get(name).copied() {
            Some(forms) => Size {
                forms,
                has_params: true,
            },
            None => Size::ONE.plus(size_of_bytes(name)),
        }
    }
}
