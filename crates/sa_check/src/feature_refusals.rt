//! The refusals of the bodies of a program: the first one, or the first of each feature.

use failure::Failure;
use indexmap::IndexMap;
use sa_ast::{Pos, Refusal, Rejection};
use sa_typed::TypedProgram;
use std::alloc::Global;

/// Which refusals of bodies are looked for.
#[derive(Clone, Copy)]
enum Extent {
    /// The first one.
    First,
    /// The first of each feature.
    OfEach,
}

/// The refusals of bodies so far.
#[derive(Drop)]
pub struct Diagnostics {
    wanted: Extent,
    /// The first refusal of each feature that is refused, by the position of its name.
    by_feature: IndexMap<Pos, Refusal>,
}

impl Diagnostics {
    /// No refusals, where checking ends with the first one.
    pub fn first(alloc: Global) -> Diagnostics {
        Diagnostics::new(alloc, Extent::First)
    }

    /// No refusals, where the first one of each feature is looked for.
    pub fn of_each(alloc: Global) -> Diagnostics {
        Diagnostics::new(alloc, Extent::OfEach)
    }

    fn new(alloc: Global, wanted: Extent) -> Diagnostics {
        Diagnostics {
            wanted,
            by_feature: IndexMap::new(alloc),
        }
    }

    /// Takes why the feature with this name has no typed body, or gives it back where no later refusal is looked for.
    pub(crate) fn take(&mut self, feature: Pos, fault: Rejection) -> Result<(), Rejection> {
        match (self.wanted, fault) {
            (Extent::OfEach, Rejection::Refused(refusal)) => Ok(self.add(feature, refusal)?),
            _ => Err(fault),
        }
    }

    /// Adds a refusal of the feature with this name, unless it has one.
    fn add(&mut self, feature: Pos, refusal: Refusal) -> Result<(), Failure> {
        if self.by_feature.get(&feature).is_none() {
            self.by_feature.insert(feature, refusal)?;
        }
        Ok(())
    }

    /// The typed program if nothing is refused, or else the first refusal, with the others appended to `further`. The last of them is that
    /// of `core`, where `core` is a refusal.
    pub fn answer(
        &self,
        core: Result<TypedProgram, Rejection>,
        further: &mut Vec<Refusal>,
    ) -> Result<TypedProgram, Rejection> {
        let Some((_, first)) = self.by_feature.get_index(0) else {
            return core;
        };
        self.add_others(further)?;
        match core {
            Err(Rejection::Refused(last)) => further.push(last)?,
            Err(Rejection::Failed(failure)) => return Err(Rejection::Failed(failure)),
            Ok(_core) => {}
        }
        Err(Rejection::Refused(*first))
    }

    /// Appends all refusals but the first to others.
    fn add_others(&self, further: &mut Vec<Refusal>) -> Result<(), Failure> {
        for place in 1..self.by_feature.len() {
            if let Some((_, refusal)) = self.by_feature.get_index(place) {
                further.push(*refusal)?;
            }
        }
        Ok(())
    }
}
