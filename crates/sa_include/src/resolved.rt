//! The classes of a program while their includes are resolved.

ghost use Rattle.std.specs.Prelude.{◌≡◌, false};

use sa_ast::{Class, Feature, Refusal};
use sa_include_names::Includes;
use sqlite_items::Items;
use std::alloc::Global;

/// A class whose includes are resolved, without the features that it writes itself.
#[derive(Drop)]
pub(crate) struct Flattened {
    /// The features that it includes and that stay.
    pub(crate) inherited: Items<Feature>,
    /// For each of them whether its statements may write a parameter.
    pub(crate) open: Vec<bool>,
    /// For each feature that the class writes whether it stays.
    pub(crate) stays: Vec<bool>,
    /// The first refusal of the class.
    pub(crate) refusal: Option<Refusal>,
    /// Whether the class was resolved.
    pub(crate) done: bool,
}

impl Flattened {
    /// The placeholder of a class until it is resolved.
    pub(crate) fn none(alloc: Global) -> Flattened
        ensures { result.done ≡ false }
    {
        Flattened {
            inherited: Items::new(alloc),
            open: Vec::new(alloc),
            stays: Vec::new(alloc),
            refusal: None,
            done: false,
        }
    }
}

/// The tables in which the features of classes are found.
#[derive(Drop)]
pub(crate) struct IncludeProgram<'a> {
    pub(crate) classes: &'a [Class],
    pub(crate) includes: &'a Includes,
    /// For each class and each feature that it writes whether its statements may write a parameter.
    pub(crate) open: &'a [Vec<bool>],
}
