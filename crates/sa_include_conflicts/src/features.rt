//! The features of a class before any replaces another, and which of them are stubs.

ghost use Rattle.std.specs.Prelude.{◌≡◌, IfOk, Some, length, slice_get};
ghost use Rattle.sa_include_conflicts.specs.Sharing.{all_features};
ghost use Rattle.sa_include_conflicts.specs.Stub.{is_stub_part};

use crate::lists::item;
use failure::Failure;
use sa_ast::{Feature, FeatureBody};

/// The features of a class before any replaces another: those that it includes, then those that it writes. An index
/// counts them in this order, from 0.
#[derive(Clone, Copy)]
pub struct ClassFeatures<'a> {
    /// Those that a class includes.
    pub inherited: &'a [Feature],
    /// Those that the class writes.
    pub written: &'a [Feature],
    /// Whether they are those of an immutable class.
    pub immutable: bool,
}

impl<'a> ClassFeatures<'a> {
    /// How many there are.
    pub fn len(&self) -> usize
        ensures { result ≡ length (all_features self.now) }
    {
        self.inherited.len() + self.written.len()
    }

    /// The feature at an index.
    ///
    /// # Errors
    ///
    /// `Broken` where there is none.
    #[tactic(auto, using(crate::proofs::Places::places))]
    pub fn at(&self, place: usize) -> Result<&'a Feature, Failure>
        ensures { IfOk result (λ feature. slice_get (all_features self.now) place ≡ Some feature.now) }
    {
        let inherited = self.inherited.len();
        if place < inherited {
            return item(self.inherited, place);
        }
        item(self.written, place - inherited)
    }
}

/// Whether a feature is a stub, which the including class has to give.
pub fn is_stub(feature: &Feature) -> bool
    ensures { result ≡ is_stub_part feature.now.part }
{
    match feature.part {
        FeatureBody::Stub => true,
        _ => false,
    }
}
