//! Laws of the semantics, each as what a function with an empty body ensures.

ghost use Rattle.sa_semantics.specs.Law.{IsGrowing, IsSameBefore, IsSpending, IsSteady};

use sa_typed::TypedProgram;

/// A run that is over in some turns is the same in more, whatever the input and the room.
#[tactic(auto, using(crate::proofs::WholeRuns::steady))]
pub fn is_steady(core: &TypedProgram)
    ensures { IsSteady core.now }
{}

/// The output of a run in some turns is a prefix of its output in more.
#[tactic(auto, using(crate::proofs::WholeRuns::growing))]
pub fn is_growing(core: &TypedProgram)
    ensures { IsGrowing core.now }
{}

/// A run that isn't over has spent all its turns.
#[tactic(auto, using(crate::proofs::WholeRuns::spending))]
pub fn is_spending(core: &TypedProgram)
    ensures { IsSpending core.now }
{}

/// Where there is no protect, a run ends in the same way whether faults can be caught or not.
#[tactic(auto, using(crate::proofs::SameBefore::same_before))]
pub fn is_same_before(core: &TypedProgram)
    ensures { IsSameBefore core.now }
{}
