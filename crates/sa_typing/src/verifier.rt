//! The verifier of typed programs.

ghost use Rattle.std.specs.Prelude.{◌≡◌, ◌↔◌, IfOk, IsTrue, map};
ghost use Rattle.sa_typing.specs.Rows.{rows};
ghost use Rattle.sa_typing.specs.CallTypes.{characters_in, signature_call_type, call_type_of_bound};
ghost use Rattle.sa_typing.specs.WellTyped.{AreWellTyped, IsWellTyped, rows_of};
ghost use Rattle.sa_typing.specs.CallTypeTables.{AreCallTypes};

use crate::call_type::{CallType, Numbers, characters_of};
use crate::features::{well_features, well_main, well_shareds};
use crate::layout::is_acyclic;
use crate::signatures::well_signatures;
use crate::types::{well_base_types, well_types};
use crate::view::TypingView;
use failure::Failure;
use sa_typed::TypedProgram;
use std::alloc::Global;

/// Whether a program is well typed.
///
/// # Errors
///
/// A `Failure`.
#[tactic(auto, using(crate::proofs::Parts::rows))]
pub fn is_well_typed(alloc: Global, core: &TypedProgram) -> Result<bool, Failure>
    ensures { IfOk result (λ well. IsTrue well ↔ IsWellTyped core.now) }
{
    let shapes = CallTypes::of(alloc, core)?;
    are_well_typed(alloc, &shapes.view(core), core.main)
}

/// The call types of the bound types and the signatures of a program.
#[derive(Drop)]
pub struct CallTypes {
    /// By type, where it is a bound type.
    pub bound: Vec<Option<CallType>>,
    /// By signature.
    pub signatures: Vec<Option<CallType>>,
    /// The number of ARRAY{CHAR}, where it is a type of the program.
    pub characters: Option<u32>,
}

impl CallTypes {
    /// The call types of a program.
    ///
    /// # Errors
    ///
    /// A `Failure`.
    pub fn of(alloc: Global, core: &TypedProgram) -> Result<CallTypes, Failure>
        ensures { IfOk result (AreCallTypes core.now) }
    {
        let types = core.types.as_slice();
        let numbers = Numbers::make(alloc, types)?;
        Ok(CallTypes {
            bound: numbers.bound_call_types(alloc)?,
            signatures: numbers.signature_call_types(alloc, core.sigs.as_slice())?,
            characters: characters_of(types)?,
        })
    }

    /// The program as its tables.
    pub fn view<'a>(&'a self, core: &'a TypedProgram) -> TypingView<'a>
        requires { AreCallTypes core.now self.now }
        ensures { rows result ≡ rows_of core.now }
    {
        TypingView {
            types: core.types.as_slice(),
            features: core.features.as_slice(),
            shareds: core.shareds.as_slice(),
            signatures: core.sigs.as_slice(),
            bound: self.bound.as_slice(),
            shapes: self.signatures.as_slice(),
            characters: self.characters,
        }
    }
}

/// Whether a program with these tables, of which this feature is run, is well typed.
#[tactic(auto, using(crate::proofs::Parts::parts))]
fn are_well_typed(alloc: Global, view: &TypingView<'_>, main: u32) -> Result<bool, Failure>
    ensures { IfOk result (λ well. IsTrue well ↔ AreWellTyped (rows view.now) main) }
{
    if !well_base_types(view) {
        return Ok(false);
    }
    if !well_types(alloc, view)? {
        return Ok(false);
    }
    if !is_acyclic(alloc, view)? {
        return Ok(false);
    }
    if !well_signatures(view) {
        return Ok(false);
    }
    if !well_shareds(view) {
        return Ok(false);
    }
    if !well_features(alloc, view)? {
        return Ok(false);
    }
    Ok(well_main(view, main))
}
