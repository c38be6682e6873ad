//! The typed program that its files declare, with or without the checks of its contracts.

ghost use Rattle.std.specs.Prelude.{◌≡◌, IfOk, MatchResult, None};
ghost use Rattle.sa_contracts.specs.AskedChecks.{asked_by};
ghost use Rattle.sa_contracts.specs.NotQuiet.{first_in_features};
ghost use Rattle.sa_cli.specs.declared.command.Contracts.TheVariants.{Checked};
ghost use Rattle.sa_driver.specs.Accepted.{IsNotQuiet, asked_under, classes_under};

use crate::classes::{check_all, check_needed};
use failure::Failure;
use sa_ast::{Class, Refusal, Rejection};
use sa_cli::{Contracts, Extent};
use sa_contracts::{Checks, WovenProgram, weave};
use sa_read::ParsedFiles;
use sa_typed::TypedProgram;
use sqlite_items::Items;
use std::alloc::Global;

/// The typed program of what these texts declare.
///
/// # Errors
///
/// The first refusal by the rules of classes and bodies. Where contracts are checked, then that of the classes with the checks in
/// their bodies, and then E46. Where all is checked, the further refusals of the same classes are put at the end of `further`.
/// A `Failure`.
#[tactic(auto, using(crate::proofs::QuietLemmas::none))]
pub(crate) fn accepted(
    alloc: Global,
    declared: ParsedFiles,
    texts: &[Items<u8>],
    contracts: Contracts,
    extent: Extent,
    further: &mut Vec<Refusal>,
) -> Result<TypedProgram, Rejection>
    ensures quiet { let asked = asked_under contracts declared.contracts declared.classes in
        IfOk result (λ core. first_in_features asked core.features ≡ None) }
{
    let core = typed(alloc, declared.classes.as_slice(), texts, extent, further)?;
    match contracts {
        Contracts::Dropped => Ok(core),
        Contracts::Checked => {
            drop(core);
            with_checks(alloc, declared, texts, extent, further)
        }
    }
}

/// The typed program of classes: what MAIN needs of them, or all.
fn typed(
    alloc: Global,
    classes: &[Class],
    texts: &[Items<u8>],
    extent: Extent,
    further: &mut Vec<Refusal>,
) -> Result<TypedProgram, Rejection> {
    match extent {
        Extent::Needed => check_needed(alloc, classes, texts),
        Extent::All => check_all(alloc, classes, texts, further),
    }
}

/// The typed program of the declared classes, with the checks of contracts in the bodies.
fn with_checks(
    alloc: Global,
    declared: ParsedFiles,
    texts: &[Items<u8>],
    extent: Extent,
    further: &mut Vec<Refusal>,
) -> Result<TypedProgram, Rejection>
    ensures quiet { let asked = asked_under Checked declared.contracts declared.classes in
        IfOk result (λ core. first_in_features asked core.features ≡ None) }
{
    let woven = woven(alloc, declared)?;
    let core = typed(alloc, woven.classes.as_slice(), texts, extent, further)?;
    if_quiet(core, &woven.checks)
}

/// The declared classes with the checks in their bodies, and a list of these checks.
fn woven(alloc: Global, declared: ParsedFiles) -> Result<WovenProgram, Failure>
    ensures classes { IfOk result (λ woven. woven.classes ≡ classes_under Checked declared.contracts declared.classes) }
    ensures checks { IfOk result (λ woven. asked_by woven.checks ≡ asked_under Checked declared.contracts declared.classes) }
{
    let ParsedFiles { classes, contracts } = declared;
    weave(alloc, classes, contracts.as_slice())
}

/// The typed program, if each of these checks is quiet in it.
fn if_quiet(core: TypedProgram, checks: &Checks) -> Result<TypedProgram, Rejection>
    ensures same { IfOk result (λ quiet. quiet ≡ core) }
    ensures quiet { let first = first_in_features (asked_by checks.now) core.features in
        MatchResult result (λ _. first ≡ None) (IsNotQuiet first) }
{
    checks.check_quiet(&core)?;
    Ok(core)
}
