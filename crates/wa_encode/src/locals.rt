//! The locals of a code entry (section 5.5.13), as runs of one type.

ghost use Rattle.std.specs.Prelude.{◌≡◌, ◌++◌, ◌∷◌, [], replicate, IfOk, IfNone, IfSome, OnOk};
ghost use Rattle.wa_syntax.specs.Locals.{types_of_runs};
ghost use Rattle.wa_syntax.specs.Binary as binary;
ghost use Rattle.wa_encode.specs.Spelling.{Adds, AreApart, AreLongest, AreLongestTo, IsJoined};

use crate::types::value_type;
use crate::value::{number, vector};
use std::alloc::Global;
use wa_syntax::{LocalRun, Locals, NoMemory, ValTy};

/// The locals of a function, in the longest runs of one type.
pub fn locals(alloc: Global, out: &mut Vec<u8>, locals: &Locals) -> Result<(), NoMemory>
    ensures { OnOk result (Adds (binary.locals locals.now) out.old.items out.new.items) }
{
    let runs = longest_runs(alloc, locals.runs())?;
    vector(out, runs.as_slice(), run)
}

/// A run: how many locals there are, and their type.
fn run(out: &mut Vec<u8>, run: &LocalRun) -> Result<(), NoMemory>
    ensures { OnOk result (Adds (binary.run run.now) out.old.items out.new.items) }
{
    number(out, &run.count)?;
    value_type(out, &run.ty)
}

/// The same locals in runs that are as long as they can be: neighbours of one type are joined, and empty runs omitted.
#[tactic(auto, using(crate::proofs::Joining::joining, std::proofs::lemmas::Grind::common_steps))]
fn longest_runs(alloc: Global, runs: &[LocalRun]) -> Result<Vec<LocalRun>, NoMemory>
    ensures same { IfOk result (λ longest. types_of_runs longest.items ≡ types_of_runs runs.now) }
    ensures longest { IfOk result (λ longest. AreLongest longest.items) }
{
    let mut longest = Vec::new(alloc);
    let mut last = LocalRun {
        count: 0,
        ty: ValTy::I32,
    };
    for run in runs {
        last = with_run(&mut longest, last, *run)?;
    }
    if last.count == 0 {
        return Ok(longest);
    }
    longest.push(last)?;
    Ok(longest)
}

/// Adds a run after the last one, which isn't in the list yet, and gives the one that is then the last.
#[tactic(auto, using(crate::proofs::Joining::joining))]
fn with_run(
    longest: &mut Vec<LocalRun>,
    last: LocalRun,
    run: LocalRun,
) -> Result<LocalRun, NoMemory>
    ensures same { IfOk result (λ longer. types_of_runs (longest.new.items ++ longer ∷ [])
        ≡ types_of_runs (longest.old.items ++ last ∷ []) ++ types_of_runs (run ∷ [])) }
    ensures longest { AreLongestTo longest.old.items last → IfOk result (λ longer. AreLongestTo longest.new.items longer) }
{
    match joined(last, run) {
        Some(longer) => Ok(longer),
        None => {
            longest.push(last)?;
            Ok(run)
        }
    }
}

/// Two runs as one, where one is empty, or both have one type and 32 bits hold their sum.
#[tactic(auto, using(crate::proofs::Joining::joining))]
fn joined(first: LocalRun, second: LocalRun) -> Option<LocalRun>
    ensures same { IfSome result (λ run. replicate run.count run.ty ≡ replicate first.count first.ty ++ replicate second.count second.ty) }
    ensures some { IfSome result (IsJoined first second) }
    ensures none { IfNone result (AreApart first second) }
{
    if first.count == 0 {
        return Some(second);
    }
    if second.count == 0 {
        return Some(first);
    }
    if first.ty != second.ty {
        return None;
    }
    let count = first.count.checked_add(second.count)?;
    Some(LocalRun {
        count,
        ty: first.ty,
    })
}
