//! A module from its bytes: one that is valid, and one that can be run.

ghost use Rattle.std.specs.Prelude.{◌≡◌, ◌<◌, ◌⊎◌, length, IfOk, IfErr};
ghost use Rattle.wa_syntax.specs.Binary.{SpellsModule};
ghost use Rattle.wa_syntax.specs.Runs.{IsLinked, SegmentsFit};
ghost use Rattle.wa_syntax.specs.ValidModule.{IsValid};
ghost use Rattle.wa_run.specs.Answers.{IsBeforeRun};
ghost use Rattle.wa_run.specs.Modules.{SaysOf};

use crate::answer::{Answer, answer_of_start};
use std::alloc::Global;
use wa_decode::{DecodeFault, decode};
use wa_exec::check_start;
use wa_valid::{Valid, ValidFault, validate};

/// The valid module that the bytes spell, or the answer where there is none.
pub(crate) fn load(alloc: Global, bytes: &[u8]) -> Result<Valid, Answer>
    requires size { length bytes.now < 4294967295 }
    ensures spelled { IfOk result (λ valid. SpellsModule bytes.now valid × IsValid valid) }
    ensures says { IfErr result (SaysOf bytes.now) }
    ensures before { IfErr result (λ answer. IsBeforeRun answer ⊎ (answer ≡ Answer.NoMemory)) }
{
    let module = match decode(alloc, bytes) {
        Ok(module) => module,
        Err(DecodeFault::Malformed) => return Err(Answer::Malformed),
        Err(DecodeFault::NoMemory) => return Err(Answer::NoMemory),
    };
    match validate(alloc, module) {
        Ok(valid) => Ok(valid),
        Err(ValidFault::Invalid { func }) => Err(Answer::Invalid(func)),
        Err(ValidFault::NoMemory) => Err(Answer::NoMemory),
    }
}

/// The module that the bytes spell, where it can be run: it is valid, it is linked, and its segments fit. It takes no table
/// and no memory for the check.
///
/// # Errors
///
/// The answer of [`run_bytes`](crate::run_bytes) where there is no such module: `Malformed`, `Invalid`, `Unlinked`, `Segment`
/// or `NoMemory`.
#[tactic(auto, using(crate::proofs::Spelled::says_unstartable, crate::proofs::Spelled::before_unstartable))]
pub fn runnable(alloc: Global, bytes: &[u8]) -> Result<Valid, Answer>
    requires size { length bytes.now < 4294967295 }
    ensures spelled { IfOk result (SpellsModule bytes.now) }
    ensures valid { IfOk result IsValid }
    ensures linked { IfOk result IsLinked }
    ensures fit { IfOk result SegmentsFit }
    ensures says { IfErr result (SaysOf bytes.now) }
    ensures before { IfErr result (λ answer. IsBeforeRun answer ⊎ (answer ≡ Answer.NoMemory)) }
{
    let valid = load(alloc, bytes)?;
    match check_start(alloc, &valid) {
        Ok(()) => Ok(valid),
        Err(fault) => Err(answer_of_start(fault)),
    }
}
