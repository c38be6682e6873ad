//! A program's typed AST and its module, from its files or from texts in memory.

ghost use Rattle.std.specs.Prelude.{◌≡◌, ◌≤◌, ◌<◌, ◌⊎◌, All, length, map, Err, None, IfErr, IfOk, IfSome, MatchResult};
ghost use Rattle.host_io.specs.Faults.{Rose};
ghost use Rattle.sa_read.specs.Front.{AreSpelled, IsRefusalOf};
ghost use Rattle.sa_correctness.specs.Confined.{IsConfined};
ghost use Rattle.sa_driver.specs.Answer.{default_room};
ghost use Rattle.sa_driver.specs.Built.{IsCompiled, IsNumbered, IsVerified};
ghost use Rattle.sa_driver.specs.Files.{ComesOfFiles, ComesOfGenerated, Explains, ExplainsProgram, IsByChecker};
ghost use Rattle.sa_driver.specs.Files.{IsPlaceIn, IsSpelledGenerated, IsSpelledProgram, generated_sources};
ghost use Rattle.sa_driver.specs.Internal.{IsInternal};
ghost use Rattle.sa_driver.specs.Lines.{IsInText, IsPlaced};
ghost use Rattle.sa_typing.specs.WellTyped.{IsWellTyped};

use crate::accepted::accepted;
use crate::cause::{Cause, failed};
use crate::checkers::is_of_checker;
use crate::module::{BuiltModule, module_of};
use crate::place::is_place_in;
use failure::{Failure, Invariant, limit};
use host_io::ReadFiles;
use sa_ast::{Name, Refusal, Rejection, Sources};
use sa_cli::{Contracts, Extent, ROOM, Trace};
use sa_gen::generate;
use sa_read::{ReadFault, SourceFiles, parse_program, prelude, read_program};
use sa_typed::TypedProgram;
use sqlite_items::Items;
use std::alloc::Global;

/// The texts of a program, and its typed AST or the cause why there is none.
#[derive(Drop)]
pub struct CheckResult {
    pub sources: Sources,
    pub core: Result<TypedProgram, Cause>,
    /// The refusals after the one that is the cause, where all is checked.
    pub further: Vec<Refusal>,
}

/// The texts of a program, and its module or the cause why there is none.
#[derive(Drop)]
pub struct CompileResult {
    pub sources: Sources,
    pub module: Result<BuiltModule, Cause>,
}

/// Reads the files of a program and checks it, what MAIN needs or all of it.
pub fn check_files<S: ReadFiles>(
    alloc: Global,
    store: &mut S,
    files: &[&str],
    contracts: Contracts,
    extent: Extent,
) -> CheckResult
    ensures core { MatchResult result.core
        (λ _. IsSpelledProgram (S.files store.old) (map (λ file. file.now) files.now) result.sources)
        (ComesOfFiles (S.files store.old) (Rose (S.faults store.old) (S.faults store.new))
        (map (λ file. file.now) files.now) result.sources) }
    ensures placed { IfErr result.core (IsPlaced result.sources) }
    ensures files { S.files store.new ≡ S.files store.old }
    ensures count { S.faults store.old ≤ S.faults store.new }
{
    match read_program(alloc, store, files) {
        Ok(program) => check_program(alloc, program, contracts, extent),
        Err(fault) => CheckResult {
            sources: no_sources(alloc),
            core: Err(unread(fault)),
            further: Vec::new(alloc),
        },
    }
}

/// Reads the files of a program and compiles it, traced or not, with this room for objects in KiB.
pub fn compile_files<S: ReadFiles>(
    alloc: Global,
    store: &mut S,
    files: &[&str],
    contracts: Contracts,
    room: u32,
    trace: Trace,
) -> CompileResult
    ensures module { MatchResult result.«module»
        (λ _. IsSpelledProgram (S.files store.old) (map (λ file. file.now) files.now) result.sources)
        (ComesOfFiles (S.files store.old) (Rose (S.faults store.old) (S.faults store.new))
        (map (λ file. file.now) files.now) result.sources) }
    ensures built { IfOk result.«module» IsVerified }
    ensures confined { IfOk result.«module» (λ built. IsConfined room built.«module») }
    ensures tree { IfOk result.«module» IsCompiled }
    ensures placed { IfErr result.«module» (IsPlaced result.sources) }
    ensures files { S.files store.new ≡ S.files store.old }
    ensures count { S.faults store.old ≤ S.faults store.new }
{
    let checked = check_files(alloc, store, files, contracts, Extent::Needed);
    compile_checked(alloc, checked, room, trace)
}

/// Compiles the generated program of this many classes, with the room of a run for which none is given.
pub fn compile_generated(alloc: Global, classes: u32) -> CompileResult
    ensures module { MatchResult result.«module» (λ _. IsSpelledGenerated classes result.sources) (ComesOfGenerated classes result.sources) }
    ensures built { IfOk result.«module» IsVerified }
    ensures confined { IfOk result.«module» (λ built. IsConfined default_room built.«module») }
    ensures tree { IfOk result.«module» IsCompiled }
    ensures placed { IfErr result.«module» (IsPlaced result.sources) }
{
    let checked = check_generated(alloc, classes);
    compile_checked(alloc, checked, ROOM, Trace::Silent)
}

/// Compiles a program of texts in memory, of which the first is the prelude's, as `sa_read::prelude` gives it: with or without the checks
/// of its contracts, traced or not, and with this room for objects in KiB.
///
/// The cause is `Refused` with the first refusal of these texts, `NoMemory`, or `Broken` where the compiler is wrong.
pub fn compile(
    alloc: Global,
    sources: Sources,
    contracts: Contracts,
    room: u32,
    trace: Trace,
) -> CompileResult
    requires short { All (λ text. length text < 4294967295) sources.texts }
    requires few { length sources.texts < 4294967295 }
    ensures same { result.sources ≡ sources }
    ensures module { MatchResult result.«module» (λ _. AreSpelled sources.texts) (Explains sources.texts) }
    ensures built { IfOk result.«module» IsVerified }
    ensures confined { IfOk result.«module» (λ built. IsConfined room built.«module») }
    ensures tree { IfOk result.«module» IsCompiled }
{
    let checked = check_texts(alloc, sources, contracts, Extent::Needed);
    compile_checked(alloc, checked, room, trace)
}

/// Compiles a program that was checked, traced or not, with this room for objects in KiB. The AST that is lowered is well typed.
///
/// The cause is that of `checked` where this has one, or else `NoMemory`, or `Broken` where the compiler is wrong.
pub fn compile_checked(
    alloc: Global,
    checked: CheckResult,
    room: u32,
    trace: Trace,
) -> CompileResult
    ensures same { result.sources ≡ checked.sources }
    ensures built { IfOk result.«module» IsVerified }
    ensures confined { IfOk result.«module» (λ built. IsConfined room built.«module») }
    ensures well { IfOk result.«module» (λ _. IfOk checked.core IsWellTyped) }
    ensures numbered { IfOk result.«module» (λ built. IfOk checked.core (λ core. IsNumbered core built)) }
    ensures made { IfOk result.«module» (λ _. IfErr checked.core (λ _. ⊥)) }
    ensures fault { IfErr result.«module» (λ cause. (checked.core ≡ Err cause) ⊎ IsInternal cause) }
{
    let CheckResult { sources, core, .. } = checked;
    let module = made(alloc, core, room, trace);
    CompileResult { sources, module }
}

/// The module of a typed AST, or the cause why there is none.
fn made(
    alloc: Global,
    core: Result<TypedProgram, Cause>,
    room: u32,
    trace: Trace,
) -> Result<BuiltModule, Cause>
    ensures built { IfOk result IsVerified }
    ensures confined { IfOk result (λ built. IsConfined room built.«module») }
    ensures well { IfOk result (λ _. IfOk core IsWellTyped) }
    ensures numbered { IfOk result (λ built. IfOk core (λ core. IsNumbered core built)) }
    ensures made { IfOk result (λ _. IfErr core (λ _. ⊥)) }
    ensures fault { IfErr result (λ cause. (core ≡ Err cause) ⊎ IsInternal cause) }
{
    match core {
        Ok(core) => match module_of(alloc, core, room, trace) {
            Ok(built) => Ok(built),
            Err(failure) => Err(failed(failure)),
        },
        Err(cause) => Err(cause),
    }
}

/// Checks the generated program of this many classes.
#[tactic(auto, using(crate::proofs::InternalLemmas::generated_none, crate::proofs::InternalLemmas::placed))]
fn check_generated(alloc: Global, classes: u32) -> CheckResult
    ensures core { MatchResult result.core (λ _. IsSpelledGenerated classes result.sources) (ComesOfGenerated classes result.sources) }
    ensures placed { IfErr result.core (IsPlaced result.sources) }
{
    match generated_sources(alloc, classes) {
        Ok(sources) => {
            let program = SourceFiles { sources, cut: None };
            check_program(alloc, program, Contracts::Dropped, Extent::Needed)
        }
        Err(failure) => CheckResult {
            sources: no_sources(alloc),
            core: Err(failed(failure)),
            further: Vec::new(alloc),
        },
    }
}

/// Checks a program, unless its files are too large.
fn check_program(
    alloc: Global,
    program: SourceFiles,
    contracts: Contracts,
    extent: Extent,
) -> CheckResult
    requires short { All (λ text. length text < 4294967295) program.sources.texts }
    requires few { length program.sources.texts ≤ 65536 }
    requires placed { IfSome program.cut (λ refusal. refusal.pos.file < length program.sources.texts) }
    ensures same { result.sources ≡ program.sources }
    ensures whole { IfOk result.core (λ _. (program.cut ≡ None) × AreSpelled program.sources.texts) }
    ensures fault { IfErr result.core (ExplainsProgram program) }
    ensures placed { IfErr result.core (IsPlaced result.sources) }
{
    let SourceFiles { sources, cut } = program;
    match cut {
        None => check_texts(alloc, sources, contracts, extent),
        Some(refusal) => CheckResult {
            sources,
            core: Err(Cause::Refused(refusal)),
            further: Vec::new(alloc),
        },
    }
}

/// The texts of the generated program of this many classes.
fn generated_sources(alloc: Global, classes: u32) -> Result<Sources, Failure>
    ensures value { IfOk result (λ sources. sources ≡ generated_sources classes) }
    ensures short { IfOk result (λ sources. All (λ text. length text < 4294967295) sources.texts) }
{
    let generated = match generate(alloc, classes) {
        Ok(generated) if generated.len() < u32::MAX as usize => generated,
        _ => return limit(),
    };
    let mut sources = prelude(alloc)?;
    sources.names.push(Name::from_slice(alloc, b"generated")?)?;
    sources.texts.push(Items::from_vec(generated))?;
    Ok(sources)
}

/// The texts of a call that has read none: no texts.
pub fn no_sources(alloc: Global) -> Sources {
    Sources {
        names: Items::new(alloc),
        texts: Items::new(alloc),
    }
}

/// The cause where a file couldn't be read.
pub fn unread(fault: ReadFault) -> Cause
    ensures store { fault ≡ ReadFault.Failed → result ≡ Cause.StoreFault }
    ensures memory { fault ≡ ReadFault.NoMemory → result ≡ Cause.NoMemory }
{
    match fault {
        ReadFault::Failed => Cause::StoreFault,
        ReadFault::NoMemory => Cause::NoMemory,
    }
}

/// Checks a program of texts in memory, of which the first is the prelude's: what MAIN needs of it or all of it, with or without the checks
/// of its contracts.
///
/// The cause is `Refused` with the first refusal of these texts, `NoMemory`, or `Broken` where the compiler is wrong.
pub fn check_texts(
    alloc: Global,
    sources: Sources,
    contracts: Contracts,
    extent: Extent,
) -> CheckResult
    requires short { All (λ text. length text < 4294967295) sources.texts }
    requires few { length sources.texts < 4294967295 }
    ensures same { result.sources ≡ sources }
    ensures made { IfOk result.core (λ _. AreSpelled sources.texts) }
    ensures fault { IfErr result.core (Explains sources.texts) }
{
    let mut further = Vec::new(alloc);
    let core = typed(
        alloc,
        sources.texts.as_slice(),
        contracts,
        extent,
        &mut further,
    );
    CheckResult {
        sources,
        core,
        further,
    }
}

/// The typed AST of a program of these texts, or the cause why there is none. A refusal of the checker by a rule that isn't its own, which
/// it never gives, is an internal error. Where all is checked, the refusals after the first are put at the end of `further`.
#[tactic(auto, using(crate::proofs::InternalLemmas::explains))]
pub(crate) fn typed(
    alloc: Global,
    texts: &[Items<u8>],
    contracts: Contracts,
    extent: Extent,
    further: &mut Vec<Refusal>,
) -> Result<TypedProgram, Cause>
    requires short { All (λ text. length text < 4294967295) texts.now }
    requires few { length texts.now < 4294967295 }
    ensures made { IfOk result (λ _. AreSpelled texts.now) }
    ensures fault { IfErr result (Explains texts.now) }
{
    let declared = match parse_program(alloc, texts) {
        Ok(declared) => declared,
        Err(Rejection::Refused(refusal)) => return Err(refused(refusal, texts)),
        Err(Rejection::Failed(failure)) => return Err(failed(failure)),
    };
    match accepted(alloc, declared, texts, contracts, extent, further) {
        Ok(core) => Ok(core),
        Err(Rejection::Refused(refusal)) if is_of_checker(refusal.rule) => {
            Err(refused(refusal, texts))
        }
        Err(Rejection::Refused(_)) => Err(Cause::Broken(Invariant::RefusalPhase)),
        Err(Rejection::Failed(failure)) => Err(failed(failure)),
    }
}

/// The cause of the refusal of these texts. A refusal at no position in them, which no phase gives, is an internal error.
fn refused(refusal: Refusal, texts: &[Items<u8>]) -> Cause
    requires { IsRefusalOf texts.now refusal ⊎ IsByChecker texts.now refusal }
    ensures explains { Explains texts.now result }
    ensures reported { IsPlaceIn texts.now refusal.pos → IsInText texts.now refusal.pos → result ≡ Cause.Refused refusal }
{
    if is_place_in(texts, refusal.pos) {
        return Cause::Refused(refusal);
    }
    Cause::Broken(Invariant::RefusalPosition)
}
