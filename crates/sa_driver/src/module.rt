//! The module of a typed program, which is verified before it is given: it is valid, it is linked, its segments fit, and it is confined.

ghost use Rattle.std.specs.Prelude.{◌≡◌, ◌++◌, ◌<◌, flat_map, length, map, IfOk, OnOk};
ghost use Rattle.sa_driver.specs.Built.{IsNumbered, IsVerified, feature_sites};
ghost use Rattle.sa_correctness.specs.Confined.{IsConfined};
ghost use Rattle.sa_typing.specs.WellTyped.{IsWellTyped};

use crate::confined::is_confined;
use crate::passes::module_of_well_typed;
use failure::{Failure, Invariant, broken};
use sa_ast::Pos;
use sa_cfg::CfgProgram;
use sa_cli::Trace;
use sa_dispatch::ImplementationTable;
use sa_emit::{emit, emit_traced};
use sa_lower::lower;
use sa_typed::{Site, TypedFeature, TypedProgram, positions};
use sa_typing::is_well_typed;
use sqlite_items::Items;
use std::alloc::Global;
use wa_run::{Answer, runnable};
use wa_syntax::Module;
use wa_valid::Valid;

/// A program's module, its bytes, and the positions that it names by index.
#[derive(Drop)]
pub struct BuiltModule {
    pub module: Valid,
    pub bytes: Vec<u8>,
    /// The positions that a stop names.
    pub positions: Items<Pos>,
    /// The positions of the sites, which a traced module names.
    pub sites: Items<Pos>,
}

/// The module of a typed program, traced or not, with this room for its objects in KiB. Fails with `NoMemory` where memory runs out or a
/// module of WebAssembly can't be as large as this one, and with `Broken` where the compiler is wrong: the AST isn't well typed, or the
/// module can't be run or isn't confined.
pub fn module_of(
    alloc: Global,
    core: TypedProgram,
    room: u32,
    trace: Trace,
) -> Result<BuiltModule, Failure>
    ensures tried { IfOk result IsVerified }
    ensures confined { IfOk result (λ built. IsConfined room built.«module») }
    ensures well { IfOk result (λ _. IsWellTyped core) }
    ensures numbered { IfOk result (IsNumbered core) }
{
    if !is_well_typed(alloc, &core)? {
        return broken(Invariant::IllTyped);
    }
    module_of_well_typed(alloc, core, room, trace)
}

/// The control-flow graphs of a typed program.
///
/// # Errors
///
/// `NoMemory`; `Broken` where the program isn't well typed.
pub fn cfg_of(alloc: Global, core: &TypedProgram) -> Result<CfgProgram, Failure>
    ensures well { IfOk result (λ _. IsWellTyped core.now) }
{
    if !is_well_typed(alloc, core)? {
        return broken(Invariant::IllTyped);
    }
    lower(alloc, core, positions(alloc, core)?)
}

/// The module of a program's control-flow graphs, traced or not.
pub(crate) fn emitted(
    alloc: Global,
    flat: &CfgProgram,
    rows: &ImplementationTable,
    room: u32,
    trace: Trace,
) -> Result<Module, Failure> {
    match trace {
        Trace::Silent => emit(alloc, flat, rows, room),
        Trace::Reported => emit_traced(alloc, flat, rows, room),
    }
}

/// The positions of the sites of features, one feature after the other.
#[tactic(auto, using(crate::proofs::ModuleLemmas::sites_from))]
pub(crate) fn sites(alloc: Global, features: &[TypedFeature]) -> Result<Items<Pos>, Failure>
    ensures { IfOk result (λ sites. sites ≡ flat_map feature_sites features.now) }
{
    let mut sites = Items::new(alloc);
    for feature in features {
        add_sites(&mut sites, feature.sites.as_slice())?;
    }
    Ok(sites)
}

/// Adds the positions of sites.
fn add_sites(to: &mut Items<Pos>, sites: &[Site]) -> Result<(), Failure>
    ensures { OnOk result (to.new ≡ to.old ++ map (λ site. site.pos) sites.now) }
{
    for site in sites {
        to.push(site.pos)?;
    }
    Ok(())
}

/// The module of these bytes, where they spell one that can be run and is confined, with this room in KiB.
pub(crate) fn tried(
    alloc: Global,
    bytes: Vec<u8>,
    room: u32,
    positions: Items<Pos>,
    sites: Items<Pos>,
) -> Result<BuiltModule, Failure>
    requires { length bytes.items < 4294967295 }
    ensures tried { IfOk result IsVerified }
    ensures confined { IfOk result (λ built. IsConfined room built.«module») }
    ensures positions { IfOk result (λ built. built.positions ≡ positions) }
    ensures sites { IfOk result (λ built. built.sites ≡ sites) }
{
    match runnable(alloc, bytes.as_slice()) {
        Ok(module) if is_confined(module.module(), room) => Ok(BuiltModule {
            module,
            bytes,
            positions,
            sites,
        }),
        Ok(_) => broken(Invariant::ModuleNotConfined),
        Err(Answer::NoMemory) => Err(Failure::NoMemory),
        Err(Answer::Unlinked(_)) => broken(Invariant::ModuleUnlinked),
        Err(Answer::Segment) => broken(Invariant::SegmentsDontFit),
        Err(_) => broken(Invariant::ModuleInvalid),
    }
}
