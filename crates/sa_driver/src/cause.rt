//! How a call ends, and the status that reports it.

ghost use Rattle.std.specs.Prelude.{◌≡◌};
ghost use Rattle.sa_driver.specs.Ends.{ComesBeforeOutput};
ghost use Rattle.sa_driver.specs.Internal.{IsInternal};
ghost use Rattle.sa_driver.specs.Status.{status_of};

use failure::{Failure, Invariant};
use sa_ast::{FaultKind, Pos, Refusal};
use sqlite_items::Items;
use wa_syntax::TrapKind;

/// How a call of `sather` ended.
#[derive(Clone, Copy, Debug, PartialEq, Eq, Hash)]
pub enum Cause {
    /// The command was carried out. For a program that was run, the status is its own.
    Done,
    /// The source breaks a rule of the language, at this position.
    Refused(Refusal),
    /// The program stopped with a fault of this kind at this position.
    Fault(FaultKind, Pos),
    /// A module stopped by its own call of `env.stop` with these two numbers.
    Stopped(u32, u32),
    /// The program or module hadn't ended within the fuel, which is this number of steps.
    Spent(u64),
    /// The store failed, or a file isn't in it.
    StoreFault,
    /// The input failed.
    InFault,
    /// The output failed.
    OutFault,
    /// The arguments form no command.
    Usage,
    /// The bytes of the file spell no module.
    Malformed,
    /// The module isn't valid: the index of the first ill-typed function of its own, or none where a rule outside the bodies is broken.
    Invalid(Option<u32>),
    /// The import with this index can't be given, or, where this is the number of imports, there is no `main` to call.
    Unlinked(u32),
    /// A segment of the module doesn't fit.
    Segment,
    /// The module trapped.
    Trap(TrapKind),
    /// The module's calls are nested too deep.
    TooDeep,
    /// The text is no listing of a module, from the line with this number on; 0 where its file is too large.
    NotListing(u32),
    /// The word that was to be explained has no page.
    NoPage,
    /// The library has no file of the name.
    NoLibraryFile,
    /// Memory ran out.
    NoMemory,
    /// The compiler is wrong: this invariant of it is broken.
    Broken(Invariant),
}

/// What a call of `sather` leaves besides what it did to the host.
#[derive(Drop)]
pub struct Exit {
    /// The status that the process ends with.
    pub status: u8,
    pub cause: Cause,
    /// The bytes of the module that was encoded, or that was read to be run.
    pub module: Items<u8>,
}

impl Cause {
    /// The status of the cause. That of `Done` is 0, unless a program that was run gives another one.
    pub fn status(&self) -> u8
        ensures { result ≡ status_of self.now }
    {
        match self {
            Cause::Done => 0,
            Cause::Refused(_) => 120,
            Cause::Fault(_, _) | Cause::Stopped(_, _) => 121,
            Cause::Spent(_) => 122,
            Cause::StoreFault | Cause::InFault | Cause::OutFault => 123,
            Cause::Usage | Cause::NoPage | Cause::NoLibraryFile => 124,
            Cause::NoMemory => 125,
            Cause::Broken(_) => 70,
            Cause::Malformed
            | Cause::Invalid(_)
            | Cause::Unlinked(_)
            | Cause::Segment
            | Cause::Trap(_)
            | Cause::TooDeep
            | Cause::NotListing(_) => 126,
        }
    }
}

/// The cause where a pass failed.
#[tactic(auto, using(crate::proofs::InternalLemmas::later))]
pub fn failed(failure: Failure) -> Cause
    ensures internal { IsInternal result }
    ensures later { ComesBeforeOutput result → ⊥ }
{
    match failure {
        Failure::NoMemory => Cause::NoMemory,
        Failure::Broken(invariant) => Cause::Broken(invariant),
    }
}
