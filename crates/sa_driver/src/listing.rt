//! The command `listing`: the listing of a module is put on out.

ghost use Rattle.std.specs.Prelude.{◌≡◌, [], ℕ, ◌<◌, List, None, length, slice_index, IfErr, IfOk};
ghost use Rattle.wa_syntax.specs.Binary.{SpellsModule};
ghost use Rattle.wa_text.specs.Listing.{IsListing};
ghost use Rattle.host_io.specs.Output.{Grew};
ghost use Rattle.sa_trace.specs.declared.sinks.ErrStatus.TheVariants as listening;
ghost use Rattle.sa_driver.specs.Answer.{IsListed};
ghost use Rattle.sa_driver.specs.Ends.{ComesBeforeOutput};
ghost use Rattle.sa_driver.specs.Lines.{IsPlaced};
ghost use Rattle.sa_driver.specs.Listings.{IsListingOf, ListsModule, SaysNoListing};
ghost use Rattle.sa_driver.specs.HostParts.{part};

use crate::cause::Cause;
use crate::compiler::unread;
use crate::exec::{MOST_MODULE_BYTES, without_file};
use crate::outcome::Outcome;
use crate::print::print;
use failure::NoMemory;
use host_io::{ReadFiles, Sink};
use sa_cli::Listing;
use sa_read::{FileContents, read_file};
use std::alloc::Global;
use wa_decode::{DecodeFault, decode};
use wa_syntax::Module;
use wa_text::write;

/// Puts the listing of the module in the file on out.
pub fn listing<'a, S: ReadFiles, O: Sink>(
    alloc: Global,
    line: &Listing<'a>,
    store: &mut S,
    out: &mut O,
) -> Outcome<'a>
    ensures does { IsListed (part S.files S.faults store.old store.new) (part O.output O.faults out.old out.new)
        line.now.«module».now result }
    ensures placed { IsPlaced result.sources result.cause }
    ensures steps { result.steps ≡ None }
    ensures further { result.further.items ≡ [] }
    ensures file { result.file.now ≡ line.now.«module».now }
    ensures listening { result.listening ≡ listening.Yes }
    ensures done { result.done ≡ 0 }
    ensures files { S.files store.new ≡ S.files store.old }
    ensures output { Grew (O.output out.old) (O.output out.new) }
    ensures untouched { ComesBeforeOutput result.cause → out.new ≡ out.old }
{
    match read_file(alloc, store, line.module, MOST_MODULE_BYTES) {
        Ok(FileContents::Whole(bytes)) => {
            let cause = list(alloc, bytes.as_slice(), out);
            without_file(alloc, line.module, cause)
        }
        Ok(FileContents::Cut(_bytes)) => without_file(alloc, line.module, Cause::Malformed),
        Err(fault) => without_file(alloc, line.module, unread(fault)),
    }
}

/// The cause after putting the listing of the module of these bytes on out; `Done` where out took it.
fn list<O: Sink>(alloc: Global, bytes: &[u8], out: &mut O) -> Cause
    requires { length bytes.now < 4294967295 }
    ensures lists { ListsModule (part O.output O.faults out.old out.new) bytes.now result }
    ensures output { Grew (O.output out.old) (O.output out.new) }
    ensures untouched { ComesBeforeOutput result → out.new ≡ out.old }
{
    match listing_of(alloc, bytes) {
        Ok(text) => print(text.as_slice(), out),
        Err(cause) => cause,
    }
}

/// The listing of the module of these bytes, or the cause why there is none.
fn listing_of(alloc: Global, bytes: &[u8]) -> Result<Vec<u8>, Cause>
    requires { length bytes.now < 4294967295 }
    ensures listing { IfOk result (λ text. IsListingOf bytes.now text.items) }
    ensures fault { IfErr result (SaysNoListing bytes.now) }
{
    match decode(alloc, bytes) {
        Ok(module) => listed(alloc, &module),
        Err(DecodeFault::Malformed) => Err(Cause::Malformed),
        Err(DecodeFault::NoMemory) => Err(Cause::NoMemory),
    }
}

/// The listing of a module, or the cause why there is none.
fn listed(alloc: Global, module: &Module) -> Result<Vec<u8>, Cause>
    ensures listed { IfOk result (λ text. (bytes : List ℕ) → ((i : ℕ) → slice_index bytes i < 256)
        → SpellsModule bytes «module».now → IsListing text.items «module».now) }
    ensures fault { IfErr result (λ cause. cause ≡ Cause.NoMemory) }
{
    match write(alloc, module) {
        Ok(text) => Ok(text),
        Err(NoMemory) => Err(Cause::NoMemory),
    }
}
