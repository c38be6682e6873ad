//! The command `assemble`: the module that a listing lists is written to a file.

ghost use Rattle.std.specs.Prelude.{◌≡◌, [], ◌<◌, ◌≤◌, None, length, IfErr, IfOk};
ghost use Rattle.wa_encode.specs.Spelling.{IsLeast};
ghost use Rattle.wa_syntax.specs.Binary.{SpellsModule};
ghost use Rattle.sa_trace.specs.declared.sinks.ErrStatus.TheVariants as listening;
ghost use Rattle.sa_driver.specs.Answer.{IsAssembled};
ghost use Rattle.sa_driver.specs.Lines.{IsPlaced};
ghost use Rattle.sa_driver.specs.Listings.{Assembles, EndsWithoutModule, IsAssemblyOf};
ghost use Rattle.sa_driver.specs.HostParts.{part};

use crate::build::written;
use crate::cause::Cause;
use crate::compiler::{no_sources, unread};
use crate::exec::without_file;
use crate::outcome::Outcome;
use failure::NoMemory;
use host_io::WriteFiles;
use sa_cli::Assemble;
use sa_read::{FileContents, read_file};
use std::alloc::Global;
use wa_encode::encode;
use wa_syntax::Module;
use wa_text::{ListFault, read};

/// How many bytes a listing's file has at most.
const MOST_LISTING_BYTES: usize = 67_108_864;

/// Writes the module of the listing in the file. A file of more than 67,108,864 bytes is reported as no listing, with line 0.
pub fn assemble<'a, S: WriteFiles>(alloc: Global, line: &Assemble<'a>, store: &mut S) -> Outcome<'a>
    ensures does { IsAssembled (part S.files S.faults store.old store.new) line.now.out.now line.now.file.now result }
    ensures placed { IsPlaced result.sources result.cause }
    ensures steps { result.steps ≡ None }
    ensures further { result.further.items ≡ [] }
    ensures file { result.file.now ≡ line.now.file.now }
    ensures listening { result.listening ≡ listening.Yes }
    ensures done { result.done ≡ 0 }
{
    match read_file(alloc, store, line.file, MOST_LISTING_BYTES) {
        Ok(FileContents::Whole(text)) => assemble_text(alloc, line, text.as_slice(), store),
        Ok(FileContents::Cut(_front)) => without_file(alloc, line.file, Cause::NotListing(0)),
        Err(fault) => without_file(alloc, line.file, unread(fault)),
    }
}

/// Writes the module of this listing.
fn assemble_text<'a, S: WriteFiles>(
    alloc: Global,
    line: &Assemble<'a>,
    text: &[u8],
    store: &mut S,
) -> Outcome<'a>
    requires { length text.now < 4294967295 }
    ensures assembles { Assembles (part S.files S.faults store.old store.new) line.now.out.now text.now
        result.«module».items result.cause }
    ensures count { S.faults store.old ≤ S.faults store.new }
    ensures placed { IsPlaced result.sources result.cause }
    ensures steps { result.steps ≡ None }
    ensures further { result.further.items ≡ [] }
    ensures file { result.file.now ≡ line.now.file.now }
    ensures listening { result.listening ≡ listening.Yes }
    ensures done { result.done ≡ 0 }
{
    match assembled(alloc, text) {
        Ok(bytes) => {
            let cause = written(store, line.out, bytes.as_slice());
            of_file(alloc, line.file, cause, bytes)
        }
        Err(cause) => without_file(alloc, line.file, cause),
    }
}

/// The outcome of the command for the listing in this file, with these bytes of its module.
fn of_file<'a>(alloc: Global, file: &'a str, cause: Cause, module: Vec<u8>) -> Outcome<'a>
    ensures cause { result.cause ≡ cause }
    ensures done { result.done ≡ 0 }
    ensures file { result.file.now ≡ file.entry.now }
    ensures listening { result.listening ≡ listening.Yes }
    ensures bytes { result.«module».items ≡ «module».items }
    ensures steps { result.steps ≡ None }
    ensures further { result.further.items ≡ [] }
{
    let outcome = Outcome::without_run(alloc, cause, no_sources(alloc), module);
    Outcome { file, ..outcome }
}

/// The bytes of the module that the text lists, or the cause why there are none.
fn assembled(alloc: Global, text: &[u8]) -> Result<Vec<u8>, Cause>
    requires { length text.now < 4294967295 }
    ensures assembly { IfOk result (λ bytes. IsAssemblyOf text.now bytes.items) }
    ensures fault { IfErr result (EndsWithoutModule text.now) }
{
    match read(alloc, text) {
        Ok(module) => encoded(alloc, &module),
        Err(ListFault::NotListing(line)) => Err(Cause::NotListing(line)),
        Err(ListFault::NoMemory) => Err(Cause::NoMemory),
    }
}

/// The bytes of a module, or the cause why there are none.
fn encoded(alloc: Global, module: &Module) -> Result<Vec<u8>, Cause>
    ensures shortest { IfOk result (λ bytes. IsLeast (λ spelling. SpellsModule spelling «module».now) bytes.items) }
    ensures fault { IfErr result (λ cause. cause ≡ Cause.NoMemory) }
{
    match encode(alloc, module) {
        Ok(bytes) => Ok(bytes),
        Err(NoMemory) => Err(Cause::NoMemory),
    }
}
