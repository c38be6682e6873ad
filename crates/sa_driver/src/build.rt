//! The command `build`: the module of a program is written to a file, and the positions of its faults to another one.

ghost use Rattle.std.specs.Prelude.{◌≡◌, ◌≤◌, [], None, map, option_map};
ghost use Rattle.sa_trace.specs.declared.sinks.ErrStatus.TheVariants as listening;
ghost use Rattle.sa_driver.specs.Answer.{IsBuilt};
ghost use Rattle.sa_driver.specs.Sites.{WritesModule};
ghost use Rattle.sa_driver.specs.Ends.{AreWritten, IsWritten};
ghost use Rattle.sa_driver.specs.Lines.{IsPlaced};
ghost use Rattle.sa_driver.specs.HostParts.{part};

use crate::cause::{Cause, failed};
use crate::compiler::{CompileResult, compile_files};
use crate::module::BuiltModule;
use crate::outcome::Outcome;
use crate::sites::sites_text;
use host_io::{Outage, WriteFiles};
use sa_ast::Sources;
use sa_cli::{Build, Trace};
use std::alloc::Global;

/// Compiles the program and writes its module, and then the positions of its faults, where they have a file.
pub fn build<'a, S: WriteFiles>(alloc: Global, line: &Build<'a>, store: &mut S) -> Outcome<'a>
    ensures does { IsBuilt (part S.files S.faults store.old store.new) line.now.room line.now.out.now
        (option_map (λ file. file.now) line.now.sites) (map (λ file. file.now) line.now.files.items) result }
    ensures placed { IsPlaced result.sources result.cause }
    ensures steps { result.steps ≡ None }
    ensures further { result.further.items ≡ [] }
    ensures file { result.file.now ≡ [] }
    ensures listening { result.listening ≡ listening.Yes }
    ensures done { result.done ≡ 0 }
{
    let CompileResult { sources, module } = compile_files(
        alloc,
        store,
        line.files.as_slice(),
        line.contracts,
        line.room,
        Trace::Silent,
    );
    match module {
        Ok(built) => {
            let cause = write_built(alloc, line, &sources, &built, store);
            Outcome::without_run(alloc, cause, sources, built.bytes)
        }
        Err(cause) => Outcome::without_module(alloc, cause, sources),
    }
}

/// The cause after writing the module and the positions of its faults; `Done` where both were written.
fn write_built<S: WriteFiles>(
    alloc: Global,
    line: &Build<'_>,
    sources: &Sources,
    built: &BuiltModule,
    store: &mut S,
) -> Cause
    ensures writes { WritesModule (part S.files S.faults store.old store.new) line.now.out.now built.now.bytes.items
        (option_map (λ file. file.now) line.now.sites) sources.now built.now.positions result }
    ensures count { S.faults store.old ≤ S.faults store.new }
{
    let bytes = built.bytes.as_slice();
    match line.sites {
        None => written(store, line.out, bytes),
        Some(file) => match sites_text(alloc, sources, built.positions.as_slice()) {
            Ok(text) => both_written(store, line.out, bytes, file, text.as_slice()),
            Err(failure) => failed(failure),
        },
    }
}

/// The cause after writing the module and then the text to the other file; `Done` where both were written.
fn both_written<S: WriteFiles>(
    store: &mut S,
    out: &str,
    module: &[u8],
    other: &str,
    text: &[u8],
) -> Cause
    ensures written { AreWritten (part S.files S.faults store.old store.new) out.now «module».now other.now text.now result }
    ensures count { S.faults store.old ≤ S.faults store.new }
{
    match written(store, out, module) {
        Cause::Done => written(store, other, text),
        cause => cause,
    }
}

/// The cause after writing the module; `Done` where it was written.
pub fn written<S: WriteFiles>(store: &mut S, out: &str, module: &[u8]) -> Cause
    ensures written { IsWritten (part S.files S.faults store.old store.new) out.now «module».now result }
    ensures count { S.faults store.old ≤ S.faults store.new }
{
    match store.write(out, module) {
        Ok(()) => Cause::Done,
        Err(Outage::Failed) => Cause::StoreFault,
        Err(Outage::NoMemory) => Cause::NoMemory,
    }
}
