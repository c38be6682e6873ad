//! The commands that print a text of the program's own: `help`, `version`, `explain` and `lib`.

ghost use Rattle.std.specs.Prelude.{◌≡◌, [], None, option_map};
ghost use Rattle.sa_cli.specs.Texts.{help_text, version_text};
ghost use Rattle.host_io.specs.Output.{Grew};
ghost use Rattle.sa_texts.specs.Pages.{error_page, library_file, library_list};
ghost use Rattle.sa_trace.specs.declared.sinks.ErrStatus.TheVariants as listening;
ghost use Rattle.sa_driver.specs.Answer.{IsFound, IsLibrary, IsShown};
ghost use Rattle.sa_driver.specs.Ends.{ComesBeforeOutput};
ghost use Rattle.sa_driver.specs.Lines.{IsPlaced};
ghost use Rattle.sa_driver.specs.HostParts.{part};

use crate::cause::Cause;
use crate::compiler::no_sources;
use crate::outcome::Outcome;
use crate::print::print;
use host_io::Sink;
use sa_cli::{Topic, help_text, version_text};
use sa_texts::{error_page, library_file, library_list};
use std::alloc::Global;

/// Puts the help on a topic on out.
pub fn help<'a, O: Sink>(alloc: Global, topic: Topic, out: &mut O) -> Outcome<'a>
    ensures does { IsShown (part O.output O.faults out.old out.new) (help_text topic) result }
    ensures placed { IsPlaced result.sources result.cause }
    ensures steps { result.steps ≡ None }
    ensures further { result.further.items ≡ [] }
    ensures file { result.file.now ≡ [] }
    ensures listening { result.listening ≡ listening.Yes }
    ensures done { result.done ≡ 0 }
    ensures output { Grew (O.output out.old) (O.output out.new) }
    ensures later { ComesBeforeOutput result.cause → ⊥ }
{
    show(alloc, help_text(topic), out)
}

/// Puts the version on out.
pub fn version<'a, O: Sink>(alloc: Global, out: &mut O) -> Outcome<'a>
    ensures does { IsShown (part O.output O.faults out.old out.new) version_text result }
    ensures placed { IsPlaced result.sources result.cause }
    ensures steps { result.steps ≡ None }
    ensures further { result.further.items ≡ [] }
    ensures file { result.file.now ≡ [] }
    ensures listening { result.listening ≡ listening.Yes }
    ensures done { result.done ≡ 0 }
    ensures output { Grew (O.output out.old) (O.output out.new) }
    ensures later { ComesBeforeOutput result.cause → ⊥ }
{
    show(alloc, version_text(), out)
}

/// Puts the page that explains a word on out.
pub fn explain<'a, O: Sink>(alloc: Global, word: &str, out: &mut O) -> Outcome<'a>
    ensures does { IsFound (part O.output O.faults out.old out.new) (error_page word.now) Cause.NoPage result }
    ensures placed { IsPlaced result.sources result.cause }
    ensures steps { result.steps ≡ None }
    ensures further { result.further.items ≡ [] }
    ensures file { result.file.now ≡ [] }
    ensures listening { result.listening ≡ listening.Yes }
    ensures done { result.done ≡ 0 }
    ensures output { Grew (O.output out.old) (O.output out.new) }
    ensures untouched { ComesBeforeOutput result.cause → out.new ≡ out.old }
{
    match error_page(word) {
        Some(page) => show(alloc, page, out),
        None => Outcome::without_module(alloc, Cause::NoPage, no_sources(alloc)),
    }
}

/// Puts the file of the library with this name on out, or without a name the list of its files.
pub fn library<'a, O: Sink>(alloc: Global, name: Option<&str>, out: &mut O) -> Outcome<'a>
    ensures does { IsLibrary (part O.output O.faults out.old out.new) (option_map (λ name. name.now) name.entry) result }
    ensures placed { IsPlaced result.sources result.cause }
    ensures steps { result.steps ≡ None }
    ensures further { result.further.items ≡ [] }
    ensures file { result.file.now ≡ [] }
    ensures listening { result.listening ≡ listening.Yes }
    ensures done { result.done ≡ 0 }
    ensures output { Grew (O.output out.old) (O.output out.new) }
    ensures untouched { ComesBeforeOutput result.cause → out.new ≡ out.old }
{
    match name {
        Some(name) => print_file(alloc, name, out),
        None => show(alloc, library_list(), out),
    }
}

/// Puts the file of the library with this name on out.
fn print_file<'a, O: Sink>(alloc: Global, name: &str, out: &mut O) -> Outcome<'a>
    ensures does { IsFound (part O.output O.faults out.old out.new) (library_file name.now) Cause.NoLibraryFile result }
    ensures placed { IsPlaced result.sources result.cause }
    ensures steps { result.steps ≡ None }
    ensures further { result.further.items ≡ [] }
    ensures file { result.file.now ≡ [] }
    ensures listening { result.listening ≡ listening.Yes }
    ensures done { result.done ≡ 0 }
    ensures output { Grew (O.output out.old) (O.output out.new) }
    ensures untouched { ComesBeforeOutput result.cause → out.new ≡ out.old }
{
    match library_file(name) {
        Some(text) => show(alloc, text, out),
        None => Outcome::without_module(alloc, Cause::NoLibraryFile, no_sources(alloc)),
    }
}

/// Puts a text on out.
fn show<'a, O: Sink>(alloc: Global, text: &str, out: &mut O) -> Outcome<'a>
    ensures does { IsShown (part O.output O.faults out.old out.new) text.now result }
    ensures placed { IsPlaced result.sources result.cause }
    ensures steps { result.steps ≡ None }
    ensures further { result.further.items ≡ [] }
    ensures file { result.file.now ≡ [] }
    ensures listening { result.listening ≡ listening.Yes }
    ensures done { result.done ≡ 0 }
    ensures output { Grew (O.output out.old) (O.output out.new) }
    ensures later { ComesBeforeOutput result.cause → ⊥ }
{
    let cause = print(text.as_bytes(), out);
    Outcome::without_module(alloc, cause, no_sources(alloc))
}
