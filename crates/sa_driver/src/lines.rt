//! The lines on err.

ghost use Rattle.std.specs.Prelude.{◌≡◌, ◌++◌, ◌∷◌, [], ◌<◌, ◌^◌, codes, map, decimal, length, slice_get, unwrap_or, IfOk, OnOk};
ghost use Rattle.sa_driver.specs.Lines.{about_place, about_file, internal_error, stop_line, listing_line};
ghost use Rattle.sa_driver.specs.Lines.{line_of_cause, lines_of, statistics, IsPlaced, IsInside};

use crate::cause::Cause;
use crate::outcome::Outcome;
use failure::Invariant;
use itoa::Buffer;
use sa_ast::{Pos, Sources, line_of};
use std::alloc::{AllocError, Global};

/// The lines of an outcome: that of its cause, those of further refusals, and that of the statistics where they are asked for.
pub fn lines(alloc: Global, outcome: &Outcome<'_>) -> Result<Vec<u8>, AllocError>
    requires { IsPlaced outcome.now.sources outcome.now.cause }
    ensures { IfOk result (λ lines. lines.items ≡ lines_of outcome.now outcome.now.cause) }
{
    let mut lines = line(alloc, &outcome.sources, outcome.file, &outcome.cause)?;
    lines.extend_from_slice(outcome.further.as_slice())?;
    if let Some(steps) = outcome.steps {
        add_statistics(&mut lines, steps, outcome.module.len() as u64)?;
    }
    Ok(lines)
}

/// Adds `steps S, bytes B` to the lines.
fn add_statistics(lines: &mut Vec<u8>, steps: u64, bytes: u64) -> Result<(), AllocError>
    ensures { OnOk result (lines.new.items ≡ lines.old.items ++ statistics steps bytes) }
{
    let mut number = Buffer::new();
    lines.extend_from_slice(b"steps ")?;
    lines.extend_from_slice(number.format(steps).as_bytes())?;
    lines.extend_from_slice(b", bytes ")?;
    lines.extend_from_slice(number.format(bytes).as_bytes())?;
    lines.push(b'\n')?;
    Ok(())
}

/// The line of a cause, ended by a line feed, or nothing for `Done`. The sources are the program's, and the file is that of the module or
/// the listing.
fn line(alloc: Global, sources: &Sources, file: &str, cause: &Cause) -> Result<Vec<u8>, AllocError>
    requires { IsPlaced sources.now cause.now }
    ensures { IfOk result (λ line. line.items ≡ line_of_cause sources.now file.now cause.now) }
{
    match cause {
        Cause::Done => Ok(Vec::new(alloc)),
        Cause::Refused(refusal) => {
            about_place(alloc, sources, refusal.pos, "", refusal.rule.text())
        }
        Cause::Fault(kind, pos) => about_place(alloc, sources, *pos, "fault: ", kind.text()),
        Cause::Stopped(code, site) => stop_line(alloc, file, *code, *site),
        Cause::Spent(_) => Vec::from_slice(alloc, b"fuel spent\n"),
        Cause::StoreFault => Vec::from_slice(alloc, b"store fault\n"),
        Cause::InFault => Vec::from_slice(alloc, b"input fault\n"),
        Cause::OutFault => Vec::from_slice(alloc, b"output fault\n"),
        Cause::Usage => Vec::from_slice(
            alloc,
            b"usage: sather run, build, check, exec, gen, selftest, listing or assemble\n",
        ),
        Cause::Malformed => about_file(alloc, file, "malformed", ""),
        Cause::Invalid(_) => about_file(alloc, file, "invalid", ""),
        Cause::Unlinked(import) => about_file(
            alloc,
            file,
            "unlinked ",
            Buffer::new().format(*import),
        ),
        Cause::Segment => about_file(alloc, file, "segment", ""),
        Cause::Trap(_) => about_file(alloc, file, "trap", ""),
        Cause::TooDeep => about_file(alloc, file, "too deep", ""),
        Cause::NotListing(line) => listing_line(alloc, file, *line),
        Cause::NoPage => Vec::from_slice(
            alloc,
            b"no page: explain takes a code, as E33, or the text of a line, as index or store fault\n",
        ),
        Cause::NoLibraryFile => Vec::from_slice(
            alloc,
            b"no file: lib takes a name that sather lib lists\n",
        ),
        Cause::NoMemory => Vec::from_slice(alloc, NO_MEMORY),
        Cause::Broken(invariant) => internal_error(alloc, *invariant),
    }
}

/// The line of the cause that memory has run out.
pub const NO_MEMORY: &[u8] = b"out of memory\n";

/// The line of an internal error, ended by a line feed.
pub fn internal_error(alloc: Global, invariant: Invariant) -> Result<Vec<u8>, AllocError>
    ensures { IfOk result (λ line. line.items ≡ internal_error invariant) }
{
    let mut line = Vec::from_slice(alloc, b"internal error: ")?;
    line.extend_from_slice(invariant.name().as_bytes())?;
    line.extend_from_slice(b"; please report this program\n")?;
    Ok(line)
}

/// `FILE:LINE: TEXT` about a position, where the text has two parts.
pub fn about_place(
    alloc: Global,
    sources: &Sources,
    pos: Pos,
    front: &str,
    text: &str,
) -> Result<Vec<u8>, AllocError>
    requires { IsInside sources.now pos }
    ensures { IfOk result (λ line. line.items ≡ about_place sources.now pos (front.now ++ text.now)) }
{
    let mut line = file_name(alloc, sources, pos.file)?;
    line.push(b':')?;
    line.extend_from_slice(Buffer::new().format(line_of(sources, pos)).as_bytes())?;
    line.extend_from_slice(b": ")?;
    line.extend_from_slice(front.as_bytes())?;
    line.extend_from_slice(text.as_bytes())?;
    line.push(b'\n')?;
    Ok(line)
}

/// The name of the text with this index, or nothing where it has none.
fn file_name(alloc: Global, sources: &Sources, file: u32) -> Result<Vec<u8>, AllocError>
    ensures { IfOk result (λ name. name.items ≡ unwrap_or (slice_get sources.now.names file) []) }
{
    match sources.names.get(file as usize) {
        Some(name) => Vec::from_slice(alloc, name.as_slice()),
        None => Ok(Vec::new(alloc)),
    }
}

/// `FILE: TEXT` about a file, where the text has two parts.
fn about_file(alloc: Global, file: &str, front: &str, text: &str) -> Result<Vec<u8>, AllocError>
    ensures { IfOk result (λ line. line.items ≡ about_file file.now (front.now ++ text.now)) }
{
    let mut line = Vec::from_slice(alloc, file.as_bytes())?;
    line.extend_from_slice(b": ")?;
    line.extend_from_slice(front.as_bytes())?;
    line.extend_from_slice(text.as_bytes())?;
    line.push(b'\n')?;
    Ok(line)
}

/// `FILE: stop CODE at SITE`
fn stop_line(alloc: Global, file: &str, code: u32, site: u32) -> Result<Vec<u8>, AllocError>
    ensures { IfOk result (λ line. line.items ≡ stop_line file.now code site) }
{
    let mut number = Buffer::new();
    let mut line = Vec::from_slice(alloc, file.as_bytes())?;
    line.extend_from_slice(b": stop ")?;
    line.extend_from_slice(number.format(code).as_bytes())?;
    line.extend_from_slice(b" at ")?;
    line.extend_from_slice(number.format(site).as_bytes())?;
    line.push(b'\n')?;
    Ok(line)
}

/// `FILE:LINE: no listing`
fn listing_line(alloc: Global, file: &str, line: u32) -> Result<Vec<u8>, AllocError>
    ensures { IfOk result (λ text. text.items ≡ listing_line file.now line) }
{
    let mut text = Vec::from_slice(alloc, file.as_bytes())?;
    text.push(b':')?;
    text.extend_from_slice(Buffer::new().format(line).as_bytes())?;
    text.extend_from_slice(b": no listing\n")?;
    Ok(text)
}
