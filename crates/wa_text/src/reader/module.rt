//! Modules.

ghost use Rattle.std.specs.Prelude.{◌≡◌, ◌≢◌, [], ◌+◌, ◌<◌, ◌≤◌, ◌==◌, codes, length, take, IfErr, IfNone, IfOk, MatchResult};
ghost use Rattle.std.specs.List.{count_by};
ghost use Rattle.wa_syntax.specs.declared.module.Module.{Module};
ghost use Rattle.wa_text.specs.Forms.{each, nothing};
ghost use Rattle.wa_text.specs.Listing.{IsListing, func, module_lines, start};
ghost use Rattle.wa_text.specs.Places.{EndsIn, NamesLine, NoneBegins, ReachesIn};
ghost use Rattle.wa_text.specs.Reading.{Refused, RefusesAt, Spelled, anything, begins_otherwise, rows_at};
ghost use Rattle.wa_text.specs.declared.fault.ListFault.TheVariants.{NoMemory, NotListing};

use crate::fault::{ListFault, TextFault};
use crate::reader::expression::expression;
use crate::reader::items::{
    ElementItem, ExportItem, FunctionHead, GlobalItem, ImportItem, SegmentItem, StartItem,
};
use crate::reader::line::{Listed, begins, item, items};
use crate::reader::types::{LimitsItem, TypeItem};
use sqlite_items::Items;
use std::alloc::Global;
use wa_syntax::{Func, Module};

/// The module of which a text is the listing.
///
/// `NotListing` comes where it is the listing of none. `NoMemory` comes where memory runs out.
pub fn read(alloc: Global, text: &[u8]) -> Result<Module, ListFault>
    requires { length text.now < 4294967295 }
    // The text is the listing of what is read.
    ensures found { IfOk result (IsListing text.now) }
    // What it is the listing of is read, unless memory runs out: so `NotListing` comes only where it is the listing of none.
    ensures complete { (m : Module) → IsListing text.now m → MatchResult result (λ read. read ≡ m) (λ fault. fault ≡ NoMemory) }
    // A refusal names a line of the text, or the one after its last line feed.
    ensures line { IfErr result (NamesLine text.now) }
    // With this line it is clear that the text is none: no listing has the same lines up to it.
    ensures clear { IfErr result (NoneBegins text.now) }
    // A text is the listing of no two modules.
    ensures only { (m n : Module) → IsListing text.now m → IsListing text.now n → m ≡ n }
{
    match module(alloc, text) {
        Ok((module, end)) if end as usize == text.len() => Ok(module),
        Ok((_module, end)) => Err(not_listing(text, end)),
        Err(TextFault::Wrong(at)) => Err(not_listing(text, at)),
        Err(TextFault::NoMemory) => Err(ListFault::NoMemory),
    }
}

/// The fault of a text, by the position of its first wrong line: the line's number is one more than the line feeds before it.
fn not_listing(text: &[u8], at: u32) -> ListFault
    requires size { length text.now < 4294967295 }
    ensures line { NamesLine text.now result }
    ensures number { result ≡ NotListing (count_by (λ byte. byte == 10) (take at text.now) + 1) }
{
    let newlines = line_feeds(text, at as usize);
    ListFault::NotListing(newlines as u32 + 1)
}

/// How many line feeds there are before a position.
fn line_feeds(text: &[u8], end: usize) -> usize
    ensures count { result ≡ count_by (λ byte. byte == 10) (take end text.now) }
    ensures within { result ≤ length text.now }
{
    text.iter().take(end).filter(|byte| **byte == b'\n').count()
}

/// The module that a text begins with, and the position after its last line.
fn module(alloc: Global, text: &[u8]) -> Listed<Module>
    requires size { length text.now < u32.MAX }
    ensures reaches { IfOk result (λ read. ReachesIn text.now 0 read.1) }
    ensures found { IfOk result (λ read. Spelled (module_lines read.0) text.now 0 read.1) }
    ensures whole { IfOk result (λ read. rows_at text.now read.1 ≢ [] → Refused module_lines nothing text.now 0 read.1) }
    ensures refused { IfErr result (RefusesAt module_lines nothing text.now 0) }
{
    let (types, at) = items::<TypeItem>(alloc, text, 0, b"type")?;
    let (imports, at) = items::<ImportItem>(alloc, text, at, b"import")?;
    let (funcs, at) = functions(alloc, text, at)?;
    let (tables, at) = items::<LimitsItem>(alloc, text, at, b"table")?;
    let (memories, at) = items::<LimitsItem>(alloc, text, at, b"memory")?;
    let (globals, at) = items::<GlobalItem>(alloc, text, at, b"global")?;
    let (exports, at) = items::<ExportItem>(alloc, text, at, b"export")?;
    let (start, at) = start(alloc, text, at)?;
    let (elems, at) = items::<ElementItem>(alloc, text, at, b"elem")?;
    let (segments, end) = items::<SegmentItem>(alloc, text, at, b"data")?;
    let module = Module {
        types,
        imports,
        funcs,
        tables,
        memories,
        globals,
        exports,
        start,
        elems,
        segments,
    };
    Ok((module, end))
}

/// The functions of a module.
fn functions(alloc: Global, text: &[u8], at: u32) -> Listed<Items<Func>>
    requires size { length text.now < u32.MAX }
    requires place { at ≤ length text.now }
    ensures reaches { IfOk result (λ read. ReachesIn text.now at read.1) }
    ensures found { IfOk result (λ read. Spelled (each func read.0) text.now at read.1) }
    ensures stops { IfOk result (λ read. begins_otherwise (codes "func") (rows_at text.now read.1)) }
    ensures refused { IfErr result (RefusesAt (each func) (begins_otherwise (codes "func")) text.now at) }
{
    let mut funcs = Items::new(alloc);
    let mut at = at;
    while begins(text, at, b"func") {
        let (func, next) = function(alloc, text, at)?;
        funcs.push(func)?;
        at = next;
    }
    Ok((funcs, at))
}

/// A function: its type and its locals on a line, and its body.
fn function(alloc: Global, text: &[u8], at: u32) -> Listed<Func>
    requires size { length text.now < u32.MAX }
    requires place { at ≤ length text.now }
    ensures ends { IfOk result (λ read. EndsIn text.now at read.1) }
    ensures found { IfOk result (λ read. Spelled (func read.0) text.now at read.1) }
    ensures refused { IfErr result (RefusesAt func anything text.now at) }
{
    let (FunctionHead { ty, locals }, at) = item::<FunctionHead>(alloc, text, at, b"func")?;
    let (body, end) = expression(alloc, text, at)?;
    Ok((Func { ty, locals, body }, end))
}

/// The start function, if there is one.
fn start(alloc: Global, text: &[u8], at: u32) -> Listed<Option<u32>>
    requires size { length text.now < u32.MAX }
    requires place { at ≤ length text.now }
    ensures reaches { IfOk result (λ read. ReachesIn text.now at read.1) }
    ensures found { IfOk result (λ read. Spelled (start read.0) text.now at read.1) }
    ensures stops { IfOk result (λ read. IfNone read.0 (begins_otherwise (codes "start") (rows_at text.now read.1))) }
    ensures refused { IfErr result (RefusesAt start (begins_otherwise (codes "start")) text.now at) }
{
    if !begins(text, at, b"start") {
        return Ok((None, at));
    }
    let (func, end) = item::<StartItem>(alloc, text, at, b"start")?;
    Ok((Some(func), end))
}
