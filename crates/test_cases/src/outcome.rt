//! The result of a call, compared with the expected one of its case.

use crate::case::{Case, ExpectedResult};
use anyhow::{Result, ensure};
use bstr::BStr;
use host_io::{InputStore, MemSink, MemSource, MemStore};
use sa_driver::{Exit, sather};
use std::alloc::Global;

/// How the result of the case's call differs from the expected one, or `None` where it doesn't.
pub fn difference(alloc: Global, case: Case) -> Result<Option<String>> {
    let Case {
        name: _name,
        files,
        words,
        input,
        failing,
        wanted,
    } = case;
    ensure!(
        MemStore::names_differ(files.as_slice()),
        "two files have one name"
    );
    // As in the program's store, the file `-` is the input.
    let whole = MemSource::new(Vec::from_slice(alloc, input.as_slice())?, Vec::new(alloc));
    let mut store = InputStore::new(alloc, MemStore::new(files, failing.store), whole);
    let mut input = MemSource::new(input, failing.input);
    let mut out = MemSink::new(alloc, failing.output);
    let mut err = MemSink::new(alloc, failing.lines);
    let exit = sather(
        alloc,
        words.as_slice(),
        &mut store,
        &mut input,
        &mut out,
        &mut err,
    );
    first_difference(alloc, &wanted, &exit, out.taken(), err.taken())
}

fn first_difference(
    alloc: Global,
    wanted: &ExpectedResult,
    exit: &Exit,
    output: &[u8],
    lines: &[u8],
) -> Result<Option<String>> {
    if !is_wanted(wanted.output.as_slice(), wanted.output_may_be_cut, output) {
        return Ok(Some(reported(alloc, "out", wanted.output.as_slice(), output)?));
    }
    if lines != wanted.lines.as_slice() {
        return Ok(Some(reported(alloc, "err", wanted.lines.as_slice(), lines)?));
    }
    let status = exit.status;
    if u64::from(status) != wanted.status {
        return Ok(Some(format!(in alloc;
            "status {} is wanted, and it is {status}",
            wanted.status
        )?));
    }
    Ok(None)
}

/// Whether the bytes are the expected ones or, where these may be cut, a prefix of them.
fn is_wanted(wanted: &[u8], may_be_cut: bool, got: &[u8]) -> bool {
    got == wanted || (may_be_cut && wanted.starts_with(got))
}

fn reported(alloc: Global, place: &str, wanted: &[u8], got: &[u8]) -> Result<String> {
    let wanted = BStr::new(wanted);
    let got = BStr::new(got);
    Ok(format!(in alloc; "{place} should take {wanted:?}, and it took {got:?}")?)
}
