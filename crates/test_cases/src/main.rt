//! Runs the table of cases through the driver, over objects in memory, and prints what differs; then checks sources that are nearly right.
#![tactic(auto)]

mod case;
mod list;
mod nearly;
mod outcome;
mod table;
mod text;

use crate::case::Case;
use crate::list::List;
use crate::nearly::try_neighbours;
use crate::outcome::difference;
use crate::table::table_files;
use anyhow::{Context, Result, ensure};
use std::alloc::Global;
use std::fs::{self, Files};
use std::process::ExitCode;

fn main(rt: HostRuntime) -> Result<ExitCode> {
    let table = run_table(&rt, rt.alloc())?;
    let nearly_right = run_nearly_right(&rt, rt.alloc())?;
    if !table || !nearly_right {
        return Ok(ExitCode::FAILURE);
    }
    println!(rt; "every case is as it should be")?;
    Ok(ExitCode::SUCCESS)
}

/// Whether each case of the table passes. Prints those that don't.
fn run_table<R: Files + AllocGlobal + Print + Clone + Drop>(rt: &R, alloc: Global) -> Result<bool> {
    let files = table_files(rt, alloc)?;
    ensure!(!files.is_empty(), "the table has no files");
    let mut right = true;
    for path in files.iter() {
        let text = fs::read_to_string(rt, path.as_str()).context(path.as_str())?;
        let file = run_file(rt, alloc, path.as_str(), text.as_str()).context(path.as_str())?;
        right = right && file;
    }
    Ok(right)
}

/// Whether each case of a file of this text passes.
fn run_file(
    rt: &(impl AllocGlobal + Print),
    alloc: Global,
    path: &str,
    text: &str,
) -> Result<bool> {
    if path.ends_with(".sa") {
        return run_case(rt, alloc, Case::of_program(alloc, text)?);
    }
    ensure!(
        path.ends_with(".txt"),
        "neither a list of cases nor a program"
    );
    run_list(rt, alloc, List::read(alloc, text)?)
}

/// Whether each case of a list passes.
fn run_list(rt: &(impl AllocGlobal + Print), alloc: Global, list: List<'_>) -> Result<bool> {
    ensure!(!list.texts.is_empty(), "the list has no cases");
    let mut right = true;
    for text in list.texts.iter() {
        let case = Case::read(alloc, list.words.as_slice(), text)?;
        let as_wanted = run_case(rt, alloc, case)?;
        right = right && as_wanted;
    }
    Ok(right)
}

/// Whether a case passes. Prints how its result differs.
fn run_case(rt: &(impl AllocGlobal + Print), alloc: Global, case: Case) -> Result<bool> {
    let name = case.name.clone()?;
    match difference(alloc, case)? {
        None => Ok(true),
        Some(text) => {
            println!(rt; "{name}: {text}")?;
            Ok(false)
        }
    }
}

/// Whether the neighbours of each line of `nearly.txt` are accepted or refused at a position in them. Prints the lines of which some are
/// not.
fn run_nearly_right(rt: &(impl Files + AllocGlobal + Print), alloc: Global) -> Result<bool> {
    let text = fs::read_to_string(rt, "nearly.txt").context("reading the sources")?;
    let mut right = true;
    for line in text.lines() {
        let failed = try_neighbours(alloc, line.as_bytes())?;
        if failed > 0 {
            println!(rt; "{failed} sources are answered otherwise that are nearly this: {line}")?;
            right = false;
        }
    }
    Ok(right)
}
