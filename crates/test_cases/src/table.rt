//! The files of the table: they are in folders, one for each subject, in the directory in which the program runs.

use anyhow::{Context, Result};
use std::alloc::Global;
use std::fs::{self, Files};

/// The paths of the files of the table, those of each folder in the order of their names.
pub fn table_files<R: Files + AllocGlobal + Clone + Drop>(
    rt: &R,
    alloc: Global,
) -> Result<Vec<String>> {
    let mut files = Vec::new(alloc);
    for path in entries(rt, alloc, ".")?.iter() {
        let metadata = fs::metadata(rt, path.as_str()).context(path.as_str())?;
        if metadata.is_dir() {
            files.append(&mut entries(rt, alloc, path.as_str())?)?;
        }
    }
    Ok(files)
}

/// The paths of the entries of a folder, in the order of their names.
fn entries<R: Files + AllocGlobal + Clone + Drop>(
    rt: &R,
    alloc: Global,
    folder: &str,
) -> Result<Vec<String>> {
    let mut paths = Vec::new(alloc);
    for entry in fs::read_dir(rt, folder).context("reading a folder")? {
        let entry = entry.context("reading a folder")?;
        paths.push(String::from_str(alloc, entry.path().to_string_lossy())?)?;
    }
    paths.sort()?;
    Ok(paths)
}
