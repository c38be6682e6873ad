//! A file of many cases: a head, and cases that each begin with a line `=== NAME`.

use crate::case::arguments_of;
use anyhow::{Result, bail};
use std::alloc::Global;

/// The cases of a file, as texts.
#[derive(Drop)]
pub struct List<'a> {
    /// The arguments of the command of a case that has none of its own.
    pub words: Vec<String>,
    /// The text of each case, from its name on.
    pub texts: Vec<&'a str>,
}

impl<'a> List<'a> {
    /// Splits a file into its cases. It fails where the head has a line that is neither empty, a comment nor a command.
    pub fn read(alloc: Global, text: &'a str) -> Result<List<'a>> {
        let mut texts = Vec::new(alloc);
        let mut pieces = text.split("\n=== ");
        let head = pieces.next().unwrap_or("");
        for piece in pieces {
            texts.push(piece)?;
        }
        let words = arguments_of_head(alloc, head)?;
        Ok(List { words, texts })
    }
}

fn arguments_of_head(alloc: Global, head: &str) -> Result<Vec<String>> {
    let mut words = Vec::new(alloc);
    for line in head.lines() {
        if let Some(command) = line.strip_prefix("$") {
            words = arguments_of(alloc, command)?;
        } else if !line.is_empty() && !line.starts_with("#") {
            bail!("this is no line of a head: {line}");
        }
    }
    Ok(words)
}
