//! Prints the typed AST of a program as JSON, of the sources whose files the arguments name. Where a rule refuses the sources,
//! `["Refused", RULE, [FILE, BYTE]]` is printed in its place, with the text of the rule.
#![tactic(auto)]

ghost use Rattle.std.specs.Prelude.{◌≤◌, ◌<◌, All, length};

mod expr;
mod program;
mod stmt;
mod writer;

use crate::writer::Writer;
use anyhow::{Result, anyhow};
use host_io::FileStore;
use sa_ast::{Refusal, Rejection};
use sa_driver::check_needed;
use sa_read::{SourceFiles, parse_program, read_program};
use std::alloc::{AllocError, Global};
use std::env;

fn main(rt: HostRuntime) -> Result<()> {
    let alloc = rt.alloc();
    let words: Vec<String> = env::args(&rt)?.skip(1).collect(alloc)?;
    let mut files = Vec::new(alloc);
    for word in words.iter() {
        files.push(word.as_str())?;
    }
    let mut store = FileStore::new(&rt);
    let Ok(program) = read_program(alloc, &mut store, files.as_slice()) else {
        return Err(anyhow!("a file can't be read"));
    };
    let tree = tree(alloc, &program)?;
    println!(rt; "{tree}")?;
    Ok(())
}

/// The typed AST of a program, or the rule that refuses it.
fn tree(alloc: Global, program: &SourceFiles) -> Result<String, AllocError>
    requires short { All (λ text. length text < 4294967295) program.now.sources.texts }
    requires few { length program.now.sources.texts ≤ 65536 }
{
    let mut writer = Writer::new(alloc);
    match add_tree(alloc, &mut writer, program) {
        Ok(()) => {}
        Err(Rejection::Refused(refusal)) => add_refusal(&mut writer, refusal)?,
        Err(Rejection::Failed(_)) => return Err(AllocError),
    }
    let Writer { text, .. } = writer;
    Ok(text)
}

/// Adds the typed AST of a program that no rule refuses.
fn add_tree(alloc: Global, writer: &mut Writer, program: &SourceFiles) -> Result<(), Rejection>
    requires short { All (λ text. length text < 4294967295) program.now.sources.texts }
    requires few { length program.now.sources.texts ≤ 65536 }
{
    if let Some(refusal) = program.cut {
        return Err(Rejection::Refused(refusal));
    }
    let texts = program.sources.texts.as_slice();
    let parsed = parse_program(alloc, texts)?;
    let core = check_needed(alloc, parsed.classes.as_slice(), texts)?;
    writer.program(&core)?;
    Ok(())
}

/// Adds the rule that refuses a program.
fn add_refusal(writer: &mut Writer, refusal: Refusal) -> Result<(), AllocError> {
    writer.open("Refused")?;
    writer.bytes(refusal.rule.text().as_bytes())?;
    writer.pos(refusal.pos)?;
    writer.close_list()
}
