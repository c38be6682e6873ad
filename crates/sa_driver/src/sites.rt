//! The positions of faults by their indices, as JSON.

ghost use Rattle.std.specs.Prelude.{◌≡◌, ◌++◌, IfOk, OnOk, flat_map};
ghost use Rattle.std.specs.List.{All};
ghost use Rattle.sa_driver.specs.Files.{IsPlaceIn};
ghost use Rattle.sa_driver.specs.Lines.{file_name};
ghost use Rattle.sa_driver.specs.Sites.{site_tokens, sites_text};

use crate::place::is_place_in;
use failure::{Failure, Invariant, broken};
use json::Writer;
use sa_ast::{Pos, Sources, line_of};
use std::alloc::Global;

/// An array with an object for each position, in order, that has the name of its file and its line, from 1. A position that is in none of
/// the texts, or in one whose name is no UTF-8, which no program has, is an internal error.
pub fn sites_text(alloc: Global, sources: &Sources, positions: &[Pos]) -> Result<Vec<u8>, Failure>
    ensures text { IfOk result (λ text. text.items ≡ sites_text sources.now positions.now) }
    ensures placed { OnOk result (All (IsPlaceIn sources.now.texts) positions.now) }
{
    let mut writer = Writer::new(Vec::new(alloc));
    writer.begin_array()?;
    add_sites(&mut writer, sources, positions)?;
    writer.end_array()?;
    Ok(writer.into_inner())
}

/// Writes the object of each position.
fn add_sites(writer: &mut Writer, sources: &Sources, positions: &[Pos]) -> Result<(), Failure>
    ensures tokens { OnOk result (writer.new.tokens ≡ writer.old.tokens ++ flat_map (site_tokens sources.now) positions.now) }
    ensures before { OnOk result (writer.new.before ≡ writer.old.before) }
    ensures placed { OnOk result (All (IsPlaceIn sources.now.texts) positions.now) }
{
    for pos in positions {
        add_site(writer, sources, *pos)?;
    }
    Ok(())
}

/// Writes the object of a position.
fn add_site(writer: &mut Writer, sources: &Sources, pos: Pos) -> Result<(), Failure>
    ensures tokens { OnOk result (writer.new.tokens ≡ writer.old.tokens ++ site_tokens sources.now pos) }
    ensures before { OnOk result (writer.new.before ≡ writer.old.before) }
    ensures placed { OnOk result (IsPlaceIn sources.now.texts pos) }
{
    if !is_place_in(sources.texts.as_slice(), pos) {
        return broken(Invariant::PositionMissing);
    }
    writer.begin_object()?;
    writer.key("file")?;
    writer.string(file_name(sources, pos)?)?;
    writer.key("line")?;
    writer.u64(u64::from(line_of(sources, pos)))?;
    writer.end_object()?;
    Ok(())
}

/// The name of the text that contains a position.
fn file_name(sources: &Sources, pos: Pos) -> Result<&str, Failure>
    ensures { IfOk result (λ name. name.now ≡ file_name sources.now pos) }
{
    let Some(name) = sources.names.get(pos.file as usize) else {
        return broken(Invariant::PositionMissing);
    };
    match str::from_utf8(name.as_slice()) {
        Ok(name) => Ok(name),
        Err(_) => broken(Invariant::PositionMissing),
    }
}
