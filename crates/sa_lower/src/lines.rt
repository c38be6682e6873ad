//! The lines of positions.

use failure::{Failure, Invariant, known};
use sa_ast::Pos;
use sqlite_items::Items;
use std::alloc::Global;

/// The line of each position, from 1, by the positions of the line feeds in each text.
pub(crate) fn line_numbers(
    alloc: Global,
    newlines: &[Items<u32>],
    positions: &[Pos],
) -> Result<Items<u32>, Failure> {
    let mut lines = Items::new(alloc);
    for pos in positions {
        lines.push(line_number(newlines, *pos)?)?;
    }
    Ok(lines)
}

/// The line of a position: one more than the line feeds before it.
fn line_number(newlines: &[Items<u32>], pos: Pos) -> Result<u32, Failure> {
    let newlines = known(newlines.get(pos.file as usize), Invariant::PositionMissing)?;
    let before = newlines.as_slice().partition_point(|at| *at < pos.at);
    let before = known(u32::try_from(before).ok(), Invariant::CheckedCount)?;
    known(before.checked_add(1), Invariant::CheckedCount)
}
