//! The lines of the program itself from which a position in the prelude can be reached.

use crate::leading::{Leading, PRELUDE};
use crate::walk::seen_in;
use failure::Failure;
use sa_ast::Pos;
use sa_typed::TypedProgram;
use std::alloc::Global;

/// A line of a text of a program.
#[derive(Clone, Copy, Debug, PartialEq, Eq)]
pub struct Line {
    /// The index of the text among the program's texts.
    pub file: u32,
    /// The number of the line, from 1.
    pub number: usize,
}

/// The lines of the program's own texts that have a call or a bind which can lead to a position in the prelude: it calls the feature of
/// the prelude that contains the position, or one that leads to it by calls in the prelude. A call of a signature leads to each of its
/// implementations. The lines come in the order of the texts, each once.
///
/// # Errors
///
/// `NoMemory` where memory runs out.
pub fn lines_to(alloc: Global, core: &TypedProgram, place: Pos) -> Result<Vec<Line>, Failure> {
    let seen = seen_in(alloc, core, place)?;
    let leading = Leading::to_place(alloc, core, &seen)?;
    let mut lines = Vec::new(alloc);
    for call in seen.calls.iter() {
        if call.pos.file != PRELUDE && leading.holds(call.to) {
            lines.push(line_at(core, call.pos))?;
        }
    }
    lines.sort_unstable_by_key(|line: &Line| (line.file, line.number));
    each_once(alloc, lines.as_slice())
}

/// The line of a position: its number is the number of line feeds before the position, and one more.
fn line_at(core: &TypedProgram, pos: Pos) -> Line {
    let before = match core.newlines.get(pos.file as usize) {
        Some(newlines) => newlines.as_slice().partition_point(|at| *at < pos.at),
        None => 0,
    };
    Line {
        file: pos.file,
        number: before.saturating_add(1),
    }
}

/// The lines of a list, without those that equal the one before.
fn each_once(alloc: Global, lines: &[Line]) -> Result<Vec<Line>, Failure> {
    let mut once = Vec::new(alloc);
    let mut last = None;
    for line in lines {
        if last != Some(*line) {
            once.push(*line)?;
        }
        last = Some(*line);
    }
    Ok(once)
}
