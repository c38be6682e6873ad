//! The lines of the program itself from which a position in the prelude can be reached.

use crate::Line;
use sa_diagnostics::{Declarations, Message, MessagePart, SourceContext};
use std::alloc::AllocError;

/// The greatest number of lines that are reported.
const MOST_LINES: usize = 5;

/// Reports which line led to the position, or that it was one of several.
pub(crate) fn tell_ways(
    scene: SourceContext<'_>,
    lines: &[Line],
    said: &mut Message,
) -> Result<(), AllocError> {
    if lines.is_empty() {
        return Ok(());
    }
    let reported = lines.get(..MOST_LINES).unwrap_or(lines);
    let mut parts = Vec::new(scene.alloc);
    if lines.len() == 1 {
        parts.push(MessagePart::Words("The program came here from "))?;
        put_lines(&mut parts, scene.table, reported)?;
        parts.push(MessagePart::Words(", the only line that leads here."))?;
    } else if lines.len() <= MOST_LINES {
        parts.push(MessagePart::Words("The program came here from one of these: "))?;
        put_lines(&mut parts, scene.table, reported)?;
        parts.push(MessagePart::Words("."))?;
    } else {
        parts.push(MessagePart::Words("The program came here from one of "))?;
        parts.push(MessagePart::Number(lines.len()))?;
        parts.push(MessagePart::Words(" lines, of which the first are "))?;
        put_lines(&mut parts, scene.table, reported)?;
        parts.push(MessagePart::Words("."))?;
    }
    said.say(parts.as_slice())
}

/// Adds lines, those of one file together: `line 6 of a.sa, and lines 2 and 9 of b.sa`.
fn put_lines<'a>(
    parts: &mut Vec<MessagePart<'a>>,
    table: Declarations<'a>,
    lines: &[Line],
) -> Result<(), AllocError> {
    for at in 0..lines.len() {
        if let Some(line) = lines.get(at) {
            put_line(parts, table, lines, at, *line)?;
        }
    }
    Ok(())
}

/// Adds the line with an index in the list.
fn put_line<'a>(
    parts: &mut Vec<MessagePart<'a>>,
    table: Declarations<'a>,
    lines: &[Line],
    at: usize,
    line: Line,
) -> Result<(), AllocError> {
    let begins = at == 0 || !is_in_file(lines, at.saturating_sub(1), line.file);
    let ends = !is_in_file(lines, at.saturating_add(1), line.file);
    parts.push(MessagePart::Words(words_between(lines, at, line.file, begins, ends)))?;
    if begins {
        parts.push(MessagePart::Words(if ends { "line " } else { "lines " }))?;
    }
    parts.push(MessagePart::Number(line.number))?;
    if ends {
        parts.push(MessagePart::Words(" of "))?;
        parts.push(MessagePart::File(table.file_at(line.file)))?;
    }
    Ok(())
}

/// The text before a line: a comma or `and`, by whether the line begins or ends those of its file.
fn words_between(lines: &[Line], at: usize, file: u32, begins: bool, ends: bool) -> &'static str {
    if at == 0 {
        ""
    } else if begins {
        if lines.iter().skip(at).all(|line| line.file == file) {
            ", and "
        } else {
            ", "
        }
    } else if ends {
        " and "
    } else {
        ", "
    }
}

/// Whether the line with an index in the list is in a file.
fn is_in_file(lines: &[Line], at: usize, file: u32) -> bool {
    match lines.get(at) {
        Some(line) => line.file == file,
        None => false,
    }
}
