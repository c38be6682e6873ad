//! The line of a source in which a position is, with the position marked below it.
//!
//! ```text
//!   3 |   x:INT := "three";
//!     |            ^^^^^^^
//! ```

ghost use Rattle.std.specs.Prelude.{◌≤◌, length};

use crate::messages::{Span, shown};
use itoa::Buffer;
use std::alloc::AllocError;

/// How many bytes of the line are shown on each side of the position.
const AROUND: usize = 100;

/// The byte order mark of UTF-8.
const ORDER_MARK: &[u8] = b"\xef\xbb\xbf";

/// Adds the line in which a span of the text begins, which has this number, and marks below it what of the span is in it.
///
/// # Errors
///
/// `AllocError` where memory runs out.
pub fn put_marked(
    to: &mut Vec<u8>,
    text: &[u8],
    number: usize,
    mark: Span,
) -> Result<(), AllocError> {
    let start = mark.start.min(text.len());
    let line = without_order_mark(line_around(text, start), text);
    let shown = shown_of(line, start);
    let mut digits = Buffer::new();
    let digits = digits.format(number as u64);
    put_blanks(to, 2)?;
    to.extend_from_slice(digits.as_bytes())?;
    to.extend_from_slice(b" | ")?;
    put_shown(to, text, shown)?;
    to.push(b'\n')?;
    put_blanks(to, digits.len().saturating_add(2))?;
    to.extend_from_slice(b" | ")?;
    put_marks(to, text, shown, mark)?;
    to.push(b'\n')?;
    Ok(())
}

/// The bytes of the line that a position is in, without its line feed.
fn line_around(text: &[u8], place: usize) -> Span
    requires { place ≤ length text.now }
{
    let (before, following) = text.split_at(place);
    let front = before
        .iter()
        .rev()
        .take_while(|byte| **byte != b'\n')
        .count();
    let back = following.iter().take_while(|byte| **byte != b'\n').count();
    Span {
        start: place.saturating_sub(front),
        end: place.saturating_add(back),
    }
}

/// A line without the byte order mark that a text may begin with, which no screen shows.
fn without_order_mark(line: Span, text: &[u8]) -> Span {
    if line.start == 0 && text.starts_with(ORDER_MARK) {
        Span {
            start: ORDER_MARK.len(),
            end: line.end.max(ORDER_MARK.len()),
        }
    } else {
        line
    }
}

/// The part of a line that is shown: the bytes around the position.
fn shown_of(line: Span, place: usize) -> Span {
    Span {
        start: line.start.max(place.saturating_sub(AROUND)),
        end: line.end.min(place.saturating_add(AROUND)),
    }
}

/// Adds the bytes of a span, with a blank for each that moves the cursor.
fn put_shown(to: &mut Vec<u8>, text: &[u8], span: Span) -> Result<(), AllocError> {
    for at in span.start..span.end {
        if let Some(byte) = text.get(at) {
            to.push(tab_or_shown(*byte))?;
        }
    }
    Ok(())
}

fn tab_or_shown(byte: u8) -> u8 {
    if byte == b'\t' { byte } else { shown(byte) }
}

/// Adds a blank for each character before the marked span, and a `^` for each of the span, at least one.
fn put_marks(to: &mut Vec<u8>, text: &[u8], shown: Span, mark: Span) -> Result<(), AllocError> {
    for at in shown.start..mark.start {
        if let Some(byte) = text.get(at)
            && begins_character(*byte)
        {
            to.push(if *byte == b'\t' { b'\t' } else { b' ' })?;
        }
    }
    to.push(b'^')?;
    for at in mark.start.saturating_add(1)..mark.end.min(shown.end) {
        if let Some(byte) = text.get(at)
            && begins_character(*byte)
        {
            to.push(b'^')?;
        }
    }
    Ok(())
}

/// Whether a byte is no later byte of a character in UTF-8.
fn begins_character(byte: u8) -> bool {
    byte & 0xc0 != 0x80
}

fn put_blanks(to: &mut Vec<u8>, count: usize) -> Result<(), AllocError> {
    for _ in 0..count {
        to.push(b' ')?;
    }
    Ok(())
}
