//! The forms in which a text is written: lines as they are, parts with escapes and repetitions, and hexadecimal digits.

use anyhow::{Context, Result, bail};
use std::alloc::Global;

/// The bytes of a text, by the form that its heading names, or as lines where it names none.
pub fn bytes_of(alloc: Global, form: Option<&str>, text: &str) -> Result<Vec<u8>> {
    match form {
        None => lines(alloc, text),
        Some("unended") => unended(alloc, text),
        Some("parts") => parts(alloc, text),
        Some("hex") => bytes_of_hex(alloc, text),
        Some(form) => bail!("no form of a text has the name {form}"),
    }
}

/// The lines as they are written. Empty ones at the end separate the text from what follows.
fn lines(alloc: Global, text: &str) -> Result<Vec<u8>> {
    let mut bytes = unended(alloc, text)?;
    if !bytes.is_empty() {
        bytes.push(b'\n')?;
    }
    Ok(bytes)
}

/// The lines without the last line feed.
fn unended(alloc: Global, text: &str) -> Result<Vec<u8>> {
    let mut bytes = Vec::new(alloc);
    bytes.extend_from_slice(text.trim_end_matches('\n').as_bytes())?;
    Ok(bytes)
}

fn parts(alloc: Global, text: &str) -> Result<Vec<u8>> {
    let mut bytes = Vec::new(alloc);
    for line in text.lines() {
        if !line.is_empty() {
            push_part(alloc, &mut bytes, line)?;
        }
    }
    Ok(bytes)
}

/// Adds what a line states: a number of times, and the text that is repeated so often.
fn push_part(alloc: Global, bytes: &mut Vec<u8>, line: &str) -> Result<()> {
    let (times, text) = line.split_once(' ').context("a part begins with a number")?;
    let times = times.parse::<u64>().context("a part begins with a number")?;
    for number in 0..times {
        push_unescaped(alloc, bytes, text, number)?;
    }
    Ok(())
}

fn bytes_of_hex(alloc: Global, text: &str) -> Result<Vec<u8>> {
    let mut bytes = Vec::new(alloc);
    for line in text.lines() {
        push_hex_line(alloc, &mut bytes, line)?;
    }
    Ok(bytes)
}

/// Adds the bytes of a line, up to its comment.
fn push_hex_line(alloc: Global, bytes: &mut Vec<u8>, line: &str) -> Result<()> {
    let (digits, _comment) = line.split_once(";;").unwrap_or((line, ""));
    for word in digits.split_ascii_whitespace() {
        bytes.extend_from_slice(hex::decode(alloc, word)?.as_slice())?;
    }
    Ok(())
}

/// The bytes that a text with escapes denotes.
pub fn unescaped(alloc: Global, text: &str) -> Result<Vec<u8>> {
    let mut bytes = Vec::new(alloc);
    push_unescaped(alloc, &mut bytes, text, 0)?;
    Ok(bytes)
}

/// Adds the bytes that a text with escapes denotes, with the number in place of `\#`.
fn push_unescaped(alloc: Global, bytes: &mut Vec<u8>, text: &str, number: u64) -> Result<()> {
    let mut rest = text;
    for _ in 0..text.len() {
        let Some((plain, escape)) = rest.split_once('\\') else {
            break;
        };
        bytes.extend_from_slice(plain.as_bytes())?;
        rest = push_escape(alloc, bytes, escape, number)?;
    }
    bytes.extend_from_slice(rest.as_bytes())?;
    Ok(())
}

/// Adds what the escape after a backslash denotes, and gives the text after the escape.
fn push_escape<'a>(
    alloc: Global,
    bytes: &mut Vec<u8>,
    escape: &'a str,
    number: u64,
) -> Result<&'a str> {
    if let Some(rest) = escape.strip_prefix('n') {
        bytes.push(b'\n')?;
        return Ok(rest);
    }
    if let Some(rest) = escape.strip_prefix('\\') {
        bytes.push(b'\\')?;
        return Ok(rest);
    }
    if let Some(rest) = escape.strip_prefix('#') {
        bytes.extend_from_slice(format!(in alloc; "{number}")?.as_bytes())?;
        return Ok(rest);
    }
    let digits = escape.strip_prefix('x').context("an escape is unknown")?;
    let (byte, rest) = digits
        .split_at_checked(2)
        .context("two digits stand behind \\x")?;
    bytes.extend_from_slice(hex::decode(alloc, byte)?.as_slice())?;
    Ok(rest)
}
