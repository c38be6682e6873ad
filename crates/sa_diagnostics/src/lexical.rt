//! Bytes that begin no token: E01 to E05.

use crate::{Message, MessagePart, Span};
use sa_ast::{Refusal, Rule};
use std::alloc::AllocError;

/// The greatest number of bytes of a text that are written out in a remedy.
const MOST_SHOWN: usize = 30;

/// Says what is wrong with the bytes at a position of a text, where more is known of them than the rule.
///
/// # Errors
///
/// `AllocError` where memory runs out.
pub fn about_bytes(text: &[u8], refusal: Refusal, said: &mut Message) -> Result<(), AllocError> {
    let at = refusal.pos.at as usize;
    let following = if at <= text.len() { &text[at..] } else { text };
    match refusal.rule {
        Rule::BadByte if is_behind_type(text, at) => sign(
            said,
            1,
            "A `!` stands directly behind the name of an iter, and behind no type.",
            "Write `once` before the arguments that are evaluated once, and nothing at the others.",
        ),
        Rule::BadByte => about_byte(following, said),
        Rule::LiteralNotEnded => about_literal(following, said),
        Rule::NumberTooLarge | Rule::NumberForm => about_number(following, said),
        Rule::UnknownEscape => about_escape(following, said),
        _ => Ok(()),
    }
}

/// Whether a `!` is at a position of a text, directly after what may be a type.
fn is_behind_type(text: &[u8], at: usize) -> bool {
    let before = match at.checked_sub(1) {
        Some(before) => text.get(before),
        None => None,
    };
    let following = text.get(at.saturating_add(1));
    text.get(at) == Some(&b'!')
        && !matches!(following, Some(byte) if *byte == b'=')
        && matches!(before, Some(byte) if byte.is_ascii_uppercase() || *byte == b'}')
}

/// Signs of other languages and of word processors.
fn about_byte(following: &[u8], said: &mut Message) -> Result<(), AllocError> {
    match following {
        [b'&', b'&', ..] => sign(said, 2, "`&&` is the word `and` here.", "Write `and`."),
        [b'&', ..] => sign(
            said,
            1,
            "`&` is no sign here: of BOOLs it is the word `and`, of INTs the routine `band`.",
            "Write `and`, or `a.band(b)`.",
        ),
        [b'!', b'=', ..] => sign(said, 2, "\"Not equal\" is `/=` here.", "Write `/=`."),
        [b'!', ..] => sign(
            said,
            1,
            "A `!` stands directly behind the name of an iter alone; \"not\" is `~`.",
            "Write `~` for \"not\", and no blank before the `!` of an iter.",
        ),
        [b'?', ..] => sign(
            said,
            1,
            "There is no `?` here.",
            "Choose between two values by an `if` with its statements.",
        ),
        [b'\\', ..] => sign(
            said,
            1,
            "A backslash stands in texts and characters alone.",
            "Take it away: a statement goes on to its `;` by itself.",
        ),
        [b'$', ..] => sign(
            said,
            1,
            "Behind `$` stands the name of an abstract class, in capitals.",
            "Write its name, as `$STR`.",
        ),
        [0xef, 0xbb, 0xbf, ..] => sign(
            said,
            3,
            "This is the byte order mark that an editor has put here.",
            "Save the file without it.",
        ),
        [0xe2, 0x80, 0x98..=0x9f, ..] => sign(
            said,
            3,
            "This is a curly quote of a word processor.",
            "Write `\"` around a text and `'` around a character.",
        ),
        [0xe2, 0x80, 0x93..=0x94, ..] => sign(
            said,
            3,
            "This is a dash of a word processor.",
            "Write `-`, or `--` before a comment.",
        ),
        [0xc2, 0xa0, ..] => sign(
            said,
            2,
            "This is a blank of a word processor, which no line breaks at.",
            "Write a plain blank.",
        ),
        [0x80..=0xff, ..] => sign(
            said,
            1,
            "Letters beyond ASCII are taken in texts and comments alone.",
            "Write the name with the letters `a` to `z`.",
        ),
        _ => Ok(()),
    }
}

/// Marks so many bytes, and says this.
fn sign(said: &mut Message, bytes: usize, wrong: &str, remedy: &str) -> Result<(), AllocError> {
    mark_bytes(said, bytes);
    said.say_words(wrong)?;
    said.say_words(remedy)
}

/// Marks so many bytes from the position on.
fn mark_bytes(said: &mut Message, bytes: usize) {
    said.mark = Span {
        start: said.mark.start,
        end: said.mark.start.saturating_add(bytes),
    };
}

/// A literal that doesn't end, or a character of no or several bytes.
fn about_literal(following: &[u8], said: &mut Message) -> Result<(), AllocError> {
    let (b'\'', inside) = (first(following), rest(following)) else {
        return Ok(());
    };
    let Some(len) = quoted_len(inside) else {
        return Ok(());
    };
    mark_bytes(said, len.saturating_add(2));
    if len == 0 {
        said.say_words("A character is one byte, and here is none; the empty text is `\"\"`.")?;
        return said.say_words("Write `\"\"`, or a byte between the quotes.");
    }
    let inside = if len <= inside.len() {
        &inside[..len]
    } else {
        inside
    };
    said.say_words(
        "A character is one byte between single quotes; a text stands between double quotes.",
    )?;
    if len > MOST_SHOWN {
        return said.say_words("Write it between double quotes.");
    }
    said.say(&[
        MessagePart::Words("Write `\""),
        MessagePart::Plain(inside),
        MessagePart::Words("\"`."),
    ])
}

fn first(bytes: &[u8]) -> u8 {
    match bytes {
        [byte, ..] => *byte,
        [] => 0,
    }
}

fn rest(bytes: &[u8]) -> &[u8] {
    match bytes {
        [_, rest @ ..] => rest,
        [] => bytes,
    }
}

/// The number of bytes before the single quote that closes a character, in a line without double quotes up to there.
fn quoted_len(bytes: &[u8]) -> Option<usize> {
    let mut escaped = false;
    for (at, byte) in bytes.iter().enumerate() {
        match *byte {
            b'\'' if !escaped => return Some(at),
            b'\n' | b'"' => return None,
            _ => escaped = !escaped && *byte == b'\\',
        }
    }
    None
}

/// A number that is too large or of another form.
fn about_number(following: &[u8], said: &mut Message) -> Result<(), AllocError> {
    let len = number_len(following);
    mark_bytes(said, len);
    let spelled = if len <= following.len() {
        &following[..len]
    } else {
        following
    };
    if has_fraction(spelled) {
        said.say(&[
            MessagePart::Code(spelled),
            MessagePart::Words(" has a fraction, and there are whole numbers alone: no FLT."),
        ])?;
        return said.say_words(
            "Count the parts, as tenths in an INT, or take FIXED of the library: `sather lib fixed > fixed.sa`.",
        );
    }
    Ok(())
}

/// The number of digits, letters and points with which the bytes begin.
fn number_len(bytes: &[u8]) -> usize {
    bytes
        .iter()
        .take_while(|byte| byte.is_ascii_alphanumeric() || **byte == b'_' || **byte == b'.')
        .count()
}

/// Whether a point follows the digits with which the bytes begin, and a digit follows the point.
fn has_fraction(spelled: &[u8]) -> bool {
    let digits = spelled
        .iter()
        .take_while(|byte| byte.is_ascii_digit() || **byte == b'_')
        .count();
    let following = spelled.get(digits.saturating_add(1));
    spelled.get(digits) == Some(&b'.') && matches!(following, Some(byte) if byte.is_ascii_digit())
}

fn about_escape(following: &[u8], said: &mut Message) -> Result<(), AllocError> {
    if let [b'\\', byte, ..] = following
        && byte.is_ascii_graphic()
        && !byte.is_ascii_digit()
    {
        mark_bytes(said, 2);
        let escape = [b'\\', *byte];
        said.say(&[
            MessagePart::Code(escape.as_slice()),
            MessagePart::Words(
                " is no escape: there are \\a \\b \\f \\n \\r \\t \\v \\\\ \\' \\\", and one to three octal digits.",
            ),
        ])?;
        return said.say(&[
            MessagePart::Words("A backslash itself is written twice: `\\"),
            MessagePart::Plain(escape.as_slice()),
            MessagePart::Words("`."),
        ]);
    }
    Ok(())
}
