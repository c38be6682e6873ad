//! Characters and texts.

ghost use Rattle.std.specs.Prelude.{◌≡◌, ◌<◌, ◌≤◌, ◌+◌, false, length, IfSome};
ghost use Rattle.std.specs.List.{prefix_len};
ghost use Rattle.std.specs.Char.{is_digit};
ghost use Rattle.sa_lexer.specs.ScannedToken.{Gives, IsAmong, StopsAmong};
ghost use Rattle.sa_lexer.specs.Literal.{inside_len, named_escape, octal_digits, escape_at, item_at, items_from};
ghost use Rattle.sa_lexer.specs.Literal.{bytes_of, character_of, text_of, character_token, text_token};

use crate::byte::is_digit;
use crate::number::value_of;
use crate::scan_result::{Fault, ScannedToken, Stop};
use crate::token::TokenKind;
use sa_ast::{Name, Rule};
use std::alloc::Global;

/// A byte of a literal or an escape, by its length in bytes and the byte that it denotes. An escape that isn't known
/// denotes none.
#[derive(Clone, Copy, Debug, PartialEq, Eq)]
pub(crate) struct Item {
    pub len: usize,
    pub byte: Option<u8>,
}

/// How many bytes come before the closing quote on the line.
#[tactic(auto, unfolding(crate::specs::Literal::inside_len))]
fn inside_len(quote: u8, bytes: &[u8]) -> Option<usize>
    ensures place { result ≡ inside_len quote false bytes.now }
    ensures within { IfSome result (λ n. n < length bytes.now) }
{
    let mut escaped = false;
    for (i, &byte) in bytes.iter().enumerate() {
        if byte == b'\n' {
            return None;
        }
        if !escaped && byte == quote {
            return Some(i);
        }
        escaped = !escaped && byte == b'\\';
    }
    None
}

/// What a `\` and the byte at the front denote.
#[tactic(auto, unfolding(crate::specs::Literal::named_escape))]
fn named_escape(bytes: &[u8]) -> Option<u8>
    ensures { result ≡ named_escape bytes.now }
{
    match bytes {
        [b'a', ..] => Some(0x07),
        [b'b', ..] => Some(0x08),
        [b'f', ..] => Some(0x0C),
        [b'n', ..] => Some(0x0A),
        [b'r', ..] => Some(0x0D),
        [b't', ..] => Some(0x09),
        [b'v', ..] => Some(0x0B),
        [sign @ (b'\\' | b'\'' | b'"'), ..] => Some(*sign),
        _ => None,
    }
}

/// How many octal digits are at the front.
fn octal_len(bytes: &[u8]) -> usize
    ensures run { result ≡ prefix_len (λ b. is_digit b 8) bytes.now }
    ensures within { result ≤ length bytes.now }
{
    bytes.iter().take_while(|b| is_digit(**b, 8)).count()
}

/// The octal digits at the front, up to three.
#[tactic(auto, unfolding(crate::specs::Literal::octal_digits))]
fn octal_digits(bytes: &[u8]) -> &[u8]
    ensures digits { result.now ≡ octal_digits bytes.now }
    ensures short { length result.now ≤ 3 }
{
    let first = if bytes.len() < 3 { bytes } else { &bytes[..3] };
    &first[..octal_len(first)]
}

/// The escape of a `\` that the bytes follow.
#[tactic(auto, unfolding(crate::specs::Literal::escape_at))]
fn escape_at(bytes: &[u8]) -> Item
    ensures escape { result ≡ escape_at bytes.now }
    ensures not_empty { 0 < result.len }
    ensures short { result.len ≤ 4 }
{
    let digits = octal_digits(bytes);
    if digits.is_empty() {
        return Item {
            len: 2,
            byte: named_escape(bytes),
        };
    }
    let byte = u8::try_from(value_of(8, digits)).ok();
    Item {
        len: 1 + digits.len(),
        byte,
    }
}

/// The byte or the escape at the front.
#[tactic(auto, unfolding(crate::specs::Literal::item_at))]
fn item_at(first: u8, rest: &[u8]) -> Item
    ensures item { result ≡ item_at first rest.now }
    ensures not_empty { 0 < result.len }
    ensures short { result.len ≤ 4 }
{
    if first == b'\\' {
        escape_at(rest)
    } else {
        Item {
            len: 1,
            byte: Some(first),
        }
    }
}

/// The character with these bytes between its quotes.
fn character_of(inside: &[u8]) -> Result<ScannedToken, Fault>
    ensures token { result ≡ character_of (length inside.now + 2) (items_from 0 inside.now) }
    ensures among { IsAmong (length inside.now + 2) result }
{
    let [first, rest @ ..] = inside else {
        return Err(Fault::at_front(Rule::LiteralNotEnded));
    };
    let item = item_at(*first, rest);
    if item.len <= rest.len() {
        return Err(Fault::at_front(Rule::LiteralNotEnded));
    }
    match item.byte {
        Some(byte) => Ok(ScannedToken {
            kind: TokenKind::Char(byte),
            len: inside.len() + 2,
        }),
        None => Err(Fault {
            rule: Rule::UnknownEscape,
            offset: 1,
        }),
    }
}

/// The character of an opening quote that the bytes follow.
#[tactic(auto, unfolding(crate::specs::Literal::character_token))]
pub(crate) fn character_token(bytes: &[u8]) -> Result<ScannedToken, Fault>
    ensures token { result ≡ character_token bytes.now }
    ensures among { IsAmong (1 + length bytes.now) result }
{
    match inside_len(b'\'', bytes) {
        Some(len) => character_of(&bytes[..len]),
        None => Err(Fault::at_front(Rule::LiteralNotEnded)),
    }
}

/// The text with these bytes between its quotes.
fn text_of(alloc: Global, inside: &[u8]) -> Result<ScannedToken, Stop>
    ensures token { Gives result (text_of (length inside.now + 2) (bytes_of (items_from 0 inside.now))) }
    ensures among { StopsAmong (length inside.now + 2) result }
{
    let mut text = Vec::new(alloc);
    let mut at = 0;
    while at < inside.len() {
        let item = item_at(inside[at], &inside[at + 1..]);
        let Some(byte) = item.byte else {
            return Err(Stop::Broken(Fault {
                rule: Rule::UnknownEscape,
                offset: 1 + at,
            }));
        };
        text.push(byte)?;
        at += item.len;
    }
    let kind = TokenKind::Text(Name::from_slice(alloc, &text)?);
    Ok(ScannedToken {
        kind,
        len: inside.len() + 2,
    })
}

/// The text of an opening quote that the bytes follow.
#[tactic(auto, unfolding(crate::specs::Literal::text_token))]
pub(crate) fn text_token(alloc: Global, bytes: &[u8]) -> Result<ScannedToken, Stop>
    ensures token { Gives result (text_token bytes.now) }
    ensures among { StopsAmong (1 + length bytes.now) result }
{
    match inside_len(b'"', bytes) {
        Some(len) => text_of(alloc, &bytes[..len]),
        None => Err(Stop::Broken(Fault::at_front(Rule::LiteralNotEnded))),
    }
}
