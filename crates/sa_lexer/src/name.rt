//! Names and words.

ghost use Rattle.std.specs.Prelude.{◌≡◌, ◌+◌, ◌<◌, ◌≤◌, not, true, Ok, length, slice_index, IsTrue};
ghost use Rattle.std.specs.Char.{is_ascii_alphabetic, is_ascii_lowercase};
ghost use Rattle.std.specs.List.{find, prefix_len};
ghost use Rattle.std.specs.Str.{bytes_eq};
ghost use Rattle.sa_lexer.specs.Bytes.{is_name_byte};
ghost use Rattle.sa_lexer.specs.ScannedToken.{IsAmong};
ghost use Rattle.sa_lexer.specs.Name.{name_at, has_lower, kind_of_name, is_iter_name, class_name_at, name_token, abstract_token};
ghost use Rattle.sa_lexer.specs.Words.{word_spelled, word_text};

use crate::byte::{begins_with, is_name_byte};
use crate::scan_result::{Fault, ScannedToken};
use crate::token::TokenKind;
use crate::word::{WORDS, Word};
use sa_ast::Rule;

/// How many letters, digits and `_` are at the front.
fn run_len(bytes: &[u8]) -> usize
    ensures run { result ≡ prefix_len is_name_byte bytes.now }
    ensures within { result ≤ length bytes.now }
{
    bytes.iter().take_while(|b| is_name_byte(**b)).count()
}

/// The longest name at the front, or nothing.
#[tactic(auto, unfolding(crate::specs::Name::name_at))]
fn name_at(bytes: &[u8]) -> &[u8]
    ensures name { result.now ≡ name_at bytes.now }
    ensures within { length result.now ≤ length bytes.now }
    ensures not_empty { is_ascii_alphabetic (slice_index bytes.now 0) ≡ true → 0 < length result.now }
{
    match bytes {
        [first, rest @ ..] if first.is_ascii_alphabetic() => &bytes[..1 + run_len(rest)],
        _ => &bytes[..0],
    }
}

/// How many bytes come before the first lower-case letter.
fn capitals_len(name: &[u8]) -> usize
    ensures capitals { result ≡ prefix_len (λ b. not (is_ascii_lowercase b)) name.now }
    ensures within { result ≤ length name.now }
{
    name.iter().take_while(|b| !b.is_ascii_lowercase()).count()
}

fn has_lower(name: &[u8]) -> bool
    ensures { result ≡ has_lower name.now }
{
    name.iter().any(|b| b.is_ascii_lowercase())
}

/// The first of these words that is spelled so.
fn first_spelled(words: &[Word], name: &[u8]) -> Option<Word>
    ensures { result ≡ find (λ word. bytes_eq name.now (word_text word)) words.now }
{
    for &word in words {
        if name == word.text().as_bytes() {
            return Some(word);
        }
    }
    None
}

/// The word of this spelling.
fn word_spelled(name: &[u8]) -> Option<Word>
    ensures { result ≡ word_spelled name.now }
{
    first_spelled(&WORDS, name)
}

#[tactic(auto, unfolding(crate::specs::Name::kind_of_name))]
fn kind_of_name(name: &[u8]) -> TokenKind
    ensures { result ≡ kind_of_name name.now }
{
    match word_spelled(name) {
        Some(word) => TokenKind::Word(word),
        None if has_lower(name) => TokenKind::Lower,
        None => TokenKind::ClassName,
    }
}

/// Whether it is a name with a lower-case letter, and `!` comes directly after it.
fn is_iter_name(name: &[u8], following: &[u8]) -> bool
    ensures test { result ≡ is_iter_name name.now following.now }
    ensures more { IsTrue result → 0 < length following.now }
{
    begins_with(b'!', following) && has_lower(name)
}

/// The token of the name at the front.
#[tactic(auto, unfolding(crate::specs::Name::name_token))]
pub(crate) fn name_token(bytes: &[u8]) -> ScannedToken
    requires { is_ascii_alphabetic (slice_index bytes.now 0) ≡ true }
    ensures token { result ≡ name_token bytes.now }
    ensures among { IsAmong (length bytes.now) (Ok result) }
{
    let name = name_at(bytes);
    let len = name.len();
    if is_iter_name(name, &bytes[len..]) {
        return ScannedToken {
            kind: TokenKind::IterName,
            len: len + 1,
        };
    }
    ScannedToken {
        kind: kind_of_name(name),
        len,
    }
}

/// The longest class's name at the front, or nothing: the name there, up to its first lower-case letter.
#[tactic(auto, unfolding(crate::specs::Name::class_name_at))]
fn class_name_at(bytes: &[u8]) -> &[u8]
    ensures name { result.now ≡ class_name_at bytes.now }
    ensures within { length result.now ≤ length bytes.now }
{
    let name = name_at(bytes);
    &name[..capitals_len(name)]
}

/// The token of a `$` that the bytes follow.
#[tactic(auto, unfolding(crate::specs::Name::abstract_token))]
pub(crate) fn abstract_token(bytes: &[u8]) -> Result<ScannedToken, Fault>
    ensures token { result ≡ abstract_token bytes.now }
    ensures among { IsAmong (1 + length bytes.now) result }
{
    let name = class_name_at(bytes);
    if name.is_empty() {
        return Err(Fault::at_front(Rule::BadByte));
    }
    Ok(ScannedToken {
        kind: TokenKind::AbstractName,
        len: 1 + name.len(),
    })
}
