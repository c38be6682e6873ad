//! The signs of the language, each with its spelling, and the sign at the front of some bytes.

ghost use Rattle.std.specs.Prelude.{◌≡◌, ◌<◌, [], ◌∷◌, length};
ghost use Rattle.sa_lexer.specs.ScannedToken.{IsAmong};
ghost use Rattle.sa_lexer.specs.Signs.{sign_text};
ghost use Rattle.sa_lexer.specs.Sign.{sign_at, sign_token};

use crate::scan_result::{Fault, ScannedToken};
use crate::token::TokenKind;
use sa_ast::Rule;
use std::fmt;

/// A sign of the language. `text` gives its spelling.
#[derive(Clone, Copy, Debug, PartialEq, Eq, Hash)]
pub enum Sign {
    /// `(`
    LeftParen,
    /// `)`
    RightParen,
    /// `[`
    LeftBracket,
    /// `]`
    RightBracket,
    /// `{`
    LeftBrace,
    /// `}`
    RightBrace,
    /// `,`
    Comma,
    /// `;`
    Semicolon,
    /// `:`
    Colon,
    /// `.`
    Dot,
    /// `::`
    DoubleColon,
    /// `:=`
    Assign,
    /// `::=`
    Declare,
    /// `=`
    Equal,
    /// `/=`
    NotEqual,
    /// `<`
    Less,
    /// `<=`
    LessEqual,
    /// `>`
    Greater,
    /// `>=`
    GreaterEqual,
    /// `+`
    Plus,
    /// `-`
    Minus,
    /// `*`
    Star,
    /// `/`
    Slash,
    /// `%`
    Percent,
    /// `^`
    Caret,
    /// `~`
    Tilde,
    /// `#`
    Hash,
    /// `|`
    Bar,
    /// `_`
    Underscore,
    /// `->`
    Arrow,
}

impl Sign {
    /// The spelling of the sign.
    pub fn text(self) -> &'static str
        ensures { result.now ≡ sign_text self }
    {
        match self {
            Sign::LeftParen => "(",
            Sign::RightParen => ")",
            Sign::LeftBracket => "[",
            Sign::RightBracket => "]",
            Sign::LeftBrace => "{",
            Sign::RightBrace => "}",
            Sign::Comma => ",",
            Sign::Semicolon => ";",
            Sign::Colon => ":",
            Sign::Dot => ".",
            Sign::DoubleColon => "::",
            Sign::Assign => ":=",
            Sign::Declare => "::=",
            Sign::Equal => "=",
            Sign::NotEqual => "/=",
            Sign::Less => "<",
            Sign::LessEqual => "<=",
            Sign::Greater => ">",
            Sign::GreaterEqual => ">=",
            Sign::Plus => "+",
            Sign::Minus => "-",
            Sign::Star => "*",
            Sign::Slash => "/",
            Sign::Percent => "%",
            Sign::Caret => "^",
            Sign::Tilde => "~",
            Sign::Hash => "#",
            Sign::Bar => "|",
            Sign::Underscore => "_",
            Sign::Arrow => "->",
        }
    }
}

impl fmt::Display for Sign {
    fn fmt<W: fmt::Write>(&self, f: &mut fmt::Formatter<W>) -> fmt::Result {
        f.write_str(self.text())
    }
}

/// The sign of one byte.
fn sign_of_one(first: u8) -> Option<Sign>
    ensures { result ≡ sign_at 1 (first ∷ []) }
{
    match first {
        b'(' => Some(Sign::LeftParen),
        b')' => Some(Sign::RightParen),
        b'[' => Some(Sign::LeftBracket),
        b']' => Some(Sign::RightBracket),
        b'{' => Some(Sign::LeftBrace),
        b'}' => Some(Sign::RightBrace),
        b',' => Some(Sign::Comma),
        b';' => Some(Sign::Semicolon),
        b':' => Some(Sign::Colon),
        b'.' => Some(Sign::Dot),
        b'=' => Some(Sign::Equal),
        b'<' => Some(Sign::Less),
        b'>' => Some(Sign::Greater),
        b'+' => Some(Sign::Plus),
        b'-' => Some(Sign::Minus),
        b'*' => Some(Sign::Star),
        b'/' => Some(Sign::Slash),
        b'%' => Some(Sign::Percent),
        b'^' => Some(Sign::Caret),
        b'~' => Some(Sign::Tilde),
        b'#' => Some(Sign::Hash),
        b'|' => Some(Sign::Bar),
        b'_' => Some(Sign::Underscore),
        _ => None,
    }
}

/// The sign of two bytes.
fn sign_of_two(first: u8, second: u8) -> Option<Sign>
    ensures { result ≡ sign_at 2 (first ∷ second ∷ []) }
{
    match second {
        b':' if first == b':' => Some(Sign::DoubleColon),
        b'>' if first == b'-' => Some(Sign::Arrow),
        b'=' => match first {
            b':' => Some(Sign::Assign),
            b'/' => Some(Sign::NotEqual),
            b'<' => Some(Sign::LessEqual),
            b'>' => Some(Sign::GreaterEqual),
            _ => None,
        },
        _ => None,
    }
}

fn found_sign(sign: Sign, len: usize) -> ScannedToken
    ensures { result ≡ record { kind = TokenKind.Sign sign; len = len } }
{
    ScannedToken {
        kind: TokenKind::Sign(sign),
        len,
    }
}

/// The longest sign at the front.
#[tactic(auto, unfolding(crate::specs::Sign::sign_token))]
pub(crate) fn sign_token(bytes: &[u8]) -> Result<ScannedToken, Fault>
    requires { 0 < length bytes.now }
    ensures token { result ≡ sign_token bytes.now }
    ensures among { IsAmong (length bytes.now) result }
{
    if let [b':', b':', b'=', ..] = bytes {
        return Ok(found_sign(Sign::Declare, 3));
    }
    if let [first, second, ..] = bytes
        && let Some(sign) = sign_of_two(*first, *second)
    {
        return Ok(found_sign(sign, 2));
    }
    if let [first, ..] = bytes
        && let Some(sign) = sign_of_one(*first)
    {
        return Ok(found_sign(sign, 1));
    }
    Err(Fault::at_front(Rule::BadByte))
}
