//! The lexer: a text into its tokens.

ghost use Rattle.std.specs.Prelude.{◌<◌, length, IfOk, IfErr};
ghost use Rattle.sa_lexer.specs.Tokens.{IsTokenAt, AreTokensOf, RefusesAt, RefusesText};

use crate::front::front_of;
use crate::gap::{gap_len, mark_len};
use crate::scan_result::Stop;
use crate::token::Token;
use failure::Failure;
use sa_ast::{Pos, Rejection};
use std::alloc::Global;

/// The token that begins at a position.
fn token_at(alloc: Global, src: &[u8], file: u32, place: usize) -> Result<Token, Rejection>
    requires in_text { place < length src.now }
    requires size { length src.now < 4294967295 }
    ensures token { IfOk result (IsTokenAt src.now place) }
    ensures refused { IfErr result (RefusesAt src.now file place) }
{
    match front_of(alloc, &src[place..]) {
        Ok(found) => Ok(Token {
            kind: found.kind,
            start: place as u32,
            end: (place + found.len) as u32,
        }),
        Err(Stop::Broken(fault)) => {
            let at = (place + fault.offset) as u32;
            let pos = Pos { file, at };
            Err(Rejection::Refused(fault.rule.at(pos)))
        }
        Err(Stop::NoMemory) => Err(Rejection::Failed(Failure::NoMemory)),
    }
}

/// The tokens of a text, which is that of the file with index `file`. Adjacent texts aren't joined. A byte order mark at the beginning
/// is skipped.
///
/// `Refused` names the first position after some tokens, blanks and comments where no token begins: E01 for a byte that
/// begins none, E02 for a literal that doesn't end on its line or a character of no or several bytes, E03 for a number
/// greater than 2147483647, E04 for a number of another form, and E05, at its `\`, for an escape that isn't known.
/// `NoMemory` means that memory has run out.
pub fn lex(alloc: Global, src: &[u8], file: u32) -> Result<Vec<Token>, Rejection>
    requires { length src.now < 4294967295 }
    ensures tokens { IfOk result (λ tokens. AreTokensOf src.now tokens.items) }
    ensures refused { IfErr result (RefusesText src.now file) }
{
    let mut tokens = Vec::new(alloc);
    let begin = mark_len(src);
    let first_gap = gap_len(&src[begin..]);
    let mut place = begin + first_gap;
    while place < src.len() {
        let token = token_at(alloc, src, file, place)?;
        let end = token.end as usize;
        tokens
            .push(token)
            .map_err(|_| Rejection::Failed(Failure::NoMemory))?;
        place = end + gap_len(&src[end..]);
    }
    Ok(tokens)
}
