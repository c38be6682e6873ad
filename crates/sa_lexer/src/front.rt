//! The token at the front of some bytes.

ghost use Rattle.std.specs.Prelude.{◌<◌, length};
ghost use Rattle.sa_lexer.specs.ScannedToken.{Gives, StopsAmong};
ghost use Rattle.sa_lexer.specs.Front.{front_of};

use crate::literal::{character_token, text_token};
use crate::name::{abstract_token, name_token};
use crate::number::number_token;
use crate::scan_result::{ScannedToken, Stop};
use crate::sign::sign_token;
use std::alloc::Global;

/// The longest token at the front.
#[tactic(auto, unfolding(crate::specs::Front::front_of))]
pub(crate) fn front_of(alloc: Global, bytes: &[u8]) -> Result<ScannedToken, Stop>
    requires { 0 < length bytes.now }
    ensures token { Gives result (front_of bytes.now) }
    ensures among { StopsAmong (length bytes.now) result }
{
    let [first, rest @ ..] = bytes else {
        unreachable!();
    };
    if first.is_ascii_alphabetic() {
        return Ok(name_token(bytes));
    }
    if first.is_ascii_digit() {
        return Ok(number_token(bytes)?);
    }
    match *first {
        b'\'' => Ok(character_token(rest)?),
        b'"' => text_token(alloc, rest),
        b'$' => Ok(abstract_token(rest)?),
        _ => Ok(sign_token(bytes)?),
    }
}
