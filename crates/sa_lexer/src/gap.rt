//! Blanks, comments and the byte order mark.

ghost use Rattle.std.specs.Prelude.{◌≡◌, ◌≤◌, false, length};
ghost use Rattle.sa_lexer.specs.Gap.{gap_len, mark_len};

use crate::byte::{begins_with, is_blank};

/// How many bytes the byte order mark at the front has. It is a blank at the beginning of a text alone.
pub(crate) fn mark_len(bytes: &[u8]) -> usize
    ensures mark { result ≡ mark_len bytes.now }
    ensures within { result ≤ length bytes.now }
{
    match bytes {
        [0xEF, 0xBB, 0xBF, ..] => 3,
        _ => 0,
    }
}

/// How many bytes of blanks and comments are at the front.
pub(crate) fn gap_len(bytes: &[u8]) -> usize
    ensures gap { result ≡ gap_len false bytes.now }
    ensures within { result ≤ length bytes.now }
{
    let mut in_comment = false;
    for (i, &byte) in bytes.iter().enumerate() {
        let commented = in_comment || (byte == b'-' && begins_with(b'-', &bytes[i + 1..]));
        if !commented && !is_blank(byte) {
            return i;
        }
        in_comment = commented && byte != b'\n';
    }
    bytes.len()
}
