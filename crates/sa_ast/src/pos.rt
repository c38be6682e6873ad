//! The position of a form, and the line of a position in a text.

ghost use Rattle.std.specs.Prelude.{◌≡◌, ◌+◌, ◌<◌, ◌≤◌, ◌==◌, count_by, length, take};
ghost use Rattle.sa_ast.specs.Sources.{text_of};

use crate::name::Name;
use sqlite_items::Items;

/// A position in one of a program's source texts.
#[derive(Clone, Copy, Debug, PartialEq, Eq, Hash)]
pub struct Pos {
    /// The index of the text: 0 is the prelude, and the command's files follow from 1 in order.
    pub file: u32,
    /// The offset of the byte in the text, from 0.
    pub at: u32,
}

/// A program's source texts in order, each with its name. The prelude is the first.
#[derive(Drop)]
pub struct Sources {
    pub names: Items<Name>,
    pub texts: Items<Items<u8>>,
}

/// The line number of a position, from 1. A line feed belongs to the line that it ends, and a position past the end of its text is
/// in the last line.
pub fn line_of(sources: &Sources, pos: Pos) -> u32
    requires text { pos.file < length sources.now.texts }
    requires short { length (text_of sources.now pos.file) < 4_294_967_295 }
    ensures { result ≡ 1 + count_by (λ byte. byte == 10)
        (take pos.at (text_of sources.now pos.file)) }
{
    let text = sources.texts.as_slice()[pos.file as usize].as_slice();
    1 + line_feeds(text, pos.at as usize) as u32
}

fn line_feeds(text: &[u8], end: usize) -> usize
    ensures count { result ≡ count_by (λ byte. byte == 10) (take end text.now) }
    ensures within { result ≤ length text.now }
{
    text.iter().take(end).filter(|byte| **byte == b'\n').count()
}
