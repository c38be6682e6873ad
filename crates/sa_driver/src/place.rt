//! Whether a position is in the texts of a program.

ghost use Rattle.std.specs.Prelude.{◌↔◌, IsTrue};
ghost use Rattle.sa_driver.specs.Files.{IsPlaceIn};
ghost use Rattle.sa_driver.specs.Lines.{IsInText};

use sa_ast::Pos;
use sqlite_items::Items;

/// Whether a position is in one of these texts, or at its end, and the lines of that text can be counted.
pub fn is_place_in(texts: &[Items<u8>], pos: Pos) -> bool
    ensures { IsTrue result ↔ (IsPlaceIn texts.now pos × IsInText texts.now pos) }
{
    match texts.get(pos.file as usize) {
        Some(text) => pos.at as usize <= text.len() && text.len() < u32::MAX as usize,
        None => false,
    }
}
