//! The tokens of each text of a program, and whether a parser may go over them.

ghost use Rattle.std.specs.Prelude.{◌<◌, [], length, slice_index_or, All, IfOk, IfErr};
ghost use Rattle.sa_lexer.specs.Tokens.{AreTokensOf, RefusesText};
ghost use Rattle.sa_parser_expr.specs.Level.{RefusesTokens};
ghost use Rattle.sa_read.specs.Front.{AreTokensOfTexts, IsTakenText, IsReadUpTo, RefusesProgram};
ghost use Rattle.sa_read.specs.SourceFiles.{at};

use sa_ast::Rejection;
use sa_lexer::{Token, lex};
use sa_parser_expr::scan;
use sqlite_items::Items;
use std::alloc::Global;

/// The tokens of each text, or the first lexical fault of the first text that has one.
pub(crate) fn lex_all(alloc: Global, texts: &[Items<u8>]) -> Result<Items<Items<Token>>, Rejection>
    requires short { All (λ text. length text < 4294967295) texts.now }
    requires few { length texts.now < 4294967295 }
    ensures tokens { IfOk result (λ lists. AreTokensOfTexts texts.now lists (length texts.now)) }
    ensures refused { IfErr result (RefusesProgram texts.now) }
{
    let mut lists = Items::new(alloc);
    for number in 0..texts.len() {
        lists.push(lex_text(alloc, texts, number)?)?;
    }
    Ok(lists)
}

/// The tokens of the text with this index.
fn lex_text(alloc: Global, texts: &[Items<u8>], number: usize) -> Result<Items<Token>, Rejection>
    requires short { All (λ text. length text < 4294967295) texts.now }
    requires few { length texts.now < 4294967295 }
    requires there { number < length texts.now }
    ensures tokens { IfOk result (AreTokensOf (at texts.now number)) }
    ensures refused { IfErr result (RefusesText (at texts.now number) number) }
{
    let tokens = lex(alloc, texts[number].as_slice(), number as u32)?;
    Ok(Items::from_vec(tokens))
}

/// Whether a parser may go over the tokens of each text: none of them is a word that the profile refuses, and they nest at most 200
/// levels.
pub(crate) fn scan_all(
    alloc: Global,
    texts: &[Items<u8>],
    lists: &[Items<Token>],
) -> Result<(), Rejection>
    requires tokens { AreTokensOfTexts texts.now lists.now (length texts.now) }
    requires few { length texts.now < 4294967295 }
    ensures taken { IfOk result (λ _. IsReadUpTo texts.now (length texts.now)) }
    ensures refused { IfErr result (RefusesProgram texts.now) }
{
    for number in 0..texts.len() {
        scan_text(alloc, texts, lists, number)?;
    }
    Ok(())
}

/// Whether a parser may go over the tokens of the text with this index.
fn scan_text(
    alloc: Global,
    texts: &[Items<u8>],
    lists: &[Items<Token>],
    number: usize,
) -> Result<(), Rejection>
    requires tokens { AreTokensOfTexts texts.now lists.now (length texts.now) }
    requires few { length texts.now < 4294967295 }
    requires there { number < length texts.now }
    ensures taken { IfOk result (λ _. IsTakenText (at texts.now number)) }
    ensures refused { IfErr result (RefusesTokens (slice_index_or lists.now number []) number) }
{
    scan(alloc, lists[number].as_slice(), number as u32)
}
