//! The classes and the contracts of a program.

ghost use Rattle.std.specs.Prelude.{◌≡◌, ◌+◌, ◌<◌, [], ◌++◌, length, slice_index_or, All, IfOk, IfErr, OnOk};
ghost use Rattle.sa_parser.specs.declared.file.ParsedFiles.{ParsedFiles};
ghost use Rattle.sa_read.specs.Front.{AreTokensOfTexts, GivesProgram, IsParsedOf, IsProgramOf, IsReadUpTo, RefusesFile, RefusesProgram};
ghost use Rattle.sa_read.specs.SourceFiles.{at};

use crate::tokens::{lex_all, scan_all};
use failure::{Failure, limit};
use sa_ast::Rejection;
use sa_lexer::Token;
use sa_parser::{FileKind, ParsedFiles, parse};
use sqlite_items::Items;
use std::alloc::{AllocError, Global};

/// The indices of classes are less than this.
const MOST_PLACES: usize = u32::MAX as usize;

/// The classes of a program's texts, in order, and their contracts. The first text is the prelude's.
///
/// # Errors
///
/// The first refusal, by the tokens of all texts, then by their words and levels, then by the grammar: in the first text
/// that is no file, at the first token with which those up to it begin none, or at the end of the text. Or `NoMemory`, also
/// where the classes can't be numbered.
pub fn parse_program(alloc: Global, texts: &[Items<u8>]) -> Result<ParsedFiles, Rejection>
    requires short { All (λ text. length text < 4294967295) texts.now }
    requires few { length texts.now < 4294967295 }
    ensures classes { IfOk result (IsProgramOf texts.now) }
    ensures only { (parsed : ParsedFiles) → IsProgramOf texts.now parsed → GivesProgram parsed result }
    ensures refused { IfErr result (RefusesProgram texts.now) }
{
    let lists = lex_all(alloc, texts)?;
    scan_all(alloc, texts, lists.as_slice())?;
    parse_all(alloc, texts, lists.as_slice())
}

/// The classes that the tokens of each text spell.
fn parse_all(
    alloc: Global,
    texts: &[Items<u8>],
    lists: &[Items<Token>],
) -> Result<ParsedFiles, Rejection>
    requires short { All (λ text. length text < 4294967295) texts.now }
    requires few { length texts.now < 4294967295 }
    requires tokens { AreTokensOfTexts texts.now lists.now (length texts.now) }
    requires taken { IsReadUpTo texts.now (length texts.now) }
    ensures classes { IfOk result (IsProgramOf texts.now) }
    ensures refused { IfErr result (RefusesProgram texts.now) }
{
    let mut parsed = ParsedFiles {
        classes: Items::new(alloc),
        contracts: Items::new(alloc),
    };
    for number in 0..texts.len() {
        let first = first_place(parsed.classes.len(), lists[number].len())?;
        let file = parse_text(alloc, texts, lists, number, first)?;
        append(&mut parsed, file)?;
    }
    Ok(parsed)
}

/// Adds what a file declares after what is there.
fn append(parsed: &mut ParsedFiles, file: ParsedFiles) -> Result<(), AllocError>
    ensures classes { OnOk result (parsed.new.classes ≡ parsed.old.classes ++ file.classes) }
    ensures contracts { OnOk result (parsed.new.contracts ≡ parsed.old.contracts ++ file.contracts) }
{
    let ParsedFiles { classes, contracts } = file;
    parsed.classes.append(classes)?;
    parsed.contracts.append(contracts)
}

/// The index of the class after so many, where those of so many tokens can be numbered from there.
fn first_place(classes: usize, tokens: usize) -> Result<u32, Failure>
    ensures { IfOk result (λ first. (first ≡ classes) × (classes + tokens < 4294967295)) }
{
    if tokens >= MOST_PLACES || classes >= MOST_PLACES - tokens {
        return limit();
    }
    Ok(classes as u32)
}

/// The classes that the text with this index spells, the first of which has the index `first`. The first text alone is the prelude's.
fn parse_text(
    alloc: Global,
    texts: &[Items<u8>],
    lists: &[Items<Token>],
    number: usize,
    first: u32,
) -> Result<ParsedFiles, Rejection>
    requires short { All (λ text. length text < 4294967295) texts.now }
    requires few { length texts.now < 4294967295 }
    requires tokens { AreTokensOfTexts texts.now lists.now (length texts.now) }
    requires there { number < length texts.now }
    requires places { first + length (slice_index_or lists.now number []) < 4294967295 }
    ensures classes { IfOk result (IsParsedOf texts.now number first) }
    ensures refused { IfErr result (RefusesFile (at texts.now number) number (slice_index_or lists.now number [])) }
{
    let tokens = lists[number].as_slice();
    let text = texts[number].as_slice();
    let file_kind = if number == 0 {
        FileKind::Prelude
    } else {
        FileKind::Program
    };
    parse(alloc, tokens, text, number as u32, file_kind, first)
}
