//! The parser of a file: its classes and their contracts.
//!
//! ```text
//! file = [class] {";" [class]}
//! ```

ghost use Rattle.std.specs.Prelude.{◌≡◌, ◌+◌, ◌<◌, ◌≤◌, [], ◌++◌, All, IfErr, IfOk, OnOk, length, map};
ghost use Rattle.std.specs.List.{flat_map};
ghost use Rattle.std.specs.Option.{option_to_list};
ghost use Rattle.sa_lexer.specs.Token.{IsWithin};
ghost use Rattle.sa_ast.specs.declared.contract.Contract.TheVariants as contract;
ghost use Rattle.sa_parser_expr.specs.Exactly.{map_value};
ghost use Rattle.sa_parser_expr.specs.Level.{AreTaken};
ghost use Rattle.sa_parser_expr.specs.Positions.{IsFrom, IsUnexpected};
ghost use Rattle.sa_parser.specs.ClassForms.{optional_class_form};
ghost use Rattle.sa_parser.specs.Classes.{contracts_in, whole_of};
ghost use Rattle.sa_parser.specs.Files.{FileReads, Parses};
ghost use Rattle.sa_parser.specs.MappedReads.{ReadsMade};
ghost use Rattle.sa_parser.specs.Refusals.{IsRefusal};

use crate::class::{WholeClass, class};
use crate::sharing::Sharing;
use crate::starts::begins_class;
use sa_ast::{Class, Condition, Contract, Rejection};
use sa_lexer::{Sign, Token};
use sa_parser_expr::{Tokens, scan};
use sqlite_items::Items;
use std::alloc::{AllocError, Global};

/// The kind of file that the classes are of: the prelude, which alone may have built-in features, or a file of the program.
#[derive(Clone, Copy, Debug, PartialEq, Eq)]
pub enum FileKind {
    Prelude,
    Program,
}

/// The classes that files declare, and their contracts, by the indices of the classes.
#[derive(Drop)]
pub struct ParsedFiles {
    pub classes: Items<Class>,
    /// By class: the clauses of its features in their order, and after them its invariant.
    pub contracts: Items<Contract>,
}

impl ParsedFiles {
    fn new(alloc: Global) -> ParsedFiles
        ensures { result ≡ record { classes = []; contracts = [] } }
    {
        ParsedFiles {
            classes: Items::new(alloc),
            contracts: Items::new(alloc),
        }
    }

    /// Adds the class with this index after the others, and its contracts.
    fn put(&mut self, place: u32, one: Option<WholeClass>) -> Result<(), AllocError>
        ensures count { OnOk result (length self.new.classes ≤ length self.old.classes + 1) }
        ensures classes { OnOk result (self.new.classes ≡ self.old.classes ++ map (λ one. one.class) (option_to_list one)) }
        ensures contracts { OnOk result (self.new.contracts ≡ self.old.contracts ++ flat_map (contracts_in place) (option_to_list one)) }
    {
        let Some(
            WholeClass {
                class,
                clauses,
                invariant,
            },
        ) = one
        else {
            return Ok(());
        };
        self.classes.push(class)?;
        self.put_contracts(place, clauses, invariant)
    }

    /// Adds the contracts of the class with this index after the others.
    fn put_contracts(
        &mut self,
        class: u32,
        clauses: Items<Contract>,
        invariant: Option<Condition>,
    ) -> Result<(), AllocError>
        ensures classes { OnOk result (self.new.classes ≡ self.old.classes) }
        ensures contracts { OnOk result
            (self.new.contracts ≡ self.old.contracts ++ clauses ++ map (contract.Invariant class) (option_to_list invariant)) }
    {
        self.contracts.append(clauses)?;
        match invariant {
            Some(holds) => self.contracts.push(Contract::Invariant { class, holds }),
            None => Ok(()),
        }
    }
}

/// The classes that the tokens of a text spell, and their contracts. The text is that of the file with index `file`, and the index
/// of its first class is `first`.
///
/// `Refused` names the first token that is a word which the profile refuses (E08), or at which the level passes 200
/// (E07); where there is none, the first token with which the tokens up to it begin no file, or the end of the file
/// (E06). `NoMemory` means that memory has run out, or that types and initialisers that several names share have more
/// than 16,777,216 bytes in this file, counted once for each name.
pub fn parse(
    alloc: Global,
    tokens: &[Token],
    src: &[u8],
    file: u32,
    file_kind: FileKind,
    first: u32,
) -> Result<ParsedFiles, Rejection>
    requires within { All (IsWithin src.now) tokens.now }
    requires short { length src.now < 4294967295 }
    requires few { first + length tokens.now < 4294967295 }
    ensures taken { OnOk result (AreTaken tokens.now (length tokens.now)) }
    ensures refused { IfErr result (IsRefusal tokens.now file) }
    ensures exact { Parses file src.now tokens.now file_kind first result }
{
    scan(alloc, tokens, file)?;
    let tokens = Tokens {
        list: tokens,
        src,
        file,
    };
    classes(alloc, &tokens, file_kind, first)
}

/// `[class] {";" [class]}`, and the end of the file. The index of the first class is `first`.
fn classes(
    alloc: Global,
    tokens: &Tokens<'_>,
    file_kind: FileKind,
    first: u32,
) -> Result<ParsedFiles, Rejection>
    requires { first + length tokens.now.list.now < 4294967295 }
    ensures refused { IfErr result (IsUnexpected tokens.now.file) }
    ensures exact { FileReads tokens.now.file tokens.now.src.now tokens.now.list.now file_kind first result }
{
    let mut sharing = Sharing::new();
    let mut parsed = ParsedFiles::new(alloc);
    let (one, mut next) = optional_class(alloc, tokens, file_kind, first, &mut sharing, 0)?;
    parsed.put(first, one)?;
    'more: while tokens.is_sign(next, Sign::Semicolon) {
        let place = first + parsed.classes.len() as u32;
        let (one, end) = optional_class(alloc, tokens, file_kind, place, &mut sharing, next + 1)?;
        parsed.put(place, one)?;
        next = end;
    }
    match tokens.kind(next) {
        None => Ok(parsed),
        Some(_) => Err(tokens.unexpected(next)),
    }
}

/// `[class]`, which has this index among the classes.
fn optional_class(
    alloc: Global,
    tokens: &Tokens<'_>,
    file_kind: FileKind,
    place: u32,
    sharing: &mut Sharing,
    from: u32,
) -> Result<(Option<WholeClass>, u32), Rejection>
    requires { from ≤ length tokens.now.list.now }
    ensures next { IfOk result (λ read. IsFrom tokens.now.list.now from read.1) }
    ensures refused { IfErr result (IsUnexpected tokens.now.file) }
    ensures exact { ReadsMade (optional_class_form file_kind) (λ written. map (whole_of place) written) tokens.now from
        (map_value option_to_list result) }
{
    if !begins_class(tokens.kind(from)) {
        return Ok((None, from));
    }
    let (class, next) = class(alloc, tokens, file_kind, place, sharing, from)?;
    Ok((Some(class), next))
}
