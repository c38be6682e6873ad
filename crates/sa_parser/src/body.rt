//! Bodies: the statements after a word. The grammar of statements is cut here, where they nest: the functions of its
//! productions take what reads a nested body as a parameter, so that each is proved by itself.
//!
//! ```text
//! body = WORD stmts
//! ```

ghost use Rattle.std.specs.Prelude.{◌<◌, IfErr, IfOk};
ghost use Rattle.sa_parser.specs.Bodies.{NestsBodies};
ghost use Rattle.sa_parser.specs.Statements.{IsBody};
ghost use Rattle.sa_parser_expr.specs.Exactly.{ReadsAs};
ghost use Rattle.sa_parser_expr.specs.Lexemes.{between};
ghost use Rattle.sa_parser_expr.specs.Positions.{IsAfter, IsUnexpected};
ghost use Rattle.sa_parser_expr.specs.StatementForms.{body_form};

use sa_ast::{Rejection, Stmt};
use sa_lexer::Word;
use sa_parser_expr::Tokens;
use sqlite_items::Items;
use std::alloc::Global;

/// The productions of a statement that begins after `from`.
#[derive(Clone, Copy)]
pub(crate) struct Stmts<'a, F> {
    pub(crate) alloc: Global,
    pub(crate) tokens: Tokens<'a>,
    pub(crate) from: u32,
    /// Reads the body of a word at an index after `from`.
    pub(crate) nested: F,
}

impl<F: Fn(Global, &Tokens<'_>, Word, u32) -> Result<(Items<Stmt>, u32), Rejection>> Stmts<'_, F> {
    /// `WORD stmts`, nested.
    pub(crate) fn body(&self, word: Word, from: u32) -> Result<(Items<Stmt>, u32), Rejection>
        requires nested { NestsBodies self.now.from (F.pre self.now.nested) (F.post self.now.nested) }
        requires from { self.now.from < from }
        ensures next { IfOk result (λ read. IsAfter self.now.tokens.list.now from read.1) }
        ensures spelled { IfOk result (λ read. IsBody word (between self.now.tokens from read.1) read.0) }
        ensures refused { IfErr result (IsUnexpected self.now.tokens.file) }
        ensures exact { ReadsAs (body_form word) self.now.tokens from result }
    {
        (self.nested)(self.alloc, &self.tokens, word, from)
    }
}

/// `WORD stmts`: the statements after this word, and the index after them.
pub(crate) fn read_body(
    alloc: Global,
    tokens: &Tokens<'_>,
    word: Word,
    from: u32,
) -> Result<(Items<Stmt>, u32), Rejection>
    ensures next { IfOk result (λ read. IsAfter tokens.now.list.now from read.1) }
    ensures spelled { IfOk result (λ read. IsBody word (between tokens.now from read.1) read.0) }
    ensures refused { IfErr result (IsUnexpected tokens.now.file) }
    ensures exact { ReadsAs (body_form word) tokens.now from result }
{
    let next = tokens.after_word(from, word)?;
    let statements = Stmts {
        alloc,
        tokens: *tokens,
        from,
        nested: read_body,
    };
    statements.stmts(next)
}
