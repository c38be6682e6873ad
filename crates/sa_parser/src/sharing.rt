//! Types and initialisers that several names share.

ghost use Rattle.std.specs.Prelude.{IfErr, IfOk};
ghost use Rattle.sa_parser_expr.specs.Exactly.{ReadsAs};
ghost use Rattle.sa_parser_expr.specs.Forms.{nest, type};
ghost use Rattle.sa_parser_expr.specs.Positions.{IsAfter, IsUnexpected};

use failure::{Failure, limit};
use sa_ast::{Rejection, Ty};
use sa_parser_expr::{Tokens, read_type};
use std::alloc::Global;

/// The most bytes of a file that are read for names that share them: a type or an initialiser counts once for each name
/// that it follows.
const LIMIT: u32 = 16_777_216;

/// How many bytes may still be read of a file for names that share a type or an initialiser.
///
/// Each name has a type and an initialiser of its own in the AST. They are read once for each name, and without a limit
/// a long one after many names would take time and memory that grow with the square of the file's size.
#[derive(Drop)]
pub(crate) struct Sharing {
    left: u32,
}

impl Sharing {
    /// That of a file of which nothing has been read.
    pub(crate) fn new() -> Sharing {
        Sharing { left: LIMIT }
    }

    /// Counts the tokens from one index up to another. It fails where the limit is passed.
    pub(crate) fn count(&mut self, tokens: &Tokens<'_>, from: u32, to: u32) -> Result<(), Failure> {
        let bytes = tokens.pos(to).at.saturating_sub(tokens.pos(from).at);
        match self.left.checked_sub(bytes) {
            Some(left) => {
                self.left = left;
                Ok(())
            }
            None => limit(),
        }
    }
}

/// `type`, counted for one of the names that share it.
pub(crate) fn counted_type(
    alloc: Global,
    tokens: &Tokens<'_>,
    sharing: &mut Sharing,
    from: u32,
) -> Result<(Ty, u32), Rejection>
    ensures next { IfOk result (λ read. IsAfter tokens.now.list.now from read.1) }
    ensures refused { IfErr result (IsUnexpected tokens.now.file) }
    ensures exact { ReadsAs (nest type) tokens.now from result }
{
    let (ty, next) = read_type(alloc, tokens, from)?;
    sharing.count(tokens, from, next)?;
    Ok((ty, next))
}
