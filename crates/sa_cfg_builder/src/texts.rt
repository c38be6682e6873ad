//! The different texts of a program, each with its index.
//!
//! A program may use a text of a million bytes often. So a text is found by its length and its two ends, and the rest of it is read
//! only to compare it with the one that is found.

ghost use Rattle.std.proofs.Common.{rules};
ghost use Rattle.std.specs.Prelude.{◌≡◌};
ghost use Rattle.std.specs.Cmp.Rules.{hashing};
ghost use Rattle.sa_cfg_builder.specs.Texts.{back, front, literal_writes};

use failure::{Failure, Invariant, known};
use indexmap::IndexSet;
use sa_ast::Name;
use sqlite_items::Items;
use std::alloc::Global;
use std::hash::{Hash, Hasher};

/// How many bytes of each end of a text are hashed.
const END: usize = 1_024;

/// A text that is hashed by its length and its two ends.
#[derive(Debug, Drop, PartialEq, Eq)]
struct Literal {
    text: Name,
}

impl Hash for Literal {
    ghost hash_input = { λ literal. literal_writes literal.text };

    ghost respects_eq = { Prim.search (hashing, rules) };

    fn hash<H: Hasher>(&self, state: &mut H) {
        let bytes = self.text.as_slice();
        state.write_usize(bytes.len());
        state.write(front_of(bytes));
        state.write(back_of(bytes));
    }
}

/// The first bytes of a text, as many as are hashed.
fn front_of(bytes: &[u8]) -> &[u8]
    ensures { result.now ≡ front bytes.now }
{
    if bytes.len() <= END {
        return bytes;
    }
    let (front, _) = bytes.split_at(END);
    front
}

/// The last bytes of a text, as many as are hashed.
fn back_of(bytes: &[u8]) -> &[u8]
    ensures { result.now ≡ back bytes.now }
{
    let (_, back) = bytes.split_at(bytes.len().saturating_sub(END));
    back
}

/// The pool of the different texts so far, in the order in which they came.
#[derive(Drop)]
pub struct TextPool {
    literals: IndexSet<Literal>,
}

impl TextPool {
    pub(crate) fn new(alloc: Global) -> TextPool {
        TextPool {
            literals: IndexSet::new(alloc),
        }
    }

    /// The index of a text, which is added where it is new.
    pub fn number(&mut self, alloc: Global, text: &Name) -> Result<u32, Failure> {
        let text = text.copy(alloc)?;
        let (at, _) = self.literals.insert_full(Literal { text })?;
        known(u32::try_from(at).ok(), Invariant::CheckedCount)
    }

    /// The texts in the order of their indices.
    pub fn in_order(self, alloc: Global) -> Result<Items<Name>, Failure> {
        let mut texts = Items::new(alloc);
        for Literal { text } in self.literals {
            texts.push(text)?;
        }
        Ok(texts)
    }
}
