//! Names that are nearly a given one.

use crate::source_context::SourceContext;
use crate::tokens::TokenView;
use sa_lexer::{Sign, TokenKind};
use std::alloc::{AllocError, Global};
use strsim::generic_damerau_levenshtein;

/// The greatest number of letters that may differ. Two neighbours that are swapped count as one.
const MOST_EDITS: usize = 2;

/// The greatest length of names that are compared, since a comparison takes the product of their lengths.
const LONGEST: usize = 64;

/// A search for the nearest name: the names that were looked at, and the nearest of them.
#[derive(Clone, Copy)]
struct Nearest<'a> {
    to: &'a [u8],
    /// How many letters may still differ.
    limit: usize,
    pub found: Option<&'a [u8]>,
}

impl<'a> Nearest<'a> {
    /// Before the first name. In a short name fewer letters may differ.
    fn new(to: &'a [u8]) -> Nearest<'a> {
        Nearest {
            to,
            limit: if to.len() > LONGEST {
                0
            } else {
                MOST_EDITS.min(to.len() / 3)
            },
            found: None,
        }
    }

    /// Looks at a name. Of names that are equally near the first one wins.
    fn look_at(&mut self, alloc: Global, name: &'a [u8]) -> Result<(), AllocError> {
        if self.limit == 0 || name.len().abs_diff(self.to.len()) > self.limit || name == self.to {
            return Ok(());
        }
        let edits = generic_damerau_levenshtein(alloc, self.to, name)?;
        if edits <= self.limit {
            self.found = Some(name);
            self.limit = edits.saturating_sub(1);
        }
        Ok(())
    }
}

/// The name of a variable of this file, or of a feature of the program, that is nearly the given one, or none.
///
/// # Errors
///
/// `AllocError` where memory runs out.
pub fn feature_near<'a>(
    scene: SourceContext<'a>,
    name: &'a [u8],
) -> Result<Option<&'a [u8]>, AllocError> {
    let mut nearest = Nearest::new(name);
    look_at_variables(&mut nearest, scene.alloc, scene.tokens)?;
    for class in scene.table.classes {
        for feature in class.features.as_slice() {
            nearest.look_at(scene.alloc, feature.name.name.as_slice())?;
        }
    }
    Ok(nearest.found)
}

/// The name of a class that is nearly the given one, or none.
///
/// # Errors
///
/// `AllocError` where memory runs out.
pub fn class_near<'a>(
    scene: SourceContext<'a>,
    name: &'a [u8],
) -> Result<Option<&'a [u8]>, AllocError> {
    let mut nearest = Nearest::new(name);
    for class in scene.table.classes {
        nearest.look_at(scene.alloc, class.name.name.as_slice())?;
    }
    Ok(nearest.found)
}

/// Looks at the names that `:`, `,` or `::=` follows.
fn look_at_variables<'a>(
    nearest: &mut Nearest<'a>,
    alloc: Global,
    tokens: TokenView<'a>,
) -> Result<(), AllocError> {
    for at in 0..tokens.list.len() {
        if tokens.is_lower(at) && is_declared(tokens.kind(at.saturating_add(1))) {
            nearest.look_at(alloc, tokens.bytes(at))?;
        }
    }
    Ok(())
}

fn is_declared(following: Option<&TokenKind>) -> bool {
    matches!(
        following,
        Some(TokenKind::Sign(Sign::Colon | Sign::Comma | Sign::Declare))
    )
}
