//! How much the includes of one program may contribute. A program in which includes double features or types at each step would
//! otherwise take memory that grows exponentially with its source.

use failure::{Failure, limit};

/// How many AST nodes the includes of one program contribute at most. An included feature counts eight, and each of its arguments
/// and of the types written in its head counts one, as does each AST node of an initialiser. The statements,
/// expressions and types of a body count where the body is copied, and not where it is shared.
pub const MOST_FORMS: u64 = 8_388_608;

/// What an included feature counts besides its parts.
pub(crate) const FEATURE_FORMS: u64 = 8;

/// The AST nodes that includes may still contribute.
#[derive(Clone, Copy)]
pub(crate) struct Budget {
    left: u64,
}

impl Budget {
    pub(crate) fn new() -> Budget {
        Budget { left: MOST_FORMS }
    }

    /// Takes n AST nodes, or answers that there is no memory for n.
    pub(crate) fn take(&mut self, forms: u64) -> Result<(), Failure> {
        match self.left.checked_sub(forms) {
            Some(left) => {
                self.left = left;
                Ok(())
            }
            None => limit(),
        }
    }
}
