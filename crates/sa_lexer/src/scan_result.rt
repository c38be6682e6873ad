//! What is found at a position of a text: a token, or the rule that is broken there.

ghost use Rattle.std.specs.Prelude.{◌≡◌};
ghost use Rattle.sa_lexer.specs.declared.scan_result.Stop.TheVariants.{Broken, NoMemory};

use crate::token::TokenKind;
use sa_ast::Rule;
use std::alloc::{AllocError, AllocFailed};

/// A token by its kind and its length in bytes.
#[derive(Debug, Drop)]
pub(crate) struct ScannedToken {
    pub kind: TokenKind,
    pub len: usize,
}

/// Why there is no token at a position: the rule that is broken, and the number of bytes from the position to the fault.
#[derive(Clone, Copy, Debug, PartialEq, Eq)]
pub(crate) struct Fault {
    pub rule: Rule,
    pub offset: usize,
}

impl Fault {
    /// A rule that is broken at the position itself.
    pub(crate) fn at_front(rule: Rule) -> Fault
        ensures { result ≡ record { rule = rule; offset = 0 } }
    {
        Fault { rule, offset: 0 }
    }
}

/// Why a token isn't given.
#[derive(Clone, Copy, Debug, PartialEq, Eq)]
pub(crate) enum Stop {
    Broken(Fault),
    NoMemory,
}

impl From<Fault> for Stop {
    ghost from_gives = { λ fault stop. stop ≡ Broken fault };

    fn from(fault: Fault) -> Stop {
        Stop::Broken(fault)
    }
}

impl From<AllocError> for Stop {
    ghost from_gives = { λ _ stop. stop ≡ NoMemory };

    fn from(_error: AllocError) -> Stop {
        Stop::NoMemory
    }
}

impl<T: Drop> From<AllocFailed<T>> for Stop {
    ghost from_gives = { λ _ stop. stop ≡ NoMemory };

    fn from(_error: AllocFailed<T>) -> Stop {
        Stop::NoMemory
    }
}
