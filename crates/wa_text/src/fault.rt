//! Why a text isn't known to be a listing.

ghost use Rattle.std.specs.Prelude.{◌≡◌};
ghost use Rattle.hex.specs.declared.error.FromHexError.TheVariants as hex;
ghost use Rattle.wa_text.specs.declared.fault.LineFault.TheVariants as line;
ghost use Rattle.wa_text.specs.declared.fault.TextFault.TheVariants as text;

use hex::FromHexError;
use std::alloc::{AllocError, AllocFailed};
use thiserror::Error;

/// Why a text isn't known to be a listing.
#[derive(Clone, Copy, Debug, PartialEq, Eq, Hash, Error)]
pub enum ListFault {
    /// The text is no listing. The number is that of the first line, counted from 1, such that the lines up to it begin no
    /// listing, and one more than there are line feeds where the text ends too early.
    #[error("no listing, by line {0}")]
    NotListing(u32),
    /// Memory has run out.
    #[error("out of memory")]
    NoMemory,
}

/// Why no value was read at a position of a text.
#[derive(Clone, Copy, Debug, PartialEq, Eq, Hash, Error)]
pub enum TextFault {
    /// There is none. The position, in bytes, is that of the first line with which this is clear.
    #[error("no listing, by the line at byte {0}")]
    Wrong(u32),
    /// Memory has run out.
    #[error("out of memory")]
    NoMemory,
}

/// Why the words of a line were not read as a production.
#[derive(Clone, Copy, Debug, PartialEq, Eq, Hash, Error)]
pub enum LineFault {
    /// They are not of the production.
    #[error("no line of a listing")]
    Wrong,
    /// Memory has run out.
    #[error("out of memory")]
    NoMemory,
}

impl LineFault {
    /// The fault of the text, by the position of the line.
    pub fn at(self, place: u32) -> TextFault
        ensures wrong { self ≡ line.Wrong → result ≡ text.Wrong place }
        ensures memory { self ≡ line.NoMemory → result ≡ text.NoMemory }
    {
        match self {
            LineFault::Wrong => TextFault::Wrong(place),
            LineFault::NoMemory => TextFault::NoMemory,
        }
    }
}

impl From<AllocError> for TextFault {
    ghost from_gives = { λ _ e. e ≡ text.NoMemory };

    fn from(_: AllocError) -> TextFault {
        TextFault::NoMemory
    }
}

impl<T: Drop> From<AllocFailed<T>> for TextFault {
    ghost from_gives = { λ _ e. e ≡ text.NoMemory };

    fn from(_: AllocFailed<T>) -> TextFault {
        TextFault::NoMemory
    }
}

impl From<FromHexError> for LineFault {
    ghost from_gives = { λ e fault. e ≡ hex.OutOfMemory → fault ≡ line.NoMemory };

    fn from(e: FromHexError) -> LineFault {
        match e {
            FromHexError::OutOfMemory => LineFault::NoMemory,
            _ => LineFault::Wrong,
        }
    }
}

impl From<AllocError> for LineFault {
    ghost from_gives = { λ _ e. e ≡ line.NoMemory };

    fn from(_: AllocError) -> LineFault {
        LineFault::NoMemory
    }
}

impl<T: Drop> From<AllocFailed<T>> for LineFault {
    ghost from_gives = { λ _ e. e ≡ line.NoMemory };

    fn from(_: AllocFailed<T>) -> LineFault {
        LineFault::NoMemory
    }
}
