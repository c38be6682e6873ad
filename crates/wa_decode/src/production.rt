//! The grammar of the binary format (section 5.1): productions, and vectors of what they denote.

ghost use Rattle.std.specs.Prelude.{ℕ, ◌<◌, List, length, IfOk};
ghost use Rattle.wa_syntax.specs.Formats.{vec};
ghost use Rattle.wa_decode.specs.Places.{EndsIn};
ghost use Rattle.wa_decode.specs.Reading.{Reads};

use crate::fault::DecodeFault;
use crate::value::unsigned;
use sqlite_items::Items;
use std::alloc::Global;

/// What is read at a position, with the position after it.
pub type Decoded<T> = Result<(T, u32), DecodeFault>;

/// A production of the grammar: what bytes denote.
pub trait Production {
    /// What the bytes denote.
    type Value: Drop;

    /// Which bytes spell a value.
    ghost format: { Self.Value → List ℕ → Type 0 };

    /// Reads what is spelled at a position.
    ///
    /// `Malformed` comes where nothing is, as where the place is past the end, and `NoMemory` where memory runs out.
    fn read(alloc: Global, bytes: &[u8], at: u32) -> Decoded<Self::Value>
        requires { length bytes.now < u32.MAX }
        ensures ends { IfOk result (λ read. EndsIn bytes.now at read.1) }
        ensures reads { Reads format bytes.now at result };
}

/// A vector (5.1.3): how many values there are, and then the values.
///
/// Each value takes a byte at least, so a count that is greater than the bytes allow takes no memory of its own.
pub fn vector<P: Production>(alloc: Global, bytes: &[u8], at: u32) -> Decoded<Items<P::Value>>
    requires { length bytes.now < u32.MAX }
    ensures ends { IfOk result (λ read. EndsIn bytes.now at read.1) }
    ensures reads { Reads (vec P.format) bytes.now at result }
{
    let (count, mut at) = unsigned(bytes, at)?;
    let mut values = Items::new(alloc);
    for _read in 0..count {
        let (value, next) = P::read(alloc, bytes, at)?;
        values.push(value)?;
        at = next;
    }
    Ok((values, at))
}
