//! Why a machine traps (section 4.4 of the WebAssembly Core Specification 1.0).

/// Why an instruction traps.
#[derive(Clone, Copy, Debug, PartialEq, Eq, Hash)]
pub enum TrapKind {
    /// `unreachable` was executed.
    Unreachable,
    /// A division or a remainder by zero.
    DivZero,
    /// A signed division whose quotient doesn't fit.
    Overflow,
    /// An access past the end of the memory.
    Memory,
    /// An indirect call past the end of the table.
    Element,
    /// An indirect call through an element that was never set.
    Uninitialised,
    /// An indirect call of a function of another type.
    Mismatch,
}
