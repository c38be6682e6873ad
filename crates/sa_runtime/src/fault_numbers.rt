//! The numbers of the faults, as the module code has them.

use sa_ast::FaultKind;

/// A result is out of range.
pub const OVERFLOW: u32 = FaultKind::Overflow as u32;

/// A divisor is zero.
pub(crate) const DIVISION_BY_ZERO: u32 = FaultKind::DivisionByZero as u32;

/// A receiver, or what is raised, is void.
pub const VOID: u32 = FaultKind::Void as u32;

/// An index or a count is out of range.
pub const INDEX: u32 = FaultKind::Index as u32;

/// What is asserted is false. The faults with greater numbers stop the program; the others raise an exception.
pub(crate) const ASSERT: u32 = FaultKind::Assert as u32;

/// The number of a raise by the statement `raise`, which is a fault where nothing catches it.
pub const UNCAUGHT: u32 = FaultKind::Uncaught as u32;

/// The room is used up.
pub const NO_ROOM: u32 = FaultKind::NoRoom as u32;

/// Activations nest too deep.
pub const TOO_DEEP: u32 = FaultKind::TooDeep as u32;

/// Too many instances of iters are alive.
pub const TOO_MANY_FRAMES: u32 = FaultKind::Frames as u32;
