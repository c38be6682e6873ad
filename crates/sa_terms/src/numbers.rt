//! The numbers that are the same in each program.

/// The number of `$OB`. The first needed instances are the same in each program.
pub const OB: u32 = 0;
/// The number of `$IS_EQ`, after that of `$STR`.
pub const IS_EQ: u32 = 2;
/// The number of BOOL.
pub const BOOL: u32 = 3;
/// The number of INT.
pub const INT: u32 = 4;
/// The number of CHAR.
pub const CHAR: u32 = 5;
/// The number of STR.
pub const STR: u32 = 6;
/// The number of FAULT.
pub const FAULT: u32 = 7;
/// The number of MAIN.
pub const MAIN: u32 = 8;
