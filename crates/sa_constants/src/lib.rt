//! The values of constants. A constant is folded from literals, other constants, the operators of INT, BOOL and CHAR that are built in, and
//! `and` and `or`. E23 is reported at the first constant whose own expression isn't of this form or not of its type, whose value is out of
//! range or divides by zero, or which depends on itself. A constant that only names such a one isn't refused.
#![tactic(auto)]

mod folded;
mod links;
mod names;
mod operators;
mod table;
mod value;

pub use table::ConstTable;
pub use value::ConstValue;
