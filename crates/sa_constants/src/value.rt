//! The values that constants have.

use sa_ast::Name;

/// The value of a constant.
#[derive(Drop)]
pub enum ConstValue {
    Int(i32),
    Bool(bool),
    Char(u8),
    Text(Name),
}
