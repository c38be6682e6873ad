//! A call that resolves to a const is its value.

use failure::Failure;
use sa_constants::ConstValue;
use sa_typed::TypedExpr;
use std::alloc::Global;

/// The value of a const.
pub(crate) fn constant_value(alloc: Global, value: &ConstValue) -> Result<TypedExpr, Failure> {
    match value {
        ConstValue::Int(value) => Ok(TypedExpr::Int(*value)),
        ConstValue::Bool(value) => Ok(TypedExpr::Bool(*value)),
        ConstValue::Char(byte) => Ok(TypedExpr::Char(*byte)),
        ConstValue::Text(text) => Ok(TypedExpr::Text(text.copy(alloc)?)),
    }
}
