//! The built-in features, and `FAULT` and what follows it.

use crate::locals::{BEHIND_FIVE, BEHIND_FOUR, BEHIND_ONE, BEHIND_THREE, BEHIND_TWO, NONE};
use crate::signatures::{BINARY, BINARY_ON_ARRAY, MAKES_ARRAY, TERNARY, TERNARY_ON_ARRAY, UNARY};
use crate::templates::Function;
use crate::{
    arrays, booleans, characters, comparisons, decimal, faults, identity, immutables, integers,
    output, texts,
};

/// The built-in features, by their numbers.
pub(crate) const BUILTINS: [Function; 33] = [
    // BOOL
    Function(BINARY, NONE, comparisons::EQUAL),
    Function(UNARY, NONE, booleans::NOT),
    // INT
    Function(BINARY, NONE, integers::PLUS),
    Function(BINARY, NONE, integers::MINUS),
    Function(BINARY, NONE, integers::TIMES),
    Function(UNARY, NONE, integers::NEGATE),
    Function(BINARY, NONE, integers::DIV),
    Function(BINARY, NONE, integers::MOD),
    Function(BINARY, NONE, comparisons::EQUAL),
    Function(BINARY, NONE, comparisons::LESS),
    Function(BINARY, NONE, integers::BAND),
    Function(BINARY, NONE, integers::BOR),
    Function(BINARY, NONE, integers::BXOR),
    Function(UNARY, BEHIND_ONE, decimal::STR),
    Function(UNARY, NONE, integers::CHAR),
    // CHAR
    Function(BINARY, NONE, comparisons::EQUAL),
    Function(BINARY, NONE, comparisons::LESS),
    Function(UNARY, NONE, characters::INT),
    Function(UNARY, BEHIND_ONE, characters::STR),
    // STR
    Function(UNARY, NONE, texts::LENGTH),
    Function(BINARY, NONE, texts::AGET),
    Function(BINARY, BEHIND_TWO, texts::CAT),
    Function(TERNARY, BEHIND_THREE, texts::SUBSTRING),
    Function(TERNARY_ON_ARRAY, BEHIND_FOUR, texts::OF),
    // OUT
    Function(BINARY, BEHIND_TWO, output::PUT),
    Function(BINARY, BEHIND_TWO, decimal::PUT_INT),
    Function(BINARY, NONE, output::PUT_CHAR),
    // IN
    Function(UNARY, NONE, output::GET_BYTE),
    // SYS
    Function(TERNARY, BEHIND_THREE, identity::OB_EQ),
    // AREF
    Function(UNARY, NONE, arrays::ASIZE),
    Function(BINARY_ON_ARRAY, NONE, arrays::AGET),
    Function(TERNARY_ON_ARRAY, NONE, arrays::ASET),
    // ARRAY
    Function(MAKES_ARRAY, BEHIND_FOUR, arrays::CREATE),
];

/// `FAULT`, `CHANGED`, `BOX_IMMUTABLE`, `BOX_WORD` and `UNBOX`. Each has a type of its own.
pub(crate) const SUPPORT: [Function; 5] = [
    Function(0, BEHIND_THREE, faults::FAULT),
    Function(1, BEHIND_FIVE, immutables::CHANGED),
    Function(2, BEHIND_THREE, immutables::BOX_IMMUTABLE),
    Function(3, BEHIND_TWO, immutables::BOX_WORD),
    Function(4, BEHIND_TWO, immutables::UNBOX),
];
