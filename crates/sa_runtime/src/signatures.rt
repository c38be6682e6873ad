//! The types of the functions.

use wa_syntax::ValTy::{self, I32, I64};

/// The type of a function.
#[derive(Clone, Copy)]
pub(crate) struct FnSignature {
    pub params: &'static [ValTy],
    pub results: &'static [ValTy],
}

/// The types of the built-in features and of `ALLOCATE`. A feature takes `self` and its arguments, and returns a status.
pub(crate) const BUILTIN_TYPES: [FnSignature; 6] = [
    FnSignature {
        params: &[I64],
        results: &[I32],
    },
    FnSignature {
        params: &[I64, I64],
        results: &[I32],
    },
    FnSignature {
        params: &[I64, I64, I64],
        results: &[I32],
    },
    FnSignature {
        params: &[I64, I64, I32],
        results: &[I32],
    },
    FnSignature {
        params: &[I64, I64, I64, I32],
        results: &[I32],
    },
    FnSignature {
        params: &[I64, I64, I32, I32],
        results: &[I32],
    },
];

/// The type of a feature without arguments.
pub(crate) const UNARY: u32 = 0;

/// The type of a feature with one argument, and of `ALLOCATE`.
pub(crate) const BINARY: u32 = 1;

/// The type of a feature with two arguments.
pub(crate) const TERNARY: u32 = 2;

/// The type of a feature with one argument that also takes the offset of the elements of an array.
pub(crate) const BINARY_ON_ARRAY: u32 = 3;

/// The type of a feature with two arguments that also takes the offset of the elements of an array.
pub(crate) const TERNARY_ON_ARRAY: u32 = 4;

/// The type of a feature with one argument that also takes the type of an array and the offset of its elements.
pub(crate) const MAKES_ARRAY: u32 = 5;

/// The types of `FAULT`, `CHANGED`, `BOX_IMMUTABLE`, `BOX_WORD` and `UNBOX`, in this order.
pub(crate) const SUPPORT_TYPES: [FnSignature; 5] = [
    FnSignature {
        params: &[I32, I32, I32],
        results: &[],
    },
    FnSignature {
        params: &[I64, I64, I32, I32, I32],
        results: &[I32],
    },
    FnSignature {
        params: &[I64, I32, I32],
        results: &[I32],
    },
    FnSignature {
        params: &[I64, I32],
        results: &[I32],
    },
    FnSignature {
        params: &[I64, I32],
        results: &[I64],
    },
];

/// The types of `RELEASE` and of `BOUND_CALL`.
pub(crate) const FRAME_TYPES: [FnSignature; 2] = [
    FnSignature {
        params: &[I32],
        results: &[],
    },
    FnSignature {
        params: &[I32, I32, I32],
        results: &[I32],
    },
];

/// The type of a function that frees frames.
pub(crate) const GIVES_FRAME: u32 = 0;

/// The type of `BOUND_CALL`.
pub(crate) const CALLS_BOUND: u32 = 1;

/// The types of the functions of a traced module that write trace records.
pub(crate) const TRACE_TYPES: [FnSignature; 2] = [
    FnSignature {
        params: &[I32],
        results: &[],
    },
    FnSignature {
        params: &[I32, I32],
        results: &[],
    },
];

/// The type of a function that writes the record of a byte, or that of the start of the instance with a frame.
pub(crate) const TRACES: u32 = 0;

/// The type of a function that writes the record of an event of the instance with a frame, by the number of an event or a status.
pub(crate) const TRACES_BY_NUMBER: u32 = 1;
