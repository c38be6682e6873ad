//! The numbers of the features that the implementation defines.

ghost use Rattle.std.specs.Prelude.{◌≡◌, slice_get, Some};
ghost use Rattle.sa_prelude.specs.BuiltinRows.{row_of};
ghost use Rattle.sa_prelude.specs.BuiltinTable.{features};

use sqlite_items::at;

/// A feature that the implementation defines, by its number.
#[derive(Clone, Copy, Debug, PartialEq, Eq)]
pub struct Builtin {
    /// Its number: its index in `BUILTIN_FEATURES`, which has 33 entries.
    pub number: u8,
}

/// A feature that the implementation defines. A variant is named after its class and its name.
#[derive(Clone, Copy, Debug, PartialEq, Eq, Hash)]
pub enum BuiltinFeature {
    BoolIsEq,
    BoolNot,
    IntPlus,
    IntMinus,
    IntTimes,
    IntNegate,
    IntDiv,
    IntMod,
    IntIsEq,
    IntIsLt,
    IntBand,
    IntBor,
    IntBxor,
    IntStr,
    IntChar,
    CharIsEq,
    CharIsLt,
    CharInt,
    CharStr,
    StrSize,
    StrAget,
    StrCat,
    StrSubstring,
    StrOf,
    OutPut,
    OutPutInt,
    OutPutChar,
    InGetByte,
    SysObEq,
    ArefAsize,
    ArefAget,
    ArefAset,
    ArrayCreate,
}

/// The features that the implementation defines, each at the index that is its number.
pub const BUILTIN_FEATURES: [BuiltinFeature; 33] = [
    BuiltinFeature::BoolIsEq,
    BuiltinFeature::BoolNot,
    BuiltinFeature::IntPlus,
    BuiltinFeature::IntMinus,
    BuiltinFeature::IntTimes,
    BuiltinFeature::IntNegate,
    BuiltinFeature::IntDiv,
    BuiltinFeature::IntMod,
    BuiltinFeature::IntIsEq,
    BuiltinFeature::IntIsLt,
    BuiltinFeature::IntBand,
    BuiltinFeature::IntBor,
    BuiltinFeature::IntBxor,
    BuiltinFeature::IntStr,
    BuiltinFeature::IntChar,
    BuiltinFeature::CharIsEq,
    BuiltinFeature::CharIsLt,
    BuiltinFeature::CharInt,
    BuiltinFeature::CharStr,
    BuiltinFeature::StrSize,
    BuiltinFeature::StrAget,
    BuiltinFeature::StrCat,
    BuiltinFeature::StrSubstring,
    BuiltinFeature::StrOf,
    BuiltinFeature::OutPut,
    BuiltinFeature::OutPutInt,
    BuiltinFeature::OutPutChar,
    BuiltinFeature::InGetByte,
    BuiltinFeature::SysObEq,
    BuiltinFeature::ArefAsize,
    BuiltinFeature::ArefAget,
    BuiltinFeature::ArefAset,
    BuiltinFeature::ArrayCreate,
];

impl BuiltinFeature {
    /// The feature with this number, or None from 33 on.
    pub fn of_number(number: u8) -> Option<BuiltinFeature>
        ensures { result ≡ slice_get BUILTIN_FEATURES number }
    {
        at(&BUILTIN_FEATURES, usize::from(number)).copied()
    }

    /// The number of the feature, less than 33.
    pub fn number(self) -> u8
        ensures place { slice_get BUILTIN_FEATURES result ≡ Some self }
        ensures row { slice_get features result ≡ Some (row_of self) }
    {
        self as u8
    }
}
