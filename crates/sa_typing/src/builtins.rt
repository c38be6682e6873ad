//! The parameters and results of the built-in features.

ghost use Rattle.std.specs.Prelude.{◌≡◌};
ghost use Rattle.sa_typing.specs.Builtins.{arity_of, first_type, is_characters, is_of, result_type, second_type};
ghost use Rattle.sa_typing.specs.Rows.{rows};

use crate::view::TypingView;
use sa_prelude::BuiltinFeature;

/// The numbers of the types that have the same numbers in each program.
pub const OB: u32 = 0;

pub const BOOL: u32 = 3;

pub const INT: u32 = 4;

pub const CHAR: u32 = 5;

pub const STR: u32 = 6;

pub(crate) const FAULT: u32 = 7;

/// Whether a built-in feature is one of a class, as far as it asks what its receiver is.
pub(crate) fn is_of(view: &TypingView<'_>, class: u32, feature: BuiltinFeature) -> bool
    ensures { result ≡ is_of (rows view.now) class feature }
{
    match feature {
        BuiltinFeature::BoolIsEq | BuiltinFeature::BoolNot => class == BOOL,
        BuiltinFeature::IntPlus
        | BuiltinFeature::IntMinus
        | BuiltinFeature::IntTimes
        | BuiltinFeature::IntNegate
        | BuiltinFeature::IntDiv
        | BuiltinFeature::IntMod
        | BuiltinFeature::IntIsEq
        | BuiltinFeature::IntIsLt
        | BuiltinFeature::IntBand
        | BuiltinFeature::IntBor
        | BuiltinFeature::IntBxor
        | BuiltinFeature::IntStr
        | BuiltinFeature::IntChar => class == INT,
        BuiltinFeature::CharIsEq
        | BuiltinFeature::CharIsLt
        | BuiltinFeature::CharInt
        | BuiltinFeature::CharStr => class == CHAR,
        BuiltinFeature::StrSize
        | BuiltinFeature::StrAget
        | BuiltinFeature::StrCat
        | BuiltinFeature::StrSubstring => class == STR,
        BuiltinFeature::StrOf => is_characters(view, view.characters),
        BuiltinFeature::OutPut
        | BuiltinFeature::OutPutInt
        | BuiltinFeature::OutPutChar
        | BuiltinFeature::InGetByte
        | BuiltinFeature::SysObEq => true,
        BuiltinFeature::ArefAsize | BuiltinFeature::ArrayCreate => view.has_array(class),
        BuiltinFeature::ArefAget | BuiltinFeature::ArefAset => {
            view.has_array(class) && view.element_of(class).is_some()
        }
    }
}

/// Whether it is a type of arrays of characters.
fn is_characters(view: &TypingView<'_>, ty: Option<u32>) -> bool
    ensures { result ≡ is_characters (rows view.now) ty }
{
    match ty {
        Some(ty) => view.has_array(ty) && view.element_of(ty) == Some(CHAR),
        None => false,
    }
}

/// The number of the type of the first parameter, if there is one.
pub(crate) fn first_type(view: &TypingView<'_>, feature: BuiltinFeature) -> Option<u32>
    ensures { result ≡ first_type (rows view.now) feature }
{
    match feature {
        BuiltinFeature::BoolIsEq => Some(BOOL),
        BuiltinFeature::IntPlus
        | BuiltinFeature::IntMinus
        | BuiltinFeature::IntTimes
        | BuiltinFeature::IntDiv
        | BuiltinFeature::IntMod
        | BuiltinFeature::IntIsEq
        | BuiltinFeature::IntIsLt
        | BuiltinFeature::IntBand
        | BuiltinFeature::IntBor
        | BuiltinFeature::IntBxor
        | BuiltinFeature::StrAget
        | BuiltinFeature::StrSubstring
        | BuiltinFeature::OutPutInt
        | BuiltinFeature::ArefAget
        | BuiltinFeature::ArefAset
        | BuiltinFeature::ArrayCreate => Some(INT),
        BuiltinFeature::CharIsEq | BuiltinFeature::CharIsLt | BuiltinFeature::OutPutChar => {
            Some(CHAR)
        }
        BuiltinFeature::StrCat | BuiltinFeature::OutPut => Some(STR),
        BuiltinFeature::StrOf => view.characters,
        BuiltinFeature::SysObEq => Some(OB),
        BuiltinFeature::BoolNot
        | BuiltinFeature::IntNegate
        | BuiltinFeature::IntStr
        | BuiltinFeature::IntChar
        | BuiltinFeature::CharInt
        | BuiltinFeature::CharStr
        | BuiltinFeature::StrSize
        | BuiltinFeature::InGetByte
        | BuiltinFeature::ArefAsize => None,
    }
}

/// The number of the type of the second parameter, if there is one.
pub(crate) fn second_type(view: &TypingView<'_>, class: u32, feature: BuiltinFeature) -> Option<u32>
    ensures { result ≡ second_type (rows view.now) class feature }
{
    match feature {
        BuiltinFeature::StrSubstring | BuiltinFeature::StrOf => Some(INT),
        BuiltinFeature::SysObEq => Some(OB),
        BuiltinFeature::ArefAset => view.element_of(class),
        _ => None,
    }
}

/// How many parameters a built-in feature has.
pub(crate) fn arity_of(feature: BuiltinFeature) -> usize
    ensures { result ≡ arity_of feature }
{
    match feature {
        BuiltinFeature::BoolNot
        | BuiltinFeature::IntNegate
        | BuiltinFeature::IntStr
        | BuiltinFeature::IntChar
        | BuiltinFeature::CharInt
        | BuiltinFeature::CharStr
        | BuiltinFeature::StrSize
        | BuiltinFeature::InGetByte
        | BuiltinFeature::ArefAsize => 0,
        BuiltinFeature::StrSubstring
        | BuiltinFeature::StrOf
        | BuiltinFeature::SysObEq
        | BuiltinFeature::ArefAset => 2,
        _ => 1,
    }
}

/// The number of the type of the result, if there is one.
pub(crate) fn result_type(view: &TypingView<'_>, class: u32, feature: BuiltinFeature) -> Option<u32>
    ensures { result ≡ result_type (rows view.now) class feature }
{
    match feature {
        BuiltinFeature::BoolIsEq
        | BuiltinFeature::BoolNot
        | BuiltinFeature::IntIsEq
        | BuiltinFeature::IntIsLt
        | BuiltinFeature::CharIsEq
        | BuiltinFeature::CharIsLt
        | BuiltinFeature::SysObEq => Some(BOOL),
        BuiltinFeature::IntPlus
        | BuiltinFeature::IntMinus
        | BuiltinFeature::IntTimes
        | BuiltinFeature::IntNegate
        | BuiltinFeature::IntDiv
        | BuiltinFeature::IntMod
        | BuiltinFeature::IntBand
        | BuiltinFeature::IntBor
        | BuiltinFeature::IntBxor
        | BuiltinFeature::CharInt
        | BuiltinFeature::StrSize
        | BuiltinFeature::InGetByte
        | BuiltinFeature::ArefAsize => Some(INT),
        BuiltinFeature::IntChar | BuiltinFeature::StrAget => Some(CHAR),
        BuiltinFeature::IntStr
        | BuiltinFeature::CharStr
        | BuiltinFeature::StrCat
        | BuiltinFeature::StrSubstring
        | BuiltinFeature::StrOf => Some(STR),
        BuiltinFeature::ArefAget => view.element_of(class),
        BuiltinFeature::ArrayCreate => Some(class),
        BuiltinFeature::OutPut
        | BuiltinFeature::OutPutInt
        | BuiltinFeature::OutPutChar
        | BuiltinFeature::ArefAset => None,
    }
}
