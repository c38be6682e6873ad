//! The names of the features that the implementation gives.

use sa_prelude::BuiltinFeature;

/// A built-in feature by its class and its name in the prelude.
pub(crate) fn builtin_name(feature: BuiltinFeature) -> (&'static str, &'static str) {
    match feature {
        BuiltinFeature::BoolIsEq => ("BOOL", "is_eq"),
        BuiltinFeature::BoolNot => ("BOOL", "not"),
        BuiltinFeature::IntPlus => ("INT", "plus"),
        BuiltinFeature::IntMinus => ("INT", "minus"),
        BuiltinFeature::IntTimes => ("INT", "times"),
        BuiltinFeature::IntNegate => ("INT", "negate"),
        BuiltinFeature::IntDiv => ("INT", "div"),
        BuiltinFeature::IntMod => ("INT", "mod"),
        BuiltinFeature::IntIsEq => ("INT", "is_eq"),
        BuiltinFeature::IntIsLt => ("INT", "is_lt"),
        BuiltinFeature::IntBand => ("INT", "band"),
        BuiltinFeature::IntBor => ("INT", "bor"),
        BuiltinFeature::IntBxor => ("INT", "bxor"),
        BuiltinFeature::IntStr => ("INT", "str"),
        BuiltinFeature::IntChar => ("INT", "char"),
        BuiltinFeature::CharIsEq => ("CHAR", "is_eq"),
        BuiltinFeature::CharIsLt => ("CHAR", "is_lt"),
        BuiltinFeature::CharInt => ("CHAR", "int"),
        BuiltinFeature::CharStr => ("CHAR", "str"),
        BuiltinFeature::StrSize => ("STR", "size"),
        BuiltinFeature::StrAget => ("STR", "aget"),
        BuiltinFeature::StrCat => ("STR", "cat"),
        BuiltinFeature::StrSubstring => ("STR", "substring"),
        BuiltinFeature::StrOf => ("STR", "of"),
        BuiltinFeature::OutPut => ("OUT", "put"),
        BuiltinFeature::OutPutInt => ("OUT", "put_int"),
        BuiltinFeature::OutPutChar => ("OUT", "put_char"),
        BuiltinFeature::InGetByte => ("IN", "get_byte"),
        BuiltinFeature::SysObEq => ("SYS", "ob_eq"),
        BuiltinFeature::ArefAsize => ("AREF", "asize"),
        BuiltinFeature::ArefAget => ("AREF", "aget"),
        BuiltinFeature::ArefAset => ("AREF", "aset"),
        BuiltinFeature::ArrayCreate => ("ARRAY", "create"),
    }
}
