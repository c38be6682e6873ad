//! The written rules that a source can break.

ghost use Rattle.std.specs.Prelude.{◌≡◌};
ghost use Rattle.sa_ast.specs.Rules.{rule_text};

use crate::pos::Pos;
use crate::refusal::Refusal;
use std::fmt;

/// A rule of the language, or a limit of its profile, that a source can break. `text` gives its number.
#[derive(Clone, Copy, Debug, PartialEq, Eq, Hash)]
pub enum Rule {
    /// E01: a byte begins no token.
    BadByte,
    /// E02: a literal doesn't end on its line, or a character has no or several bytes.
    LiteralNotEnded,
    /// E03: a number is greater than 2147483647.
    NumberTooLarge,
    /// E04: a prefix has no digit, or a letter, a digit or a fraction follows a number.
    NumberForm,
    /// E05: an escape isn't known.
    UnknownEscape,
    /// E06: a token, or the end of the file, isn't allowed where it is.
    UnexpectedToken,
    /// E07: a token makes the level of nesting 201.
    NestedTooDeep,
    /// E08: a word of the language is one that this profile refuses.
    WordNotTaken,
    /// E10: two classes have one name.
    ClassDefinedTwice,
    /// E11: two features that a class writes conflict.
    FeaturesConflict,
    /// E12: no class has the name, or the class can't be used there.
    ClassNotUsable,
    /// E13: a class has another number of parameters.
    ParameterCount,
    /// E14: a type isn't a subtype of the bound of its parameter.
    BoundNotMet,
    /// E15: a class includes itself, or an immutable class contains itself, directly or by way of others.
    Cycle,
    /// E16: a modifier of an include names a feature that the include doesn't bring.
    NoSuchIncludedFeature,
    /// E17: two features that includes bring conflict, or two includes bring an array part.
    IncludedFeaturesConflict,
    /// E18: a class is its own supertype by way of others.
    SubtypeCycle,
    /// E19: a type after `<` is no abstract class.
    SupertypeNotAbstract,
    /// E20: no feature of a class conforms to a signature of an abstract class that is its supertype.
    NoConformingFeature,
    /// E21: several features of a class conform to a signature of an abstract class that is its supertype.
    SeveralConformingFeatures,
    /// E22: a class that isn't partial has a stub.
    StubLeft,
    /// E23: the value of a constant can't be computed.
    NotConstant,
    /// E24: no class MAIN has a `main`.
    NoMain,
    /// E30: nothing has the name of a call.
    UnknownName,
    /// E31: no feature of the name is applicable to a call.
    NoFeatureFits,
    /// E32: several features are applicable to a call, and none of them is the most specific one.
    SeveralFeaturesFit,
    /// E33: a form requires another type.
    WrongType,
    /// E34: only private features have the name of a call, and they aren't visible there.
    PrivateFeature,
    /// E35: an iter is called outside a loop.
    IterOutsideLoop,
    /// E36: an iter is called in the receiver of another one, or in an argument of a `once` parameter.
    IterInSelfOrOnce,
    /// E37: a `yield` or a `quit` is in a routine, or a `return` in an iter.
    OutOfPlace,
    /// E38: a protect is between an iter call and its loop, or a `yield` or a `quit` is in one.
    NotAllowedInProtect,
    /// E39: what is assigned to, or passed as an `out` or `inout` argument, names no variable.
    NotAssignable,
    /// E41: a form takes its type from its context, which doesn't give one.
    NoTypeFromContext,
    /// E42: a branch of a typecase writes the tested variable.
    TypecaseVariable,
    /// E43: a variable is declared where one of its name is declared already.
    DeclaredTwice,
    /// E44: `exception` is outside the branches of a protect.
    ExceptionOutsideBranch,
    /// E45: a bind is of something that it has no form for.
    BadBind,
    /// E46: a condition calls more than what only reads.
    ConditionNotQuiet,
    /// E50: the files have more than 4,194,304 bytes together.
    SourceTooLarge,
    /// E51: more than 2,000 instances are needed.
    TooManyInstances,
    /// E52: a type is deeper than 8.
    TypeTooDeep,
    /// E53: a feature has more than 200 variables.
    TooManyVariables,
    /// E54: a feature has more than 16 `out` and `inout` arguments.
    TooManyOutArguments,
    /// E55: the needed instances have more than 200,000 statements, expressions and features together.
    ProgramTooLarge,
    /// E56: there are more than 100,000 pairs of a signature and a class that is a subtype of its type.
    TooManyPairs,
}

impl Rule {
    /// The refusal that names this rule and this position.
    pub fn at(self, pos: Pos) -> Refusal
        ensures { result ≡ record { rule = self; pos = pos } }
    {
        Refusal { rule: self, pos }
    }

    /// The number of the rule and what is wrong, as `E24: no MAIN::main`.
    pub fn text(self) -> &'static str
        ensures { result.now ≡ rule_text self }
    {
        match self {
            Rule::BadByte => "E01: bad byte",
            Rule::LiteralNotEnded => "E02: literal not ended",
            Rule::NumberTooLarge => "E03: number too large",
            Rule::NumberForm => "E04: number form not taken",
            Rule::UnknownEscape => "E05: unknown escape",
            Rule::UnexpectedToken => "E06: unexpected token",
            Rule::NestedTooDeep => "E07: nested too deep",
            Rule::WordNotTaken => "E08: word not taken",
            Rule::ClassDefinedTwice => "E10: class defined twice",
            Rule::FeaturesConflict => "E11: features conflict",
            Rule::ClassNotUsable => "E12: class unknown or not usable",
            Rule::ParameterCount => "E13: wrong number of parameters",
            Rule::BoundNotMet => "E14: bound not met",
            Rule::Cycle => "E15: cycle",
            Rule::NoSuchIncludedFeature => "E16: no such included feature",
            Rule::IncludedFeaturesConflict => "E17: included features conflict",
            Rule::SubtypeCycle => "E18: subtype cycle",
            Rule::SupertypeNotAbstract => "E19: supertype not abstract",
            Rule::NoConformingFeature => "E20: no conforming feature",
            Rule::SeveralConformingFeatures => "E21: several conforming features",
            Rule::StubLeft => "E22: stub left",
            Rule::NotConstant => "E23: not a constant",
            Rule::NoMain => "E24: no MAIN::main",
            Rule::UnknownName => "E30: unknown name",
            Rule::NoFeatureFits => "E31: no feature fits",
            Rule::SeveralFeaturesFit => "E32: several features fit",
            Rule::WrongType => "E33: wrong type",
            Rule::PrivateFeature => "E34: private feature",
            Rule::IterOutsideLoop => "E35: iter call outside a loop",
            Rule::IterInSelfOrOnce => "E36: iter call in self or once",
            Rule::OutOfPlace => "E37: out of place",
            Rule::NotAllowedInProtect => "E38: not allowed in protect",
            Rule::NotAssignable => "E39: not assignable",
            Rule::NoTypeFromContext => "E41: no type from context",
            Rule::TypecaseVariable => "E42: typecase variable",
            Rule::DeclaredTwice => "E43: declared twice",
            Rule::ExceptionOutsideBranch => "E44: exception outside a branch",
            Rule::BadBind => "E45: bad bind",
            Rule::ConditionNotQuiet => "E46: condition not quiet",
            Rule::SourceTooLarge => "E50: source too large",
            Rule::TooManyInstances => "E51: too many instances",
            Rule::TypeTooDeep => "E52: type too deep",
            Rule::TooManyVariables => "E53: too many variables",
            Rule::TooManyOutArguments => "E54: too many out arguments",
            Rule::ProgramTooLarge => "E55: program too large",
            Rule::TooManyPairs => "E56: too many dispatch pairs",
        }
    }
}

impl fmt::Display for Rule {
    fn fmt<W: fmt::Write>(&self, f: &mut fmt::Formatter<W>) -> fmt::Result {
        f.write_str(self.text())
    }
}
