//! What each rule means, where nothing more can be said: a sentence, and what to do.

use sa_ast::{FaultKind, Rule};

/// A sentence about what is wrong, and one about what to do.
#[derive(Clone, Copy)]
pub(crate) struct Advice {
    pub wrong: &'static str,
    pub remedy: &'static str,
}

fn reported(wrong: &'static str, remedy: &'static str) -> Advice {
    Advice { wrong, remedy }
}

/// What a rule means.
pub(crate) fn of_rule(rule: Rule) -> Advice {
    match rule {
        Rule::BadByte
        | Rule::LiteralNotEnded
        | Rule::NumberTooLarge
        | Rule::NumberForm
        | Rule::UnknownEscape => of_tokens(rule),
        Rule::UnexpectedToken | Rule::NestedTooDeep | Rule::WordNotTaken => of_grammar(rule),
        Rule::ClassDefinedTwice
        | Rule::ClassNotUsable
        | Rule::ParameterCount
        | Rule::BoundNotMet
        | Rule::Cycle
        | Rule::NoMain => of_classes(rule),
        Rule::FeaturesConflict
        | Rule::NoSuchIncludedFeature
        | Rule::IncludedFeaturesConflict
        | Rule::StubLeft
        | Rule::SubtypeCycle
        | Rule::SupertypeNotAbstract
        | Rule::NoConformingFeature
        | Rule::SeveralConformingFeatures => of_features(rule),
        Rule::UnknownName
        | Rule::NoFeatureFits
        | Rule::SeveralFeaturesFit
        | Rule::PrivateFeature
        | Rule::NoTypeFromContext
        | Rule::DeclaredTwice => of_names(rule),
        Rule::IterOutsideLoop
        | Rule::IterInSelfOrOnce
        | Rule::OutOfPlace
        | Rule::NotAllowedInProtect => of_iters(rule),
        Rule::SourceTooLarge
        | Rule::TooManyInstances
        | Rule::TypeTooDeep
        | Rule::TooManyVariables
        | Rule::TooManyOutArguments
        | Rule::ProgramTooLarge
        | Rule::TooManyPairs => of_limits(rule),
        _ => of_forms(rule),
    }
}

fn of_tokens(rule: Rule) -> Advice {
    match rule {
        Rule::LiteralNotEnded => reported(
            "A text stands between double quotes and ends on its line; a character is one byte between single quotes.",
            "Close the literal in this line.",
        ),
        Rule::NumberTooLarge => reported(
            "An INT goes up to 2147483647.",
            "Count in a larger unit. The least INT is written `-2147483647 - 1`.",
        ),
        Rule::NumberForm => reported(
            "A number is digits, or `0x`, `0o` or `0b` and digits; no letter stands directly behind it, and no point and a digit.",
            "Put a blank behind the number, or give the name that it begins a letter in front.",
        ),
        Rule::UnknownEscape => reported(
            "A backslash begins an escape: \\a \\b \\f \\n \\r \\t \\v \\\\ \\' \\\", or one to three octal digits up to 377.",
            "Write a backslash itself twice.",
        ),
        _ => reported(
            "No token begins with this byte.",
            "Letters beyond ASCII and other signs are taken in texts and comments alone.",
        ),
    }
}

fn of_grammar(rule: Rule) -> Advice {
    match rule {
        Rule::NestedTooDeep => reported(
            "A source may be nested 200 deep, and each operator of a statement counts as one.",
            "Make several statements of it, or a loop.",
        ),
        Rule::WordNotTaken => reported(
            "This is a word of parallel Sather, which this compiler doesn't take, so it is no name either.",
            "Choose another name.",
        ),
        _ => reported(
            "Up to here the file could still have become a program; with this it no longer can.",
            "The mistake is here or before it.",
        ),
    }
}

fn of_classes(rule: Rule) -> Advice {
    match rule {
        Rule::ClassDefinedTwice => reported(
            "A name means one class in the whole program, and the classes of the prelude are among them.",
            "Give this class another name.",
        ),
        Rule::ParameterCount => reported(
            "A class with parameters becomes a type by a type for each of them.",
            "Write as many types between `{` and `}` as the class has parameters.",
        ),
        Rule::BoundNotMet => reported(
            "A parameter with a bound, as `T < $STR`, takes only types that are below it.",
            "Say in the class that is given what it stands below, as `class POINT < $STR is`.",
        ),
        Rule::Cycle => reported(
            "This class includes itself, or it is immutable and holds itself, by itself or by others.",
            "Take an include or an attribute on the circle away, or make it a reference class, which may hold itself.",
        ),
        Rule::NoMain => reported(
            "A program begins at the routine `main` of the class MAIN, which takes no arguments and gives nothing or an INT.",
            "Write `class MAIN is main is .. end; end;`.",
        ),
        _ => reported(
            "No class has this name, or it is one that can't stand here.",
            "Write the name of a class that is there.",
        ),
    }
}

fn of_features(rule: Rule) -> Advice {
    match rule {
        Rule::FeaturesConflict => reported(
            "Another feature of this class has the same name, and no call could tell the two apart.",
            "Take one of them away, or give it another name.",
        ),
        Rule::NoSuchIncludedFeature => reported(
            "The left name of a change is one that the included class has, and this is none.",
            "Write the old name on the left of `->`, and the new one on its right.",
        ),
        Rule::IncludedFeaturesConflict => reported(
            "Two includes bring features that no call could tell apart, or two bring an array part.",
            "Leave a feature out, as `include C f->`, give it another name, or write it in this class.",
        ),
        Rule::StubLeft => reported(
            "A stub is what a partial class wants of the class that includes it, and a class that isn't partial has this one left.",
            "Write the feature in the class that includes it.",
        ),
        Rule::SubtypeCycle => reported(
            "This class stands below itself by way of others.",
            "Take one `<` or `>` on the circle away.",
        ),
        Rule::SupertypeNotAbstract => reported(
            "Only abstract classes have types below them.",
            "To take over the code of a class write `include`.",
        ),
        Rule::SeveralConformingFeatures => reported(
            "Several features of this class could stand for one signature of an abstract class above it.",
            "Keep one of them, or give the others another name.",
        ),
        _ => reported(
            "A class below an abstract one has a public feature for each of its signatures: of that name, with as many arguments, and with a result where the signature has one.",
            "Write the feature that is missing, as the abstract class has it.",
        ),
    }
}

fn of_names(rule: Rule) -> Advice {
    match rule {
        Rule::UnknownName => reported(
            "Nothing of this name is known here, or what it is called on has no such feature.",
            "Call one that is there, or write it.",
        ),
        Rule::NoFeatureFits => reported(
            "There is a feature of this name, but none that takes these arguments, and gives a value just where one is wanted.",
            "Give it the arguments that it takes; a statement takes a call that gives nothing, every other place one that gives a value.",
        ),
        Rule::SeveralFeaturesFit => reported(
            "Several features fit this call, and none of them is the most specific one.",
            "Write one for just these arguments, or give one of them another name.",
        ),
        Rule::PrivateFeature => reported(
            "What is private is seen by the code of its own class alone.",
            "Call it inside its class, or write `readonly` in place of `private`, which lets others read it.",
        ),
        Rule::NoTypeFromContext => reported(
            "`void`, `|..|` and `#(..)` without a class take their type from the place where they stand, and this place gives none.",
            "Write the type: `a:ARRAY{INT} := |1, 2|` in place of `a ::= |1, 2|`.",
        ),
        _ => reported(
            "A variable of this name is known here already.",
            "Give it a value by `:=`, or choose another name.",
        ),
    }
}

fn of_iters(rule: Rule) -> Advice {
    match rule {
        Rule::IterOutsideLoop => reported(
            "An iter is called in a loop, which it is resumed by and which it ends.",
            "Put the call between `loop` and `end`.",
        ),
        Rule::IterInSelfOrOnce => reported(
            "What an iter is called on, and its arguments that are marked `once`, are evaluated when it starts and never again, so no iter is called there.",
            "Take a value first, as `n ::= 1.upto!(3);`, and loop inside; or give a stream as `bind(..)`.",
        ),
        Rule::OutOfPlace => reported(
            "`yield` and `quit` belong to iters, whose names end in `!`, and `return` to routines.",
            "Name what yields with `!`, and end an iter by `quit`.",
        ),
        _ => reported(
            "No iter is called in a `protect` that is inside its loop, and no `yield` and no `quit` stands in a `protect`.",
            "Take the value first and protect what is done with it, or put the `protect` around the whole loop.",
        ),
    }
}

fn of_forms(rule: Rule) -> Advice {
    match rule {
        Rule::NotConstant => reported(
            "A constant is computed when the program is checked: from literals, constants, the operators of INT but `^`, comparisons, `~`, `and` and `or`, and of the type that is declared.",
            "Write `shared` in place of `const` for what is computed when the program starts.",
        ),
        Rule::NotAssignable => reported(
            "What is written to is a variable, an attribute, a shared or an index; `out` and `inout` arguments are variables alone.",
            "Put the value into a variable, and hand that over.",
        ),
        Rule::TypecaseVariable => reported(
            "A `typecase` tests a variable of the feature, and its branches don't write that variable.",
            "Put the value into another variable.",
        ),
        Rule::ExceptionOutsideBranch => reported(
            "`exception` is what was raised, and is there in the branches of a `protect` alone.",
            "Use it behind a `when` or the `else` of a `protect`.",
        ),
        Rule::BadBind => reported(
            "`bind` binds a call by name that has no `out` or `inout` arguments and is of no constant, and `_` leaves an argument open there and nowhere else.",
            "Write `bind(f(_))`.",
        ),
        Rule::ConditionNotQuiet => reported(
            "With `--contracts` a condition only reads: literals, variables, attributes and built-in operators are taken, and no call of a routine.",
            "Write what the routine computes, or check it in the body by `assert`.",
        ),
        _ => reported(
            "A value has another type here than the place wants.",
            "Write a value of the type that is wanted; nothing is turned into another type by itself.",
        ),
    }
}

fn of_limits(rule: Rule) -> Advice {
    match rule {
        Rule::SourceTooLarge => reported(
            "The files of a program have at most 4194304 bytes together.",
            "Read data from the input.",
        ),
        Rule::TooManyInstances => reported(
            "A program needs at most 2000 types, and this is one more.",
            "Make one class of those that differ by their values alone.",
        ),
        Rule::TypeTooDeep => reported(
            "A type is at most 8 deep: `INT` is 1 deep, and `FLIST{INT}` 2.",
            "A class with a parameter needs itself with an ever larger type: give it one that doesn't grow.",
        ),
        Rule::TooManyVariables => reported(
            "A routine or an iter has at most 200 variables, with its arguments.",
            "Make an array of them, or several routines.",
        ),
        Rule::TooManyOutArguments => reported(
            "A feature has at most 16 `out` and `inout` arguments.",
            "Give back an object that holds the values.",
        ),
        Rule::ProgramTooLarge => reported(
            "The statements and expressions of all needed classes are at most 200000.",
            "Write what is done many times as a loop.",
        ),
        _ => reported(
            "The signatures of abstract classes make at most 100000 pairs with the classes below them.",
            "Take signatures away that aren't called on the abstract class.",
        ),
    }
}

/// What a kind of fault means.
pub(crate) fn of_fault(kind: FaultKind) -> Advice {
    match kind {
        FaultKind::Overflow => reported(
            "A number left the range of INT, -2147483648 to 2147483647, or a byte that of 0 to 255.",
            "Ask before whether the result fits, or compute with smaller numbers.",
        ),
        FaultKind::DivisionByZero => reported(
            "The divisor is 0.",
            "Ask before whether it is 0, and say what is given then.",
        ),
        FaultKind::Void => reported(
            "Something is void here: it is no object, so it has no attributes, no elements and no class.",
            "Make an object first, as `x ::= #C;`, or ask `void(x)`.",
        ),
        FaultKind::Index => reported(
            "A place or a size is out of its range: places go from 0 to one less than the size.",
            "Compare it with the size before, or go over all by `elt!` or `ind!`.",
        ),
        FaultKind::NoBranch => reported(
            "No `when` fits the value, and there is no `else`.",
            "Add a `when` for it, or an `else`.",
        ),
        FaultKind::NoReturn => reported(
            "This routine has a result, and came to its end without a `return`.",
            "Write a `return` at its end.",
        ),
        FaultKind::Assert => reported(
            "What is claimed here is false.",
            "Look at the values that it speaks of, and at the caller.",
        ),
        FaultKind::Uncaught => reported(
            "What is raised here was caught nowhere.",
            "Put a `protect` around the call, with a `when` for the type of what is raised.",
        ),
        FaultKind::NoRoom => reported(
            "The room for objects and texts is used up, of which nothing is given back.",
            "Give more by `--room KIB`, or make fewer objects and texts.",
        ),
        FaultKind::TooDeep => reported(
            "10000 calls are running, and one more begins.",
            "See that what calls itself comes to an end, or write it as a loop.",
        ),
        FaultKind::Frames => reported(
            "10000 instances of iters are live, and one more begins.",
            "See that an iter that calls itself comes to an end, and calls itself as rarely as can be.",
        ),
    }
}
