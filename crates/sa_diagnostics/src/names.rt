//! Names: those that nothing has (E30), those that are private (E34), the variable of a typecase (E42), names that are declared
//! twice (E43), and what a bind leaves open (E45).

use crate::calls::begins_list;
use crate::meant::{Helper, known_elsewhere, library_helper};
use crate::operators::unknown_operator;
use crate::values::{
    Declared, class_named_at, declared_before, declares, is_in_force, receiver_before,
};
use crate::{Message, MessagePart, Quality, SourceContext, count_in, feature_near};
use failure::Failure;
use sa_ast::{Access, Class, FeatureBody as FeaturePart, Rule};
use sa_lexer::{Sign, TokenKind, Word};
use std::alloc::AllocError;

/// Says what has no feature with the name at the position, and which name is near.
pub(crate) fn unknown_name(scene: SourceContext<'_>, said: &mut Message) -> Result<(), Failure> {
    match scene.tokens.kind(scene.at) {
        Some(TokenKind::Sign(Sign::Hash)) => without_create(scene, said)?,
        Some(TokenKind::Sign(Sign::Assign)) => unknown_target(scene, said)?,
        Some(TokenKind::Sign(sign)) => unknown_operator(scene, *sign, said)?,
        Some(TokenKind::Lower | TokenKind::IterName) => unknown_feature(scene, said)?,
        Some(TokenKind::Word(Word::New)) => {
            said.say_words("`new` makes an object of a reference class, and this class is none.")?;
            said.say_words(
                "A variable `x:SAME` of an immutable class is its void value: change its attributes.",
            )?;
        }
        _ => {}
    }
    Ok(())
}

/// `#A`, where A has no `create`.
fn without_create(scene: SourceContext<'_>, said: &mut Message) -> Result<(), AllocError> {
    let name = scene.at.saturating_add(1);
    let Some(class) = class_named_at(scene, name) else {
        said.say_words("`#C` calls the routine `create` of C, and no class has one by itself.")?;
        return said.say_words("Write `create:SAME is return new; end;` in the class.");
    };
    said.mark.end = scene.tokens.end(name);
    said.say(&[
        MessagePart::Plain(class),
        MessagePart::Words(" has no routine `create`, which `#"),
        MessagePart::Plain(class),
        MessagePart::Words("` calls."),
    ])?;
    said.say(&[
        MessagePart::Words("Write one in "),
        MessagePart::Plain(class),
        MessagePart::Words(", as `create:SAME is return new; end;`."),
    ])
}

/// `x := e`, where nothing has the name `x`.
fn unknown_target(scene: SourceContext<'_>, said: &mut Message) -> Result<(), AllocError> {
    let tokens = scene.tokens;
    let Some(target) = scene.at.checked_sub(1) else {
        return Ok(());
    };
    if tokens.is_sign(target, Sign::RightBracket) {
        said.say_words(
            "`a[i] := x` calls `aset`, and the class of what stands before the `[` has none.",
        )?;
        return said.say_words("Arrays and FLIST have it.");
    }
    if !tokens.is_lower(target) {
        return Ok(());
    }
    said.mark = scene.span(target);
    said.say(&[
        MessagePart::Words("Nothing that is named "),
        MessagePart::Code(tokens.bytes(target)),
        MessagePart::Words(" can be assigned here."),
    ])?;
    near_or_new(scene, target, said)
}

/// A name near by, or how a variable of this name is declared.
fn near_or_new(scene: SourceContext<'_>, at: usize, said: &mut Message) -> Result<(), AllocError> {
    let name = scene.tokens.bytes(at);
    if let Some(near) = feature_near(scene, name)? {
        return did_you_mean(near, said);
    }
    if scene.tokens.is_sign_back(at, 1, Sign::Dot) {
        return said.say_words("See how the attribute is written where it is declared.");
    }
    said.say(&[
        MessagePart::Words("A variable is declared by `"),
        MessagePart::Plain(name),
        MessagePart::Words(" ::= ..`, or by its type, as `"),
        MessagePart::Plain(name),
        MessagePart::Words(":INT`."),
    ])
}

fn did_you_mean(near: &[u8], said: &mut Message) -> Result<(), AllocError> {
    said.say(&[
        MessagePart::Words("Did you mean "),
        MessagePart::Code(near),
        MessagePart::Words("?"),
    ])
}

/// A name of a routine, a variable or an iter that nothing has.
fn unknown_feature(scene: SourceContext<'_>, said: &mut Message) -> Result<(), AllocError> {
    let tokens = scene.tokens;
    if is_indexed(scene) {
        return without_index(scene, said);
    }
    if tokens.is_sign_back(scene.at, 1, Sign::Dot) {
        let class = receiver_before(scene, scene.at.saturating_sub(1));
        lacks_feature(scene, class, said)?;
    } else if tokens.is_sign_back(scene.at, 1, Sign::DoubleColon) {
        let class = class_named_at(scene, scene.at.saturating_sub(2));
        lacks_feature(scene, class, said)?;
    } else if declared_elsewhere(scene, said)? == Declares::Elsewhere {
        return said.say_words(
            "Declare it before that list, by its type, and give it its value by `:=`.",
        );
    } else {
        said.say(&[
            MessagePart::Words("Nothing that is named "),
            MessagePart::Code(scene.name()),
            MessagePart::Words(
                " is known here: no variable that is declared above, and no feature of the class.",
            ),
        ])?;
        if compares_for_value(scene) {
            return declared_so(scene.name(), said);
        }
    }
    what_is_meant(scene, said)
}

/// Whether a statement begins with the name, and `=` follows.
fn compares_for_value(scene: SourceContext<'_>) -> bool {
    begins_list(scene.tokens.kind_back(scene.at, 1))
        && scene
            .tokens
            .is_sign(scene.at.saturating_add(1), Sign::Equal)
}

/// How a variable gets its value where it is declared.
fn declared_so(name: &[u8], said: &mut Message) -> Result<(), AllocError> {
    said.say(&[
        MessagePart::Words("`=` compares two values: to declare a variable write `"),
        MessagePart::Plain(name),
        MessagePart::Words(" ::= ..`."),
    ])
}

/// Whether `[` follows the name or its arguments: then what is lacking may be the index.
fn is_indexed(scene: SourceContext<'_>) -> bool {
    let next = scene.at.saturating_add(1);
    let following = if scene.tokens.is_sign(next, Sign::LeftParen) {
        scene.tokens.after_bracket(next).unwrap_or(next)
    } else {
        next
    };
    scene.tokens.is_sign(following, Sign::LeftBracket)
        || (scene.tokens.is_sign(following, Sign::Dot) && has_later_index(scene, following))
}

/// `x[i]`, where the class of x has no `aget`.
fn without_index(scene: SourceContext<'_>, said: &mut Message) -> Result<(), AllocError> {
    if !scene
        .tokens
        .is_sign(scene.at.saturating_add(1), Sign::LeftBracket)
    {
        return Ok(());
    }
    let Some(
        Declared {
            class: Some(name),
            ..
        },
    ) = declared_before(scene, scene.at)
    else {
        return Ok(());
    };
    let Some(class) = scene.table.class(name) else {
        return Ok(());
    };
    if !class.includes.is_empty() || count_in(class, b"aget".as_slice(), Quality::Any) > 0 {
        return Ok(());
    }
    said.say(&[
        MessagePart::Code(scene.name()),
        MessagePart::Words(" is of type "),
        MessagePart::Plain(name),
        MessagePart::Words(", which has no routine `aget`, which `[..]` calls."),
    ])?;
    said.say_words("Texts, arrays and FLIST have elements.")
}

/// Whether `[` follows a token before the statement ends.
fn has_later_index(scene: SourceContext<'_>, from: usize) -> bool {
    for at in from..scene.tokens.list.len() {
        if scene.tokens.is_sign(at, Sign::LeftBracket) {
            return true;
        }
        if scene.tokens.is_sign(at, Sign::Semicolon) {
            return false;
        }
    }
    false
}

/// The receiver has no feature with this name.
fn lacks_feature(
    scene: SourceContext<'_>,
    class: Option<&[u8]>,
    said: &mut Message,
) -> Result<(), AllocError> {
    let what = match scene.tokens.kind(scene.at) {
        Some(TokenKind::IterName) => "iter ",
        _ => "routine ",
    };
    match class {
        Some(class) => class_lacks(class, what, scene.name(), said),
        None => something_lacks(what, scene.name(), said),
    }
}

/// A class has no routine or iter with this name.
fn class_lacks<'a>(
    class: &'a [u8],
    what: &'a str,
    name: &'a [u8],
    said: &mut Message,
) -> Result<(), AllocError> {
    said.say(&[
        MessagePart::Plain(class),
        MessagePart::Words(" has no "),
        MessagePart::Words(what),
        MessagePart::Code(name),
        MessagePart::Words("."),
    ])
}

/// The receiver, whose class isn't known, has no routine or iter with this name.
fn something_lacks<'a>(
    what: &'a str,
    name: &'a [u8],
    said: &mut Message,
) -> Result<(), AllocError> {
    said.say(&[
        MessagePart::Words("The class of what this is called on has no "),
        MessagePart::Words(what),
        MessagePart::Code(name),
        MessagePart::Words("."),
    ])
}

/// Whether the feature declares a variable with a name.
#[derive(Clone, Copy, PartialEq, Eq)]
enum Declares {
    Nothing,
    Elsewhere,
}

/// Says where a variable with this name is declared that isn't in scope here.
fn declared_elsewhere(
    scene: SourceContext<'_>,
    said: &mut Message,
) -> Result<Declares, AllocError> {
    let tokens = scene.tokens;
    let name = scene.name();
    for at in scene.feature..tokens.list.len() {
        if at > scene.at && tokens.is_word(at, Word::Is) {
            break;
        }
        if at != scene.at
            && tokens.is_lower(at)
            && tokens.bytes(at) == name
            && tokens.is_sign(at.saturating_add(1), Sign::Declare)
        {
            said.say(&[
                MessagePart::Code(name),
                MessagePart::Words(" is declared in line "),
                MessagePart::Number(tokens.line(at)),
                MessagePart::Words(
                    ", and isn't known here: a variable is known from there to the end of its list of statements.",
                ),
            ])?;
            return Ok(Declares::Elsewhere);
        }
    }
    Ok(Declares::Nothing)
}

/// An iter with this name, what it is called in other languages, or a name near by.
fn what_is_meant(scene: SourceContext<'_>, said: &mut Message) -> Result<(), AllocError> {
    let name = scene.name();
    if says_other_kind(scene, said)? {
        return Ok(());
    }
    if let Some(remedy) = known_elsewhere(name) {
        return said.say_words(remedy);
    }
    if let Some(helper) = library_helper(name)
        && may_be(receiver_before(scene, scene.at.saturating_sub(1)), helper)
    {
        return the_library_has(helper, name, said);
    }
    if let Some(near) = feature_near(scene, name)? {
        return did_you_mean(near, said);
    }
    said.say_words("See how the name is written where it is declared.")
}

/// Whether a routine of the library takes the receiver, as far as its class is known.
fn may_be(receiver: Option<&[u8]>, helper: Helper) -> bool {
    match receiver {
        Some(class) => class == helper.of.as_bytes(),
        None => true,
    }
}

/// Says which class of the library has a routine or an iter with this name, and in which file it is.
fn the_library_has<'a>(
    helper: Helper,
    name: &'a [u8],
    said: &mut Message,
) -> Result<(), AllocError> {
    said.say(&[
        MessagePart::Words("The library has it as `"),
        MessagePart::Words(helper.ty),
        MessagePart::Words("::"),
        MessagePart::Plain(name),
        MessagePart::Words("`, whose first argument is of type "),
        MessagePart::Words(helper.of),
        MessagePart::Words(": `sather lib "),
        MessagePart::Words(helper.file),
        MessagePart::Words("` prints the file."),
    ])
}

/// Says that there is an iter with this name, or a routine, and gives whether there is.
fn says_other_kind(scene: SourceContext<'_>, said: &mut Message) -> Result<bool, AllocError> {
    let name = scene.name();
    if let [routine @ .., b'!'] = name {
        if scene.table.count(routine, Quality::Any) == 0 {
            return Ok(false);
        }
        said.say(&[
            MessagePart::Words("There is a routine of this name: write "),
            MessagePart::Code(routine),
            MessagePart::Words("."),
        ])?;
        return Ok(true);
    }
    let mut iter = Vec::from_slice(scene.alloc, name)?;
    iter.push(b'!')?;
    if scene.table.count(iter.as_slice(), Quality::Any) == 0 {
        return Ok(false);
    }
    there_is_iter(iter.as_slice(), said)?;
    Ok(true)
}

fn there_is_iter(name: &[u8], said: &mut Message) -> Result<(), AllocError> {
    said.say(&[
        MessagePart::Words("There is an iter of this name: write "),
        MessagePart::Code(name),
        MessagePart::Words(", in a loop."),
    ])
}

/// Says what is known of a name beyond its rule.
pub(crate) fn about_name(
    scene: SourceContext<'_>,
    rule: Rule,
    said: &mut Message,
) -> Result<(), Failure> {
    match rule {
        Rule::PrivateFeature => private_feature(scene, said)?,
        Rule::DeclaredTwice => declared_twice(scene, said)?,
        Rule::BadBind => bad_bind(scene, said)?,
        _ => tested_variable(scene, said)?,
    }
    Ok(())
}

fn private_feature(scene: SourceContext<'_>, said: &mut Message) -> Result<(), AllocError> {
    let target = if scene.tokens.is_sign(scene.at, Sign::Assign) {
        scene.at.saturating_sub(1)
    } else {
        scene.at
    };
    let name = scene.tokens.bytes(target);
    if !scene.tokens.is_feature_name(target) {
        return Ok(());
    }
    said.mark = scene.span(target);
    said.say(&[
        MessagePart::Code(name),
        MessagePart::Words(" is private: the code of its own class alone sees it."),
    ])?;
    said.say_words(if is_held(scene, name) {
        "Call it inside its class, or write `readonly` in place of `private`, which lets others read it."
    } else {
        "Call it inside its class, or take the word `private` away there."
    })
}

/// Whether each private feature with this name is an attribute or a shared, which may be `readonly`.
fn is_held(scene: SourceContext<'_>, name: &[u8]) -> bool {
    scene.table.count(name, Quality::Private) > 0
        && !scene
            .table
            .classes
            .iter()
            .any(|class| hides_code(class, name))
}

/// Whether a class has a private feature with this name that can't be written.
fn hides_code(class: &Class, name: &[u8]) -> bool {
    class.features.as_slice().iter().any(|feature| {
        feature.name.name.as_slice() == name
            && feature.access == Access::Private
            && !matches!(feature.part, FeaturePart::Attr | FeaturePart::Shared(_))
    })
}

/// A variable that is declared where one with its name is in scope.
fn declared_twice(scene: SourceContext<'_>, said: &mut Message) -> Result<(), AllocError> {
    let tokens = scene.tokens;
    for at in scene.feature..scene.at {
        let is_same = tokens.is_lower(at) && tokens.bytes(at) == scene.name();
        if is_same && declares(tokens, at) && is_in_force(tokens, at, scene.at) {
            said.say(&[
                MessagePart::Code(scene.name()),
                MessagePart::Words(" is declared in line "),
                MessagePart::Number(tokens.line(at)),
                MessagePart::Words(" already, and is still known here."),
            ])?;
            return said.say_words(
                "To give it a value write `:=`; for another variable choose another name.",
            );
        }
    }
    Ok(())
}

/// `#ROUT(..)` of older Sather, and `_` where no bind is.
fn bad_bind(scene: SourceContext<'_>, said: &mut Message) -> Result<(), AllocError> {
    let tokens = scene.tokens;
    if !tokens.is_sign(scene.at, Sign::Underscore) {
        return Ok(());
    }
    if has_old_bind(scene) {
        said.say_words(
            "A bound routine or iter is made by `bind` here, and `_` leaves an argument open there alone.",
        )?;
        return said.say_words("Write `bind(f(_))` in place of `#ROUT(f(_))`.");
    }
    said.say_words("`_` leaves an argument open, which a call inside `bind(..)` alone can.")?;
    said.say_words("Give the argument, or bind the call, as `bind(f(_))`.")
}

/// Whether `#ROUT` or `#ITER` is a few tokens before the position.
fn has_old_bind(scene: SourceContext<'_>) -> bool {
    let tokens = scene.tokens;
    for at in scene.at.saturating_sub(12)..scene.at {
        let is_bound_type = tokens.is_word(at, Word::Rout) || tokens.is_word(at, Word::Iter);
        if is_bound_type && tokens.is_sign_back(at, 1, Sign::Hash) {
            return true;
        }
    }
    false
}

/// The variable of a `typecase`.
fn tested_variable(scene: SourceContext<'_>, said: &mut Message) -> Result<(), AllocError> {
    if scene.tokens.is_word(scene.at, Word::Typecase) {
        let name = scene.at.saturating_add(1);
        said.mark = scene.span(name);
        said.say(&[
            MessagePart::Code(scene.tokens.bytes(name)),
            MessagePart::Words(" is no variable of this feature, and a `typecase` tests one."),
        ])?;
        return said.say(&[
            MessagePart::Words("Put it into one first: `x ::= "),
            MessagePart::Plain(scene.tokens.bytes(name)),
            MessagePart::Words(";`, and test `x`."),
        ]);
    }
    let target = if scene.tokens.is_sign(scene.at, Sign::Assign) {
        scene.at.saturating_sub(1)
    } else {
        scene.at
    };
    if !scene.tokens.is_lower(target) {
        return Ok(());
    }
    said.mark = scene.span(target);
    said.say_words(
        "In a branch of a `typecase` the variable that is tested has the type of the branch, and isn't written.",
    )?;
    said.say_words("Put the new value into another variable.")
}
