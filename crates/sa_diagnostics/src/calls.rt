//! Calls that no feature fits: E31.

use crate::operators::operator_without_fit;
use crate::values::{class_named_at, value_at};
use crate::{
    Message, MessagePart, Quality, SourceContext, TokenView, count_in, feature_in, has_parameter,
    is_closing, is_opening, plain_name,
};
use failure::Failure;
use sa_ast::{Class, ClassKind, Feature, FeatureBody as FeaturePart, Mode};
use sa_lexer::{Sign, TokenKind, Word};
use std::alloc::AllocError;

/// Says why no feature fits the call at the position.
pub(crate) fn call_without_fit(
    scene: SourceContext<'_>,
    said: &mut Message,
) -> Result<(), Failure> {
    match scene.tokens.kind(scene.at) {
        Some(TokenKind::Sign(Sign::Hash)) => object_without_fit(scene, said)?,
        Some(TokenKind::Sign(Sign::Assign)) => assignment_without_fit(scene, said)?,
        Some(TokenKind::Sign(sign)) => comparison_or_operator(scene, *sign, said)?,
        Some(TokenKind::Lower | TokenKind::IterName) => feature_without_fit(scene, said)?,
        Some(TokenKind::Word(Word::New)) => {
            said.say_words(
                "`new` takes the number of elements just where the class has an array part, by an include of AREF or ARRAY.",
            )?;
            said.say_words("Write `new(n)` there, and `new` elsewhere.")?;
        }
        _ => {}
    }
    Ok(())
}

/// An operator, or `=` in place of `:=`.
fn comparison_or_operator(
    scene: SourceContext<'_>,
    sign: Sign,
    said: &mut Message,
) -> Result<(), AllocError> {
    if sign == Sign::Equal && stands_alone(scene.tokens, scene.at) {
        said.say_words("`=` compares two values, and a statement doesn't take what it gives.")?;
        return said.say_words("To assign write `:=`.");
    }
    operator_without_fit(scene, sign, said)
}

/// Whether a statement begins with an expression that goes on at a token.
fn stands_alone(tokens: TokenView<'_>, at: usize) -> bool {
    let mut depth = 0usize;
    for back in 0..at {
        let place = at - 1 - back;
        let kind = tokens.kind(place);
        if is_closing(kind) {
            depth = depth.saturating_add(1);
        } else if depth > 0 {
            if is_opening(kind) {
                depth -= 1;
            }
        } else if begins_list(kind) {
            return true;
        } else if !is_of_postfix(kind) {
            return false;
        }
    }
    false
}

/// Whether a statement begins after a token, and no expression goes on.
pub(crate) fn begins_list(kind: Option<&TokenKind>) -> bool {
    matches!(
        kind,
        Some(
            TokenKind::Sign(Sign::Semicolon)
                | TokenKind::Word(Word::Is | Word::Loop | Word::Then | Word::Else | Word::Protect)
        )
    )
}

/// Whether a token is a part of a chain of calls.
fn is_of_postfix(kind: Option<&TokenKind>) -> bool {
    match kind {
        Some(TokenKind::Sign(sign)) => matches!(sign, Sign::Dot | Sign::DoubleColon | Sign::Hash),
        Some(TokenKind::Word(word)) => *word == Word::SelfWord,
        Some(_) => true,
        None => false,
    }
}

/// `r.f := e`
fn assignment_without_fit(scene: SourceContext<'_>, said: &mut Message) -> Result<(), AllocError> {
    let Some(target) = scene.at.checked_sub(1) else {
        return Ok(());
    };
    if !scene.tokens.is_lower(target) {
        return Ok(());
    }
    let name = scene.tokens.bytes(target);
    let all = scene.table.count(name, Quality::Any);
    if all == 0 || scene.table.is_given(name) {
        return Ok(());
    }
    said.mark = scene.span(target);
    if all == scene.table.count(name, Quality::ReadOnly) && !is_written_here(scene, name) {
        said.say(&[
            MessagePart::Code(name),
            MessagePart::Words(" is "),
            MessagePart::Code(b"readonly".as_slice()),
            MessagePart::Words(": other classes read it, and its own class alone writes it."),
        ])?;
        return said.say_words("Write a routine in its class that changes it, and call that.");
    }
    if scene.table.count(name, Quality::Takes(1)) == 0 {
        said.say(&[
            MessagePart::Words("An assignment to "),
            MessagePart::Code(name),
            MessagePart::Words(
                " calls a routine of this name with the value, and none takes one argument.",
            ),
        ])?;
        return said.say_words("An `attr` or a `shared` can be assigned.");
    }
    assigned_type(scene, name, said)
}

/// Whether the class that the position is in writes or includes a feature with this name.
fn is_written_here(scene: SourceContext<'_>, name: &[u8]) -> bool {
    match scene.table.class_at(scene.pos) {
        Some(class) => { !class.includes.is_empty() || count_in(class, name, Quality::Any) > 0 }
        None => true,
    }
}

/// The type of the attribute that is assigned, where only one has its name, and that of the value.
fn assigned_type<'a>(
    scene: SourceContext<'a>,
    name: &'a [u8],
    said: &mut Message,
) -> Result<(), AllocError> {
    let next = scene.at.saturating_add(1);
    let (Some(wanted), Some(value)) = (only_type(scene, name), value_at(scene, next)) else {
        return Ok(());
    };
    if !is_other(scene, wanted, value.class) {
        return Ok(());
    }
    said.say(&[
        MessagePart::Code(name),
        MessagePart::Words(" is declared "),
        MessagePart::Plain(wanted),
        MessagePart::Words(", and "),
        MessagePart::Code(scene.tokens.bytes(next)),
        MessagePart::Words(" is of type "),
        MessagePart::Plain(value.class),
        MessagePart::Words("."),
    ])?;
    said.say(&[
        MessagePart::Words("Write a value of type "),
        MessagePart::Plain(wanted),
        MessagePart::Words("."),
    ])
}

/// The only feature with this name, or none.
fn only_feature<'a>(scene: SourceContext<'a>, name: &[u8]) -> Option<(&'a Class, &'a Feature)> {
    if scene.table.count(name, Quality::Any) != 1 {
        return None;
    }
    let class = scene.table.class_with(name, Quality::Any)?;
    Some((class, feature_in(class, name)?))
}

/// The type of the only attribute or shared with this name, or none.
fn only_type<'a>(scene: SourceContext<'a>, name: &[u8]) -> Option<&'a [u8]> {
    let (_, feature) = only_feature(scene, name)?;
    if !matches!(feature.part, FeaturePart::Attr | FeaturePart::Shared(_)) {
        return None;
    }
    match &feature.result {
        Some(ty) => plain_name(ty),
        None => None,
    }
}

/// Whether a value of the second class can't have the first one as its type: both are known, and the first isn't abstract.
pub(crate) fn is_other(scene: SourceContext<'_>, wanted: &[u8], found: &[u8]) -> bool {
    match scene.table.class(wanted) {
        Some(class) => {
            class.kind != ClassKind::Abstract && class.params.is_empty() && wanted != found
        }
        None => false,
    }
}

/// `#C(..)`
fn object_without_fit(scene: SourceContext<'_>, said: &mut Message) -> Result<(), AllocError> {
    let name = scene.at.saturating_add(1);
    let Some(class) = class_named_at(scene, name) else {
        return Ok(());
    };
    let Some(declared) = scene.table.class(class) else {
        return Ok(());
    };
    said.mark.end = scene.tokens.end(name);
    let Some(given) = arguments_behind(scene.tokens, name) else {
        return Ok(());
    };
    let is_whole = declared.includes.is_empty();
    if is_whole && count_in(declared, b"create".as_slice(), Quality::Takes(given)) == 0 {
        said.say(&[
            MessagePart::Words("`#"),
            MessagePart::Plain(class),
            MessagePart::Words("` calls `create` of "),
            MessagePart::Plain(class),
            MessagePart::Words(", and none takes "),
            MessagePart::Arguments(given),
            MessagePart::Words("."),
        ])?;
        return said.say_words("Give it the arguments that `create` takes.");
    }
    said.say(&[
        MessagePart::Words("`#"),
        MessagePart::Plain(class),
        MessagePart::Words("` calls `create` of "),
        MessagePart::Plain(class),
        MessagePart::Words(", and none takes these arguments and gives the new object."),
    ])?;
    said.say_words("See what types its arguments have, and that its result is SAME.")
}

/// The number of arguments after a name, or none where an array literal among them hides which commas separate them.
fn arguments_behind(tokens: TokenView<'_>, name: usize) -> Option<usize> {
    let open = name.saturating_add(1);
    if !tokens.is_sign(open, Sign::LeftParen) {
        return Some(0);
    }
    let mut depth = 0usize;
    let mut count = 1usize;
    for at in open..tokens.list.len() {
        let kind = tokens.kind(at);
        if is_opening(kind) {
            depth = depth.saturating_add(1);
        } else if is_closing(kind) {
            depth = depth.saturating_sub(1);
        } else if tokens.is_sign(at, Sign::Bar) {
            return None;
        } else if depth == 1 && tokens.is_sign(at, Sign::Comma) {
            count = count.saturating_add(1);
        }
        if depth == 0 {
            return Some(count);
        }
    }
    None
}

/// A call by name.
fn feature_without_fit(scene: SourceContext<'_>, said: &mut Message) -> Result<(), AllocError> {
    let name = scene.name();
    let all = scene.table.count(name, Quality::Any);
    if is_leaving(name) {
        return leaving(scene, said);
    }
    if all == 0 || scene.table.is_given(name) {
        return Ok(());
    }
    if is_whole_statement(scene.tokens, scene.at) {
        if all == scene.table.count(name, Quality::Gives) {
            return unused_value(scene, said);
        }
    } else if all == scene.table.count(name, Quality::GivesNone) {
        return missing_value(scene, said);
    }
    let Some(given) = arguments_behind(scene.tokens, scene.at) else {
        return Ok(());
    };
    if scene.table.count(name, Quality::Takes(given)) == 0 {
        return argument_count(scene, given, said);
    }
    if let Some((_, feature)) = only_feature(scene, name)
        && marked_behind(scene.tokens, scene.at) != marked_formals(feature)
    {
        return argument_marks(scene, marked_formals(feature), said);
    }
    argument_type(scene, said)
}

/// The number of arguments of a feature that are copied out.
fn marked_formals(feature: &Feature) -> usize {
    feature
        .formals
        .as_slice()
        .iter()
        .filter(|formal| matches!(formal.mode, Mode::Out | Mode::Inout))
        .count()
}

/// The number of arguments after a name that are marked by `out` or `inout`.
fn marked_behind(tokens: TokenView<'_>, name: usize) -> usize {
    let open = name.saturating_add(1);
    let mut depth = 0usize;
    let mut count = 0usize;
    for at in open..tokens.list.len() {
        let kind = tokens.kind(at);
        if is_opening(kind) {
            depth = depth.saturating_add(1);
        } else if is_closing(kind) {
            depth = depth.saturating_sub(1);
        } else if depth == 1 && (tokens.is_word(at, Word::Out) || tokens.is_word(at, Word::Inout)) {
            count = count.saturating_add(1);
        }
        if depth == 0 {
            return count;
        }
    }
    count
}

/// Other marks of arguments than the header has.
fn argument_marks(
    scene: SourceContext<'_>,
    wanted: usize,
    said: &mut Message,
) -> Result<(), AllocError> {
    if wanted == 0 {
        said.say(&[
            MessagePart::Code(scene.name()),
            MessagePart::Words(
                " copies no argument back, and this call marks one by `out` or `inout`.",
            ),
        ])?;
        return said.say_words("Take the word away, or write it in the header too.");
    }
    said.say(&[
        MessagePart::Code(scene.name()),
        MessagePart::Words(
            " copies arguments back, which its header and each call mark by the same words.",
        ),
    ])?;
    said.say_words("Write `out x` or `inout x` in the call, as the header has it.")
}

/// `while!`, `until!` and `break!`
fn is_leaving(name: &[u8]) -> bool {
    name == b"while!".as_slice() || name == b"until!".as_slice() || name == b"break!".as_slice()
}

fn leaving(scene: SourceContext<'_>, said: &mut Message) -> Result<(), AllocError> {
    said.say(&[
        MessagePart::Code(scene.name()),
        MessagePart::Words(
            " is a statement of its own that gives nothing: `while!` and `until!` take one BOOL, and `break!` takes nothing.",
        ),
    ])?;
    said.say_words("Write `while!(a < b);`, `until!(a = b);` or `break!;`.")
}

/// Whether a call is a whole statement: nothing surrounds it and its arguments.
fn is_whole_statement(tokens: TokenView<'_>, name: usize) -> bool {
    let next = name.saturating_add(1);
    let following = if tokens.is_sign(next, Sign::LeftParen) {
        tokens.after_bracket(next).unwrap_or(next)
    } else {
        next
    };
    let ends = matches!(
        tokens.kind(following),
        Some(
            TokenKind::Sign(Sign::Semicolon)
                | TokenKind::Word(Word::End | Word::Else | Word::Elsif | Word::When)
        )
    );
    ends && stands_alone(tokens, name)
}

/// A statement that gives a value.
fn unused_value(scene: SourceContext<'_>, said: &mut Message) -> Result<(), AllocError> {
    let name = scene.name();
    said.say(&[
        MessagePart::Code(name),
        MessagePart::Words(" gives a value, which a statement doesn't take: it has to be used."),
    ])?;
    if matches!(scene.tokens.kind(scene.at), Some(TokenKind::IterName)) {
        return said.say_words(
            "Put it into a variable, as `x ::= ..;`, or print it; to go round so often alone write `10.times!;`.",
        );
    }
    said.say_words("Put it into a variable, as `x ::= ..;`, or print it.")
}

/// A call that gives nothing where a value is expected.
fn missing_value(scene: SourceContext<'_>, said: &mut Message) -> Result<(), AllocError> {
    said.say(&[
        MessagePart::Code(scene.name()),
        MessagePart::Words(" gives no value, and here one is wanted."),
    ])?;
    said.say_words("Call it as a statement of its own.")
}

/// Another number of arguments than any feature takes.
fn argument_count(
    scene: SourceContext<'_>,
    given: usize,
    said: &mut Message,
) -> Result<(), AllocError> {
    let name = scene.name();
    match only_feature(scene, name) {
        Some((class, feature)) => said.say(&[
            MessagePart::Code(name),
            MessagePart::Words(" of "),
            MessagePart::Plain(class.name.name.as_slice()),
            MessagePart::Words(" takes "),
            MessagePart::Arguments(feature.formals.len()),
            MessagePart::Words(", and this call gives "),
            MessagePart::Number(given),
            MessagePart::Words("."),
        ])?,
        None => said.say(&[
            MessagePart::Words("No "),
            MessagePart::Code(name),
            MessagePart::Words(" takes "),
            MessagePart::Arguments(given),
            MessagePart::Words("."),
        ])?,
    }
    said.say_words("Give it as many as it takes.")
}

/// An argument of another type, where only one feature has the name and the tokens show the types.
fn argument_type(scene: SourceContext<'_>, said: &mut Message) -> Result<(), AllocError> {
    let name = scene.name();
    let Some((class, feature)) = only_feature(scene, name) else {
        return Ok(());
    };
    let [formal] = feature.formals.as_slice() else {
        return Ok(());
    };
    let argument = scene.at.saturating_add(2);
    let (Some(wanted), Some(value)) = (plain_name(&formal.ty), value_at(scene, argument)) else {
        return Ok(());
    };
    if !is_other(scene, wanted, value.class) || has_parameter(class, wanted) {
        return Ok(());
    }
    said.mark = scene.span(argument);
    said.say(&[
        MessagePart::Code(name),
        MessagePart::Words(" takes a value of type "),
        MessagePart::Plain(wanted),
        MessagePart::Words(", and "),
        MessagePart::Code(scene.tokens.bytes(argument)),
        MessagePart::Words(" is of type "),
        MessagePart::Plain(value.class),
        MessagePart::Words("."),
    ])?;
    said.say(&[
        MessagePart::Words("Give it a value of type "),
        MessagePart::Plain(wanted),
        MessagePart::Words("."),
    ])
}
