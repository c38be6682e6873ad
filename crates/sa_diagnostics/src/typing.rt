//! Values of another type than the one that is expected: E33.

use crate::calls::is_other;
use crate::values::{Declared, declared_before, value_at};
use crate::{Message, MessagePart, SourceContext, plain_name};
use failure::Failure;
use sa_lexer::{Sign, TokenKind, Word};
use std::alloc::AllocError;

/// Says which type is expected at the position, and which one is found.
pub(crate) fn wrong_type(scene: SourceContext<'_>, said: &mut Message) -> Result<(), Failure> {
    let tokens = scene.tokens;
    match tokens.kind(scene.at) {
        Some(TokenKind::Sign(Sign::Assign)) => assigned(scene, said)?,
        Some(TokenKind::Lower) => declared_or_alone(scene, said)?,
        Some(TokenKind::Word(Word::If)) => condition(scene, "`if`", said)?,
        Some(TokenKind::Word(Word::Assert)) => condition(scene, "`assert`", said)?,
        Some(TokenKind::IterName) => condition(scene, "`while!` and `until!`", said)?,
        Some(TokenKind::Word(Word::And | Word::Or)) => {
            said.say(&[
                MessagePart::Code(scene.name()),
                MessagePart::Words(" is of two BOOLs, and one of its operands is none."),
            ])?;
            said.say_words("Write a comparison on each side, as `n > 0 and n < 10`.")?;
        }
        Some(TokenKind::Word(Word::Return | Word::Yield)) => given_back(scene, said)?,
        Some(TokenKind::Sign(Sign::Bar)) => {
            said.say_words(
                "An element of this array is of another type than the array that is wanted here has.",
            )?;
            said.say_words("Write elements of that type alone.")?;
        }
        Some(TokenKind::Word(Word::New)) => {
            said.say_words("`new(n)` takes the number of elements, an INT.")?;
            said.say_words("Write an INT.")?;
        }
        Some(TokenKind::Int(_) | TokenKind::Text(_) | TokenKind::Char(_)) => alone(scene, said)?,
        _ => {}
    }
    Ok(())
}

/// `x:T := e` at its first name, or a name as a statement.
fn declared_or_alone(scene: SourceContext<'_>, said: &mut Message) -> Result<(), AllocError> {
    let next = scene.at.saturating_add(1);
    if scene.tokens.is_sign(next, Sign::Semicolon) || scene.tokens.is_word(next, Word::End) {
        return alone(scene, said);
    }
    let Some(assign) = assign_behind(scene, scene.at) else {
        return Ok(());
    };
    between(scene, scene.at, assign, said)
}

/// The `:=` after the names and the type of a declaration.
fn assign_behind(scene: SourceContext<'_>, name: usize) -> Option<usize> {
    let tokens = scene.tokens;
    for at in name..tokens.list.len() {
        if tokens.is_sign(at, Sign::Assign) {
            return Some(at);
        }
        if tokens.is_sign(at, Sign::Semicolon) || tokens.is_word(at, Word::End) {
            return None;
        }
    }
    None
}

/// `x := e` at its `:=`.
fn assigned(scene: SourceContext<'_>, said: &mut Message) -> Result<(), AllocError> {
    let Some(target) = scene.at.checked_sub(1) else {
        return Ok(());
    };
    if !scene.tokens.is_lower(target) || scene.tokens.is_sign_back(scene.at, 2, Sign::Dot) {
        return Ok(());
    }
    between(scene, target, scene.at, said)
}

/// A variable that is named at a token and the value after a `:=`.
fn between(
    scene: SourceContext<'_>,
    name: usize,
    assign: usize,
    said: &mut Message,
) -> Result<(), AllocError> {
    let value = assign.saturating_add(1);
    let (
        Some(
            Declared {
                class: Some(declared),
                ..
            },
        ),
        Some(found),
    ) = (declared_before(scene, name), value_at(scene, value))
    else {
        return Ok(());
    };
    if !is_other(scene, declared, found.class) {
        return Ok(());
    }
    said.mark = scene.span(value);
    said.say(&[
        MessagePart::Code(scene.tokens.bytes(name)),
        MessagePart::Words(" is declared "),
        MessagePart::Plain(declared),
        MessagePart::Words(", and "),
        MessagePart::Code(scene.tokens.bytes(value)),
        MessagePart::Words(" is of type "),
        MessagePart::Plain(found.class),
        MessagePart::Words("."),
    ])?;
    said.say(&[
        MessagePart::Words("Write a value of type "),
        MessagePart::Plain(declared),
        MessagePart::Words(", or declare "),
        MessagePart::Code(scene.tokens.bytes(name)),
        MessagePart::Words(" as "),
        MessagePart::Plain(found.class),
        MessagePart::Words("."),
    ])
}

/// A condition that isn't a BOOL.
fn condition(scene: SourceContext<'_>, of: &str, said: &mut Message) -> Result<(), AllocError> {
    let next = scene.at.saturating_add(1);
    let value = if scene.tokens.is_sign(next, Sign::LeftParen) {
        next.saturating_add(1)
    } else {
        next
    };
    said.say(&[
        MessagePart::Words("Each condition of "),
        MessagePart::Words(of),
        MessagePart::Words(" is a BOOL, and one that stands here isn't."),
    ])?;
    if let Some(found) = value_at(scene, value)
        && found.class != b"BOOL".as_slice()
    {
        said.say(&[
            MessagePart::Code(scene.tokens.bytes(value)),
            MessagePart::Words(" is of type "),
            MessagePart::Plain(found.class),
            MessagePart::Words("."),
        ])?;
    }
    said.say_words("Write a comparison, as `n /= 0`, or `~void(x)` for an object that is there.")
}

/// A value that a routine returns or an iter yields.
fn given_back(scene: SourceContext<'_>, said: &mut Message) -> Result<(), AllocError> {
    let Some((_, feature)) = scene.table.feature_at(scene.pos) else {
        return Ok(());
    };
    let name = feature.name.name.as_slice();
    let value = scene.at.saturating_add(1);
    let has_value = !scene.tokens.is_sign(value, Sign::Semicolon)
        && !matches!(
            scene.tokens.kind(value),
            Some(TokenKind::Word(Word::End | Word::Else | Word::Elsif | Word::When))
        );
    match &feature.result {
        None => {
            said.say(&[
                MessagePart::Code(name),
                MessagePart::Words(" has no result, and "),
                MessagePart::Code(scene.name()),
                MessagePart::Words(" stands here with a value."),
            ])?;
            said.say(&[
                MessagePart::Words(
                    "Write the type of the result behind the name and its arguments, as `",
                ),
                MessagePart::Plain(name),
                MessagePart::Words(":INT is`, or take the value away."),
            ])
        }
        Some(_) if !has_value => {
            said.say(&[
                MessagePart::Code(name),
                MessagePart::Words(" has a result, and "),
                MessagePart::Code(scene.name()),
                MessagePart::Words(" stands here without a value."),
            ])?;
            said.say_words("Write the value behind the word.")
        }
        Some(ty) => other_result(scene, name, plain_name(ty), value, said),
    }
}

/// A value of another type than that of the result.
fn other_result<'a>(
    scene: SourceContext<'a>,
    name: &'a [u8],
    wanted: Option<&'a [u8]>,
    value: usize,
    said: &mut Message,
) -> Result<(), AllocError> {
    let Some(wanted) = wanted else {
        return Ok(());
    };
    match value_at(scene, value) {
        Some(found) if is_other(scene, wanted, found.class) => {
            said.mark = scene.span(value);
            said.say(&[
                MessagePart::Words("The result of "),
                MessagePart::Code(name),
                MessagePart::Words(" is "),
                MessagePart::Plain(wanted),
                MessagePart::Words(", and "),
                MessagePart::Code(scene.tokens.bytes(value)),
                MessagePart::Words(" is of type "),
                MessagePart::Plain(found.class),
                MessagePart::Words("."),
            ])?;
        }
        _ => said.say(&[
            MessagePart::Words("The result of "),
            MessagePart::Code(name),
            MessagePart::Words(" is "),
            MessagePart::Plain(wanted),
            MessagePart::Words(", and the value behind "),
            MessagePart::Code(scene.name()),
            MessagePart::Words(" is of another type."),
        ])?,
    }
    said.say_words("Write a value of the result's type, or give the routine another result.")
}

/// A value as a whole statement.
fn alone(scene: SourceContext<'_>, said: &mut Message) -> Result<(), AllocError> {
    said.say(&[
        MessagePart::Code(scene.name()),
        MessagePart::Words(" is a value, and no statement: nothing is done with it."),
    ])?;
    said.say_words("Print it, as `#OUT + x`, assign it, or give it back by `return`.")
}
