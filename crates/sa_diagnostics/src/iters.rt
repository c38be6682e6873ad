//! Iters, and what belongs to them: E35 to E38.

use crate::{Message, MessagePart, SourceContext};
use failure::Failure;
use sa_ast::Rule;
use sa_lexer::{TokenKind, Word};
use std::alloc::AllocError;

/// Says what is wrong with the iter call or the word at the position.
pub(crate) fn about_iter(
    scene: SourceContext<'_>,
    rule: Rule,
    said: &mut Message,
) -> Result<(), Failure> {
    match rule {
        Rule::IterOutsideLoop => outside_loop(scene, said)?,
        Rule::IterInSelfOrOnce => evaluated_once(scene, said)?,
        Rule::OutOfPlace => out_of_place(scene, said)?,
        _ => in_protect(scene, said)?,
    }
    Ok(())
}

fn outside_loop(scene: SourceContext<'_>, said: &mut Message) -> Result<(), AllocError> {
    said.say(&[
        MessagePart::Code(scene.name()),
        MessagePart::Words(" is called like an iter, and no "),
        MessagePart::Code(b"loop".as_slice()),
        MessagePart::Words(
            " stands around it: the loop resumes an iter in each round, and ends with it.",
        ),
    ])?;
    said.say_words("Write `loop .. end;` around the statement.")
}

fn evaluated_once(scene: SourceContext<'_>, said: &mut Message) -> Result<(), AllocError> {
    said.say(&[
        MessagePart::Code(scene.name()),
        MessagePart::Words(
            " stands in what an iter is called on, or in an argument that is marked ",
        ),
        MessagePart::Code(b"once".as_slice()),
        MessagePart::Words(": that is evaluated once, when the iter starts."),
    ])?;
    said.say_words(
        "Take its value into a variable first and loop inside, or give the iter itself as `bind(..)`.",
    )
}

/// `yield` and `quit` in a routine, `return` in an iter.
fn out_of_place(scene: SourceContext<'_>, said: &mut Message) -> Result<(), AllocError> {
    if scene.tokens.is_word(scene.at, Word::Return) {
        said.say(&[
            MessagePart::Words("An iter ends by "),
            MessagePart::Code(b"quit".as_slice()),
            MessagePart::Words(" or at its end; "),
            MessagePart::Code(b"return".as_slice()),
            MessagePart::Words(" belongs to routines."),
        ])?;
        return said.say_words("Write `quit`, and `yield` for a value.");
    }
    let Some(name) = scene.feature_name() else {
        return Ok(());
    };
    if !matches!(scene.tokens.kind(scene.feature), Some(TokenKind::Lower)) {
        return Ok(());
    }
    if name == b"main".as_slice() && is_in_main_class(scene) {
        return in_main(scene, said);
    }
    said.say(&[
        MessagePart::Code(scene.name()),
        MessagePart::Words(" belongs to iters, whose names end in "),
        MessagePart::Code(b"!".as_slice()),
        MessagePart::Words(", and "),
        MessagePart::Code(name),
        MessagePart::Words(" is a routine."),
    ])?;
    said.say(&[
        MessagePart::Words("Name it `"),
        MessagePart::Plain(name),
        MessagePart::Words("!`, here and where it is called."),
    ])
}

/// Whether the position is in the class MAIN.
fn is_in_main_class(scene: SourceContext<'_>) -> bool {
    match scene.table.class_at(scene.pos) {
        Some(class) => class.name.name.as_slice() == b"MAIN".as_slice(),
        None => false,
    }
}

/// `yield` and `quit` in the routine at which a program begins.
fn in_main(scene: SourceContext<'_>, said: &mut Message) -> Result<(), AllocError> {
    said.say(&[
        MessagePart::Code(scene.name()),
        MessagePart::Words(
            " belongs to iters, and `main` is the routine at which a program begins.",
        ),
    ])?;
    said.say_words(if scene.tokens.is_word(scene.at, Word::Quit) {
        "To leave a loop write `break!`, and to leave `main` write `return`."
    } else {
        "Write an iter, as `numbers!:INT is .. end;`, and call it in a loop of `main`."
    })
}

fn in_protect(scene: SourceContext<'_>, said: &mut Message) -> Result<(), AllocError> {
    if matches!(scene.tokens.kind(scene.at), Some(TokenKind::IterName)) {
        said.say(&[
            MessagePart::Words("Between "),
            MessagePart::Code(scene.name()),
            MessagePart::Words(" and its loop stands a "),
            MessagePart::Code(b"protect".as_slice()),
            MessagePart::Words(", which would be left when the iter is resumed."),
        ])?;
        return said.say_words(
            "Take its value before the `protect`, or put the `protect` around the whole loop.",
        );
    }
    said.say(&[
        MessagePart::Code(scene.name()),
        MessagePart::Words(" doesn't stand in a "),
        MessagePart::Code(b"protect".as_slice()),
        MessagePart::Words("."),
    ])?;
    said.say_words("Put what may raise into the `protect`, and this behind it.")
}
