//! A token that isn't expected where it is: E06.

use crate::elsewhere::{doubled, foreign};
use crate::enclosing::open_around;
use crate::slips::slip;
use crate::{Message, MessagePart, SourceContext, Span, open_blocks_before};
use failure::{Failure, Invariant};
use sa_lexer::{Sign, TokenKind, Word};
use std::alloc::AllocError;

/// Says what is wrong at the token, or before it.
///
/// # Errors
///
/// `NoMemory` where memory runs out.
pub fn unexpected(scene: SourceContext<'_>, said: &mut Message) -> Result<(), Failure> {
    let opened = open_blocks_before(scene.alloc, scene.tokens, scene.at)?;
    near_by(scene, said)?;
    if said.is_silent() {
        foreign(scene, said)?;
    }
    if said.is_silent() {
        slip(scene, said)?;
    }
    if said.is_silent() {
        open_around(scene, &opened, said)?;
    }
    if said.is_silent() {
        beside(scene, said)?;
    }
    Ok(())
}

/// What the token and the ones beside it show.
fn near_by(scene: SourceContext<'_>, said: &mut Message) -> Result<(), AllocError> {
    let tokens = scene.tokens;
    let at = scene.at;
    if tokens.is_sign(at, Sign::RightParen) && tokens.is_sign_back(at, 1, Sign::LeftParen) {
        return empty_parentheses(scene, said);
    }
    if tokens.is_lower(at) {
        small_class_name(scene, said)?;
    }
    if said.is_silent() {
        doubled(scene, said)?;
    }
    if said.is_silent() && tokens.is_sign(at, Sign::Equal) {
        equal_sign(scene, said)?;
    }
    if said.is_silent() {
        word_as_name(scene, said)?;
    }
    Ok(())
}

/// `f()`
fn empty_parentheses(scene: SourceContext<'_>, said: &mut Message) -> Result<(), AllocError> {
    let Some(open) = scene.at.checked_sub(1) else {
        return Ok(());
    };
    said.mark = Span {
        start: scene.tokens.start(open),
        end: scene.tokens.end(scene.at),
    };
    let name = scene.tokens.bytes_back(scene.at, 2);
    said.say_words("A list of arguments isn't empty: without arguments there are no parentheses.")?;
    if matches!(
        scene.tokens.kind_back(scene.at, 2),
        Some(TokenKind::Lower | TokenKind::IterName)
    ) {
        return write_it(name, said);
    }
    said.say_words("Take the parentheses away.")
}

/// `x:int`, `class stack`, `#stack`
fn small_class_name(scene: SourceContext<'_>, said: &mut Message) -> Result<(), AllocError> {
    let tokens = scene.tokens;
    let at = scene.at;
    let wants_class = tokens.is_sign_back(at, 1, Sign::Colon)
        || tokens.is_word_back(at, 1, Word::Class)
        || tokens.is_sign_back(at, 1, Sign::Hash)
        || tokens.is_sign_back(at, 1, Sign::LeftBrace);
    if !wants_class {
        return Ok(());
    }
    if let Some(class) = class_here(scene.name()) {
        said.say_words("Here stands the name of a class, and these are in capitals.")?;
        return write_it(class.as_bytes(), said);
    }
    let mut name = Vec::from_slice(scene.alloc, scene.name())?;
    for byte in name.iter_mut() {
        *byte = byte.to_ascii_uppercase();
    }
    said.say(&[
        MessagePart::Words("Here stands the name of a class, and these are in capitals: "),
        MessagePart::Code(scene.name()),
        MessagePart::Words(" is a name of a routine or a variable."),
    ])?;
    write_it(name.as_slice(), said)
}

/// Says that this is to be written there.
fn write_it(code: &[u8], said: &mut Message) -> Result<(), AllocError> {
    said.say(&[
        MessagePart::Words("Write "),
        MessagePart::Code(code),
        MessagePart::Words("."),
    ])
}

/// `x:INT = 3`
fn equal_sign(scene: SourceContext<'_>, said: &mut Message) -> Result<(), AllocError> {
    let tokens = scene.tokens;
    let is_declaration = tokens.is_class_name(scene.at.saturating_sub(1))
        && tokens.is_sign_back(scene.at, 2, Sign::Colon);
    if !is_declaration {
        return Ok(());
    }
    said.say_words("`=` compares two values; a declaration gives its variable a value by `:=`.")?;
    said.say_words("Write `:=`.")
}

/// A word of the language where a name is declared or assigned.
fn word_as_name(scene: SourceContext<'_>, said: &mut Message) -> Result<(), AllocError> {
    let tokens = scene.tokens;
    let Some(TokenKind::Word(word)) = tokens.kind(scene.at) else {
        return Ok(());
    };
    let next = scene.at.saturating_add(1);
    let names = tokens.is_sign(next, Sign::Declare)
        || tokens.is_sign(next, Sign::Assign)
        || (tokens.is_sign(next, Sign::Colon) && *word != Word::Invariant)
        || tokens.is_sign_back(scene.at, 1, Sign::Dot);
    if !names {
        return Ok(());
    }
    said.say(&[
        MessagePart::Code(scene.name()),
        MessagePart::Words(" is a word of the language, so it is no name."),
    ])?;
    said.say_words("Choose another name.")
}

/// The token at the position and the one before it.
fn beside(scene: SourceContext<'_>, said: &mut Message) -> Result<(), AllocError> {
    let tokens = scene.tokens;
    if tokens.kind(scene.at).is_none() {
        said.say_words("The file ends in the middle of a class or a statement.")?;
        return said.say_words("Write its end.");
    }
    if scene.at == 0 {
        said.say(&[
            MessagePart::Words("A file is a list of classes, and "),
            MessagePart::Code(scene.name()),
            MessagePart::Words(" begins none."),
        ])?;
        return said.say_words("Write `class NAME is .. end;` around what stands here.");
    }
    said.say(&[
        MessagePart::Code(scene.name()),
        MessagePart::Words(" can't stand behind "),
        MessagePart::Code(tokens.bytes_back(scene.at, 1)),
        MessagePart::Words(" here."),
    ])?;
    said.say_words("The mistake is at this token or before it.")
}

/// The class of this language for a name that other languages have for it.
fn class_here(name: &[u8]) -> Option<&'static str> {
    Some(match name {
        b"string" => "STR",
        b"integer" | b"long" | b"number" => "INT",
        b"boolean" => "BOOL",
        b"character" | b"byte" => "CHAR",
        b"list" | b"vector" => "FLIST",
        _ => return None,
    })
}
