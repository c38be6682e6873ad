//! What is said of an unexpected token by the classes, bodies, statements and brackets that are open around it.

use crate::{
    ClosedBlock, Message, MessagePart, OpenBlock, OpenBlocks, SourceContext, Span, TokenView,
    begins_statement, ends_value, is_closing, is_opening, last_else_if,
};
use sa_lexer::{Sign, TokenKind, Word};
use std::alloc::AllocError;

/// Says what the classes, bodies, statements and brackets show that are open around the token.
pub(crate) fn open_around(
    scene: SourceContext<'_>,
    opened: &OpenBlocks,
    said: &mut Message,
) -> Result<(), AllocError> {
    let tokens = scene.tokens;
    let Some(open) = opened.innermost() else {
        return outside_classes(scene, opened.closed, said);
    };
    if is_opening(tokens.kind(open.at)) {
        return in_bracket(scene, open, said);
    }
    let place = if opened.list.len() > 1 {
        Inside::Body
    } else {
        Inside::Class
    };
    missing_semicolon(scene, place, said)?;
    if said.is_silent() && place == Inside::Class {
        bare_attribute(scene, said)?;
    }
    if !said.is_silent() {
        return Ok(());
    }
    if tokens.kind(scene.at).is_none() {
        return at_the_end(scene, opened, open, said);
    }
    let begins = begins_beside(tokens, scene.at) || begins_body(tokens, scene.at);
    if begins && opened.list.len() > 1 {
        return unclosed(scene, opened, open, said);
    }
    stray_word(scene, open, said)
}

/// `x:INT;` as a feature
fn bare_attribute(scene: SourceContext<'_>, said: &mut Message) -> Result<(), AllocError> {
    let tokens = scene.tokens;
    let at = scene.at;
    let ends = tokens.is_sign(at, Sign::Semicolon) || tokens.is_sign(at, Sign::Assign);
    let is_plain = tokens.is_sign_back(at, 2, Sign::Colon) && tokens.is_lower(at.saturating_sub(3));
    if !ends || !is_plain {
        return Ok(());
    }
    said.say(&[
        MessagePart::Words("What the objects of a class hold is an "),
        MessagePart::Code(b"attr".as_slice()),
        MessagePart::Words(", and a routine has a body between "),
        MessagePart::Code(b"is".as_slice()),
        MessagePart::Words(" and "),
        MessagePart::Code(b"end".as_slice()),
        MessagePart::Words("."),
    ])?;
    said.say(&[
        MessagePart::Words("Write "),
        MessagePart::Code(b"attr".as_slice()),
        MessagePart::Words(" before "),
        MessagePart::Code(tokens.bytes_back(at, 3)),
        MessagePart::Words("."),
    ])
}

/// A token where no class is open.
fn outside_classes(
    scene: SourceContext<'_>,
    closed: Option<ClosedBlock>,
    said: &mut Message,
) -> Result<(), AllocError> {
    let tokens = scene.tokens;
    let (Some(_), Some(closed)) = (tokens.kind(scene.at), closed) else {
        return Ok(());
    };
    if begins_class(tokens, scene.at) {
        return semicolon_behind(tokens, closed.end, said);
    }
    said.say(&[
        MessagePart::Words("No class is open here: the "),
        MessagePart::Code(b"end".as_slice()),
        MessagePart::Words(" of line "),
        MessagePart::Number(tokens.line(closed.end)),
        MessagePart::Words(" has closed "),
        MessagePart::Code(tokens.bytes(closed.open.named)),
        MessagePart::Words(", which was opened in line "),
        MessagePart::Number(tokens.line(closed.open.named)),
        MessagePart::Words("."),
    ])?;
    said.say_words("Everything stands in a class: is there an `end` too many before this place?")
}

fn begins_class(tokens: TokenView<'_>, at: usize) -> bool {
    matches!(
        tokens.kind(at),
        Some(TokenKind::Word(Word::Class | Word::Abstract | Word::Immutable | Word::Partial))
    ) && tokens.is_word_back(at, 1, Word::End)
}

/// A token that isn't expected inside an open bracket.
fn in_bracket(
    scene: SourceContext<'_>,
    open: OpenBlock,
    said: &mut Message,
) -> Result<(), AllocError> {
    let tokens = scene.tokens;
    let leaves = match tokens.kind(scene.at) {
        None => true,
        Some(TokenKind::Word(word)) => is_of_statement(*word),
        Some(TokenKind::Sign(sign)) => matches!(
            sign,
            Sign::Semicolon | Sign::Assign | Sign::Declare
        ),
        Some(_) => false,
    };
    let closing = closing_of(tokens.kind(open.at)).as_bytes();
    let closes_another = is_closing(tokens.kind(scene.at)) && scene.name() != closing;
    if !leaves && !closes_another {
        return Ok(());
    }
    said.say(&[
        MessagePart::Code(tokens.bytes(open.at)),
        MessagePart::Words(" of line "),
        MessagePart::Number(tokens.line(open.at)),
        MessagePart::Words(" isn't closed yet, and this can't stand inside it."),
    ])?;
    write_where_it_ends(closing, said)
}

fn write_where_it_ends(closing: &[u8], said: &mut Message) -> Result<(), AllocError> {
    said.say(&[
        MessagePart::Words("Write "),
        MessagePart::Code(closing),
        MessagePart::Words(" where it ends."),
    ])
}

/// Whether a word is used in statements and around them, and in no brackets.
fn is_of_statement(word: Word) -> bool {
    matches!(
        word,
        Word::End
            | Word::Then
            | Word::Loop
            | Word::Is
            | Word::Else
            | Word::Elsif
            | Word::When
            | Word::If
            | Word::Case
            | Word::Typecase
            | Word::Protect
            | Word::Return
            | Word::Yield
            | Word::Quit
            | Word::Raise
            | Word::Assert
            | Word::Class
    )
}

fn closing_of(open: Option<&TokenKind>) -> &'static str {
    match open {
        Some(TokenKind::Sign(Sign::LeftBracket)) => "]",
        Some(TokenKind::Sign(Sign::LeftBrace)) => "}",
        _ => ")",
    }
}

/// What a position is inside of.
#[derive(Clone, Copy, PartialEq, Eq)]
enum Inside {
    Class,
    Body,
}

/// A statement or a feature that begins after one that hasn't ended.
fn missing_semicolon(
    scene: SourceContext<'_>,
    place: Inside,
    said: &mut Message,
) -> Result<(), AllocError> {
    let tokens = scene.tokens;
    let at = scene.at;
    let Some(before) = at.checked_sub(1) else {
        return Ok(());
    };
    if !ends_value(tokens.kind(before)) || !begins_statement(tokens.kind(at)) {
        return Ok(());
    }
    if place == Inside::Class && !is_between_features(tokens, at) {
        return Ok(());
    }
    let is_behind = tokens.has_line_feed(before, at) || !tokens.is_feature_name(at);
    if is_behind && let Some(word) = open_condition(tokens, at) {
        said.say(&[
            MessagePart::Words("Behind "),
            MessagePart::Code(tokens.bytes(word)),
            MessagePart::Words(" of line "),
            MessagePart::Number(tokens.line(word)),
            MessagePart::Words(" no "),
            MessagePart::Code(b"then".as_slice()),
            MessagePart::Words(" stands before this."),
        ])?;
        return said.say_words("Write `then` between the condition and its statements.");
    }
    if !ends_surely(tokens, before) && !tokens.has_line_feed(before, at) {
        return Ok(());
    }
    semicolon_behind(tokens, before, said)
}

/// Whether a value or a statement ends with a token, which isn't a word or name of another language.
fn ends_surely(tokens: TokenView<'_>, at: usize) -> bool {
    !matches!(
        tokens.kind(at),
        Some(TokenKind::Lower | TokenKind::ClassName | TokenKind::AbstractName)
    )
}

/// Whether one feature of a class ends before a token, and another one begins there.
fn is_between_features(tokens: TokenView<'_>, at: usize) -> bool {
    let next = at.saturating_add(1);
    tokens.is_word_back(at, 1, Word::End)
        || (!tokens.is_lower(at.saturating_sub(1))
            && (tokens.is_word(next, Word::Is) || tokens.is_sign(next, Sign::Colon)))
}

fn semicolon_behind(
    tokens: TokenView<'_>,
    before: usize,
    said: &mut Message,
) -> Result<(), AllocError> {
    said.mark = Span {
        start: tokens.end(before).saturating_sub(1),
        end: tokens.end(before),
    };
    said.say(&[
        MessagePart::Words("No "),
        MessagePart::Code(b";".as_slice()),
        MessagePart::Words(" stands behind "),
        MessagePart::Code(tokens.bytes(before)),
        MessagePart::Words(" in line "),
        MessagePart::Number(tokens.line(before)),
        MessagePart::Words(", and what comes next can't go on with it."),
    ])?;
    said.say_words("Write `;` there.")
}

/// The `if`, `elsif` or `when` before a token that no `then` follows.
fn open_condition(tokens: TokenView<'_>, before: usize) -> Option<usize> {
    for back in 0..before {
        let at = before - 1 - back;
        match tokens.kind(at) {
            Some(TokenKind::Word(Word::If | Word::Elsif | Word::When)) => return Some(at),
            Some(
                TokenKind::Word(
                    Word::Then
                    | Word::Else
                    | Word::Is
                    | Word::Loop
                    | Word::End
                    | Word::Protect
                    | Word::Return
                    | Word::Yield
                    | Word::Raise
                    | Word::Assert
                    | Word::Case
                    | Word::Typecase,
                ),
            ) => return None,
            Some(TokenKind::Sign(Sign::Semicolon | Sign::Assign | Sign::Declare)) => return None,
            _ => {}
        }
    }
    None
}

/// The end of the file, where something is open.
fn at_the_end(
    scene: SourceContext<'_>,
    opened: &OpenBlocks,
    open: OpenBlock,
    said: &mut Message,
) -> Result<(), AllocError> {
    mark_open(scene, open, said);
    said.say(&[
        MessagePart::Words("The file ends, and "),
        MessagePart::Code(scene.tokens.bytes(open.named)),
        MessagePart::Words(" of line "),
        MessagePart::Number(scene.tokens.line(open.named)),
        MessagePart::Words(" isn't closed: an "),
        MessagePart::Code(b"end".as_slice()),
        MessagePart::Words(" is missing."),
    ])?;
    where_to_end(scene, opened, said)
}

/// Something that begins a feature or a class where the body of another feature is still open.
fn unclosed(
    scene: SourceContext<'_>,
    opened: &OpenBlocks,
    open: OpenBlock,
    said: &mut Message,
) -> Result<(), AllocError> {
    mark_open(scene, open, said);
    said.say(&[
        MessagePart::Code(scene.tokens.bytes(open.named)),
        MessagePart::Words(" of line "),
        MessagePart::Number(scene.tokens.line(open.named)),
        MessagePart::Words(" isn't closed before "),
        MessagePart::Code(scene.tokens.bytes(scene.at)),
        MessagePart::Words(" of line "),
        MessagePart::Number(scene.tokens.line(scene.at)),
        MessagePart::Words(": an "),
        MessagePart::Code(b"end".as_slice()),
        MessagePart::Words(" is missing between them."),
    ])?;
    where_to_end(scene, opened, said)
}

fn mark_open(scene: SourceContext<'_>, open: OpenBlock, said: &mut Message) {
    said.mark = scene.span(open.named);
}

/// Where the `end` may be missing: at an `else if`, or before one that is indented otherwise than what it closes.
fn where_to_end(
    scene: SourceContext<'_>,
    opened: &OpenBlocks,
    said: &mut Message,
) -> Result<(), AllocError> {
    let tokens = scene.tokens;
    let from = match opened.crooked {
        Some(closed) => closed.open.at,
        None => scene.feature,
    };
    if let Some(place) = last_else_if(tokens, from, scene.at) {
        said.mark = Span {
            start: tokens.start(place.saturating_sub(1)),
            end: tokens.end(place),
        };
        return said.say(&[
            MessagePart::Code(b"else if".as_slice()),
            MessagePart::Words(" in line "),
            MessagePart::Number(tokens.line(place)),
            MessagePart::Words(" begins an "),
            MessagePart::Code(b"if".as_slice()),
            MessagePart::Words(" that wants an "),
            MessagePart::Code(b"end".as_slice()),
            MessagePart::Words(" of its own: write "),
            MessagePart::Code(b"elsif".as_slice()),
            MessagePart::Words("."),
        ]);
    }
    let Some(crooked) = opened.crooked else {
        return said.say_words("Write `end;` where it ends.");
    };
    said.mark = scene.span(crooked.open.named);
    said.say(&[
        MessagePart::Words("Each "),
        MessagePart::Code(b"end".as_slice()),
        MessagePart::Words(" closes what was opened last: that of line "),
        MessagePart::Number(tokens.line(crooked.end)),
        MessagePart::Words(" closes "),
        MessagePart::Code(tokens.bytes(crooked.open.named)),
        MessagePart::Words(" of line "),
        MessagePart::Number(tokens.line(crooked.open.named)),
        MessagePart::Words(", though it is indented otherwise. Is the "),
        MessagePart::Code(b"end".as_slice()),
        MessagePart::Words(" missing there?"),
    ])
}

/// Whether a token begins a feature or a class, and no statement.
fn begins_beside(tokens: TokenView<'_>, at: usize) -> bool {
    matches!(
        tokens.kind(at),
        Some(TokenKind::Word(
            Word::Class
                | Word::Abstract
                | Word::Immutable
                | Word::Partial
                | Word::Attr
                | Word::Shared
                | Word::Const
                | Word::Private
                | Word::Readonly
                | Word::Include
                | Word::Stub
                | Word::Invariant
                | Word::Pre
                | Word::Post
        ))
    )
}

/// Whether a token is an `is` after what may be the name, the arguments and the result of a feature.
fn begins_body(tokens: TokenView<'_>, word: usize) -> bool {
    if !tokens.is_word(word, Word::Is) {
        return false;
    }
    let mut depth = 0usize;
    for back in 0..word {
        let at = word - 1 - back;
        let kind = tokens.kind(at);
        if is_closing(kind) {
            depth = depth.saturating_add(1);
        } else if depth > 0 {
            if is_opening(kind) {
                depth -= 1;
            }
        } else if tokens.is_sign(at, Sign::Semicolon) {
            return true;
        } else if !is_of_header(kind) {
            return false;
        }
    }
    false
}

/// Whether a token is in the header of a feature, outside of brackets.
fn is_of_header(kind: Option<&TokenKind>) -> bool {
    match kind {
        Some(TokenKind::Sign(sign)) => *sign == Sign::Colon,
        Some(TokenKind::Word(word)) => matches!(word, Word::Same | Word::Private),
        Some(_) => true,
        None => false,
    }
}

/// A word that belongs to a statement which isn't the innermost open one.
fn stray_word(
    scene: SourceContext<'_>,
    open: OpenBlock,
    said: &mut Message,
) -> Result<(), AllocError> {
    let Some(TokenKind::Word(word)) = scene.tokens.kind(scene.at) else {
        return Ok(());
    };
    let belongs = match word {
        Word::Elsif => "an `if`",
        Word::Else => "an `if`, a `case`, a `typecase` or a `protect`",
        Word::When => "a `case`, a `typecase` or a `protect`",
        _ => return Ok(()),
    };
    if !ends_value(scene.tokens.kind_back(scene.at, 1))
        && !scene.tokens.is_sign_back(scene.at, 1, Sign::Semicolon)
    {
        return Ok(());
    }
    said.say(&[
        MessagePart::Code(scene.name()),
        MessagePart::Words(" belongs to "),
        MessagePart::Words(belongs),
        MessagePart::Words(", and what is open here is "),
        MessagePart::Code(scene.tokens.bytes(open.named)),
        MessagePart::Words(" of line "),
        MessagePart::Number(scene.tokens.line(open.named)),
        MessagePart::Words("."),
    ])?;
    said.say_words("Look for an `end` too many or too few before it.")
}
