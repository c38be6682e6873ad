//! Forms of older Sather, and slips that one form of this language suggests for another one.

use crate::{Message, MessagePart, SourceContext, TokenView, ends_value};
use sa_lexer::{Sign, TokenKind, Word};
use std::alloc::AllocError;

/// What is wrong, and what to write.
#[derive(Clone, Copy)]
struct Meant {
    wrong: &'static str,
    remedy: &'static str,
}

fn found(wrong: &'static str, remedy: &'static str) -> Option<Meant> {
    Some(Meant { wrong, remedy })
}

/// Says which form is meant at the token, where it and the tokens beside it show one.
pub(crate) fn slip(scene: SourceContext<'_>, said: &mut Message) -> Result<(), AllocError> {
    let tokens = scene.tokens;
    if let Some(slip) = slip_at(scene) {
        said.say_words(slip.wrong)?;
        return said.say_words(slip.remedy);
    }
    if let Some(name) = named_like_class(tokens, scene.at) {
        return class_for_variable(tokens.bytes(name), said);
    }
    if tokens.is_word_back(scene.at, 1, Word::New) && tokens.is_class_name(scene.at) {
        return object_of(scene.name(), said);
    }
    let is_called = tokens.is_sign_back(scene.at, 1, Sign::DoubleColon)
        && tokens.is_class_name(scene.at.saturating_sub(2));
    if tokens.is_word(scene.at, Word::New) && is_called {
        return object_of(tokens.bytes_back(scene.at, 2), said);
    }
    Ok(())
}

/// The slip at the token, of those that no name shows.
fn slip_at(scene: SourceContext<'_>) -> Option<Meant> {
    let tokens = scene.tokens;
    let at = scene.at;
    if let Some(slip) = of_class(tokens, at) {
        return Some(slip);
    }
    if let Some(slip) = of_header(scene) {
        return Some(slip);
    }
    if let Some(slip) = of_statement(tokens, at) {
        return Some(slip);
    }
    if let Some(slip) = of_output(tokens, at) {
        return Some(slip);
    }
    of_expression(tokens, at)
}

/// The words of classes in Sather 1.0, and a header without its `is`.
fn of_class(tokens: TokenView<'_>, at: usize) -> Option<Meant> {
    let next = at.saturating_add(1);
    if tokens.spells(at, "value") && tokens.is_word(next, Word::Class) {
        return found(
            "A `value class` of Sather 1.0 is an immutable class here.",
            "Write `immutable class`.",
        );
    }
    if tokens.spells(at, "type") && matches!(tokens.kind(next), Some(TokenKind::AbstractName)) {
        return found(
            "A `type` of Sather 1.0 is an abstract class here.",
            "Write `abstract class`.",
        );
    }
    if tokens.is_word_back(at, 2, Word::Class) && begins_feature(tokens.kind(at)) {
        return found(
            "The header of the class has no `is` at its end.",
            "Write `is` behind the name of the class.",
        );
    }
    None
}

/// Whether a feature of a class begins with the token.
fn begins_feature(kind: Option<&TokenKind>) -> bool {
    matches!(
        kind,
        Some(
            TokenKind::Lower
                | TokenKind::IterName
                | TokenKind::Word(
                    Word::Attr
                        | Word::Shared
                        | Word::Const
                        | Word::Private
                        | Word::Readonly
                        | Word::Include
                        | Word::Stub
                )
        )
    )
}

/// A mode before each of several names, and `once` in a routine; braces without a type.
fn of_header(scene: SourceContext<'_>) -> Option<Meant> {
    let tokens = scene.tokens;
    let at = scene.at;
    let is_header = scene.feature_name().is_none();
    if is_header
        && is_mode(tokens.kind(at))
        && tokens.is_sign_back(at, 1, Sign::Comma)
        && tokens.is_lower(at.saturating_sub(2))
    {
        return found(
            "A mode stands before the first of several names, and is that of all up to their type.",
            "Write it once, as `inout a, b:INT`, or give each name its type.",
        );
    }
    if is_header && tokens.is_word(at, Word::Once) {
        return found(
            "`once` marks arguments of iters alone, whose names end in `!`: those of a routine are evaluated once in any case.",
            "Take it away.",
        );
    }
    let is_empty = tokens.is_sign(at, Sign::RightBrace)
        && tokens.is_sign_back(at, 1, Sign::LeftBrace);
    if is_empty
        && (tokens.is_word_back(at, 2, Word::Rout) || tokens.is_word_back(at, 2, Word::Iter))
    {
        return found(
            "Between braces stands at least one type.",
            "Take the braces away.",
        );
    }
    if is_empty {
        return found(
            "Between braces stands at least one type.",
            "Write the type between them, as `{INT}`.",
        );
    }
    None
}

/// `in`, `out`, `inout` or `once`
fn is_mode(kind: Option<&TokenKind>) -> bool {
    matches!(
        kind,
        Some(TokenKind::Word(Word::In | Word::Out | Word::Inout | Word::Once))
    )
}

/// What a statement begins or ends with.
fn of_statement(tokens: TokenView<'_>, at: usize) -> Option<Meant> {
    let goes_on = tokens.is_sign(at, Sign::Dot)
        || tokens.is_sign(at, Sign::LeftParen)
        || tokens.is_sign(at, Sign::LeftBracket);
    if tokens.is_word_back(at, 1, Word::Typecase)
        || (tokens.is_word_back(at, 2, Word::Typecase) && goes_on)
    {
        return found(
            "A `typecase` tests a variable, and no other expression.",
            "Put the value into one first, `x ::= ..;`, and test `x`.",
        );
    }
    let is_condition = tokens.is_word_back(at, 2, Word::If)
        || tokens.is_word_back(at, 2, Word::Elsif);
    if is_condition && tokens.is_sign(at, Sign::Assign) {
        return found(
            "`:=` assigns, and a condition compares by `=`.",
            "Write `=`.",
        );
    }
    let is_repeated = matches!(
        tokens.kind(at),
        Some(TokenKind::Word(Word::If | Word::Loop | Word::Case | Word::Typecase | Word::Protect))
    );
    if is_repeated
        && tokens.is_word_back(at, 1, Word::End)
        && tokens.is_sign(at.saturating_add(1), Sign::Semicolon)
    {
        return found("`end` stands alone, whatever it closes.", "Write `end;`.");
    }
    None
}

/// `#OUT x` and `OUT + x`
fn of_output(tokens: TokenView<'_>, at: usize) -> Option<Meant> {
    if tokens.bytes_back(at, 1) != b"OUT".as_slice() {
        return None;
    }
    let is_value = !matches!(
        tokens.kind(at),
        Some(TokenKind::Sign(_) | TokenKind::Word(_)) | None
    );
    if is_value && tokens.is_sign_back(at, 2, Sign::Hash) {
        return found(
            "`#OUT` makes the object that writes, and `+` hands it what is to be written.",
            "Write `#OUT + x`.",
        );
    }
    if tokens.is_sign(at, Sign::Plus) {
        return found(
            "`OUT` is a class, and `#OUT` makes the object of it that writes.",
            "Write `#OUT + x`.",
        );
    }
    None
}

/// An array literal in another one or without elements, `||`, and a bound call whose receiver is left open.
fn of_expression(tokens: TokenView<'_>, at: usize) -> Option<Meant> {
    let next = at.saturating_add(1);
    if tokens.is_sign(at, Sign::Bar) && tokens.is_sign_back(at, 1, Sign::Bar) {
        return of_bars(tokens.kind(next));
    }
    if tokens.is_sign(at, Sign::Bar)
        && tokens.is_sign(next, Sign::Bar)
        && ends_value(tokens.kind_back(at, 1))
    {
        return found("`||` is the word `or` here.", "Write `or`.");
    }
    if tokens.is_sign(at, Sign::Underscore)
        && tokens.is_sign_back(at, 1, Sign::LeftParen)
        && tokens.is_word_back(at, 2, Word::Bind)
    {
        return found(
            "What a bound routine or iter is called on isn't left open.",
            "Write a routine around the call that takes it as an argument, and bind that.",
        );
    }
    None
}

/// Two `|` where an array literal begins, by the token after them.
fn of_bars(following: Option<&TokenKind>) -> Option<Meant> {
    let is_empty = match following {
        Some(TokenKind::Sign(sign)) => matches!(
            sign,
            Sign::Semicolon | Sign::Comma | Sign::RightParen | Sign::RightBracket
        ),
        Some(TokenKind::Word(word)) => *word == Word::End,
        Some(_) => false,
        None => true,
    };
    if is_empty {
        return found(
            "An array literal has at least one element.",
            "Write `#ARRAY{INT}(0)` for an array without elements.",
        );
    }
    found(
        "An array literal directly inside another one stands in parentheses.",
        "Write `|(|1, 2|), (|3, 4|)|`.",
    )
}

/// The name in capitals at a token, or before it, that is declared or assigned like that of a variable.
fn named_like_class(tokens: TokenView<'_>, at: usize) -> Option<usize> {
    let is_held = matches!(
        tokens.kind_back(at, 1),
        Some(TokenKind::Word(Word::Attr | Word::Shared | Word::Const))
    );
    if is_held && tokens.is_class_name(at) {
        return Some(at);
    }
    let declares = tokens.is_sign(at, Sign::Declare)
        || tokens.is_sign(at, Sign::Assign)
        || tokens.is_sign(at, Sign::Colon);
    let begins = matches!(
        tokens.kind_back(at, 2),
        Some(
            TokenKind::Sign(Sign::Semicolon)
                | TokenKind::Word(Word::Is | Word::Loop | Word::Then | Word::Else)
        )
    );
    let name = at.checked_sub(1)?;
    (declares && begins && tokens.is_class_name(name)).then_some(name)
}

fn class_for_variable(name: &[u8], said: &mut Message) -> Result<(), AllocError> {
    said.say(&[
        MessagePart::Code(name),
        MessagePart::Words(
            " is in capitals, as the names of classes are; that of a variable or a routine has a small letter.",
        ),
    ])?;
    said.say_words("Write the name in small letters.")
}

/// `new C` and `C::new`
fn object_of(class: &[u8], said: &mut Message) -> Result<(), AllocError> {
    said.say_words(
        "`new` makes an object of the class that it stands in, and names none; elsewhere `#` calls the routine `create` of a class.",
    )?;
    said.say(&[
        MessagePart::Words("Write `new` in "),
        MessagePart::Plain(class),
        MessagePart::Words(" itself, and `#"),
        MessagePart::Plain(class),
        MessagePart::Words("` elsewhere."),
    ])
}
