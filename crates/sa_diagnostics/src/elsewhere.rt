//! Signs, statements and declarations of other languages, as the tokens beside the position show them.

use crate::{Message, MessagePart, SourceContext, Span};
use sa_lexer::{Sign, TokenKind, Word};
use std::alloc::AllocError;

/// Signs of other languages that are two signs here: `==`, `+=`, `++`, `<>`, `//`.
pub(crate) fn doubled(scene: SourceContext<'_>, said: &mut Message) -> Result<(), AllocError> {
    two_signs(scene, scene.at.saturating_sub(1), said)?;
    if said.is_silent() {
        two_signs(scene, scene.at, said)?;
    }
    Ok(())
}

/// The sign at a token and the one directly after it.
fn two_signs(scene: SourceContext<'_>, at: usize, said: &mut Message) -> Result<(), AllocError> {
    let tokens = scene.tokens;
    let next = at.saturating_add(1);
    let (Some(TokenKind::Sign(one)), Some(TokenKind::Sign(other))) = (
        tokens.kind(at),
        tokens.kind(next),
    ) else {
        return Ok(());
    };
    if tokens.end(at) != tokens.start(next) {
        return Ok(());
    }
    let Some(words) = of_two_signs(*one, *other) else {
        return Ok(());
    };
    said.mark = Span {
        start: tokens.start(at),
        end: tokens.end(next),
    };
    said.say_words(words.wrong)?;
    said.say_words(words.remedy)
}

/// What two signs mean in other languages.
#[derive(Clone, Copy)]
struct Elsewhere {
    wrong: &'static str,
    remedy: &'static str,
}

fn means(wrong: &'static str, remedy: &'static str) -> Elsewhere {
    Elsewhere { wrong, remedy }
}

fn of_two_signs(one: Sign, other: Sign) -> Option<Elsewhere> {
    Some(match (one, other) {
        (Sign::Equal, Sign::Equal) => means(
            "There is no `==` here: `=` compares, and `:=` assigns.",
            "Write `=`.",
        ),
        (Sign::Plus | Sign::Minus | Sign::Star | Sign::Slash | Sign::Percent, Sign::Equal) => means(
            "No sign computes and assigns in one here.",
            "Write `x := x + 1` for what is `x += 1` elsewhere.",
        ),
        (Sign::Plus, Sign::Plus) => means("There is no `++` here.", "Write `x := x + 1`."),
        (Sign::Less, Sign::Greater) => means("\"Not equal\" is `/=` here.", "Write `/=`."),
        (Sign::Slash, Sign::Slash | Sign::Star) => means(
            "A comment begins by `--` here, and runs to the end of its line.",
            "Write `--`.",
        ),
        (Sign::Equal, Sign::Greater) => means(
            "There is no `=>` here; \"greater or equal\" is `>=`.",
            "Write `>=`.",
        ),
        (Sign::Star, Sign::Star) => means("A power is `a ^ b` here.", "Write `^`."),
        _ => return None,
    })
}

/// Statements and declarations of other languages, by the name before the token.
pub(crate) fn foreign(scene: SourceContext<'_>, said: &mut Message) -> Result<(), AllocError> {
    let tokens = scene.tokens;
    let before = tokens.bytes_back(scene.at, 1);
    if is_type_first(scene) {
        said.say_words("A declaration has the name first, then `:` and the type.")?;
        return said.say(&[
            MessagePart::Words("Write `"),
            MessagePart::Plain(scene.name()),
            MessagePart::Words(":"),
            MessagePart::Plain(before),
            MessagePart::Words("`."),
        ]);
    }
    let Some(remedy) = statement_here(before) else {
        return Ok(());
    };
    said.say(&[
        MessagePart::Code(before),
        MessagePart::Words(" is no word of this language."),
    ])?;
    said.say_words(remedy)
}

/// What to write for a statement of another language.
fn statement_here(word: &[u8]) -> Option<&'static str> {
    Some(match word {
        b"while" => "Write `loop while!(a < b); .. end;`.",
        b"until" | b"repeat" | b"do" => "Write `loop .. until!(a = b); end;`.",
        b"for" | b"foreach" =>
            "Write `loop i ::= 1.upto!(10); .. end;`, or with `a.elt!` for the elements of an array.",
        b"switch" => "Write `case x when 1 then .. else .. end;`.",
        b"var" | b"let" => "Write `x ::= 3;`, or `x:INT;`.",
        b"def" | b"function" | b"func" | b"fn" => "Write `name(x:INT):INT is .. end;`.",
        b"try" => "Write `protect .. when FAULT then .. end;`.",
        b"throw" => "Write `raise x;`.",
        b"print" | b"println" | b"printf" | b"puts" => "Write `#OUT + x;`.",
        b"elseif" | b"elif" | b"elsewhen" => "Write `elsif`.",
        b"otherwise" | b"default" => "Write `else`.",
        b"begin" => "Take it away: `is`, `then` and `loop` begin what an `end` closes.",
        b"not" => "Write `~` for \"not\".",
        b"import" | b"using" => "Name the files of a program one after the other in the command.",
        _ => return None,
    })
}

/// Whether a statement begins with a type and a name in one line, as a declaration does in other languages.
fn is_type_first(scene: SourceContext<'_>) -> bool {
    let tokens = scene.tokens;
    let ty = scene.at.saturating_sub(1);
    tokens.is_class_name(ty)
        && tokens.is_lower(scene.at)
        && !tokens.has_line_feed(ty, scene.at)
        && (tokens.is_sign_back(ty, 1, Sign::Semicolon)
            || tokens.is_word_back(ty, 1, Word::Is)
            || tokens.is_word_back(ty, 1, Word::Loop)
            || tokens.is_word_back(ty, 1, Word::Then))
}
