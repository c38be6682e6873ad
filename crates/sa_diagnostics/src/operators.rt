//! Operators whose operands lack the routine that they call (E30), or have none that fits (E31).

use crate::calls::begins_list;
use crate::values::{operand_before, value_at};
use crate::{Message, MessagePart, SourceContext, TokenView, is_closing, is_opening};
use sa_lexer::{Sign, TokenKind, Word};
use std::alloc::AllocError;

/// The routine that an operator of two operands calls on the left one.
fn called(sign: Sign) -> Option<&'static str> {
    Some(match sign {
        Sign::Plus => "plus",
        Sign::Minus => "minus",
        Sign::Star => "times",
        Sign::Slash => "div",
        Sign::Caret => "pow",
        Sign::Percent => "mod",
        Sign::Equal => "is_eq",
        Sign::Less => "is_lt",
        _ => return None,
    })
}

/// What an operator calls, where it isn't one routine of the left operand.
fn called_in_turn(sign: Sign) -> Option<&'static str> {
    Some(match sign {
        Sign::NotEqual =>
            "`/=` calls `is_neq`, or else `is_eq`, of its left operand, which has neither.",
        Sign::Greater =>
            "`a > b` calls `is_gt` of `a`, or else `is_lt` of `b`, and neither is there.",
        Sign::LessEqual =>
            "`a <= b` calls `is_leq` of `a`, or else `is_lt` of `b`, and neither is there.",
        Sign::GreaterEqual =>
            "`>=` calls `is_geq`, or else `is_lt`, of its left operand, which has neither.",
        Sign::Tilde => "`~` calls `not`, which BOOL has.",
        _ => return None,
    })
}

/// Says which routine an operator calls that doesn't exist.
pub(crate) fn unknown_operator(
    scene: SourceContext<'_>,
    sign: Sign,
    said: &mut Message,
) -> Result<(), AllocError> {
    if takes_output(scene, sign) {
        return behind_output(scene, said);
    }
    if compares_void(scene) {
        return about_void(scene, sign, said);
    }
    if let Some(sentence) = called_in_turn(sign) {
        said.say_words(sentence)?;
        return said.say_words(equality_or(sign));
    }
    if is_prefix(scene.tokens, scene.at) {
        return Ok(());
    }
    let Some(name) = called(sign) else {
        return Ok(());
    };
    lacks(scene, name.as_bytes(), said)?;
    said.say_words(equality_or(sign))
}

/// An operator whose left operand is all of the statement from its `#OUT` on.
fn behind_output(scene: SourceContext<'_>, said: &mut Message) -> Result<(), AllocError> {
    said.say(&[
        MessagePart::Code(scene.name()),
        MessagePart::Words(" has all that stands before it, from `#OUT` on, on its left."),
    ])?;
    said.say_words("Put what is computed or compared in parentheses, as `#OUT + (a - b)`.")
}

/// Says how to test for `void`, where `=` or `/=` has no type for it.
pub(crate) fn comparison_with_void(
    scene: SourceContext<'_>,
    said: &mut Message,
) -> Result<(), AllocError> {
    match scene.tokens.kind(scene.at) {
        Some(TokenKind::Sign(sign)) if compares_void(scene) => about_void(scene, *sign, said),
        _ => Ok(()),
    }
}

/// Whether the token at the position is `=` or `/=`, and `void` alone is one of its operands.
fn compares_void(scene: SourceContext<'_>) -> bool {
    let tokens = scene.tokens;
    let next = scene.at.saturating_add(1);
    let is_comparison = tokens.is_sign(scene.at, Sign::Equal)
        || tokens.is_sign(scene.at, Sign::NotEqual);
    let is_right = tokens.is_word(next, Word::Void)
        && !tokens.is_sign(next.saturating_add(1), Sign::LeftParen);
    is_comparison && (is_right || tokens.is_word_back(scene.at, 1, Word::Void))
}

/// `x = void`
fn about_void(scene: SourceContext<'_>, sign: Sign, said: &mut Message) -> Result<(), AllocError> {
    said.say(&[
        MessagePart::Code(scene.name()),
        MessagePart::Words(
            " compares two values, and `void` is none: whether `x` is void is asked by `void(x)`.",
        ),
    ])?;
    said.say_words(if sign == Sign::NotEqual {
        "Write `~void(x)`."
    } else {
        "Write `void(x)`."
    })
}

/// Whether the left operand of a sign is all of the statement from its `#OUT` on.
fn takes_output(scene: SourceContext<'_>, sign: Sign) -> bool {
    let is_loose = matches!(
        sign,
        Sign::Minus
            | Sign::Equal
            | Sign::NotEqual
            | Sign::Less
            | Sign::LessEqual
            | Sign::Greater
            | Sign::GreaterEqual
    );
    is_loose && !is_prefix(scene.tokens, scene.at) && follows_output(scene.tokens, scene.at)
}

/// Whether the statement of a token begins with `#OUT`, and no bracket is open at the token.
fn follows_output(tokens: TokenView<'_>, at: usize) -> bool {
    let mut depth = 0usize;
    for back in 0..at {
        let place = at - 1 - back;
        let kind = tokens.kind(place);
        if is_closing(kind) {
            depth = depth.saturating_add(1);
        } else if is_opening(kind) {
            if depth == 0 {
                return false;
            }
            depth = depth.saturating_sub(1);
        } else if depth == 0 && begins_list(kind) {
            let first = place.saturating_add(1);
            return tokens.is_sign(first, Sign::Hash)
                && tokens.spells(first.saturating_add(1), "OUT");
        } else if depth == 0 && parts_operands(kind) {
            return false;
        }
    }
    false
}

/// Whether what follows the token is an operand of its own in a sum or a comparison.
fn parts_operands(kind: Option<&TokenKind>) -> bool {
    matches!(
        kind,
        Some(
            TokenKind::Sign(
                Sign::Equal
                    | Sign::NotEqual
                    | Sign::Less
                    | Sign::LessEqual
                    | Sign::Greater
                    | Sign::GreaterEqual
                    | Sign::Bar
            ) | TokenKind::Word(Word::And | Word::Or)
        )
    )
}

/// What to do where an operator has no routine.
fn equality_or(sign: Sign) -> &'static str {
    match sign {
        Sign::Equal | Sign::NotEqual => {
            "Write `is_eq(o:SAME):BOOL` in the class, or ask by `SYS::ob_eq(a, b)` whether the two are one object."
        }
        Sign::Less | Sign::Greater | Sign::LessEqual | Sign::GreaterEqual => {
            "Write `is_lt(o:SAME):BOOL` in the class."
        }
        _ => "Write the routine in the class, or compute with another value.",
    }
}

/// The left operand has no such routine.
fn lacks<'a>(
    scene: SourceContext<'a>,
    name: &'a [u8],
    said: &mut Message,
) -> Result<(), AllocError> {
    let class = operand_before(scene, scene.at);
    let what = match class {
        Some(class) => MessagePart::Plain(class),
        None => MessagePart::Words("The class of the left operand"),
    };
    said.say(&[
        what,
        MessagePart::Words(" has no routine "),
        MessagePart::Code(name),
        MessagePart::Words(", which "),
        MessagePart::Code(scene.name()),
        MessagePart::Words(" calls."),
    ])
}

/// Whether an operator has no left operand.
fn is_prefix(tokens: TokenView<'_>, at: usize) -> bool {
    match tokens.kind_back(at, 1) {
        Some(TokenKind::Sign(sign)) => !matches!(
            sign,
            Sign::RightParen | Sign::RightBracket | Sign::RightBrace | Sign::Bar
        ),
        Some(TokenKind::Word(word)) => !matches!(
            word,
            Word::SelfWord
                | Word::True
                | Word::False
                | Word::Void
                | Word::New
                | Word::Result
                | Word::Exception
        ),
        Some(_) => false,
        None => true,
    }
}

/// Says why no routine fits that an operator calls.
pub(crate) fn operator_without_fit(
    scene: SourceContext<'_>,
    sign: Sign,
    said: &mut Message,
) -> Result<(), AllocError> {
    if takes_output(scene, sign) {
        return behind_output(scene, said);
    }
    if is_prefix(scene.tokens, scene.at) {
        return Ok(());
    }
    let Some(name) = called(sign) else {
        return Ok(());
    };
    let name = name.as_bytes();
    let right = value_at(scene, scene.at.saturating_add(1));
    let (Some(left), Some(right)) = (operand_before(scene, scene.at), right) else {
        said.say(&[
            MessagePart::Code(scene.name()),
            MessagePart::Words(" calls "),
            MessagePart::Code(name),
            MessagePart::Words(
                " of its left operand with the right one, and none that is there takes it, or gives a value just where one is wanted.",
            ),
        ])?;
        return said.say_words(
            "See which types the operands have; a number becomes a text by `.str`.",
        );
    };
    if left == right.class {
        return Ok(());
    }
    said.say(&[
        MessagePart::Code(scene.name()),
        MessagePart::Words(" calls "),
        MessagePart::Code(name),
        MessagePart::Words(" of "),
        MessagePart::Plain(left),
        MessagePart::Words(" with "),
        MessagePart::Plain(right.class),
        MessagePart::Words(" on its right, and none fits."),
    ])?;
    said.say_words(
        "Make both of one type: the text of a value is `x.str`, and a byte's number `c.int`.",
    )
}
