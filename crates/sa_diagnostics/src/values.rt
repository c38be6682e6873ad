//! What tokens alone show of types: the class of a literal, of a new object, and of a variable that is declared with one. Where they
//! don't show it, no class is given.

use crate::{SourceContext, TokenView, has_parameter, is_block};
use sa_lexer::{Sign, TokenKind, Word};

/// The class of a value, which is its type, and the index of the token after the value.
#[derive(Clone, Copy)]
pub(crate) struct Value<'a> {
    pub class: &'a [u8],
    pub following: usize,
}

/// A class as it is named.
#[derive(Clone, Copy)]
struct Named<'a> {
    class: &'a [u8],
    /// Whether type arguments follow its name, so that the name isn't the type.
    has_types: bool,
}

impl<'a> Named<'a> {
    /// The type, where it is the name alone.
    fn plain(self) -> Option<&'a [u8]> {
        (!self.has_types).then_some(self.class)
    }
}

/// A class as it is named or known, and the index of the token after what shows it.
#[derive(Clone, Copy)]
struct Primary<'a> {
    named: Named<'a>,
    following: usize,
}

/// The value that begins at a token, where it is a literal, a new object or a variable and nothing is done with it.
pub(crate) fn value_at<'a>(scene: SourceContext<'a>, at: usize) -> Option<Value<'a>> {
    let primary = primary_at(scene, at)?;
    if goes_on(scene.tokens.kind(primary.following)) {
        return None;
    }
    Some(Value {
        class: primary.named.plain()?,
        following: primary.following,
    })
}

/// The literal, the new object or the variable at a token.
fn primary_at<'a>(scene: SourceContext<'a>, at: usize) -> Option<Primary<'a>> {
    if scene.tokens.is_lower(at) {
        let place = declaration_before(scene, at)?;
        return Some(Primary {
            named: class_of_declaration(scene, place)?,
            following: at.saturating_add(1),
        });
    }
    made_at(scene, at)
}

/// The literal or the new object at a token.
fn made_at<'a>(scene: SourceContext<'a>, at: usize) -> Option<Primary<'a>> {
    let tokens = scene.tokens;
    if tokens.is_sign(at, Sign::Hash) {
        return object_at(scene, at.saturating_add(1));
    }
    let class: &'a str = match tokens.kind(at)? {
        TokenKind::Int(_) => "INT",
        TokenKind::Char(_) => "CHAR",
        TokenKind::Word(Word::True | Word::False) => "BOOL",
        TokenKind::Text(_) => "STR",
        _ => return None,
    };
    Some(Primary {
        named: Named {
            class: class.as_bytes(),
            has_types: false,
        },
        following: behind_texts(tokens, at),
    })
}

/// The index of the token after a literal, and after the texts that go on with a text.
fn behind_texts(tokens: TokenView<'_>, at: usize) -> usize {
    let from = at.saturating_add(1);
    for following in from..tokens.list.len() {
        if !matches!(tokens.kind(following), Some(TokenKind::Text(_))) {
            return following;
        }
    }
    tokens.list.len()
}

/// The new object whose class is named at a token.
fn object_at<'a>(scene: SourceContext<'a>, name: usize) -> Option<Primary<'a>> {
    let ty = type_at(scene, name)?;
    if scene.tokens.is_sign(ty.following, Sign::LeftParen) {
        return Some(Primary {
            named: ty.named,
            following: scene.tokens.after_bracket(ty.following)?,
        });
    }
    Some(ty)
}

/// The class that is named at a token, with the type arguments after it where it has parameters.
fn type_at<'a>(scene: SourceContext<'a>, at: usize) -> Option<Primary<'a>> {
    let next = at.saturating_add(1);
    if let Some(class) = class_named_at(scene, at) {
        return Some(Primary {
            named: Named {
                class,
                has_types: false,
            },
            following: next,
        });
    }
    let class = scene.table.class(scene.tokens.bytes(at))?;
    if !scene.tokens.is_sign(next, Sign::LeftBrace) {
        return None;
    }
    Some(Primary {
        named: Named {
            class: class.name.name.as_slice(),
            has_types: true,
        },
        following: scene.tokens.after_bracket(next)?,
    })
}

/// The name at a token, where it is that of a class without type parameters, and not that of a type parameter.
pub(crate) fn class_named_at<'a>(scene: SourceContext<'a>, at: usize) -> Option<&'a [u8]> {
    let name = scene.tokens.bytes(at);
    let class = scene.table.class(name)?;
    if !class.params.is_empty() || is_parameter(scene, name) {
        return None;
    }
    Some(class.name.name.as_slice())
}

/// Whether the class that the position is in has a type parameter with this name.
fn is_parameter(scene: SourceContext<'_>, name: &[u8]) -> bool {
    match scene.table.class_at(scene.pos) {
        Some(class) => has_parameter(class, name),
        None => true,
    }
}

/// Whether a value goes on with this token.
fn goes_on(kind: Option<&TokenKind>) -> bool {
    !matches!(
        kind,
        Some(
            TokenKind::Sign(
                Sign::Semicolon | Sign::Comma | Sign::RightParen | Sign::RightBracket | Sign::Bar
            ) | TokenKind::Word(Word::Then | Word::End | Word::Else | Word::Elsif | Word::When)
        )
    )
}

/// Where a variable is declared, and its class where the tokens show it.
#[derive(Clone, Copy)]
pub(crate) struct Declared<'a> {
    pub at: usize,
    pub class: Option<&'a [u8]>,
}

/// The declaration of the variable that is named at a token, with its class where this is its type.
pub(crate) fn declared_before<'a>(scene: SourceContext<'a>, at: usize) -> Option<Declared<'a>> {
    let place = declaration_before(scene, at)?;
    let class = match class_of_declaration(scene, place) {
        Some(named) => named.plain(),
        None => None,
    };
    Some(Declared { at: place, class })
}

/// The index of the last declaration in the feature of the variable that is named at a token, if it is still in scope there.
fn declaration_before(scene: SourceContext<'_>, at: usize) -> Option<usize> {
    let tokens = scene.tokens;
    let name = tokens.bytes(at);
    let mut found = None;
    for place in scene.feature..at.saturating_add(1) {
        if tokens.is_lower(place) && tokens.bytes(place) == name {
            if is_tested(tokens, place) {
                return None;
            }
            if declares(tokens, place) {
                found = Some(place);
            }
        }
    }
    let place = found?;
    is_in_force(tokens, place, at).then_some(place)
}

/// Whether a `typecase` tests the variable at a token, so that its branches see another type.
fn is_tested(tokens: TokenView<'_>, at: usize) -> bool {
    tokens.is_word_back(at, 1, Word::Typecase)
}

/// Whether the name at a token is declared there: `::=` follows, or names between commas and `:`.
pub(crate) fn declares(tokens: TokenView<'_>, at: usize) -> bool {
    let next = at.saturating_add(1);
    tokens.is_sign(next, Sign::Declare) || colon_behind(tokens, at).is_some()
}

/// The index of the `:` after a list of names that goes on from a token.
fn colon_behind(tokens: TokenView<'_>, name: usize) -> Option<usize> {
    for at in name.saturating_add(1)..tokens.list.len() {
        if tokens.is_sign(at, Sign::Colon) {
            return Some(at);
        }
        if !tokens.is_sign(at, Sign::Comma) && !tokens.is_lower(at) {
            return None;
        }
    }
    None
}

/// Whether what is declared at a token is still in scope at a later one: the list of statements around it hasn't ended.
pub(crate) fn is_in_force(tokens: TokenView<'_>, from: usize, to: usize) -> bool {
    let mut depth = 0usize;
    for at in from..to {
        let kind = tokens.kind(at);
        if is_block(kind) {
            depth = depth.saturating_add(1);
        } else if depth == 0 && ends_statements(kind) {
            return false;
        } else if matches!(kind, Some(TokenKind::Word(Word::End))) {
            depth = depth.saturating_sub(1);
        }
    }
    true
}

/// Whether a list of statements ends at a token.
fn ends_statements(kind: Option<&TokenKind>) -> bool {
    matches!(
        kind,
        Some(TokenKind::Word(Word::End | Word::Else | Word::Elsif | Word::When))
    )
}

/// The class of what is declared at a token.
fn class_of_declaration<'a>(scene: SourceContext<'a>, at: usize) -> Option<Named<'a>> {
    let tokens = scene.tokens;
    let next = at.saturating_add(1);
    if tokens.is_sign(next, Sign::Declare) {
        let value = made_at(scene, next.saturating_add(1))?;
        if goes_on(tokens.kind(value.following)) {
            return None;
        }
        return Some(value.named);
    }
    let ty = type_at(scene, colon_behind(tokens, at)?.saturating_add(1))?;
    Some(ty.named)
}

/// The class of the receiver before the `.` at a token, with or without type arguments after its name, where it is a literal, a new
/// object or a variable.
pub(crate) fn receiver_before<'a>(scene: SourceContext<'a>, dot: usize) -> Option<&'a [u8]> {
    let first = first_of_primary(scene.tokens, dot)?;
    if is_part(scene.tokens, first) {
        return None;
    }
    let value = primary_at(scene, first)?;
    if value.following != dot {
        return None;
    }
    Some(value.named.class)
}

/// The class of the whole left operand of the operator at a token, where it is a literal, a new object or a variable.
pub(crate) fn operand_before<'a>(scene: SourceContext<'a>, operator: usize) -> Option<&'a [u8]> {
    let first = first_of_primary(scene.tokens, operator)?;
    if !begins_operand(scene.tokens.kind_back(first, 1)) {
        return None;
    }
    let value = primary_at(scene, first)?;
    if value.following != operator {
        return None;
    }
    value.named.plain()
}

/// Whether an operand begins after this token, and none goes on.
fn begins_operand(kind: Option<&TokenKind>) -> bool {
    matches!(
        kind,
        Some(
            TokenKind::Sign(
                Sign::LeftParen
                    | Sign::LeftBracket
                    | Sign::Comma
                    | Sign::Semicolon
                    | Sign::Assign
                    | Sign::Declare
            ) | TokenKind::Word(
                Word::Return
                    | Word::Yield
                    | Word::If
                    | Word::Elsif
                    | Word::Then
                    | Word::Else
                    | Word::Is
                    | Word::Loop
                    | Word::And
                    | Word::Or
                    | Word::Raise
                    | Word::Assert
            )
        )
    )
}

/// The token with which the primary begins that ends before a token.
fn first_of_primary(tokens: TokenView<'_>, following: usize) -> Option<usize> {
    let mut last = following.checked_sub(1)?;
    for closing in [Sign::RightParen, Sign::RightBrace] {
        if tokens.is_sign(last, closing) {
            last = tokens.opening_of(last)?.checked_sub(1)?;
        }
    }
    if tokens.is_class_name(last) {
        return last.checked_sub(1);
    }
    Some(last)
}

/// Whether the token with an index goes on with what is before it.
fn is_part(tokens: TokenView<'_>, at: usize) -> bool {
    tokens.is_sign_back(at, 1, Sign::Dot)
        || tokens.is_sign_back(at, 1, Sign::DoubleColon)
        || matches!(tokens.kind_back(at, 1), Some(TokenKind::Text(_)))
}
