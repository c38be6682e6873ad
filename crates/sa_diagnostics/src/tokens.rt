//! The tokens of a text by their indices. An index past the last token is no fault: there is no token then.

use crate::table::line_in;
use sa_lexer::{Sign, Token, TokenKind, Word};

/// The tokens of a text, and the text.
#[derive(Clone, Copy)]
pub struct TokenView<'a> {
    pub list: &'a [Token],
    pub src: &'a [u8],
}

impl<'a> TokenView<'a> {
    /// The kind of the token with an index, or none where there is no such token.
    pub fn kind(self, at: usize) -> Option<&'a TokenKind> {
        match self.list.get(at) {
            Some(token) => Some(&token.kind),
            None => None,
        }
    }

    /// The kind of the token that is `by` tokens before an index.
    pub fn kind_back(self, at: usize, by: usize) -> Option<&'a TokenKind> {
        self.kind(at.checked_sub(by)?)
    }

    /// Whether the token with an index is this sign.
    pub fn is_sign(self, at: usize, sign: Sign) -> bool {
        is_sign(self.kind(at), sign)
    }

    /// Whether the token with an index is this word of the language.
    pub fn is_word(self, at: usize, word: Word) -> bool {
        is_word(self.kind(at), word)
    }

    /// Whether the token that is `by` tokens before an index is this sign.
    pub fn is_sign_back(self, at: usize, by: usize, sign: Sign) -> bool {
        is_sign(self.kind_back(at, by), sign)
    }

    /// Whether the token that is `by` tokens before an index is this word of the language.
    pub fn is_word_back(self, at: usize, by: usize, word: Word) -> bool {
        is_word(self.kind_back(at, by), word)
    }

    /// Whether the token with an index is a name of a routine or a variable.
    pub fn is_lower(self, at: usize) -> bool {
        matches!(self.kind(at), Some(TokenKind::Lower))
    }

    /// Whether the token with an index is a name of a class that isn't abstract.
    pub fn is_class_name(self, at: usize) -> bool {
        matches!(self.kind(at), Some(TokenKind::ClassName))
    }

    /// Whether the token with an index is a name of a routine, a variable or an iter.
    pub fn is_feature_name(self, at: usize) -> bool {
        matches!(self.kind(at), Some(TokenKind::Lower | TokenKind::IterName))
    }

    /// The position at which the token begins, or the end of the text where there is no such token.
    pub fn start(self, at: usize) -> usize {
        match self.list.get(at) {
            Some(token) => token.start as usize,
            None => self.src.len(),
        }
    }

    /// The position after the token, or the end of the text where there is no such token.
    pub fn end(self, at: usize) -> usize {
        match self.list.get(at) {
            Some(token) => token.end as usize,
            None => self.src.len(),
        }
    }

    /// The bytes of the token, none where there is no such token.
    pub fn bytes(self, at: usize) -> &'a [u8] {
        let start = self.start(at);
        let end = self.end(at);
        if start <= end && end <= self.src.len() {
            return &self.src[start..end];
        }
        &[]
    }

    /// The bytes of the token that is `by` tokens before an index.
    pub fn bytes_back(self, at: usize, by: usize) -> &'a [u8] {
        match at.checked_sub(by) {
            Some(at) => self.bytes(at),
            None => &[],
        }
    }

    /// Whether the bytes of the token are this text.
    pub fn spells(self, at: usize, text: &str) -> bool {
        self.bytes(at) == text.as_bytes()
    }

    /// The number of the line, from 1, that a position of the text is in.
    pub fn line_at(self, place: usize) -> usize {
        line_in(self.src, place)
    }

    /// The number of the line, from 1, in which the token begins.
    pub fn line(self, at: usize) -> usize {
        self.line_at(self.start(at))
    }

    /// Whether a line ends between the end of one token and the beginning of the other.
    pub fn has_line_feed(self, one: usize, other: usize) -> bool {
        let from = self.end(one);
        let to = self.start(other);
        from <= to && to <= self.src.len() && self.src[from..to].contains(&b'\n')
    }

    /// The index of the first token that ends after a position of the text, or the number of tokens where none does.
    pub fn number_at(self, place: usize) -> usize {
        self.list
            .iter()
            .take_while(|token| token.end as usize <= place)
            .count()
    }

    /// The index of the token after the bracket that closes the one with an index, or none where it isn't closed.
    pub fn after_bracket(self, open: usize) -> Option<usize> {
        let mut depth = 0usize;
        for at in open..self.list.len() {
            if is_opening(self.kind(at)) {
                depth = depth.saturating_add(1);
            } else if is_closing(self.kind(at)) {
                depth = depth.saturating_sub(1);
            }
            if depth == 0 {
                return Some(at.saturating_add(1));
            }
        }
        None
    }

    /// The index of the bracket that the one with an index closes, or none where none is open there.
    pub fn opening_of(self, close: usize) -> Option<usize> {
        let mut depth = 0usize;
        for back in 0..close {
            let at = close - back;
            if is_closing(self.kind(at)) {
                depth = depth.saturating_add(1);
            } else if is_opening(self.kind(at)) {
                depth = depth.saturating_sub(1);
            }
            if depth == 0 {
                return Some(at);
            }
        }
        None
    }
}

pub(crate) fn is_sign(kind: Option<&TokenKind>, sign: Sign) -> bool {
    matches!(kind, Some(TokenKind::Sign(there)) if *there == sign)
}

pub(crate) fn is_word(kind: Option<&TokenKind>, word: Word) -> bool {
    matches!(kind, Some(TokenKind::Word(there)) if *there == word)
}

/// Whether the token is `(`, `[` or `{`.
pub fn is_opening(kind: Option<&TokenKind>) -> bool {
    matches!(
        kind,
        Some(TokenKind::Sign(Sign::LeftParen | Sign::LeftBracket | Sign::LeftBrace))
    )
}

/// Whether the token is `)`, `]` or `}`.
pub fn is_closing(kind: Option<&TokenKind>) -> bool {
    matches!(
        kind,
        Some(TokenKind::Sign(Sign::RightParen | Sign::RightBracket | Sign::RightBrace))
    )
}

/// Whether the token opens a part of a source that an `end` closes.
pub fn is_block(kind: Option<&TokenKind>) -> bool {
    matches!(
        kind,
        Some(TokenKind::Word(
            Word::Is | Word::If | Word::Loop | Word::Case | Word::Typecase | Word::Protect
        ))
    )
}

/// Whether a value, a type or a statement may end with the token.
pub fn ends_value(kind: Option<&TokenKind>) -> bool {
    match kind {
        Some(TokenKind::Word(word)) => matches!(
            word,
            Word::End
                | Word::SelfWord
                | Word::True
                | Word::False
                | Word::Void
                | Word::New
                | Word::Exception
                | Word::Same
                | Word::Quit
                | Word::Result
        ),
        Some(TokenKind::Sign(sign)) => matches!(
            sign,
            Sign::RightParen | Sign::RightBracket | Sign::RightBrace
        ),
        Some(_) => true,
        None => false,
    }
}

/// Whether a statement may begin with the token, and nothing that continues a statement does.
pub fn begins_statement(kind: Option<&TokenKind>) -> bool {
    match kind {
        Some(TokenKind::Word(word)) => matches!(
            word,
            Word::If
                | Word::Loop
                | Word::Case
                | Word::Typecase
                | Word::Protect
                | Word::Return
                | Word::Yield
                | Word::Quit
                | Word::Raise
                | Word::Assert
                | Word::SelfWord
        ),
        Some(TokenKind::Sign(sign)) => *sign == Sign::Hash,
        Some(TokenKind::Lower | TokenKind::IterName) => true,
        _ => false,
    }
}
