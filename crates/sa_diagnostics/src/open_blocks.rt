//! What is open at a position of a source: classes, bodies, statements and brackets that no `end` and no bracket has closed yet.

use crate::tokens::{TokenView, is_block, is_closing, is_opening, is_word};
use sa_lexer::{Sign, Word};
use std::alloc::{AllocError, Global};

/// A class, body, statement or bracket that is open, by the index of the token that opened it.
#[derive(Clone, Copy)]
pub struct OpenBlock {
    pub at: usize,
    /// The index of the name of the class or of the feature where an `is` opened it, and otherwise that of the token itself.
    pub named: usize,
}

/// What is open, from the outermost to the innermost.
#[derive(Drop)]
pub struct OpenBlocks {
    pub list: Vec<OpenBlock>,
    /// The index of the last name at which a class or a feature may have begun.
    header: usize,
    /// The last `end` that closed a class, and the name of that class.
    pub closed: Option<ClosedBlock>,
    /// The first `end` that isn't indented like what it closes.
    pub crooked: Option<ClosedBlock>,
}

/// An `end`, and what it closes.
#[derive(Clone, Copy)]
pub struct ClosedBlock {
    pub end: usize,
    pub open: OpenBlock,
}

/// What is open before the token with an index.
///
/// # Errors
///
/// `AllocError` where memory runs out.
pub fn open_blocks_before(
    alloc: Global,
    tokens: TokenView<'_>,
    before: usize,
) -> Result<OpenBlocks, AllocError> {
    let mut opened = OpenBlocks {
        list: Vec::new(alloc),
        header: 0,
        closed: None,
        crooked: None,
    };
    for at in 0..before {
        opened.go_over(tokens, at)?;
    }
    Ok(opened)
}

impl OpenBlocks {
    /// The innermost of what is open, or none.
    pub fn innermost(&self) -> Option<OpenBlock> {
        self.list.last().copied()
    }

    /// The open body of the feature that a position is in, or none.
    pub fn feature(&self, tokens: TokenView<'_>) -> Option<OpenBlock> {
        let open = self.list.get(1).copied()?;
        if tokens.is_word(open.at, Word::Is) {
            Some(open)
        } else {
            None
        }
    }

    fn go_over(&mut self, tokens: TokenView<'_>, at: usize) -> Result<(), AllocError> {
        let kind = tokens.kind(at);
        if is_word(kind, Word::End) {
            self.close_block(tokens, at);
        } else if is_closing(kind) {
            self.close_bracket(tokens);
        } else if is_block(kind) || is_opening(kind) {
            let named = if is_word(kind, Word::Is) {
                self.header
            } else {
                at
            };
            self.list.push(OpenBlock { at, named })?;
        } else if self.begins_header(tokens, at) {
            self.header = at;
        }
        Ok(())
    }

    /// Whether the name of a class or of a feature may be here.
    fn begins_header(&self, tokens: TokenView<'_>, at: usize) -> bool {
        match self.list.len() {
            0 => tokens.is_word_back(at, 1, Word::Class),
            1 => begins_feature(tokens, at),
            _ => false,
        }
    }

    fn close_block(&mut self, tokens: TokenView<'_>, end: usize) {
        let Some(open) = self.list.pop() else {
            return;
        };
        let closed = ClosedBlock { end, open };
        if self.list.is_empty() {
            self.closed = Some(closed);
        }
        if self.crooked.is_none() && is_crooked(tokens, end, open) {
            self.crooked = Some(closed);
        }
    }

    fn close_bracket(&mut self, tokens: TokenView<'_>) {
        if let Some(open) = self.innermost()
            && is_opening(tokens.kind(open.at))
        {
            let _open = self.list.pop();
        }
    }
}

/// Whether the name of a feature, or an invariant, may be here inside a class.
fn begins_feature(tokens: TokenView<'_>, at: usize) -> bool {
    if tokens.is_word(at, Word::Invariant) {
        return true;
    }
    tokens.is_feature_name(at)
        && (tokens.is_sign_back(at, 1, Sign::Semicolon)
            || tokens.is_word_back(at, 1, Word::Is)
            || tokens.is_word_back(at, 1, Word::Private))
}

/// Whether an `end` begins its line, and what it closes began in an earlier line that is indented otherwise.
fn is_crooked(tokens: TokenView<'_>, end: usize, open: OpenBlock) -> bool {
    let from = tokens.start(open.named);
    let to = tokens.start(end);
    let own = indent_of(front(tokens.src, to));
    let other = indent_of(front(tokens.src, from));
    own.is_all && own.width != other.width && has_line_feed(tokens.src, from, to)
}

/// The bytes before a position.
fn front(text: &[u8], place: usize) -> &[u8] {
    if place <= text.len() {
        &text[..place]
    } else {
        text
    }
}

fn has_line_feed(text: &[u8], from: usize, to: usize) -> bool {
    from <= to && to <= text.len() && text[from..to].contains(&b'\n')
}

/// The indentation of the last line of a text.
#[derive(Clone, Copy)]
struct Indent {
    width: usize,
    /// Whether nothing else is in the line.
    is_all: bool,
}

/// The indentation of the last line of a text.
fn indent_of(text: &[u8]) -> Indent {
    let mut width = 0usize;
    let mut is_all = true;
    for byte in text.iter().rev() {
        if *byte == b'\n' {
            break;
        }
        if is_indent(*byte) {
            width = width.saturating_add(1);
        } else {
            width = 0;
            is_all = false;
        }
    }
    Indent { width, is_all }
}

fn is_indent(byte: u8) -> bool {
    byte == b' ' || byte == b'\t'
}

/// Whether a token is the word `if` directly after an `else`.
pub(crate) fn is_else_if(tokens: TokenView<'_>, at: usize) -> bool {
    tokens.is_word(at, Word::If) && tokens.is_word_back(at, 1, Word::Else)
}

/// The last `if` directly after an `else` between two tokens, or none.
pub fn last_else_if(tokens: TokenView<'_>, from: usize, to: usize) -> Option<usize> {
    let mut found = None;
    for at in from..to {
        if is_else_if(tokens, at) {
            found = Some(at);
        }
    }
    found
}
