//! The tokens of a file together with its text.

ghost use Rattle.std.specs.Prelude.{◌≡◌, ◌+◌, ◌<◌, ◌↔◌, ◌⊎◌, ◌≢◌, All, IfErr, IfOk, IsTrue, OnSome, Some, length};
ghost use Rattle.std.specs.Option.{option_copied};
ghost use Rattle.std.specs.Bool.{OnTrue};
ghost use Rattle.sa_lexer.specs.Token.{IsWithin};
ghost use Rattle.sa_lexer.specs.declared.token.TokenKind.TheVariants as token;
ghost use Rattle.sa_parser_expr.specs.Positions.{IsUnexpected, bytes_at, kind_at, start_at, unexpected_at};

use sa_ast::{Name, Pos, Rejection, Rule};
use sa_lexer::{Sign, Token, TokenKind, Word, slice_of};
use std::alloc::{AllocError, Global};

/// A file's tokens with its text. An index of the tokens counts from 0; each index past the last token is the end of the file, where
/// there is no token.
#[derive(Clone, Copy)]
pub struct Tokens<'a> {
    pub list: &'a [Token],
    pub src: &'a [u8],
    /// The index of the file, for positions.
    pub file: u32,
    pub ghost within: { All (IsWithin src.now) list.now },
    pub ghost few: { length list.now < 4294967295 },
    pub ghost short: { length src.now < 4294967295 },
}

impl Tokens<'_> {
    /// The kind of the token at an index, and `None` at the end of the file.
    #[tactic(auto, unfolding(crate::specs::Positions::kind_at))]
    pub fn kind(&self, at: u32) -> Option<&TokenKind>
        ensures value { option_copied result ≡ kind_at self.now.list.now at }
        ensures within { OnSome result (at < length self.now.list.now) }
    {
        match self.list.get(at as usize) {
            Some(token) => Some(&token.kind),
            None => None,
        }
    }

    /// Whether this sign is there.
    pub fn is_sign(&self, at: u32, sign: Sign) -> bool
        ensures value { IsTrue result ↔ (kind_at self.now.list.now at ≡ Some (token.Sign sign)) }
        ensures within { OnTrue result (at < length self.now.list.now) }
    {
        matches!(self.kind(at), Some(TokenKind::Sign(there)) if *there == sign)
    }

    /// Whether this word is there.
    pub fn is_word(&self, at: u32, word: Word) -> bool
        ensures value { IsTrue result ↔ (kind_at self.now.list.now at ≡ Some (token.Word word)) }
        ensures within { OnTrue result (at < length self.now.list.now) }
    {
        matches!(self.kind(at), Some(TokenKind::Word(there)) if *there == word)
    }

    /// Whether a lower name is there, which no `!` follows.
    pub fn is_lower(&self, at: u32) -> bool
        ensures value { IsTrue result ↔ (kind_at self.now.list.now at ≡ Some token.Lower) }
        ensures within { OnTrue result (at < length self.now.list.now) }
    {
        matches!(self.kind(at), Some(TokenKind::Lower))
    }

    /// Whether the name of a feature is there: a lower name or the name of an iter.
    pub fn is_feature_name(&self, at: u32) -> bool
        ensures value { IsTrue result
            ↔ ((kind_at self.now.list.now at ≡ Some token.Lower) ⊎ (kind_at self.now.list.now at ≡ Some token.IterName)) }
        ensures within { OnTrue result (at < length self.now.list.now) }
    {
        matches!(self.kind(at), Some(TokenKind::Lower | TokenKind::IterName))
    }

    /// The position of the token's first byte. That of the end of the file is after the last byte of the text.
    #[tactic(auto, unfolding(crate::specs::Positions::start_at))]
    pub fn pos(&self, at: u32) -> Pos
        ensures { result ≡ record { file = self.now.file; at = start_at self.now.src.now self.now.list.now at } }
    {
        let place = match self.list.get(at as usize) {
            Some(token) => token.start,
            None => self.src.len() as u32,
        };
        Pos {
            file: self.file,
            at: place,
        }
    }

    /// The bytes of the token, and no bytes at the end of the file.
    #[tactic(auto, unfolding(crate::specs::Positions::bytes_at))]
    pub fn bytes(&self, at: u32) -> &[u8]
        ensures { result.now ≡ bytes_at self.now.src.now self.now.list.now at }
    {
        match self.list.get(at as usize) {
            Some(token) => slice_of(self.src, token),
            None => &[],
        }
    }

    /// The bytes of the token as a name. It fails only where memory runs out.
    pub fn name(&self, alloc: Global, at: u32) -> Result<Name, AllocError>
        ensures { IfOk result (λ name. name ≡ bytes_at self.now.src.now self.now.list.now at) }
    {
        Name::from_slice(alloc, self.bytes(at))
    }

    /// E06 at the token, or at the end of the file.
    pub fn unexpected(&self, at: u32) -> Rejection
        ensures value { result ≡ unexpected_at self.now.file self.now.src.now self.now.list.now at }
        ensures unexpected { IsUnexpected self.now.file result }
    {
        Rejection::Refused(Rule::UnexpectedToken.at(self.pos(at)))
    }

    /// The index after this sign, or E06 where another token is, or none.
    pub fn after_sign(&self, at: u32, sign: Sign) -> Result<u32, Rejection>
        ensures next { IfOk result (λ next. (next ≡ at + 1) × (at < length self.now.list.now)) }
        ensures sign { IfOk result (λ _. kind_at self.now.list.now at ≡ Some (token.Sign sign)) }
        ensures another { IfErr result (λ _. kind_at self.now.list.now at ≢ Some (token.Sign sign)) }
        ensures fault { IfErr result (λ fault. fault ≡ unexpected_at self.now.file self.now.src.now self.now.list.now at) }
        ensures refused { IfErr result (IsUnexpected self.now.file) }
    {
        if self.is_sign(at, sign) {
            Ok(at + 1)
        } else {
            Err(self.unexpected(at))
        }
    }

    /// The index after this word, or E06 where another token is, or none.
    pub fn after_word(&self, at: u32, word: Word) -> Result<u32, Rejection>
        ensures next { IfOk result (λ next. (next ≡ at + 1) × (at < length self.now.list.now)) }
        ensures word { IfOk result (λ _. kind_at self.now.list.now at ≡ Some (token.Word word)) }
        ensures another { IfErr result (λ _. kind_at self.now.list.now at ≢ Some (token.Word word)) }
        ensures fault { IfErr result (λ fault. fault ≡ unexpected_at self.now.file self.now.src.now self.now.list.now at) }
        ensures refused { IfErr result (IsUnexpected self.now.file) }
    {
        if self.is_word(at, word) {
            Ok(at + 1)
        } else {
            Err(self.unexpected(at))
        }
    }
}
