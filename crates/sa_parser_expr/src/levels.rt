//! The levels of nesting of a file's tokens.
//!
//! A stack of counters goes over the tokens. Its sum is the level, which bounds how deep the constructs at an index nest,
//! and with it the recursion of all that reads or walks an AST.

ghost use Rattle.std.specs.Prelude.{◌≡◌, ◌+◌, ◌≤◌, [], ◌∷◌, IfErr, IfNone, IfSome, OnOk, drop, length, reverse};
ghost use Rattle.sa_parser_expr.specs.Level.{AreTaken, RefusesTokens, added, after, at_bar, is_refused};
ghost use Rattle.sa_parser_expr.specs.Level.{level_of, opened, set_to_one, step_of, step_of_sign, step_of_word};

use sa_ast::{Pos, Rejection, Rule};
use sa_lexer::{Sign, Token, TokenKind, Word};
use std::alloc::{AllocError, Global};

/// The greatest level that is accepted.
const MAX_LEVEL: u32 = 200;

/// What opened a construct.
#[derive(Clone, Copy, Debug, PartialEq, Eq)]
pub(crate) enum Opener {
    /// A `|`.
    Bar,
    /// Another token.
    Other,
}

/// An open construct.
#[derive(Clone, Copy)]
pub(crate) struct Counter {
    /// How much it adds to the level.
    pub level: u32,
    pub opener: Opener,
}

/// What a token does to the open counters.
#[derive(Clone, Copy, Debug, PartialEq, Eq)]
pub(crate) enum Step {
    /// Opens a counter.
    Open,
    /// Closes the innermost one.
    Close,
    /// Adds 1 to the innermost one.
    Add,
    /// Adds 1 to the innermost one, and opens another one.
    AddAndOpen,
    /// Sets the innermost one to 1.
    Reset,
    /// Closes the innermost one where a `|` opened it, and opens another one elsewhere.
    Bar,
    /// Closes all of them.
    Clear,
    /// Nothing.
    Keep,
}

fn step_of_sign(sign: Sign) -> Step
    ensures { result ≡ step_of_sign sign }
{
    match sign {
        Sign::LeftParen | Sign::LeftBrace => Step::Open,
        Sign::LeftBracket => Step::AddAndOpen,
        Sign::Bar => Step::Bar,
        Sign::RightParen | Sign::RightBracket | Sign::RightBrace => Step::Close,
        Sign::Plus
        | Sign::Minus
        | Sign::Star
        | Sign::Slash
        | Sign::Percent
        | Sign::Caret
        | Sign::Tilde
        | Sign::Equal
        | Sign::NotEqual
        | Sign::Less
        | Sign::LessEqual
        | Sign::Greater
        | Sign::GreaterEqual
        | Sign::Dot
        | Sign::DoubleColon
        | Sign::Hash => Step::Add,
        Sign::Comma | Sign::Semicolon | Sign::Assign | Sign::Declare => Step::Reset,
        _ => Step::Keep,
    }
}

fn step_of_word(word: Word) -> Step
    ensures { result ≡ step_of_word word }
{
    match word {
        Word::Is | Word::If | Word::Loop | Word::Case | Word::Typecase | Word::Protect =>
            Step::Open,
        Word::End => Step::Close,
        Word::And | Word::Or | Word::Rout | Word::Iter => Step::Add,
        Word::Then | Word::Else | Word::Elsif | Word::When => Step::Reset,
        Word::Class => Step::Clear,
        _ => Step::Keep,
    }
}

fn step_of(kind: &TokenKind) -> Step
    ensures { result ≡ step_of kind.now }
{
    match kind {
        TokenKind::Sign(sign) => step_of_sign(*sign),
        TokenKind::Word(word) => step_of_word(*word),
        _ => Step::Keep,
    }
}

/// The counters that are open at an index of the tokens, the innermost one last, and their sum.
#[derive(Drop)]
struct Levels {
    counters: Vec<Counter>,
    level: u32,
    ghost sum: { level ≡ level_of (reverse counters.items) },
}

impl Levels {
    fn new(alloc: Global) -> Levels
        ensures { reverse result.counters.items ≡ [] }
    {
        Levels {
            counters: Vec::new(alloc),
            level: 0,
        }
    }

    /// The index of the innermost counter, if one is open.
    fn innermost(&self) -> Option<usize>
        ensures none { IfNone result (self.now.counters.items ≡ []) }
        ensures last { IfSome result (λ at. at + 1 ≡ length self.now.counters.items) }
    {
        self.counters.len().checked_sub(1)
    }

    fn push(&mut self, opener: Opener) -> Result<(), AllocError>
        requires { self.old.level ≤ 201 }
        ensures counters { OnOk result (reverse self.new.counters.items ≡ opened opener ∷ reverse self.old.counters.items) }
        ensures level { self.new.level ≤ self.old.level + 1 }
    {
        self.counters.push(Counter { level: 1, opener })?;
        self.level += 1;
        Ok(())
    }

    fn pop(&mut self)
        ensures { reverse self.new.counters.items ≡ drop 1 (reverse self.old.counters.items) }
    {
        if let Some(counter) = self.counters.pop() {
            self.level -= counter.level;
        }
    }

    fn add(&mut self) -> Result<(), AllocError>
        requires { self.old.level ≤ 200 }
        ensures counters { OnOk result (reverse self.new.counters.items ≡ added (reverse self.old.counters.items)) }
        ensures level { self.new.level ≤ self.old.level + 1 }
    {
        let Some(innermost) = self.innermost() else {
            return self.push(Opener::Other);
        };
        self.counters[innermost].level += 1;
        self.level += 1;
        Ok(())
    }

    fn reset(&mut self)
        requires { self.old.level ≤ 200 }
        ensures { reverse self.new.counters.items ≡ set_to_one (reverse self.old.counters.items) }
    {
        if let Some(innermost) = self.innermost() {
            let counter = &mut self.counters[innermost];
            self.level = self.level - counter.level + 1;
            counter.level = 1;
        }
    }

    fn clear(&mut self)
        ensures { reverse self.new.counters.items ≡ [] }
    {
        self.counters.clear();
        self.level = 0;
    }

    fn bar(&mut self) -> Result<(), AllocError>
        requires { self.old.level ≤ 200 }
        ensures { OnOk result (reverse self.new.counters.items ≡ at_bar (reverse self.old.counters.items)) }
    {
        if let Some(innermost) = self.innermost()
            && matches!(self.counters[innermost].opener, Opener::Bar)
        {
            self.pop();
            return Ok(());
        }
        self.push(Opener::Bar)
    }

    fn step(&mut self, step: Step) -> Result<(), AllocError>
        requires { self.old.level ≤ 200 }
        ensures { OnOk result (reverse self.new.counters.items ≡ after step (reverse self.old.counters.items)) }
    {
        match step {
            Step::Open => self.push(Opener::Other),
            Step::Close => {
                self.pop();
                Ok(())
            }
            Step::Add => self.add(),
            Step::AddAndOpen => {
                self.add()?;
                self.push(Opener::Other)
            }
            Step::Reset => {
                self.reset();
                Ok(())
            }
            Step::Bar => self.bar(),
            Step::Clear => {
                self.clear();
                Ok(())
            }
            Step::Keep => Ok(()),
        }
    }
}

/// Whether the profile refuses the word.
fn is_refused(kind: &TokenKind) -> bool
    ensures { result ≡ is_refused kind.now }
{
    matches!(kind, TokenKind::Word(word) if word.is_refused())
}

/// Whether a parser may go over these tokens, which are those of the file with index `file`.
///
/// `Refused` names the first token that is a word which the profile refuses (E08), or at which the level passes 200
/// (E07). `NoMemory` means that memory has run out.
pub fn scan(alloc: Global, tokens: &[Token], file: u32) -> Result<(), Rejection>
    ensures taken { OnOk result (AreTaken tokens.now (length tokens.now)) }
    ensures refused { IfErr result (RefusesTokens tokens.now file) }
{
    let mut levels = Levels::new(alloc);
    for token in tokens {
        let pos = Pos {
            file,
            at: token.start,
        };
        if is_refused(&token.kind) {
            return Err(Rejection::Refused(Rule::WordNotTaken.at(pos)));
        }
        levels.step(step_of(&token.kind))?;
        if levels.level > MAX_LEVEL {
            return Err(Rejection::Refused(Rule::NestedTooDeep.at(pos)));
        }
    }
    Ok(())
}
