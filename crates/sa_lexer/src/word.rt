//! The words of the language, each with its spelling.

ghost use Rattle.std.specs.Prelude.{◌≡◌};
ghost use Rattle.sa_lexer.specs.Words.{is_refused_word, word_text};

use std::fmt;

/// A word of the language, named by its spelling. `text` gives the spelling.
#[derive(Clone, Copy, Debug, PartialEq, Eq, Hash)]
pub enum Word {
    /// `abstract`
    Abstract,
    /// `and`
    And,
    /// `assert`
    Assert,
    /// `attr`
    Attr,
    /// `bind`
    Bind,
    /// `builtin`
    Builtin,
    /// `case`
    Case,
    /// `class`
    Class,
    /// `const`
    Const,
    /// `else`
    Else,
    /// `elsif`
    Elsif,
    /// `end`
    End,
    /// `exception`
    Exception,
    /// `false`
    False,
    /// `if`
    If,
    /// `immutable`
    Immutable,
    /// `in`
    In,
    /// `include`
    Include,
    /// `inout`
    Inout,
    /// `is`
    Is,
    /// `loop`
    Loop,
    /// `new`
    New,
    /// `once`
    Once,
    /// `or`
    Or,
    /// `out`
    Out,
    /// `partial`
    Partial,
    /// `private`
    Private,
    /// `protect`
    Protect,
    /// `quit`
    Quit,
    /// `raise`
    Raise,
    /// `readonly`
    Readonly,
    /// `return`
    Return,
    /// `self`
    SelfWord,
    /// `shared`
    Shared,
    /// `stub`
    Stub,
    /// `then`
    Then,
    /// `true`
    True,
    /// `typecase`
    Typecase,
    /// `void`
    Void,
    /// `when`
    When,
    /// `yield`
    Yield,
    /// `ITER`
    Iter,
    /// `ROUT`
    Rout,
    /// `SAME`
    Same,
    /// `pre`
    Pre,
    /// `post`
    Post,
    /// `initial`
    Initial,
    /// `result`
    Result,
    /// `invariant`
    Invariant,
    /// `external`
    External,
    /// `spread`
    Spread,
    /// `fork`
    Fork,
    /// `par`
    Par,
    /// `parloop`
    Parloop,
    /// `lock`
    Lock,
    /// `unlock`
    Unlock,
    /// `guard`
    Guard,
    /// `cohort`
    Cohort,
    /// `sync`
    Sync,
    /// `near`
    Near,
    /// `far`
    Far,
}

/// How many words there are.
const COUNT: usize = 61;

/// All words.
pub(crate) const WORDS: [Word; COUNT] = [
    Word::Abstract,
    Word::And,
    Word::Assert,
    Word::Attr,
    Word::Bind,
    Word::Builtin,
    Word::Case,
    Word::Class,
    Word::Const,
    Word::Else,
    Word::Elsif,
    Word::End,
    Word::Exception,
    Word::False,
    Word::If,
    Word::Immutable,
    Word::In,
    Word::Include,
    Word::Inout,
    Word::Is,
    Word::Loop,
    Word::New,
    Word::Once,
    Word::Or,
    Word::Out,
    Word::Partial,
    Word::Private,
    Word::Protect,
    Word::Quit,
    Word::Raise,
    Word::Readonly,
    Word::Return,
    Word::SelfWord,
    Word::Shared,
    Word::Stub,
    Word::Then,
    Word::True,
    Word::Typecase,
    Word::Void,
    Word::When,
    Word::Yield,
    Word::Iter,
    Word::Rout,
    Word::Same,
    Word::Pre,
    Word::Post,
    Word::Initial,
    Word::Result,
    Word::Invariant,
    Word::External,
    Word::Spread,
    Word::Fork,
    Word::Par,
    Word::Parloop,
    Word::Lock,
    Word::Unlock,
    Word::Guard,
    Word::Cohort,
    Word::Sync,
    Word::Near,
    Word::Far,
];

impl Word {
    /// The spelling of the word.
    pub fn text(self) -> &'static str
        ensures { result.now ≡ word_text self }
    {
        match self {
            Word::Abstract => "abstract",
            Word::And => "and",
            Word::Assert => "assert",
            Word::Attr => "attr",
            Word::Bind => "bind",
            Word::Builtin => "builtin",
            Word::Case => "case",
            Word::Class => "class",
            Word::Const => "const",
            Word::Else => "else",
            Word::Elsif => "elsif",
            Word::End => "end",
            Word::Exception => "exception",
            Word::False => "false",
            Word::If => "if",
            Word::Immutable => "immutable",
            Word::In => "in",
            Word::Include => "include",
            Word::Inout => "inout",
            Word::Is => "is",
            Word::Loop => "loop",
            Word::New => "new",
            Word::Once => "once",
            Word::Or => "or",
            Word::Out => "out",
            Word::Partial => "partial",
            Word::Private => "private",
            Word::Protect => "protect",
            Word::Quit => "quit",
            Word::Raise => "raise",
            Word::Readonly => "readonly",
            Word::Return => "return",
            Word::SelfWord => "self",
            Word::Shared => "shared",
            Word::Stub => "stub",
            Word::Then => "then",
            Word::True => "true",
            Word::Typecase => "typecase",
            Word::Void => "void",
            Word::When => "when",
            Word::Yield => "yield",
            Word::Iter => "ITER",
            Word::Rout => "ROUT",
            Word::Same => "SAME",
            Word::Pre => "pre",
            Word::Post => "post",
            Word::Initial => "initial",
            Word::Result => "result",
            Word::Invariant => "invariant",
            Word::External => "external",
            Word::Spread => "spread",
            Word::Fork => "fork",
            Word::Par => "par",
            Word::Parloop => "parloop",
            Word::Lock => "lock",
            Word::Unlock => "unlock",
            Word::Guard => "guard",
            Word::Cohort => "cohort",
            Word::Sync => "sync",
            Word::Near => "near",
            Word::Far => "far",
        }
    }

    /// Whether the profile refuses the word.
    pub fn is_refused(self) -> bool
        ensures { result ≡ is_refused_word self }
    {
        matches!(
            self,
            Word::External
                | Word::Spread
                | Word::Fork
                | Word::Par
                | Word::Parloop
                | Word::Lock
                | Word::Unlock
                | Word::Guard
                | Word::Cohort
                | Word::Sync
                | Word::Near
                | Word::Far
        )
    }
}

impl fmt::Display for Word {
    fn fmt<W: fmt::Write>(&self, f: &mut fmt::Formatter<W>) -> fmt::Result {
        f.write_str(self.text())
    }
}
