//! The context in which an expression or a statement is typed.

ghost use Rattle.std.specs.Prelude.{◌≡◌, None};
ghost use Rattle.sa_typing.specs.Contexts.{env, guarded, in_branch, in_loop, is_in_loop, is_inner, may_leave, outside};

use crate::view::TypingView;
use sa_typed::Site;

/// The environment of an expression or a statement: the feature or the initialiser to which it belongs.
#[derive(Clone, Copy)]
pub struct TypingEnv<'a> {
    pub view: TypingView<'a>,
    /// The number of the type of `self`.
    pub class: u32,
    /// The numbers of the variables' types.
    pub vars: &'a [u32],
    pub sites: &'a [Site],
    pub iter: bool,
    /// The number of the type of the result.
    pub gives: Option<u32>,
}

/// The context of an expression or a statement: the loops, protects and branches that enclose it.
#[derive(Clone, Copy)]
pub struct TypingContext {
    /// The number of the innermost loop.
    pub owner: Option<u32>,
    /// Whether a protect is between the position and this loop.
    pub guarded: bool,
    /// Whether a protect encloses it.
    pub protected: bool,
    /// The number of the type of `exception`, in a branch of a protect.
    pub branch: Option<u32>,
}

impl TypingContext {
    /// The context outside any loop and any protect.
    pub fn outside() -> TypingContext
        ensures { result ≡ outside }
    {
        TypingContext {
            owner: None,
            guarded: false,
            protected: false,
            branch: None,
        }
    }

    /// The same context, in a loop.
    pub fn in_loop(self, number: u32) -> TypingContext
        ensures { result ≡ in_loop number self }
    {
        TypingContext {
            owner: Some(number),
            guarded: false,
            protected: self.protected,
            branch: self.branch,
        }
    }

    /// The same context, in a protect.
    pub fn guarded(self) -> TypingContext
        ensures { result ≡ guarded self }
    {
        TypingContext {
            owner: self.owner,
            guarded: true,
            protected: true,
            branch: self.branch,
        }
    }

    /// The same context, in a branch of a protect for this type.
    pub fn in_branch(self, ty: u32) -> TypingContext
        ensures { result ≡ in_branch ty self }
    {
        TypingContext {
            owner: self.owner,
            guarded: self.guarded,
            protected: self.protected,
            branch: Some(ty),
        }
    }

    /// Whether the innermost loop has this number, and no protect is between.
    pub(crate) fn is_in_loop(self, number: u32) -> bool
        ensures { result ≡ is_in_loop number self }
    {
        match self.owner {
            Some(owner) => owner == number && !self.guarded,
            None => false,
        }
    }

    /// Whether the innermost loop can be exited: there is one, and no protect is between.
    pub(crate) fn may_leave(self) -> bool
        ensures { result ≡ may_leave self }
    {
        self.owner.is_some() && !self.guarded
    }

    /// Whether a loop with this number may occur here: the enclosing ones have lower numbers.
    pub(crate) fn is_inner(self, number: u32) -> bool
        ensures { result ≡ is_inner number self }
    {
        match self.owner {
            Some(owner) => owner < number,
            None => true,
        }
    }
}
