//! The context of a statement in a body. It is passed down from a statement to those inside it, so that nothing has to be restored after
//! them.

ghost use Rattle.std.specs.Prelude.{◌≡◌, IsTrue, is_some};
ghost use Rattle.sa_cfg_builder.specs.Contexts.{context_of};
ghost use Rattle.sa_typing.specs.Contexts.{outside};

use sa_cfg::{FIRST_TEMPORARY, Handler, UNWIND_BLOCK};

/// The handler of a raise that leaves the body. Its variables are the first temporaries.
const UNWINDING: Handler = Handler {
    block: UNWIND_BLOCK,
    value: FIRST_TEMPORARY,
    place: FIRST_TEMPORARY + 1,
    kind: FIRST_TEMPORARY + 2,
};

/// The exits of the innermost loop.
#[derive(Clone, Copy, Debug, PartialEq, Eq)]
pub struct LoopExits {
    /// The index of the loop.
    pub number: u32,
    /// The block to which leaving the loop goes: the one that ends its instances, or the one after the loop where it has no sites.
    pub after: u32,
    /// The block that ends the instances of the loop and of those that enclose it and then leaves the body, where one of these loops
    /// has sites.
    pub out: Option<u32>,
}

/// The exception that a branch caught: the variable that holds it, and the index of its type.
#[derive(Clone, Copy, Debug, PartialEq, Eq)]
pub struct CaughtException {
    pub var: u32,
    pub ty: u32,
}

/// The context of a statement or an expression in a body.
#[derive(Clone, Copy, Debug, PartialEq, Eq)]
pub struct LoweringContext {
    /// The handler to which a raise goes.
    pub raised: Handler,
    /// The exits of the innermost loop, inside a loop. What the loops around that one decide is in them.
    pub innermost: Option<LoopExits>,
    /// Whether there is a protect between the statement and this loop.
    pub guarded: bool,
    /// Whether the statement is inside a protect.
    pub protected: bool,
    /// The exception of the innermost branch of a protect, inside a branch.
    pub exception: Option<CaughtException>,
    /// The first temporary of each statement. Those before it hold what has to outlive the statement.
    pub first_temporary: u32,
}

impl LoweringContext {
    /// The context of the statements of a body: a raise leaves the body.
    pub fn of_body() -> LoweringContext
        ensures { context_of result ≡ outside }
    {
        LoweringContext {
            raised: UNWINDING,
            innermost: None,
            guarded: false,
            protected: false,
            exception: None,
            first_temporary: FIRST_TEMPORARY + 3,
        }
    }

    /// The block to which leaving the innermost loop goes.
    pub fn after(&self) -> u32
        requires { IsTrue (is_some self.now.innermost) }
    {
        match self.innermost {
            Some(innermost) => innermost.after,
            None => unreachable!(),
        }
    }

    /// The block that ends the instances of the loops around the statement and then leaves the body, if one of them has sites.
    pub fn out(&self) -> Option<u32> {
        match self.innermost {
            Some(innermost) => innermost.out,
            None => None,
        }
    }
}
