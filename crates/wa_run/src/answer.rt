//! What becomes of a module that is to be run.

ghost use Rattle.std.specs.Prelude.{◌≡◌};
ghost use Rattle.wa_run.specs.Answers.{IsBeforeRun, answer_of_halt, answer_of_start};

use wa_exec::{Halt, StartFault};
use wa_syntax::TrapKind;

/// What became of a module that was to be run. Where several hold, the earlier one here is the answer, but for `NoMemory`.
#[derive(Clone, Copy, Debug, PartialEq, Eq, Hash)]
pub enum Answer {
    /// The bytes are no module.
    Malformed,
    /// The module isn't valid: the index of the first ill-typed function among its own, or none where a rule outside the
    /// bodies is broken.
    Invalid(Option<u32>),
    /// The import of this index is none of the host's functions, or, with the number of imports, there is no `main` to
    /// call.
    Unlinked(u32),
    /// A segment goes past the end of the table or the memory.
    Segment,
    /// `main` has returned, with its result if it has one.
    Ended(Option<u32>),
    /// The module called `env.stop` with these two numbers.
    Stopped(u32, u32),
    /// An instruction trapped.
    Trap(TrapKind),
    /// A call would have made the 40,001st activation.
    TooDeep,
    /// The module hadn't ended within the fuel.
    Spent,
    /// The input failed.
    InFault,
    /// The output failed.
    OutFault,
    /// Memory ran out.
    NoMemory,
}

/// The answer of a machine that has halted or spent its fuel.
pub fn answer_of_halt(halt: Halt) -> Answer
    ensures value { result ≡ answer_of_halt halt }
    ensures runs { IsBeforeRun result → ⊥ }
{
    match halt {
        Halt::Ended(value) => Answer::Ended(value),
        Halt::Stopped { code, site } => Answer::Stopped(code, site),
        Halt::Trap(kind) => Answer::Trap(kind),
        Halt::Spent => Answer::Spent,
        Halt::TooDeep => Answer::TooDeep,
        Halt::InFault => Answer::InFault,
        Halt::OutFault => Answer::OutFault,
        Halt::NoMemory => Answer::NoMemory,
    }
}

/// The answer where a module can't be started.
pub fn answer_of_start(fault: StartFault) -> Answer
    ensures { result ≡ answer_of_start fault }
{
    match fault {
        StartFault::Unlinked(import) => Answer::Unlinked(import),
        StartFault::Segment => Answer::Segment,
        StartFault::NoMemory => Answer::NoMemory,
    }
}
