//! The kinds of faults that stop a program, or raise an exception in it.

ghost use Rattle.std.specs.Prelude.{◌≡◌, ◌≢◌, IfNone, IfSome};
ghost use Rattle.sa_ast.specs.Faults.{fault_number, fault_text};

/// The kind of a fault. Its number is the one that `kind` of the class FAULT gives.
#[derive(Clone, Copy, Debug, PartialEq, Eq, Hash)]
pub enum FaultKind {
    /// A result is out of range.
    Overflow = 1,
    /// A divisor is zero.
    DivisionByZero = 2,
    /// A receiver, or what is raised, is void.
    Void = 3,
    /// An index or a count is out of range.
    Index = 4,
    /// No branch of a case or a typecase matches.
    NoBranch = 5,
    /// A routine with a result ends without a `return`.
    NoReturn = 6,
    /// An asserted condition is false.
    Assert = 7,
    /// An exception that a `raise` raised is caught nowhere.
    Uncaught = 8,
    /// The room is used up.
    NoRoom = 9,
    /// Activations nest too deep.
    TooDeep = 10,
    /// Too many instances of iters are alive.
    Frames = 11,
}

impl FaultKind {
    /// The number of the kind.
    pub fn number(self) -> u8
        ensures { result ≡ fault_number self }
    {
        self as u8
    }

    /// The kind with this number, None where no kind has it.
    pub fn of_number(number: u32) -> Option<FaultKind>
        ensures kind { IfSome result (λ kind. fault_number kind ≡ number) }
        ensures none { IfNone result ((kind : FaultKind) → fault_number kind ≢ number) }
    {
        match number {
            1 => Some(FaultKind::Overflow),
            2 => Some(FaultKind::DivisionByZero),
            3 => Some(FaultKind::Void),
            4 => Some(FaultKind::Index),
            5 => Some(FaultKind::NoBranch),
            6 => Some(FaultKind::NoReturn),
            7 => Some(FaultKind::Assert),
            8 => Some(FaultKind::Uncaught),
            9 => Some(FaultKind::NoRoom),
            10 => Some(FaultKind::TooDeep),
            11 => Some(FaultKind::Frames),
            _ => None,
        }
    }

    /// What went wrong, as `division by zero`.
    pub fn text(self) -> &'static str
        ensures { result.now ≡ fault_text self }
    {
        match self {
            FaultKind::Overflow => "overflow",
            FaultKind::DivisionByZero => "division by zero",
            FaultKind::Void => "void",
            FaultKind::Index => "index",
            FaultKind::NoBranch => "no branch",
            FaultKind::NoReturn => "no return",
            FaultKind::Assert => "assert",
            FaultKind::Uncaught => "uncaught",
            FaultKind::NoRoom => "no room",
            FaultKind::TooDeep => "too deep",
            FaultKind::Frames => "frames",
        }
    }
}
