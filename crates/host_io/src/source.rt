//! Sources of bytes.

ghost use Rattle.std.specs.Prelude.{◌≡◌, ℕ, ◌≤◌, Bool, Option};

/// What a source answers.
#[derive(Clone, Copy, Debug, PartialEq, Eq, Hash)]
pub enum Take {
    Byte(u8),
    /// No byte is left.
    End,
    Failed,
}

/// A source of bytes.
pub trait Source {
    ghost use Rattle.host_io.specs.Faults.{Rose};
    ghost use Rattle.host_io.specs.Input.{Input, Gives, Ends};

    /// How often it has failed.
    ghost faults: { Self → ℕ };

    /// The bytes that it has left and the number of ends that it has given, if it specifies them.
    ghost input: { Self → Option Input };

    /// Whether it has reached its end, after which it gives no byte.
    ghost ended: { Self → Bool };

    /// Gives the next byte, or the end exactly if none is left. No byte follows an end.
    fn take(&mut self) -> Take
        ensures gives { Gives result (input self.old) (input self.new) }
        ensures ends { Ends result (ended self.old) (ended self.new) }
        ensures failed { result ≡ Take.Failed → Rose (faults self.old) (faults self.new) }
        ensures count { faults self.old ≤ faults self.new };
}
