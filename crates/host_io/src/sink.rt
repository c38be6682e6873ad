//! Sinks of bytes.

ghost use Rattle.std.specs.Prelude.{◌≡◌, ℕ, ◌≤◌, List, [], Option, IsOk, OnOk, OnErr, IsErrOf};
ghost use Rattle.host_io.specs.Faults.{Rose};
ghost use Rattle.host_io.specs.Output.{Took, TookFront};

use crate::store::Outage;

/// A sink of bytes.
pub trait Sink {
    /// How often it has failed.
    ghost faults: { Self → ℕ };

    /// The bytes that it has taken, if it specifies them.
    ghost output: { Self → Option (List ℕ) };

    /// Appends these bytes to those that it has. After an error it has taken a prefix of them.
    fn put(&mut self, bytes: &[u8]) -> Result<(), Outage>
        ensures ok { OnOk result (Took (output self.old) (output self.new) bytes.now) }
        ensures outage { OnErr result (TookFront (output self.old) (output self.new) bytes.now) }
        ensures failed { IsErrOf result Outage.Failed → Rose (faults self.old) (faults self.new) }
        ensures count { faults self.old ≤ faults self.new }

        // An empty piece changes nothing.
        ensures empty { bytes.now ≡ [] → IsOk result × (faults self.new ≡ faults self.old) };

    /// Whether someone reads along, so that each line is to be put as soon as it is complete. Otherwise pieces of any size will do.
    fn wants_lines(&self) -> bool {
        false
    }
}
