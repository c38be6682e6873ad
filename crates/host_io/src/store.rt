//! Stores of files.

ghost use Rattle.std.specs.Prelude.{◌≡◌, ℕ, ◌<◌, ◌≤◌, ◌⊎◌, length, Option, IfOk, OnOk, OnErr, IsErrOf};
ghost use Rattle.host_io.specs.Faults.{Rose};
ghost use Rattle.host_io.specs.Files.{Files, Lacks, Reads, Writes, WritesFront};

use thiserror::Error;

/// Why a store or a sink didn't do what was asked.
#[derive(Clone, Copy, Debug, PartialEq, Eq, Hash, Error)]
pub enum Outage {
    #[error("the outside failed")]
    Failed,
    #[error("out of memory")]
    NoMemory,
}

/// A store of files that are read by their names.
pub trait ReadFiles {
    /// How often it has failed.
    ghost faults: { Self → ℕ };

    /// The files that it has, if it specifies them.
    ghost files: { Self → Option Files };

    /// Reads bytes of the file from the offset `place` on into the front of the buffer, and gives their number. It is 0 exactly
    /// if the file has no byte at the offset or after it. Nothing in the store is changed.
    fn read_at(&mut self, name: &str, place: u64, buffer: &mut [u8]) -> Result<usize, Outage>
        requires { 0 < length buffer.old }
        ensures within { IfOk result (λ n. n ≤ length buffer.new) }
        ensures read { IfOk result (λ n. Reads (files self.old) name.now place n buffer.new) }
        ensures files { files self.new ≡ files self.old }

        // It fails only if the store specifies that it has no such file, or if it counts a fault.
        ensures failed { IsErrOf result Outage.Failed → Rose (faults self.old) (faults self.new) ⊎ Lacks (files self.old) name.now }
        ensures count { faults self.old ≤ faults self.new };
}

/// A store of files that are read and written by their names.
pub trait WriteFiles: ReadFiles {
    /// Makes the file contain these bytes. After an error it contains what it did before or a prefix of these bytes.
    fn write(&mut self, name: &str, bytes: &[u8]) -> Result<(), Outage>
        ensures ok { OnOk result (Writes (Self.files self.old) (Self.files self.new) name.now bytes.now) }
        ensures outage { OnErr result (WritesFront (Self.files self.old) (Self.files self.new) name.now bytes.now) }
        ensures failed { IsErrOf result Outage.Failed → Rose (Self.faults self.old) (Self.faults self.new) }
        ensures count { Self.faults self.old ≤ Self.faults self.new };
}
