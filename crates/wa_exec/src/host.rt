//! The output of a module that is buffered and not flushed yet.

ghost use Rattle.std.specs.Prelude.{◌≡◌, ◌≤◌, [], ◌∷◌, ◌++◌, IfOk, IsOk, OnOk, OnErr, IsErrOf};
ghost use Rattle.host_io.specs.Faults.{Rose};
ghost use Rattle.host_io.specs.Output.{Took, TookFront};

use host_io::{Outage, Sink};
use std::alloc::Global;
use std::marker::Model;
use wa_syntax::NoMemory;

/// How many bytes are buffered at most before they are flushed.
pub(crate) const HELD: usize = 4096;

/// The output that is buffered and not flushed yet. Contracts see its bytes.
#[derive(Debug, Drop)]
pub struct Host {
    held: Vec<u8>,
}

impl Model for Host {
    ghost use Rattle.std.specs.Prelude.{ℕ, List};

    ghost Value = { List ℕ };

    ghost view = { λ h. h.held.items };
}

impl Host {
    /// A host with an empty buffer, with the memory for 4,096 bytes.
    ///
    /// # Errors
    ///
    /// `NoMemory` where there is no memory for them.
    pub fn new(alloc: Global) -> Result<Host, NoMemory>
        ensures { IfOk result (λ host. host ≡ []) }
    {
        let held = Vec::with_capacity(alloc, HELD)?;
        Ok(Host { held })
    }

    /// Passes all buffered bytes to the sink, in order, and empties the buffer.
    ///
    /// # Errors
    ///
    /// The sink's outage. It has then taken a prefix of the buffered bytes, and these stay buffered.
    pub fn flush<O: Sink>(&mut self, out: &mut O) -> Result<(), Outage>
        ensures ok { OnOk result (self.new ≡ []) }
        ensures took { OnOk result (Took (O.output out.old) (O.output out.new) self.old) }
        ensures held { OnErr result (self.new ≡ self.old) }
        ensures front { OnErr result (TookFront (O.output out.old) (O.output out.new) self.old) }
        ensures failed { IsErrOf result Outage.Failed → Rose (O.faults out.old) (O.faults out.new) }
        ensures count { O.faults out.old ≤ O.faults out.new }
        ensures empty { self.old ≡ [] → IsOk result }
    {
        out.put(self.held.as_slice())?;
        self.held.clear();
        Ok(())
    }

    /// Buffers one more byte.
    pub(crate) fn hold(&mut self, byte: u8) -> Result<(), NoMemory>
        ensures ok { OnOk result (self.new ≡ self.old ++ byte ∷ []) }
        ensures err { OnErr result (self.new ≡ self.old) }
    {
        self.held.push(byte)?;
        Ok(())
    }

    /// Whether as many bytes are buffered as are flushed together.
    pub(crate) fn is_full(&self) -> bool {
        self.held.len() >= HELD
    }
}
