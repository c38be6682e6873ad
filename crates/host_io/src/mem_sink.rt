//! A sink of bytes in memory, whose calls can be made to fail.

ghost use Rattle.std.specs.Prelude.{◌≡◌, ◌≢◌, ◌↔◌, ◌≤◌, [], ◌++◌, Some, IsTrue, IsOk, OnOk, OnErr, IsErrOf};
ghost use Rattle.host_io.specs.Calls.{no_calls, is_to_fail, one_call};
ghost use Rattle.host_io.specs.Faults.{Rose};

use crate::calls::Calls;
use crate::sink::Sink;
use crate::store::Outage;
use crate::sure::SureSink;
use std::alloc::Global;
use std::marker::Model;

/// A sink of bytes in memory, which specifies what it has taken. Contracts see these bytes and its calls.
#[derive(Debug, Drop)]
pub struct MemSink {
    sink: SureSink,
    calls: Calls,
}

impl Model for MemSink {
    ghost use Rattle.host_io.specs.Memory.{SinkState};

    ghost Value = { SinkState };

    ghost view = { λ s. record { taken = s.sink; calls = s.calls } };
}

impl MemSink {
    /// An empty sink. Its calls with the listed numbers fail, the first call being 0.
    pub fn new(alloc: Global, failing: Vec<u64>) -> MemSink
        ensures taken { result.taken ≡ [] }
        ensures calls { result.calls ≡ no_calls failing.items }
    {
        MemSink {
            sink: SureSink::new(alloc),
            calls: Calls::new(failing),
        }
    }

    /// The bytes that it has taken.
    pub fn taken(&self) -> &[u8]
        ensures { result.now ≡ self.now.taken }
    {
        self.sink.taken()
    }
}

impl Sink for MemSink {
    ghost faults = { λ s. s.calls.faults };

    ghost output = { λ s. Some s.taken };

    /// Appends these bytes to those that it has. It fails exactly at a listed call, and takes nothing then, nor where
    /// memory is short. To put an empty piece is no call.
    fn put(&mut self, bytes: &[u8]) -> Result<(), Outage>
        ensures ok { OnOk result (self.new.taken ≡ self.old.taken ++ bytes.now) }
        ensures outage { OnErr result (self.new.taken ≡ self.old.taken) }
        ensures failed { IsErrOf result Outage.Failed → Rose self.old.calls.faults self.new.calls.faults }
        ensures count { self.old.calls.faults ≤ self.new.calls.faults }

        ensures listed { IsErrOf result Outage.Failed ↔ ((bytes.now ≢ []) × IsTrue (is_to_fail self.old.calls)) }
        ensures calls { bytes.now ≢ [] → self.new.calls ≡ one_call self.old.calls }
        ensures empty { bytes.now ≡ [] → IsOk result × (self.new ≡ self.old) }
    {
        if bytes.is_empty() {
            return Ok(());
        }
        if self.calls.next_fails() {
            return Err(Outage::Failed);
        }
        self.sink.put(bytes)
    }
}
