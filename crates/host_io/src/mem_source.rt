//! A source of bytes in memory, whose calls can be made to fail.

ghost use Rattle.std.specs.Prelude.{◌≡◌, ◌↔◌, ◌≤◌, Some, IsTrue};
ghost use Rattle.host_io.specs.Calls.{no_calls, is_to_fail, one_call};
ghost use Rattle.host_io.specs.Faults.{Rose};
ghost use Rattle.host_io.specs.Input.{Gives, Ends, is_at_end};

use crate::calls::Calls;
use crate::source::{Source, Take};
use crate::sure::SureSource;
use std::marker::Model;

/// A source of bytes in memory, which specifies what it has left. Contracts see its input and its calls.
#[derive(Debug, Drop)]
pub struct MemSource {
    source: SureSource,
    calls: Calls,
}

impl Model for MemSource {
    ghost use Rattle.host_io.specs.Memory.{SourceState};

    ghost Value = { SourceState };

    ghost view = { λ s. record { input = s.source; calls = s.calls } };
}

impl MemSource {
    /// A source of these bytes. Its calls with the listed numbers fail, the first call being 0.
    pub fn new(bytes: Vec<u8>, failing: Vec<u64>) -> MemSource
        ensures input { result.input ≡ record { left = bytes.items; ends = 0 } }
        ensures calls { result.calls ≡ no_calls failing.items }
    {
        MemSource {
            source: SureSource::new(bytes),
            calls: Calls::new(failing),
        }
    }
}

impl Source for MemSource {
    ghost faults = { λ s. s.calls.faults };

    ghost input = { λ s. Some s.input };

    ghost ended = { λ s. is_at_end s.input };

    /// Gives the next byte, or the end exactly if none is left. It fails exactly at a listed call.
    fn take(&mut self) -> Take
        ensures gives { Gives result (Some self.old.input) (Some self.new.input) }
        ensures ends { Ends result (is_at_end self.old.input) (is_at_end self.new.input) }
        ensures failed { result ≡ Take.Failed → Rose self.old.calls.faults self.new.calls.faults }
        ensures count { self.old.calls.faults ≤ self.new.calls.faults }

        ensures listed { result ≡ Take.Failed ↔ IsTrue (is_to_fail self.old.calls) }
        ensures calls { self.new.calls ≡ one_call self.old.calls }
    {
        if self.calls.next_fails() {
            return Take::Failed;
        }
        self.source.take()
    }
}
