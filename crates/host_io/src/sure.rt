//! A source and a sink of bytes in memory that never fail.

ghost use Rattle.std.specs.Prelude.{◌≡◌, ◌≢◌, [], ◌++◌, Some, IsOk, OnOk, OnErr, IsOkUnless};
ghost use Rattle.host_io.specs.Input.{Gives, Ends, is_at_end};

use crate::calls::one_more;
use crate::sink::Sink;
use crate::source::{Source, Take};
use crate::store::Outage;
use std::alloc::Global;
use std::marker::Model;

/// A source of bytes in memory that never fails. Contracts see its input.
#[derive(Debug, Drop)]
pub struct SureSource {
    bytes: Vec<u8>,
    given: usize,
    ends: u64,
}

impl Model for SureSource {
    ghost use Rattle.std.specs.Prelude.{drop};
    ghost use Rattle.host_io.specs.Input.{Input};

    ghost Value = { Input };

    ghost view = { λ s. record { left = drop s.given s.bytes.items; ends = s.ends } };
}

impl SureSource {
    pub fn new(bytes: Vec<u8>) -> SureSource
        ensures { result ≡ record { left = bytes.items; ends = 0 } }
    {
        SureSource {
            bytes,
            given: 0,
            ends: 0,
        }
    }
}

impl Source for SureSource {
    ghost faults = { λ _. 0 };

    ghost input = { λ s. Some s };

    ghost ended = { λ s. is_at_end s };

    /// Gives the next byte, or the end exactly if none is left.
    fn take(&mut self) -> Take
        ensures gives { Gives result (Some self.old) (Some self.new) }
        ensures ends { Ends result (is_at_end self.old) (is_at_end self.new) }
        ensures sure { result ≢ Take.Failed }
    {
        if self.given < self.bytes.len() {
            let byte = self.bytes[self.given];
            self.given += 1;
            Take::Byte(byte)
        } else {
            self.ends = one_more(self.ends);
            Take::End
        }
    }
}

/// A sink of bytes in memory that never fails. Contracts see the bytes that it has taken.
#[derive(Debug, Drop)]
pub struct SureSink {
    taken: Vec<u8>,
}

impl Model for SureSink {
    ghost use Rattle.std.specs.Prelude.{ℕ, List};

    ghost Value = { List ℕ };

    ghost view = { λ s. s.taken.items };
}

impl SureSink {
    pub fn new(alloc: Global) -> SureSink
        ensures { result ≡ [] }
    {
        SureSink {
            taken: Vec::new(alloc),
        }
    }

    /// The bytes that it has taken.
    pub fn taken(&self) -> &[u8]
        ensures { result.now ≡ self.now }
    {
        self.taken.as_slice()
    }
}

impl Sink for SureSink {
    ghost faults = { λ _. 0 };

    ghost output = { λ s. Some s };

    /// Appends these bytes to those that it has, or nothing where memory is short.
    fn put(&mut self, bytes: &[u8]) -> Result<(), Outage>
        ensures ok { OnOk result (self.new ≡ self.old ++ bytes.now) }
        ensures outage { OnErr result (self.new ≡ self.old) }
        ensures sure { IsOkUnless result Outage.NoMemory }
        ensures empty { bytes.now ≡ [] → IsOk result }
    {
        if bytes.is_empty() {
            return Ok(());
        }
        self.taken
            .extend_from_slice(bytes)
            .map_err(|_| Outage::NoMemory)
    }
}
