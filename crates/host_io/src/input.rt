//! A store in which the program's input is the file `-`.

ghost use Rattle.std.specs.Prelude.{◌≡◌, ◌<◌, ◌≤◌, length, None, IfOk, IsErrOf};
ghost use Rattle.host_io.specs.Faults.{Rose};

use crate::{Outage, ReadFiles, Source, Take, WriteFiles};
use std::alloc::Global;
use std::marker::Model;

/// The name of the input in a store.
const INPUT: &str = "-";

/// A store over another one, in which the file `-` is all that a source gives until its end, and can't be written. The source is read as
/// far as the file is read, and its bytes are cached, so that they can be read again. Contracts see how often the store has failed.
#[derive(Drop)]
pub struct InputStore<S, I> {
    files: S,
    input: I,
    kept: Vec<u8>,
    faults: u64,
}

impl<S, I> Model for InputStore<S, I> {
    ghost use Rattle.std.specs.Prelude.{ℕ};

    ghost Value = { ℕ };

    ghost view = { λ s. s.faults };
}

impl<S: ReadFiles, I: Source> InputStore<S, I> {
    pub fn new(alloc: Global, files: S, input: I) -> InputStore<S, I>
        ensures { result ≡ 0 }
    {
        InputStore {
            files,
            input,
            kept: Vec::new(alloc),
            faults: 0,
        }
    }

    /// The result of a call, with a failure counted.
    fn counted<T>(&mut self, answer: Result<T, Outage>) -> Result<T, Outage>
        ensures same { result ≡ answer }
        ensures count { self.old ≤ self.new }
        ensures failed { IsErrOf answer Outage.Failed → Rose self.old self.new }
    {
        match answer {
            Err(Outage::Failed) => {
                self.faults = self.faults.saturating_add(1);
                Err(Outage::Failed)
            }
            _ => answer,
        }
    }
}

impl<S: ReadFiles, I: Source> ReadFiles for InputStore<S, I> {
    ghost faults = { λ s. s };

    ghost files = { λ _. None };

    /// Reads bytes of the file, or of the input, from the offset `place` on. It fails if the underlying store does, or the input.
    fn read_at(&mut self, name: &str, place: u64, buffer: &mut [u8]) -> Result<usize, Outage>
        requires { 0 < length buffer.old }
        ensures within { IfOk result (λ n. n ≤ length buffer.new) }
        ensures failed { IsErrOf result Outage.Failed → Rose self.old self.new }
        ensures count { self.old ≤ self.new }
    {
        let answer = if name == INPUT {
            read_kept(&mut self.input, &mut self.kept, place, buffer)
        } else {
            self.files.read_at(name, place, buffer)
        };
        self.counted(answer)
    }
}

impl<S: WriteFiles, I: Source> WriteFiles for InputStore<S, I> {
    /// Makes the file contain these bytes. Writing the input fails.
    fn write(&mut self, name: &str, bytes: &[u8]) -> Result<(), Outage>
        ensures failed { IsErrOf result Outage.Failed → Rose self.old self.new }
        ensures count { self.old ≤ self.new }
    {
        let answer = if name == INPUT {
            Err(Outage::Failed)
        } else {
            self.files.write(name, bytes)
        };
        self.counted(answer)
    }
}

/// Reads bytes of the input from the offset on, after they have been taken from the source.
fn read_kept<I: Source>(
    input: &mut I,
    kept: &mut Vec<u8>,
    place: u64,
    buffer: &mut [u8],
) -> Result<usize, Outage>
    ensures { IfOk result (λ n. n ≤ length buffer.new) }
{
    take_until(input, kept, place.saturating_add(buffer.len() as u64))?;
    Ok(copied(kept.as_slice(), place, buffer))
}

/// Takes bytes of the input and caches them, until there are `end` of them or the input ends.
fn take_until<I: Source>(input: &mut I, kept: &mut Vec<u8>, end: u64) -> Result<(), Outage> {
    for _ in kept.len() as u64..end {
        match input.take() {
            Take::Byte(byte) => kept.push(byte).map_err(|_| Outage::NoMemory)?,
            Take::End => return Ok(()),
            Take::Failed => return Err(Outage::Failed),
        }
    }
    Ok(())
}

/// Copies the bytes from the offset on into the front of the buffer, as far as both go, and gives their number.
fn copied(bytes: &[u8], place: u64, buffer: &mut [u8]) -> usize
    ensures { result ≤ length buffer.new }
{
    let start = bytes.len().min(place as usize);
    let rest = &bytes[start..];
    let count = buffer.len().min(rest.len());
    buffer[..count].copy_from_slice(&rest[..count]);
    count
}
