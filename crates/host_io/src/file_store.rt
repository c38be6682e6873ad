//! A store over the files of the operating system.

ghost use Rattle.std.specs.Prelude.{◌≡◌, ◌<◌, ◌≤◌, length, None, IfOk};
ghost use Rattle.host_io.specs.Adapters.{CountsOutage};

use crate::calls::one_more;
use crate::store::{Outage, ReadFiles, WriteFiles};
use crate::streams::{read_full, write_out};
use std::fs::{self, Files};
use std::io::{self, Seek, SeekFrom};
use std::marker::Model;

/// A store over the files of the operating system, which doesn't specify their content. Each call opens the file anew, so that it sees
/// the file as it is then. Contracts see how often the store has failed.
#[derive(Drop)]
pub struct FileStore<R> {
    rt: R,
    faults: u64,
}

impl<R> Model for FileStore<R> {
    ghost use Rattle.std.specs.Prelude.{ℕ};

    ghost Value = { ℕ };

    ghost view = { λ s. s.faults };
}

impl<R: Files> FileStore<R> {
    pub fn new(rt: R) -> FileStore<R>
        ensures { result ≡ 0 }
    {
        FileStore { rt, faults: 0 }
    }

    /// The result of a call, with an error counted.
    fn counted<T>(&mut self, answer: io::Result<T>) -> Result<T, Outage>
        ensures count { self.old ≤ self.new }
        ensures faults { CountsOutage result self.old self.new }
        ensures value { IfOk result (λ x. answer ≡ Ok x) }
    {
        match answer {
            Ok(value) => Ok(value),
            Err(_) => {
                self.faults = one_more(self.faults);
                Err(Outage::Failed)
            }
        }
    }
}

impl<R: Files> ReadFiles for FileStore<R> {
    ghost faults = { λ s. s };

    ghost files = { λ _. None };

    /// Reads bytes of the file from the offset `place` on until the buffer is full or the file ends, and gives their number. It
    /// fails if the file can't be opened or read there.
    fn read_at(&mut self, name: &str, place: u64, buffer: &mut [u8]) -> Result<usize, Outage>
        requires { 0 < length buffer.old }
        ensures within { IfOk result (λ n. n ≤ length buffer.new) }
        ensures count { self.old ≤ self.new }
        ensures faults { CountsOutage result self.old self.new }
    {
        let answer = read_at(&self.rt, name, place, buffer);
        self.counted(answer)
    }
}

impl<R: Files> WriteFiles for FileStore<R> {
    /// Creates the file if it is missing, empties it and writes these bytes.
    fn write(&mut self, name: &str, bytes: &[u8]) -> Result<(), Outage>
        ensures count { self.old ≤ self.new }
        ensures faults { CountsOutage result self.old self.new }
    {
        let answer = write(&self.rt, name, bytes);
        self.counted(answer)
    }
}

fn read_at<R: Files>(rt: &R, name: &str, place: u64, buffer: &mut [u8]) -> io::Result<usize>
    ensures { IfOk result (λ n. n ≤ length buffer.new) }
{
    let mut file = fs::open(rt, name)?;
    file.seek(SeekFrom::Start(place))?;
    read_full(&mut file, buffer)
}

fn write<R: Files>(rt: &R, name: &str, bytes: &[u8]) -> io::Result<()> {
    let mut file = fs::create(rt, name)?;
    write_out(&mut file, bytes)
}
