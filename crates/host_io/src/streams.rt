//! A source over a reader and a sink over a writer.

ghost use Rattle.std.specs.Prelude.{◌≡◌, ◌↔◌, ◌<◌, ◌≤◌, [], false, None, length, IsTrue, IsOk, IfOk, OnOk, OnErr, take};
ghost use Rattle.std.specs.Io.{ReadsAtMost};
ghost use Rattle.std.specs.Io.KnownBytes.{Appends, ReadConsumes, WriteAppends};
ghost use Rattle.host_io.specs.Adapters.{Draws, faults_after, CountsOutage, AppendsFront};

use crate::calls::one_more;
use crate::sink::Sink;
use crate::source::{Source, Take};
use crate::store::Outage;
use std::io::{self, ErrorKind, IsTerminal, Read, Write};
use std::marker::Model;

/// A source over a reader, which doesn't specify what it has left. It reads a byte at a time: give it a `BufReader` if
/// that is too slow. Contracts see the reader, whether it has reported its end, and how often it has failed.
#[derive(Drop)]
pub struct ReadSource<R: Read> {
    reader: R,
    ended: bool,
    faults: u64,
}

impl<R: Read> Model for ReadSource<R> {
    ghost use Rattle.std.specs.Prelude.{IsTrue};
    ghost use Rattle.std.specs.Io.KnownBytes.{IsAtEnd};
    ghost use Rattle.host_io.specs.Adapters.{ReaderState, reader_code};

    ghost Value = { ReaderState R };

    ghost coded = { reader_code R.code };

    ghost view = { λ s. record { reader = s.reader; ended = s.ended; faults = s.faults } };

    ghost invariant = { λ s. IsTrue s.ended → IsAtEnd (R.remaining s.reader) };
}

impl<R: Read> ReadSource<R> {
    pub fn new(reader: R) -> ReadSource<R>
        ensures { result ≡ record { reader = reader; ended = false; faults = 0 } }
    {
        ReadSource {
            reader,
            ended: false,
            faults: 0,
        }
    }
}

impl<R: Read> Source for ReadSource<R> {
    ghost faults = { λ s. s.faults };

    ghost input = { λ _. None };

    ghost ended = { λ s. s.ended };

    /// Gives the next byte of the reader, or the end. After its first end it gives no further byte.
    fn take(&mut self) -> Take
        ensures count { self.old.faults ≤ self.new.faults }
        ensures faults { self.new.faults ≡ faults_after result self.old.faults }
        ensures draws { Draws result (R.remaining self.old.reader) (R.remaining self.new.reader) }
        ensures reported { IsTrue self.new.ended ↔ (result ≡ Take.End) }
        ensures ended { IsTrue self.old.ended → result ≡ Take.End }
    {
        if self.ended {
            return Take::End;
        }
        let answer = read_byte(&mut self.reader);
        match answer {
            Take::Byte(_) => {}
            Take::End => self.ended = true,
            Take::Failed => self.faults = one_more(self.faults),
        }
        answer
    }
}

/// A sink over a writer, which doesn't specify what it has taken. Contracts see the writer, and how often it has failed.
#[derive(Drop)]
pub struct WriteSink<W> {
    writer: W,
    faults: u64,
    wants_lines: bool,
}

impl<W> Model for WriteSink<W> {
    ghost use Rattle.host_io.specs.Adapters.{WriterState, writer_code};

    ghost Value = { WriterState W };

    ghost coded = { writer_code W.code };

    ghost view = { λ s. record { writer = s.writer; faults = s.faults } };
}

impl<W: Write> WriteSink<W> {
    pub fn new(writer: W) -> WriteSink<W>
        ensures { result ≡ record { writer = writer; faults = 0 } }
    {
        WriteSink {
            writer,
            faults: 0,
            wants_lines: false,
        }
    }
}

impl<W: Write + IsTerminal> WriteSink<W> {
    /// A sink over a stream, which wants each line at once if the stream is a terminal.
    pub fn of_stream(writer: W) -> WriteSink<W>
        ensures { result ≡ record { writer = writer; faults = 0 } }
    {
        let wants_lines = writer.is_terminal();
        WriteSink {
            writer,
            faults: 0,
            wants_lines,
        }
    }
}

impl<W: Write> Sink for WriteSink<W> {
    ghost faults = { λ s. s.faults };

    ghost output = { λ _. None };

    /// Writes these bytes and flushes the writer. After an error a prefix of them was written. An empty piece calls
    /// nothing.
    fn put(&mut self, bytes: &[u8]) -> Result<(), Outage>
        ensures count { self.old.faults ≤ self.new.faults }
        ensures faults { CountsOutage result self.old.faults self.new.faults }
        ensures ok { OnOk result (Appends (W.contents self.old.writer) (W.contents self.new.writer) bytes.now) }
        ensures outage { OnErr result
            (AppendsFront (W.contents self.old.writer) (W.contents self.new.writer) bytes.now) }
        ensures empty { bytes.now ≡ [] → IsOk result × (self.new ≡ self.old) }
    {
        if bytes.is_empty() {
            return Ok(());
        }
        match write_out(&mut self.writer, bytes) {
            Ok(()) => Ok(()),
            Err(_) => {
                self.faults = one_more(self.faults);
                Err(Outage::Failed)
            }
        }
    }

    /// Whether it is over a terminal.
    fn wants_lines(&self) -> bool {
        self.wants_lines
    }
}

/// One read of a reader. An interrupted read is tried again.
fn read_some<R: Read>(reader: &mut R, buffer: &mut [u8]) -> io::Result<usize>
    ensures within { ReadsAtMost result buffer.new }
    ensures bytes { ReadConsumes (R.remaining reader.old) (R.remaining reader.new) result buffer.new }
{
    for _ in 0..u64::MAX {
        match reader.read(buffer) {
            Err(error) if error.kind() == ErrorKind::Interrupted => {}
            answer => return answer,
        }
    }
    Err(ErrorKind::TimedOut.into())
}

/// Reads until the buffer is full or the reader is at its end, and gives the number of bytes read.
pub(crate) fn read_full<R: Read>(reader: &mut R, buffer: &mut [u8]) -> io::Result<usize>
    ensures { IfOk result (λ count. count ≤ length buffer.new) }
{
    let mut filled = 0;
    while filled < buffer.len() {
        let count = read_some(reader, &mut buffer[filled..])?;
        if count == 0 {
            break;
        }
        filled += count;
    }
    Ok(filled)
}

/// The next byte of a reader, or the end.
fn read_byte<R: Read>(reader: &mut R) -> Take
    ensures { Draws result (R.remaining reader.old) (R.remaining reader.new) }
{
    let mut byte = [0];
    match read_some(reader, &mut byte) {
        Ok(0) => Take::End,
        Ok(_) => Take::Byte(byte[0]),
        Err(_) => Take::Failed,
    }
}

/// One write to a writer, of at least one byte. An interrupted write is tried again.
fn write_some<W: Write>(writer: &mut W, bytes: &[u8]) -> io::Result<usize>
    requires { 0 < length bytes.now }
    ensures count { IfOk result (λ count. (0 < count) × (count ≤ length bytes.now)) }
    ensures bytes { WriteAppends (W.contents writer.old) (W.contents writer.new) result bytes.now }
{
    for _ in 0..u64::MAX {
        match writer.write(bytes) {
            Ok(0) => return Err(ErrorKind::WriteZero.into()),
            Err(error) if error.kind() == ErrorKind::Interrupted => {}
            answer => return answer,
        }
    }
    Err(ErrorKind::TimedOut.into())
}

/// Writes all of these bytes, in as many writes as necessary. After an error a prefix of them was written.
fn write_all<W: Write>(writer: &mut W, bytes: &[u8]) -> io::Result<()>
    ensures ok { OnOk result (Appends (W.contents writer.old) (W.contents writer.new) bytes.now) }
    ensures err { OnErr result (AppendsFront (W.contents writer.old) (W.contents writer.new) bytes.now) }
{
    let mut written = 0;
    while written < bytes.len() {
        written += write_some(writer, &bytes[written..])?;
    }
    Ok(())
}

/// Writes all of these bytes and flushes the writer. After an error a prefix of them was written.
pub(crate) fn write_out<W: Write>(writer: &mut W, bytes: &[u8]) -> io::Result<()>
    ensures ok { OnOk result (Appends (W.contents writer.old) (W.contents writer.new) bytes.now) }
    ensures err { OnErr result (AppendsFront (W.contents writer.old) (W.contents writer.new) bytes.now) }
{
    write_all(writer, bytes)?;
    writer.flush()?;
    Ok(())
}
