//! A source and a sink over a stream that transfers one byte a call, is interrupted, and fails.

use host_io::{Outage, ReadSource, Sink, Source, Take, WriteSink};
use std::io::{self, ErrorKind, Read, Write};
use std::test::Fail;

/// A stream that reads from its last byte on and writes after it, one byte a call, and whose calls fail as listed.
#[derive(Drop)]
struct Rough<'a> {
    bytes: Vec<u8>,
    errors: &'a [Option<ErrorKind>],
    calls: usize,
}

impl Rough<'_> {
    fn next_error(&mut self) -> Option<ErrorKind> {
        let error = self.errors.get(self.calls).copied().flatten();
        self.calls = self.calls.saturating_add(1);
        error
    }
}

impl Read for Rough<'_> {
    fn read(&mut self, buffer: &mut [u8]) -> io::Result<usize> {
        if let Some(kind) = self.next_error() {
            return Err(kind.into());
        }
        if buffer.is_empty() {
            return Ok(0);
        }
        match self.bytes.pop() {
            Some(byte) => {
                buffer[0] = byte;
                Ok(1)
            }
            None => Ok(0),
        }
    }
}

impl Write for Rough<'_> {
    fn write(&mut self, bytes: &[u8]) -> io::Result<usize> {
        if let Some(kind) = self.next_error() {
            return Err(kind.into());
        }
        if bytes.is_empty() {
            return Ok(0);
        }
        self.bytes.push(bytes[0])?;
        Ok(1)
    }

    fn flush(&mut self) -> io::Result<()> {
        Ok(())
    }
}

#[test]
fn a_source_reads_on_after_an_interruption_and_after_a_fault(rt: HostRuntime) -> Result<(), Fail> {
    let mut source = ReadSource::new(Rough {
        bytes: Vec::from_slice(rt.alloc(), b"ba")?,
        errors: &[Some(ErrorKind::Interrupted), None, Some(ErrorKind::Other)],
        calls: 0,
    });
    for answer in [Take::Byte(b'a'), Take::Failed, Take::Byte(b'b'), Take::End] {
        assert_eq!(rt; source.take(), answer);
    }
    Ok(())
}

#[test]
fn a_sink_writes_on_after_an_interruption_and_a_front_before_a_fault(
    rt: HostRuntime,
) -> Result<(), Fail> {
    let mut stream = Rough {
        bytes: Vec::new(rt.alloc()),
        errors: &[
            Some(ErrorKind::Interrupted),
            None,
            None,
            None,
            Some(ErrorKind::Other),
        ],
        calls: 0,
    };
    let mut sink = WriteSink::new(&mut stream);
    assert_eq!(rt; sink.put(b"ab"), Ok(()));
    assert_eq!(rt; sink.put(b"cd"), Err(Outage::Failed));
    assert_eq!(rt; sink.put(b"ef"), Ok(()));
    assert_eq!(rt; stream.bytes.as_slice(), b"abcef".as_slice());
    Ok(())
}
