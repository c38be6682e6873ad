//! The line of an event.

ghost use Rattle.std.specs.Prelude.{◌≡◌, [], slice_get, unwrap_or, IfOk};
ghost use Rattle.sa_trace.specs.TraceRecords.{IsPlace};
ghost use Rattle.sa_trace.specs.Writing.{line};

use crate::trace_record::Event;
use itoa::Buffer;
use sa_ast::{Sources, line_of};
use std::alloc::{AllocError, Global};

/// `EVENT FILE:LINE NUMBER`, ended by a line feed.
pub(crate) fn line(alloc: Global, event: &Event, sources: &Sources) -> Result<Vec<u8>, AllocError>
    requires { IsPlace sources.now event.now.at }
    ensures { IfOk result (λ bytes. bytes.items ≡ line sources.now event.now) }
{
    let mut number = Buffer::new();
    let mut line = Vec::from_slice(alloc, event.kind.word().as_bytes())?;
    line.push(b' ')?;
    line.extend_from_slice(file_name(sources, event.at.file))?;
    line.push(b':')?;
    line.extend_from_slice(number.format(line_of(sources, event.at)).as_bytes())?;
    line.push(b' ')?;
    line.extend_from_slice(number.format(event.instance).as_bytes())?;
    line.push(b'\n')?;
    Ok(line)
}

/// The name of the text with this index, or no bytes where there is none.
fn file_name(sources: &Sources, file: u32) -> &[u8]
    ensures { result.now ≡ unwrap_or (slice_get sources.now.names file) [] }
{
    match sources.names.get(file as usize) {
        Some(name) => name.as_slice(),
        None => &[],
    }
}
