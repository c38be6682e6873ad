//! The program: the driver over the real store, streams and arguments.
#![tactic(auto)]

use host_io::{FileStore, InputStore, ReadSource, Sink, WriteSink};
use sa_driver::{Cause, NO_MEMORY, sather};
use std::alloc::Global;
use std::env::{self, Env};
use std::io::{self, BufReader, ErrorKind};
use std::process::ExitCode;

fn main(rt: HostRuntime) -> ExitCode {
    let alloc = rt.alloc();
    let mut err = WriteSink::new(rt.stderr());
    let words = match arguments(&rt, alloc) {
        Ok(words) => words,
        // Arguments that aren't UTF-8 form no command, and neither does an empty command line.
        Err(error) if error.kind() == ErrorKind::InvalidData => Vec::new(alloc),
        Err(_) => return out_of_memory(&mut err),
    };
    // A command that reads a file from the input takes it whole. A program takes no byte more than it asks for.
    let Ok(ahead) = BufReader::new(alloc, rt.stdin()) else {
        return out_of_memory(&mut err);
    };
    let mut store = InputStore::new(alloc, FileStore::new(&rt), ReadSource::new(ahead));
    let mut input = ReadSource::new(rt.stdin());
    let mut out = WriteSink::of_stream(rt.stdout());
    let exit = sather(
        alloc,
        words.as_slice(),
        &mut store,
        &mut input,
        &mut out,
        &mut err,
    );
    ExitCode::from(exit.status)
}

/// The end where there is no memory to begin with. As in the driver, the status doesn't change where err fails.
fn out_of_memory(err: &mut impl Sink) -> ExitCode {
    let _ = err.put(NO_MEMORY);
    ExitCode::from(Cause::NoMemory.status())
}

/// The arguments of the command line, without the program's name. The error is `InvalidData` where one isn't UTF-8, and else want of
/// memory.
fn arguments(rt: &(impl Env + AllocGlobal), alloc: Global) -> io::Result<Vec<String>> {
    Ok(env::args(rt)?.skip(1).collect(alloc)?)
}
