//! The host's input and output: a store of files that is read or written, a source of bytes and a sink of bytes, as traits that
//! specify what each call did; the objects in memory that implement them; the adapters over real files and streams; and a store that
//! has the program's input as a file.
#![tactic(auto)]

mod calls;
mod file_store;
mod input;
mod mem_sink;
mod mem_source;
mod mem_store;
mod sink;
mod source;
mod store;
mod streams;
mod sure;

pub use file_store::FileStore;
pub use input::InputStore;
pub use mem_sink::MemSink;
pub use mem_source::MemSource;
pub use mem_store::MemStore;
pub use sink::Sink;
pub use source::{Source, Take};
pub use store::{Outage, ReadFiles, WriteFiles};
pub use streams::{ReadSource, WriteSink};
pub use sure::{SureSink, SureSource};
