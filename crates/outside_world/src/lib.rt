//! The world outside the program: a shelf that texts are fetched from, a source that gives lines, and a sink that bytes are put into.
//! Each is a trait with a record of its failures that code over it can't add to by itself, an
//! implementation in memory that fails at the calls that it is given, and an adapter over std's files and streams.
#![tactic(auto)]

mod file_shelf;
mod keeping;
mod memory_shelf;
mod memory_sink;
mod memory_source;
mod shelf;
mod sink;
mod source;
mod stream_sink;
mod stream_source;

pub use file_shelf::FileShelf;
pub use memory_shelf::MemoryShelf;
pub use memory_sink::{MemorySink, SinkFail};
pub use memory_source::MemorySource;
pub use shelf::{Shelf, ShelfFault};
pub use sink::{Failed, Sink};
pub use source::{LineRead, Source};
pub use stream_sink::StreamSink;
pub use stream_source::StreamSource;
