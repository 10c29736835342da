//! Calls of the program over files and sinks in memory.
use crate::counted::Counted;
use board_model::OpenGate;
use foundation::items::Items;
use foundation::text::Text;
use outside_world::{MemoryShelf, MemorySink, MemorySource, SinkFail};
use signal_cli::program;
use std::alloc::{AllocError, Global};
use std::sync::Wait;
use std::thread::Threads;

/// How many bytes may be written to each sink.
const CAPACITY: usize = 32_000_000;

/// The number of a fetch and those of a put to `out` and to `err` that fail, from 1. Those with the number 0 do not.
#[derive(Debug, Clone, Copy)]
pub(crate) struct Failing {
    pub(crate) fetch: u32,
    pub(crate) out: SinkFail,
    pub(crate) err: SinkFail,
}

/// No put fails.
pub(crate) const NO_PUT: SinkFail = SinkFail { call: 0, kept: 0 };

/// Nothing fails.
pub(crate) const NOTHING: Failing = Failing {
    fetch: 0,
    out: NO_PUT,
    err: NO_PUT,
};

/// How a call of the program ended: its exit status, how often it fetched, and the sinks.
#[derive(Drop)]
pub(crate) struct Ending {
    pub(crate) status: u8,
    pub(crate) fetches: u32,
    pub(crate) out: Counted<MemorySink>,
    pub(crate) err: Counted<MemorySink>,
}

impl Ending {
    /// What was written to `out`.
    pub(crate) fn out(&self) -> &[u8] {
        self.out.of.bytes()
    }

    /// What was written to `err`.
    pub(crate) fn err(&self) -> &[u8] {
        self.err.of.bytes()
    }
}

/// The name of the file that is what a call reads from standard input.
const INPUT: &str = "stdin";

/// Calls the program with these words over these files, of which `stdin` is its input.
pub(crate) fn call<R: AllocGlobal + Threads + Wait + Sync>(
    rt: &R,
    alloc: Global,
    words: &[Text],
    files: Vec<(Text, Items<u8>)>,
    failing: Failing,
) -> Result<Ending, AllocError> {
    let fetches = Vec::from_slice(alloc, &[failing.fetch])?;
    let mut source = MemorySource::new(input_of(alloc, &files)?, Vec::new(alloc));
    let mut shelf = Counted::new(MemoryShelf::new(alloc, files, fetches));
    let mut out = sink(alloc, failing.out)?;
    let mut err = sink(alloc, failing.err)?;
    let status = program(
        rt,
        words,
        &mut shelf,
        &mut source,
        &mut out,
        &mut err,
        &OpenGate,
    );
    Ok(Ending {
        status: status.code(),
        fetches: shelf.calls,
        out,
        err,
    })
}

/// An empty sink of which this put fails.
fn sink(alloc: Global, fails: SinkFail) -> Result<Counted<MemorySink>, AllocError> {
    let fails = Vec::from_slice(alloc, &[fails])?;
    Ok(Counted::new(MemorySink::new(alloc, CAPACITY, fails)?))
}

/// The input of a call with these files.
fn input_of(alloc: Global, files: &[(Text, Items<u8>)]) -> Result<Vec<u8>, AllocError> {
    match files.iter().find(|file| file.0.as_str() == INPUT) {
        Some(file) => file.1.as_slice().to_vec(alloc),
        None => Ok(Vec::new(alloc)),
    }
}
