//! Calls of the program over files and sinks in memory, with the open gate.

use board_model::OpenGate;
use foundation::items::Items;
use foundation::text::Text;
use outside_world::{MemoryShelf, MemorySink, SinkFail};
use signal_cli::{Status, signal};
use std::alloc::{AllocError, Global};
use std::sync::Wait;
use std::thread::Threads;

/// The whole text of two clusters that meet: the plan is 0 1, with delay 24000.
pub(crate) const TWO_CLUSTERS: &str =
    "instance 1\nphases 2\nphase 5 30 3 2 2 120\nphase 5 30 3 2 2 120\nhead 0 0 0 kept\ncluster 0 4000 0 8\ncluster 1 2000 3 4\nend\n";

/// What `plan` writes for the two clusters.
pub(crate) const TWO_CLUSTERS_PLAN: &str = "delay 24000\norder 0 1\n";

/// Which calls of the two sinks fail.
#[derive(Clone, Copy)]
pub(crate) struct Faults<'a> {
    pub(crate) out: &'a [SinkFail],
    pub(crate) err: &'a [SinkFail],
}

/// Nothing fails.
pub(crate) const NO_FAULTS: Faults<'static> = Faults { out: &[], err: &[] };

/// How a call of the program ended.
#[derive(Drop)]
pub(crate) struct Ending {
    status: Status,
    out: MemorySink,
    err: MemorySink,
}

impl Ending {
    /// Whether it ended with this status, and these texts in `out` and `err`.
    pub(crate) fn is(&self, status: Status, out: &str, err: &str) -> bool {
        self.status == status
            && self.out.bytes() == out.as_bytes()
            && self.err.bytes() == err.as_bytes()
    }
}

/// Calls the program with these words. Its shelf has one file, `file`, with this text, and 1000 bytes may be written.
pub(crate) fn run<R: Threads + Wait + Sync>(
    rt: &R,
    alloc: Global,
    words: &[&str],
    text: &[u8],
    faults: Faults<'_>,
) -> Result<Ending, AllocError> {
    run_with_room(rt, alloc, words, text.to_vec(alloc)?, faults, 1000)
}

/// The same, where this number of bytes may be written.
pub(crate) fn run_with_room<R: Threads + Wait + Sync>(
    rt: &R,
    alloc: Global,
    words: &[&str],
    text: Vec<u8>,
    faults: Faults<'_>,
    capacity: usize,
) -> Result<Ending, AllocError> {
    let words = texts(alloc, words)?;
    let files = vec![in alloc; file(alloc, "file", text)?]?;
    let mut shelf = MemoryShelf::new(alloc, files, Vec::new(alloc));
    let mut out = MemorySink::new(alloc, capacity, faults.out.to_vec(alloc)?)?;
    let mut err = MemorySink::new(alloc, 1000, faults.err.to_vec(alloc)?)?;
    let status = signal(rt, alloc, &words, &mut shelf, &mut out, &mut err, &OpenGate);
    Ok(Ending { status, out, err })
}

/// Words as texts.
fn texts(alloc: Global, words: &[&str]) -> Result<Vec<Text>, AllocError> {
    let mut texts = Vec::new(alloc);
    for word in words {
        texts.push(Text::from_string(String::from_str(alloc, word)?))?;
    }
    Ok(texts)
}

/// A file of a shelf.
pub(crate) fn file(
    alloc: Global,
    name: &str,
    text: Vec<u8>,
) -> Result<(Text, Items<u8>), AllocError> {
    let name = Text::from_string(String::from_str(alloc, name)?);
    Ok((name, Items::from_vec(text)))
}
