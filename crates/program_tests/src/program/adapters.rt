//! The shelf over files and the sink over a stream.

use outside_world::{FileShelf, Shelf, ShelfFault, Sink, StreamSink};
use std::fs;
use std::io::{self, ErrorKind, Write};
use std::test::Fail;

// Of a file of 20,000 bytes, none like those beside it, and of what is no file: the name, how many bytes are asked for,
// and how many come.
const FETCHES: &[(&str, usize, Option<usize>)] = &[
    ("text", 30_000, Some(20_000)),
    ("text", 20_000, Some(20_000)),
    ("text", 10_000, Some(10_000)),
    ("text", 0, Some(0)),
    ("absent", 10, None),
    (".", 10, None),
];

#[test]
fn files(rt: HostRuntime) -> Result<(), Fail> {
    let alloc = rt.alloc();
    let mut text = Vec::new(alloc);
    for index in 0u32..20_000 {
        text.push((index % 251) as u8)?;
    }
    fs::write(&rt, "text", text.as_slice())?;
    let mut shelf = FileShelf::new(alloc, &rt);
    for &(name, most, length) in FETCHES {
        let as_wanted = match (shelf.fetch(alloc, name, most), length) {
            (Ok(bytes), Some(length)) => Some(bytes.as_slice()) == text.get(..length),
            (Err(ShelfFault::Failed), None) => true,
            _ => false,
        };
        assert!(rt; as_wanted, "{name} {most}");
    }
    fs::remove_file(&rt, "text")?;
    Ok(())
}

// A stream that takes at most three bytes a call, and fails at its fourth: by an error, or by taking nothing.
#[derive(Drop)]
struct Slow {
    bytes: Vec<u8>,
    calls: u32,
    takes_nothing: bool,
}

impl Write for Slow {
    fn write(&mut self, piece: &[u8]) -> io::Result<usize> {
        self.calls = self.calls.saturating_add(1);
        if self.calls == 4 {
            return if self.takes_nothing {
                Ok(0)
            } else {
                Err(io::Error::from(ErrorKind::BrokenPipe))
            };
        }
        let count = piece.len().min(3);
        match self.bytes.extend_from_slice(&piece[..count]) {
            Ok(()) => Ok(count),
            Err(_) => Err(io::Error::from(ErrorKind::OutOfMemory)),
        }
    }

    fn flush(&mut self) -> io::Result<()> {
        Ok(())
    }
}

// What is put, and whether it is taken whole.
const PIECES: &[(&str, bool)] = &[
    ("abcde", true),
    ("", true),
    ("fghij", false),
    ("klmno", true),
];

#[test]
fn streams(rt: HostRuntime) -> Result<(), Fail> {
    let alloc = rt.alloc();
    for takes_nothing in [false, true] {
        let mut slow = Slow {
            bytes: Vec::new(alloc),
            calls: 0,
            takes_nothing,
        };
        let mut sink = StreamSink::new(&mut slow);
        for &(piece, taken) in PIECES {
            assert!(rt; sink.put(piece.as_bytes()).is_ok() == taken, "{piece}");
        }
        drop(sink);
        assert_eq!(rt; slow.bytes.as_slice(), b"abcdefghklmno".as_slice());
    }
    Ok(())
}
