//! The requests of `serve`: which line ends one, whom it asks, and what is gathered of one.
ghost use Rattle.std.specs.Prelude.{◌≡◌, ◌≢◌, ◌↔◌, ◌<◌, ◌≤◌, ◌+◌, ◌++◌, ◌∷◌, ℕ, List, [], All, IsTrue, IfNone, IfErr, IfSome, OnOk, codes, length, take};
ghost use Rattle.std.specs.Str.{bytes_eq};
ghost use Rattle.std.specs.Io.BufRead.{strip_last};
ghost use Rattle.std.specs.List.{slice_split};
ghost use Rattle.std.specs.Option.{option_map, option_map_or};
ghost use Rattle.round_jobs.specs.{Gathering.IsFirstComma, Gathering.IsGathered, Gathering.IsOf, Gathering.IsTooMuch, Requests.EndsRequest, Requests.IsEnd, Requests.IsNext, Requests.names_after_end, Requests.names_in};
ghost use Rattle.outside_world.specs.declared.source.LineRead.TheVariants as variant;

use commands::MOST_BYTES;
use outside_world::LineRead;
use std::alloc::{AllocError, Global};

/// How many bytes at the front of a line say whether it ends a request.
pub(crate) const FRONT: usize = 5;

/// How long what is before the names in a line is, `end` and a comma.
const BEFORE_NAMES: usize = 4;

/// Why the text of a request is lost.
#[derive(Debug, Clone, Copy, PartialEq, Eq)]
pub(crate) enum Lost {
    /// It is longer than a text may be.
    Long,
    /// Memory ran out.
    NoMemory,
}

/// What is gathered of a request while its lines come.
#[derive(Drop)]
pub(crate) struct Gathered {
    /// The text of its state so far, where it is not lost.
    pub(crate) text: Vec<u8>,
    /// Whether a line came.
    pub(crate) has_begun: bool,
    /// Why it is lost, where it is.
    pub(crate) lost: Option<Lost>,
}

impl Gathered {
    /// Nothing.
    pub(crate) fn none(alloc: Global) -> Gathered
        ensures { IsGathered [] result }
    {
        Gathered {
            text: Vec::new(alloc),
            has_begun: false,
            lost: None,
        }
    }

    /// Adds a line, of which this was read.
    pub(crate) fn add(&mut self, line: &[u8], read: LineRead)
        ensures { (lines : List (List ℕ)) → (whole : List ℕ) → IsGathered lines self.old → IsOf whole read line.now
            → IsGathered (lines ++ whole ∷ []) self.new }
    {
        self.has_begun = true;
        if self.lost.is_some() {
            return;
        }
        match append(&mut self.text, line, read) {
            Ok(()) => {}
            Err(why) => self.lost = Some(why),
        }
    }

    /// Forgets all that was gathered.
    pub(crate) fn clear(&mut self)
        ensures { IsGathered [] self.new }
    {
        self.text.clear();
        self.has_begun = false;
        self.lost = None;
    }
}

// Appends a line, of which this was read, to the text of a state.
fn append(text: &mut Vec<u8>, line: &[u8], read: LineRead) -> Result<(), Lost>
    ensures ok { OnOk result (text.new.items ≡ text.old.items ++ line.now) }
    ensures whole { OnOk result (read ≢ variant.Part) }
    ensures refused { IfErr result (IsTooMuch text.old.items line.now) }
{
    if line.len() > MOST_BYTES.saturating_sub(text.len()) {
        return Err(Lost::Long);
    }
    if read == LineRead::Part {
        return Err(Lost::NoMemory);
    }
    match text.extend_from_slice(line) {
        Ok(()) => Ok(()),
        Err(AllocError) => Err(Lost::NoMemory),
    }
}

/// Whether a line ends a request. The front of it is enough.
pub(crate) fn ends_request(line: &[u8]) -> bool
    ensures { IsTrue result ↔ EndsRequest line.now }
{
    is_end(line) || is_next(line)
}

// Whether a line is `end`, or begins with `end` and a comma.
fn is_end(line: &[u8]) -> bool
    ensures { IsTrue result ↔ IsEnd line.now }
{
    let front = &line[..line.len().min(BEFORE_NAMES)];
    front == b"end\n".as_slice() || front == b"end,".as_slice() || front == b"end".as_slice()
}

// Whether a line is `next`.
fn is_next(line: &[u8]) -> bool
    ensures { IsTrue result ↔ IsNext line.now }
{
    let front = &line[..line.len().min(FRONT)];
    front == b"next\n".as_slice() || front == b"next".as_slice()
}

/// Whether the request that this line ends asks for the state that goes on from what was told last.
pub(crate) fn asks_next(line: &[u8]) -> bool
    ensures { result ≡ bytes_eq (take 4 line.now) (codes "next") }
{
    &line[..line.len().min(BEFORE_NAMES)] == b"next".as_slice()
}

/// The names in the line that ends a request, with commas between them; none where it asks all nodes.
pub(crate) fn names_after_end(line: &[u8]) -> Option<&[u8]>
    ensures { option_map (λ names. names.now) result ≡ names_after_end line.now }
{
    let front = &line[..line.len().min(BEFORE_NAMES)];
    if front == b"end,".as_slice() {
        Some(without_feed(&line[BEFORE_NAMES..]))
    } else {
        None
    }
}

// The bytes without the line feed at their end, if they have one.
fn without_feed(bytes: &[u8]) -> &[u8]
    ensures { result.now ≡ strip_last 10 bytes.now }
{
    if !bytes.is_empty() && bytes[bytes.len() - 1] == b'\n' {
        &bytes[..bytes.len() - 1]
    } else {
        bytes
    }
}

/// The first of some names with commas between them, and the others, where there are any.
pub(crate) fn split_name(names: &[u8]) -> (&[u8], Option<&[u8]>)
    ensures names { names_in names.now ≡ result.0.now ∷ option_map_or (λ others. names_in others.now) result.1 [] }
    ensures shorter { option_map_or (λ others. length others.now + 1) result.1 0 ≤ length names.now }
{
    match first_comma(names) {
        Some(place) => (&names[..place], Some(&names[place + 1..])),
        None => (names, None),
    }
}

// The place of the first comma.
fn first_comma(names: &[u8]) -> Option<usize>
    ensures some { IfSome result (IsFirstComma names.now) }
    ensures none { IfNone result (All (λ byte. byte ≢ 44) names.now) }
{
    names.iter().position(|&byte| byte == b',')
}
