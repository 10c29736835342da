//! What is kept of a line while its pieces come.
ghost use Rattle.std.specs.Prelude.{◌≡◌, ◌≢◌, ◌<◌, ◌≤◌, ℕ, List, ◌++◌, length, min, vec_capacity};
ghost use Rattle.outside_world.specs.Keeping.{IsKept, IsPiece};
ghost use Rattle.outside_world.specs.declared.source.LineRead.TheVariants as LineRead;

use crate::source::LineRead;
use memchr::memchr;

/// Keeps of a further piece of a line as much as there is memory for, and no more than `most` bytes in all. Once a part alone is kept,
/// nothing more is.
pub(crate) fn keep(line: &mut Vec<u8>, piece: &[u8], most: usize, so_far: LineRead) -> LineRead
    ensures kept { (came : List ℕ) (capacity : ℕ) → capacity ≤ vec_capacity line.old
        → IsKept so_far came (min capacity most) line.old.items
        → IsKept result (came ++ piece.now) (min capacity most) line.new.items }
    ensures most { length line.old.items ≤ most → length line.new.items ≤ most }
    ensures capacity { vec_capacity line.old ≤ vec_capacity line.new }
{
    match so_far {
        LineRead::Part => LineRead::Part,
        LineRead::End | LineRead::Whole => keep_more(line, piece, most),
    }
}

/// The same where all that came so far is kept.
fn keep_more(line: &mut Vec<u8>, piece: &[u8], most: usize) -> LineRead
    ensures kept { (capacity : ℕ) → capacity ≤ vec_capacity line.old
        → IsKept result (line.old.items ++ piece.now) (min capacity most) line.new.items }
    ensures most { length line.old.items ≤ most → length line.new.items ≤ most }
    ensures some { result ≢ LineRead.End }
    ensures capacity { vec_capacity line.old ≤ vec_capacity line.new }
{
    let wanted = piece.len().min(most.saturating_sub(line.len()));
    let spare = wanted.min(line.capacity() - line.len());
    if line.extend_from_slice(&piece[..wanted]).is_ok() {
        return if wanted < piece.len() {
            LineRead::Part
        } else {
            LineRead::Whole
        };
    }
    line.extend_from_slice(&piece[..spare]).unwrap();
    LineRead::Part
}

/// How many of these bytes are a piece of the next line: those up to the first line feed, or all where there is none.
pub(crate) fn piece_of(bytes: &[u8]) -> usize
    ensures piece { IsPiece bytes.now result }
    ensures some { 0 < length bytes.now → 0 < result }
{
    match memchr(b'\n', bytes) {
        Some(place) => place + 1,
        None => bytes.len(),
    }
}
