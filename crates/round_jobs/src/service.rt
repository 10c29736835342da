//! `serve NET`, which answers one request after another.
ghost use Rattle.std.specs.Prelude.{◌≡◌, ◌≤◌, ℕ, List, [], IfOk, IfErr, vec_capacity};
ghost use Rattle.commands.specs.Outcome.{Outside};
ghost use Rattle.round_jobs.specs.Gathering.{AreKeptAfter, EndsServing, IsAnsweredAll, IsGathered, IsHeard, IsLineTaken, IsOf, IsPut, IsPutFor, IsUntaken, request_of};
ghost use Rattle.round_jobs.specs.Serving.{Records, Serves, answer_to_others};
ghost use Rattle.net_parts.specs.Numbers.{Net};
ghost use Rattle.round_states.specs.NextTexts.{AreKept, AreOfAnswer};

use crate::answers::answer;
use crate::requests::{FRONT, Gathered, ends_request};
use commands::{MOST_BYTES, Refusal, Status, TextPlace, fetch, refuse};
use outside_world::{Failed, LineRead, Shelf, Sink, Source};
use road_net::Network;
use round_states::KeptRecords;
use scene_jobs::NetworkFile;
use std::alloc::{AllocError, Global};

/// The answer for which there is no memory.
const NO_MEMORY: &[u8] = b"refused,signal: no memory\nend\n";

/// The answer to lines that no request ends.
const UNENDED: &[u8] = b"refused,signal: cannot read 2\nend\n";

/// Reads the network in the file once, and answers each request of the source in its order: as `decide` does, or with one line that
/// says why it is refused, and a line `end` after either; then it goes on. A request that ends with `next` is answered as if what was told
/// last came after its records. Each answer is written before the next request is read. It ends with the source, or where that or a write
/// fails.
///
/// Each status has its cause, and each refusal writes its line to `err`, as `signal` says.
///
/// docs/FORMATS.md, "Serving".
pub fn serve<I: Source, S: Shelf, O: Sink, E: Sink>(
    alloc: Global,
    net: &str,
    shelf: &mut S,
    source: &mut I,
    out: &mut O,
    err: &mut E,
) -> Status
    ensures { Serves net.now
        (record { shelf = S.state shelf.old; out = O.state out.old; err = E.state err.old })
        (record { shelf = S.state shelf.new; out = O.state out.new; err = E.state err.new })
        (I.state source.old) (I.state source.new) result }
{
    match fetch::<NetworkFile, S>(alloc, shelf, TextPlace::First, net, &()) {
        Ok(network) => serve_network(alloc, &network, source, out, err),
        Err(why) => refuse(alloc, why, err),
    }
}

// Serves a network.
fn serve_network<I: Source, O: Sink, E: Sink>(
    alloc: Global,
    net: &Network,
    source: &mut I,
    out: &mut O,
    err: &mut E,
) -> Status
    ensures { EndsServing net.now (I.state source.old) (I.state source.new) (O.state out.old) (O.state out.new)
        (E.state err.old) (E.state err.new) result }
{
    match answer_all(alloc, net, source, out) {
        Ok(()) => Status::Done,
        Err(why) => refuse(alloc, why, err),
    }
}

// Answers all requests of a source.
fn answer_all<I: Source, O: Sink>(
    alloc: Global,
    net: &Network,
    source: &mut I,
    out: &mut O,
) -> Result<(), Refusal>
    ensures { IsAnsweredAll net.now (I.state source.old) (I.state source.new)
        (O.state out.old) (O.state out.new) result }
{
    let mut line = Vec::with_capacity(alloc, FRONT)?;
    let mut gathered = Gathered::none(alloc);
    let mut kept = KeptRecords::none(alloc);
    for _ in 0..u64::MAX {
        let read = match take_line(source, &mut line) {
            Ok(Some(read)) => read,
            Ok(None) => return finish(&gathered, out),
            Err(why) => return Err(why),
        };
        match hear(alloc, net, &line, read, &mut gathered, &mut kept, out) {
            Ok(()) => {}
            Err(why) => return Err(why),
        }
    }
    finish(&gathered, out)
}

// Takes the next line, of which the front that says whether it ends a request is kept in any case; none where the source has ended.
fn take_line<I: Source>(source: &mut I, line: &mut Vec<u8>) -> Result<Option<LineRead>, Refusal>
    requires { 5 ≤ vec_capacity line.old }
    ensures ok { IfOk result (λ read. IsLineTaken read (I.state source.old) (I.state source.new) line.new.items) }
    ensures refused { IfErr result (IsUntaken (I.state source.old) (I.state source.new)) }
    ensures capacity { vec_capacity line.old ≤ vec_capacity line.new }
{
    match source.take_line(line, MOST_BYTES + 1) {
        Ok(LineRead::End) => Ok(None),
        Ok(LineRead::Whole) => Ok(Some(LineRead::Whole)),
        Ok(LineRead::Part) => Ok(Some(LineRead::Part)),
        Err(Failed) => Err(Refusal::Unread {
            text: TextPlace::Second,
        }),
    }
}

// Adds a line to what is gathered of a request, or answers the request that it ends.
fn hear<O: Sink>(
    alloc: Global,
    net: &Network,
    line: &[u8],
    read: LineRead,
    gathered: &mut Gathered,
    kept: &mut KeptRecords,
    out: &mut O,
) -> Result<(), Refusal>
    requires { AreOfAnswer kept.old }
    ensures { (lines : List (List ℕ)) → (whole : List ℕ) → (told : Records) → IsGathered lines gathered.old
        → AreKept net.now told kept.old → IsOf whole read line.now
        → IsHeard net.now told lines whole gathered.new kept.new (O.state out.old) (O.state out.new) result }
{
    if !ends_request(line) {
        gathered.add(line, read);
        return Ok(());
    }
    match put_answer(alloc, net, line, read, gathered, kept, out) {
        Ok(()) => {
            gathered.clear();
            Ok(())
        }
        Err(why) => Err(why),
    }
}

// Writes the answer to the request of which this is gathered, and which this line ends, and keeps what is told last.
fn put_answer<O: Sink>(
    alloc: Global,
    net: &Network,
    line: &[u8],
    read: LineRead,
    gathered: &Gathered,
    kept: &mut KeptRecords,
    out: &mut O,
) -> Result<(), Refusal>
    requires { AreOfAnswer kept.old }
    ensures { (lines : List (List ℕ)) → (whole : List ℕ) → (told : Records) → IsGathered lines gathered.now
        → AreKept net.now told kept.old → IsOf whole read line.now
        → IsPutFor net.now told (request_of lines whole) kept.new (O.state out.old) (O.state out.new) result }
{
    match answer(alloc, net, gathered, line, read, kept) {
        Ok(answer) => {
            keep_last(answer.kept, kept);
            put(&answer.text, out)
        }
        Err(AllocError) => put(NO_MEMORY, out),
    }
}

// Keeps what an answer tells, where it tells something.
fn keep_last(new: Option<KeptRecords>, kept: &mut KeptRecords)
    ensures { (net : Net) → (before after : Records) → AreKept net before kept.old → AreKeptAfter net before new after
        → AreKept net after kept.new }
{
    if let Some(new) = new {
        *kept = new;
    }
}

// Answers what is left where the source has ended, if anything is.
fn finish<O: Sink>(gathered: &Gathered, out: &mut O) -> Result<(), Refusal>
    ensures put { (lines : List (List ℕ)) → IsGathered lines gathered.now
        → IsPut (answer_to_others lines) (O.state out.old) (O.state out.new) result }
    ensures others { IfErr result (λ why. ¬ IsGathered [] gathered.now) }
{
    if gathered.has_begun {
        put(UNENDED, out)
    } else {
        Ok(())
    }
}

// Writes an answer.
fn put<O: Sink>(bytes: &[u8], out: &mut O) -> Result<(), Refusal>
    ensures { IsPut bytes.now (O.state out.old) (O.state out.new) result }
{
    match out.put(bytes) {
        Ok(()) => Ok(()),
        Err(Failed) => Err(Refusal::Unwritten),
    }
}
