//! What `serve` answers to a request.
ghost use Rattle.std.specs.Prelude.{◌≡◌, ◌≤◌, ◌++◌, ℕ, List, IfOk, IfErr, codes, length};
ghost use Rattle.std.specs.List.{concat};
ghost use Rattle.commands.specs.{Limits.most_bytes, Refusals.bad_line, Texts.IsReadAs};
ghost use Rattle.round_jobs.specs.Kinds.{AskedText, StateText, node_state_of};
ghost use Rattle.round_jobs.specs.{Gathering.HasLine, Gathering.IsAnswerTo, Gathering.IsGathered, Gathering.IsOf, Gathering.IsReply, Gathering.OrNoMemory, Gathering.request_of};
ghost use Rattle.round_jobs.specs.{Requests.OfAll, Requests.OfNext, Requests.asked_by, Requests.names_in};
ghost use Rattle.round_jobs.specs.Requests as requests;
ghost use Rattle.round_jobs.specs.Serving.{IsFirstRefused, IsNodeDecided, IsNodeRefused, IsRefused, IsWhy, NextText, Records, end_line, refused_answer};
ghost use Rattle.round_states.specs.NextTexts.{AreKept, AreOfAnswer};
ghost use Rattle.commands.specs.declared.refusals.TextPlace.TheVariants as place;
ghost use Rattle.road_net.specs.Network.{IsNetwork};
ghost use Rattle.round_states.specs.States.{IsStateOf};

use crate::decide::{Reply, decide_all, turn_text};
use crate::requests::{Gathered, Lost, asks_next, names_after_end, split_name};
use commands::{Flaw, MOST_BYTES, Named, Refusal, TextPlace, too_long};
use outside_world::LineRead;
use record_text::node_named;
use road_net::{Network, law_of_network};
use round_states::{Asked, KeptRecords, RoundState, read_state, read_state_with};
use std::alloc::{AllocError, Global};
use text_lines::push_one;

/// The answer to a request of which this was gathered, and which this line ends, of which this was read, where this is kept of what was told last.
pub(crate) fn answer(
    alloc: Global,
    net: &Network,
    gathered: &Gathered,
    line: &[u8],
    read: LineRead,
    kept: &KeptRecords,
) -> Result<Reply, AllocError>
    requires { AreOfAnswer kept.now }
    ensures { (told : Records) → AreKept net.now told kept.now
        → IfOk result (λ answer. (lines : List (List ℕ)) → (last : List ℕ) → IsGathered lines gathered.now
        → IsOf last read line.now → IsAnswerTo net.now told (request_of lines last) answer) }
{
    match reply_for(alloc, net, gathered, line, read, kept) {
        Ok(reply) => Ok(Reply {
            text: with_end(reply.text)?,
            kept: reply.kept,
        }),
        Err(why) => Ok(Reply {
            text: refusal_text(alloc, why)?,
            kept: None,
        }),
    }
}

// A text with the line that ends an answer.
fn with_end(text: Vec<u8>) -> Result<Vec<u8>, AllocError>
    ensures { IfOk result (λ answer. answer.items ≡ text.items ++ end_line) }
{
    let mut text = text;
    text.extend_from_slice(b"end\n")?;
    Ok(text)
}

// The answer that is a refusal.
fn refusal_text(alloc: Global, why: Refusal) -> Result<Vec<u8>, AllocError>
    requires { HasLine why }
    ensures { IfOk result (λ answer. answer.items ≡ refused_answer why) }
{
    match why {
        Refusal::Bad { code, .. } => state_refusal(alloc, &code),
        Refusal::Missing { .. } => Vec::from_slice(alloc, b"refused,signal: bad node\nend\n"),
        _ => Vec::from_slice(alloc, b"refused,signal: no memory\nend\n"),
    }
}

// The answer that a state's text is refused, with this code.
fn state_refusal(alloc: Global, code: &[u8]) -> Result<Vec<u8>, AllocError>
    ensures { IfOk result (λ answer. answer.items
        ≡ codes "refused," ++ bad_line place.Second code.now ++ end_line) }
{
    let mut answer = Vec::new(alloc);
    push_one(&mut answer, b"refused,signal: bad ", 2)?;
    answer.extend_from_slice(b" ")?;
    answer.extend_from_slice(code)?;
    answer.extend_from_slice(b"\nend\n")?;
    Ok(answer)
}

// What is decided of a request, or why it is refused.
fn reply_for(
    alloc: Global,
    net: &Network,
    gathered: &Gathered,
    line: &[u8],
    read: LineRead,
    kept: &KeptRecords,
) -> Result<Reply, Refusal>
    requires { AreOfAnswer kept.now }
    ensures ok { (told : Records) → AreKept net.now told kept.now
        → IfOk result (λ reply. (lines : List (List ℕ)) → (last : List ℕ) → IsGathered lines gathered.now
        → IsOf last read line.now → IsReply net.now told (concat lines) (asked_by last) reply) }
    ensures refused { (told : Records) → AreKept net.now told kept.now
        → IfErr result (λ why. (lines : List (List ℕ)) → (last : List ℕ) → IsGathered lines gathered.now
        → IsOf last read line.now → IsWhy net.now told (request_of lines last) why) }
    ensures line { IfErr result HasLine }
{
    match gathered.lost {
        Some(Lost::Long) => Err(too_long(alloc, TextPlace::Second)),
        Some(Lost::NoMemory) => Err(Refusal::NoMemory),
        None => match read {
            LineRead::Whole => reply_to(alloc, net, &gathered.text, line, kept),
            LineRead::Part | LineRead::End => Err(Refusal::NoMemory),
        },
    }
}

// What is decided of a state's text for those whom the line that ends the request asks, or why it is refused.
fn reply_to(
    alloc: Global,
    net: &Network,
    text: &[u8],
    last: &[u8],
    kept: &KeptRecords,
) -> Result<Reply, Refusal>
    requires { AreOfAnswer kept.now }
    ensures ok { (told : Records) → AreKept net.now told kept.now
        → IfOk result (IsReply net.now told text.now (asked_by last.now)) }
    ensures refused { (told : Records) → AreKept net.now told kept.now
        → IfErr result (λ why. (lines : List (List ℕ)) → text.now ≡ concat lines
        → IsWhy net.now told (request_of lines last.now) why) }
    ensures line { IfErr result HasLine }
{
    if text.len() > MOST_BYTES {
        return Err(too_long(alloc, TextPlace::Second));
    }
    if asks_next(last) {
        return next_round(alloc, net, text, kept);
    }
    match names_after_end(last) {
        None => all_nodes(alloc, net, text),
        Some(names) => nodes(alloc, net, text, names),
    }
}

// What is decided of a state's text for all nodes.
fn all_nodes(alloc: Global, net: &Network, text: &[u8]) -> Result<Reply, Refusal>
    requires { length text.now ≤ most_bytes }
    ensures ok { IfOk result (λ reply. (told : Records) → IsReply net.now told text.now OfAll reply) }
    ensures refused { IfErr result (OrNoMemory (IsRefused (StateText net.now) text.now)) }
{
    let state = state_for(alloc, net, text, Asked::AllNodes)?;
    let reply = decide_all(alloc, net, state)?;
    Ok(reply)
}

// The same, where what was told last comes after the text.
fn next_round(
    alloc: Global,
    net: &Network,
    text: &[u8],
    kept: &KeptRecords,
) -> Result<Reply, Refusal>
    requires few { length text.now ≤ most_bytes }
    requires kept { AreOfAnswer kept.now }
    ensures ok { (told : Records) → AreKept net.now told kept.now
        → IfOk result (IsReply net.now told text.now OfNext) }
    ensures refused { (told : Records) → AreKept net.now told kept.now
        → IfErr result (OrNoMemory (IsRefused (NextText net.now told) text.now)) }
    ensures line { IfErr result HasLine }
{
    let state = next_state(alloc, net, text, kept)?;
    let reply = decide_all(alloc, net, state)?;
    Ok(reply)
}

// What is decided of a state's text for the nodes with these names, one after another.
fn nodes(alloc: Global, net: &Network, text: &[u8], names: &[u8]) -> Result<Reply, Refusal>
    requires { length text.now ≤ most_bytes }
    ensures ok { IfOk result (λ reply. (told : Records)
        → IsReply net.now told text.now (requests.OfNames (names_in names.now)) reply) }
    ensures refused { IfErr result (OrNoMemory (IsFirstRefused net.now text.now (names_in names.now))) }
{
    let mut all = Vec::new(alloc);
    let mut left = Some(names);
    while let Some(names) = left {
        let (name, others) = split_name(names);
        let part = match one_node(alloc, net, text, name) {
            Ok(part) => part,
            Err(why) => return Err(why),
        };
        all.extend_from_slice(&part)?;
        left = others;
    }
    Ok(Reply {
        text: all,
        kept: None,
    })
}

// What is decided of a state's text for the node with this name.
fn one_node(alloc: Global, net: &Network, text: &[u8], name: &[u8]) -> Result<Vec<u8>, Refusal>
    requires { length text.now ≤ most_bytes }
    ensures ok { IfOk result (λ bytes. IsNodeDecided net.now text.now name.now bytes.items) }
    ensures refused { IfErr result (OrNoMemory (IsNodeRefused net.now text.now name.now)) }
{
    law_of_network(net);
    let node = node_named(net, name);
    let state = match state_for(alloc, net, text, Asked::OneNode(node)) {
        Ok(state) => state,
        Err(why) => return Err(why),
    };
    let Some(number) = node else {
        return Err(Refusal::Missing { what: Named::Node });
    };
    let text = turn_text(alloc, net, state, number)?;
    Ok(text)
}

// The state that a text tells for these nodes.
fn state_for(alloc: Global, net: &Network, text: &[u8], asked: Asked) -> Result<RoundState, Refusal>
    requires { length text.now ≤ most_bytes }
    ensures read { IfOk result (IsReadAs (AskedText net.now asked) text.now) }
    ensures state { IfOk result (IsStateOf net.now asked) }
    ensures refused { IfErr result (OrNoMemory (IsRefused (AskedText net.now asked) text.now)) }
{
    match read_state(alloc, text, net, asked) {
        Ok(state) => Ok(state),
        Err(fault) => Err(Flaw::from_fault(alloc, fault).into_refusal(TextPlace::Second)),
    }
}

// The state that a text tells for all nodes, where what was told last comes after it.
fn next_state(
    alloc: Global,
    net: &Network,
    text: &[u8],
    kept: &KeptRecords,
) -> Result<RoundState, Refusal>
    requires few { length text.now ≤ most_bytes }
    requires kept { AreOfAnswer kept.now }
    ensures read { (told : Records) → AreKept net.now told kept.now
        → IfOk result (IsReadAs (NextText net.now told) text.now) }
    ensures state { IfOk result (IsStateOf net.now Asked.AllNodes) }
    ensures refused { (told : Records) → AreKept net.now told kept.now
        → IfErr result (OrNoMemory (IsRefused (NextText net.now told) text.now)) }
    ensures line { IfErr result HasLine }
{
    match read_state_with(alloc, text, net, Asked::AllNodes, kept) {
        Ok(state) => Ok(state),
        Err(fault) => Err(Flaw::from_fault(alloc, fault).into_refusal(TextPlace::Second)),
    }
}
