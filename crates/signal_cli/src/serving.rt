//! The program over what is outside: the words of `serve`, which has a source besides, and those of the top call.
ghost use Rattle.std.specs.Prelude.{◌≡◌, ◌≢◌, ℕ, List, [], ◌∷◌, IfNone, IfSome};
ghost use Rattle.signal_cli.specs.Programs.{Ends, serve_words};

use crate::signal;
use board_model::Gate;
use commands::Status;
use foundation::text::Text;
use outside_world::{Shelf, Sink, Source};
use round_jobs::serve;
use std::sync::Wait;
use std::thread::Threads;

/// The program over a shelf, a source and two sinks: serves a network where its words are those of `serve`, and else does what `signal` does
/// with them.
///
/// docs/FORMATS.md, "Words".
pub fn program<
    R: AllocGlobal + Threads + Wait + Sync,
    S: Shelf,
    I: Source,
    O: Sink,
    E: Sink,
    G: Gate + Sync,
>(
    rt: &R,
    words: &[Text],
    shelf: &mut S,
    source: &mut I,
    out: &mut O,
    err: &mut E,
    gate: &G,
) -> Status
    ensures { Ends words.now
        (record { shelf = S.state shelf.old; out = O.state out.old; err = E.state err.old })
        (record { shelf = S.state shelf.new; out = O.state out.new; err = E.state err.new })
        (I.state source.old) (I.state source.new) result }
{
    match served_network(words) {
        Some(net) => serve(rt.alloc(), net, shelf, source, out, err),
        None => signal(rt, rt.alloc(), words, shelf, out, err, gate),
    }
}

// The name of the file of the network that is to be served, where the words are `serve` and this name.
fn served_network(words: &[Text]) -> Option<&str>
    ensures some { IfSome result (λ net. words.now ≡ serve_words net.now) }
    ensures none { IfNone result ((net : List ℕ) → words.now ≢ serve_words net) }
{
    let (word, rest) = words.split_first()?;
    match word.as_str() {
        "serve" => only_word(rest),
        _ => None,
    }
}

// The word, where there is one.
fn only_word(words: &[Text]) -> Option<&str>
    ensures some { IfSome result (λ word. words.now ≡ word.now ∷ []) }
    ensures none { IfNone result ((word : List ℕ) → words.now ≢ word ∷ []) }
{
    match words {
        [word] => Some(word.as_str()),
        _ => None,
    }
}
