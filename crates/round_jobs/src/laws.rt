//! What answers to requests that go on from what was told last are.
ghost use Rattle.std.specs.Prelude.{◌≡◌, ◌≤◌, ◌++◌, ℕ, List, length};
ghost use Rattle.commands.specs.{Limits.most_bytes, declared.refusals.Refusal.Refusal};
ghost use Rattle.round_jobs.specs.Kinds.{StateText};
ghost use Rattle.round_jobs.specs.Serving.{IsDecided, IsDecidedNext, IsRefused, NextText, Records};
ghost use Rattle.record_text.specs.Records.{records_of};

use road_net::Network;

/// What is answered to a request that ends with `next` is what `decide` answers to a text with all its records: those of the request, and
/// then those that were told last. Both texts are within the limit.
///
/// docs/FORMATS.md, "Serving".
pub fn law_of_next_rounds(net: &Network)
    ensures decided { (told : Records) (text whole bytes : List ℕ) → records_of whole ≡ records_of text ++ told
        → length text ≤ most_bytes → length whole ≤ most_bytes
        → IsDecidedNext net.now told text bytes → IsDecided net.now whole bytes }
    ensures refused { (told : Records) (text whole : List ℕ) (why : Refusal) → records_of whole ≡ records_of text ++ told
        → length text ≤ most_bytes → length whole ≤ most_bytes
        → IsRefused (NextText net.now told) text why → IsRefused (StateText net.now) whole why }
{
    let _ = net;
}
