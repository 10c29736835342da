//! What is served next after an entry.

ghost use Rattle.std.specs.Prelude.{◌≡◌, ℕ, ◌+◌, ◌<◌, ◌≤◌, ◌↔◌, IfNone, IfSome, IsTrue, None, Ok, Some, false, length, slice_get, slice_index};
ghost use Rattle.std.specs.Option.{option_map};
ghost use Rattle.switch_rules.specs.Serving.{IsCluster, serving};
ghost use Rattle.schedule_meaning.specs.Instances.{list_at};
ghost use Rattle.dp_certificate.specs.{Certificates.IsEntry, Certificates.head_of, NextEntry.IsNext, NextEntry.stage_of_next, Prefixes.stage_after, Proves.stage_of_entry};

use super::Entry;
use foundation::steps::Steps;
use schedule_meaning::Instance;
use std::sync::ledger::Ledger;
use switch_rules::{Cluster, Head, Served, serve};

/// What is next after an entry when the next cluster of a phase is served: the served cluster, and the entry of the
/// counts, the green and the delay after it. None where its serving is unfit. It is one step.
///
/// docs/RULES.md, "Table".
pub fn serve_next<L: Ledger>(
    i: &Instance,
    entry: &Entry,
    phase: u8,
    cluster: &Cluster,
    steps: &mut Steps<L>,
) -> Option<(Served, Entry)>
    requires phase { phase < length i.now.plan }
    requires entry { IsEntry i.now entry.now }
    requires cluster { slice_get (list_at i.now.lists phase) (slice_index entry.now.counts phase) ≡ Some cluster.now }
    ensures value { option_map (λ x. stage_of_next x.1) result
        ≡ stage_after i.now (stage_of_entry i.now entry.now) phase }
    ensures served { IfSome result (λ x. serving i.now.plan (stage_of_entry i.now entry.now).head phase cluster.now
        ≡ Ok (x.0, head_of x.1 false)) }
    ensures bounds { IfSome result (λ x. IsNext i.now x.1) }
    ensures steps { steps.new ≤ steps.old + 1 }
{
    let head = head_at(i, entry);
    let Ok((served, next)) = serve(i.plan(), &head, phase, cluster, steps) else {
        return None;
    };
    let mut counts = entry.counts;
    counts[phase as usize] += 1;
    let next = Entry {
        counts,
        phase: next.phase,
        since: next.since,
        at: next.at,
        delay: entry.delay + served.cost,
    };
    Some((served, next))
}

/// What is next after an entry by a phase, as an entry; none where no cluster of it is left, or where its serving is
/// unfit. It is at most one step.
///
/// docs/RULES.md, "Table".
pub fn next_after<L: Ledger>(
    i: &Instance,
    entry: &Entry,
    phase: u8,
    steps: &mut Steps<L>,
) -> Option<Entry>
    requires phase { phase < length i.now.plan }
    requires few { length i.now.plan ≤ 4 }
    requires entry { IsEntry i.now entry.now }
    ensures value { option_map stage_of_next result ≡ stage_after i.now (stage_of_entry i.now entry.now) phase }
    ensures bounds { IfSome result (IsNext i.now) }
    ensures steps { steps.new ≤ steps.old + 1 }
{
    let cluster = cluster_at(i, phase, entry.counts[phase as usize])?;
    let (_, next) = serve_next(i, entry, phase, cluster, steps)?;
    Some(next)
}

/// The cluster of a phase at this index, from 0.
fn cluster_at(i: &Instance, phase: u8, index: u8) -> Option<&Cluster>
    requires phase { phase < length i.now.plan }
    ensures none { IfNone result (slice_get (list_at i.now.lists phase) index ≡ None) }
    ensures some { IfSome result (λ cluster. (slice_get (list_at i.now.lists phase) index ≡ Some cluster.now)
        × IsCluster cluster.now) }
{
    i.list(phase).get(usize::from(index))
}

/// Whether no cluster is left of any phase, where these are served.
///
/// docs/RULES.md, "Table".
pub fn is_all_served(i: &Instance, counts: &[u8; 4]) -> bool
    requires { (k : ℕ) → slice_index counts.now k ≤ length (list_at i.now.lists k) }
    ensures { IsTrue result ↔ ((k : ℕ) → slice_index counts.now k ≡ length (list_at i.now.lists k)) }
{
    for phase in 0..i.plan().count() {
        if usize::from(counts[phase as usize]) != i.list(phase).len() {
            return false;
        }
    }
    true
}

/// The head that an entry stands for: its green is fresh at the start alone, and there as the instance's is.
#[inline]
fn head_at(i: &Instance, entry: &Entry) -> Head
    ensures { result ≡ (stage_of_entry i.now entry.now).head }
{
    let start = i.head();
    let [first, second, third, fourth] = entry.counts;
    let is_start = first == 0
        && second == 0
        && third == 0
        && fourth == 0
        && entry.phase == start.phase
        && entry.since == start.since
        && entry.at == start.at;
    Head {
        phase: entry.phase,
        since: entry.since,
        at: entry.at,
        fresh: is_start && start.fresh,
    }
}
