//! The best answer out of the layers: from the end back over the entries that come to the least delay, then forward
//! along the first phases.

ghost use Rattle.std.specs.Prelude.{◌≡◌, ◌+◌, ◌↔◌, ◌<◌, ◌≤◌, [], All, Contains, IfNone, IfOk, IfSome, IsTrue, false, length, true};
ghost use Rattle.schedule_meaning.specs.{Best.IsBest, Instances.IsInstance};
ghost use Rattle.dp_certificate.specs.{Certificates.AreRising, Certificates.IsEntry, Prefixes.first_stage, Proves.stage_of_entry, declared.Entry.Entry as Line};
ghost use Rattle.parallel_dp.specs.Ways.{AreAllWays, AreLayers, AreThose, IsFirstBest, IsFirstWay, IsLeastDelay, IsOnWay, LeadsInto, NoneLeads, servings_of};

use crate::joins::cheaper;
use crate::next::has_key_at;
use dp_certificate::{Entry, next_after, place_of};
use foundation::items::Items;
use foundation::steps::Steps;
use schedule_meaning::{Answer, Instance};
use std::alloc::{AllocError, Global};
use std::sync::ledger::Ledger;

/// The best answer of an instance, out of its layers.
pub(crate) fn answer_of_layers<L: Ledger>(
    alloc: Global,
    i: &Instance,
    layers: &[Items<Entry>],
    steps: &mut Steps<L>,
) -> Result<Answer, AllocError>
    requires lawful { IsInstance i.now }
    requires layers { AreLayers i.now (servings_of i.now + 1) layers.now }
    ensures { IfOk result (IsBest i.now) }
{
    let Some(best) = cheapest(layers[layers.len() - 1].as_slice()) else {
        return Ok(Answer::NoPlan);
    };
    let delay = best.delay;
    let ways = all_ways(alloc, i, layers, delay, steps)?;
    let start = layers[0].as_slice()[0];
    let sequence = follow(alloc, i, start, ways.as_slice(), delay, steps)?;
    Ok(Answer::Plan {
        sequence: Items::from_vec(sequence),
        delay,
    })
}

/// Of some entries one with the least delay.
fn cheapest(entries: &[Entry]) -> Option<Entry>
    ensures none { IfNone result (entries.now ≡ []) }
    ensures among { IfSome result (Contains entries.now) }
    ensures least { IfSome result (λ best. All (λ e. best.delay ≤ e.delay) entries.now) }
{
    let mut best = *entries.first()?;
    for entry in entries {
        best = cheaper(&best, entry);
    }
    Some(best)
}

/// The entries that come to the least delay, for each number of servings that are left, but for all.
fn all_ways<L: Ledger>(
    alloc: Global,
    i: &Instance,
    layers: &[Items<Entry>],
    delay: u64,
    steps: &mut Steps<L>,
) -> Result<Vec<Items<Entry>>, AllocError>
    requires lawful { IsInstance i.now }
    requires layers { AreLayers i.now (servings_of i.now + 1) layers.now }
    requires delay { IsLeastDelay i.now delay }
    ensures { IfOk result (λ v. AreAllWays i.now delay (servings_of i.now) v.items) }
{
    let count = layers.len() - 1;
    let mut all = Vec::new(alloc);
    let mut ways = of_delay(alloc, layers[count].as_slice(), delay)?;
    for left in 0..count {
        let layer = layers[count - 1 - left].as_slice();
        let before = leading_into(alloc, i, layer, ways.as_slice(), delay, steps)?;
        all.push(Items::from_vec(ways))?;
        ways = before;
    }
    Ok(all)
}

/// The entries of a layer with this delay.
fn of_delay(alloc: Global, layer: &[Entry], delay: u64) -> Result<Vec<Entry>, AllocError>
    requires { AreRising layer.now }
    ensures { IfOk result (λ v. AreThose (λ e. e.delay ≡ delay) layer.now v.items) }
{
    let mut those = Vec::new(alloc);
    for entry in layer {
        if entry.delay == delay {
            those.push(*entry)?;
        }
    }
    Ok(those)
}

/// The entries of a layer with no more than this delay from which a phase leads to one of these.
fn leading_into<L: Ledger>(
    alloc: Global,
    i: &Instance,
    layer: &[Entry],
    ways: &[Entry],
    delay: u64,
    steps: &mut Steps<L>,
) -> Result<Vec<Entry>, AllocError>
    requires lawful { IsInstance i.now }
    requires rising { AreRising layer.now }
    requires entries { All (IsEntry i.now) layer.now }
    requires ways { AreRising ways.now }
    ensures { IfOk result (λ v. AreThose (IsOnWay i.now delay ways.now) layer.now v.items) }
{
    let mut those = Vec::new(alloc);
    for entry in layer {
        if leads_into(i, entry, ways, delay, steps) {
            those.push(*entry)?;
        }
    }
    Ok(those)
}

/// Whether an entry has no more than this delay, and a phase leads from it to one of these.
fn leads_into<L: Ledger>(
    i: &Instance,
    entry: &Entry,
    ways: &[Entry],
    delay: u64,
    steps: &mut Steps<L>,
) -> bool
    requires entry { IsEntry i.now entry.now }
    requires ways { AreRising ways.now }
    ensures some { result ≡ true → IsOnWay i.now delay ways.now entry.now }
    ensures none { result ≡ false → entry.now.delay ≤ delay → NoneLeads i.now ways.now entry.now (length i.now.plan) }
{
    if entry.delay > delay {
        return false;
    }
    match first_way(i, entry, ways, steps) {
        Some(_) => true,
        None => false,
    }
}

/// The first phase that leads from an entry to one of these, and where it leads.
fn first_way<L: Ledger>(
    i: &Instance,
    entry: &Entry,
    ways: &[Entry],
    steps: &mut Steps<L>,
) -> Option<(u8, Entry)>
    requires entry { IsEntry i.now entry.now }
    requires ways { AreRising ways.now }
    ensures none { IfNone result (NoneLeads i.now ways.now entry.now (length i.now.plan)) }
    ensures some { IfSome result (λ x. IsFirstWay i.now ways.now entry.now x.0 x.1) }
{
    for phase in 0..i.plan().count() {
        if let Some(next) = next_among(i, entry, phase, ways, steps) {
            return Some((phase, next));
        }
    }
    None
}

/// What is next after an entry by a phase, where it is one of these.
fn next_among<L: Ledger>(
    i: &Instance,
    entry: &Entry,
    phase: u8,
    ways: &[Entry],
    steps: &mut Steps<L>,
) -> Option<Entry>
    requires phase { phase < length i.now.plan }
    requires few { length i.now.plan ≤ 4 }
    requires entry { IsEntry i.now entry.now }
    requires ways { AreRising ways.now }
    ensures none { IfNone result ((x : Line) → LeadsInto i.now ways.now entry.now phase x → ⊥) }
    ensures some { IfSome result (LeadsInto i.now ways.now entry.now phase) }
{
    let next = next_after(i, entry, phase, steps)?;
    if is_among(ways, &next) {
        Some(next)
    } else {
        None
    }
}

/// Whether an entry is one of these.
fn is_among(entries: &[Entry], entry: &Entry) -> bool
    requires { AreRising entries.now }
    ensures { IsTrue result ↔ Contains entries.now entry.now }
{
    let place = place_of(entries, entry, 0);
    has_key_at(entries, entry, place) && entries[place].delay == entry.delay
}

/// The phases from the start on, each the first that leads to the least delay.
fn follow<L: Ledger>(
    alloc: Global,
    i: &Instance,
    start: Entry,
    ways: &[Items<Entry>],
    delay: u64,
    steps: &mut Steps<L>,
) -> Result<Vec<u8>, AllocError>
    requires lawful { IsInstance i.now }
    requires start { stage_of_entry i.now start ≡ first_stage i.now }
    requires ways { AreAllWays i.now delay (servings_of i.now) ways.now }
    requires delay { IsLeastDelay i.now delay }
    ensures { IfOk result (λ v. IsFirstBest i.now v.items delay) }
{
    let mut sequence = Vec::with_capacity(alloc, ways.len())?;
    let mut here = start;
    for left in (0..ways.len()).rev() {
        let (phase, next) = first_way(i, &here, ways[left].as_slice(), steps).unwrap();
        sequence.push(phase)?;
        here = next;
    }
    Ok(sequence)
}
