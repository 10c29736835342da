//! The whole table by its layers, as a certificate.

ghost use Rattle.std.specs.Prelude.{◌≡◌, ◌+◌, ◌<◌, ◌≤◌, IfOk, length};
ghost use Rattle.switch_rules.specs.Bounds.{most_clusters, most_entries};
ghost use Rattle.schedule_meaning.specs.{Best.IsBest, Instances.IsInstance};
ghost use Rattle.dp_certificate.specs.{Numbers.sequence_of, Proves.Proves, Whole.IsWhole};
ghost use Rattle.parallel_dp.specs.{Pieces.IsLayer, Ways.AreLayers, Ways.servings_of};

use crate::layers::{join_all, next_layer};
use crate::ways::answer_of_layers;
use dp_certificate::{Certificate, Entry};
use forward_dp::places;
use foundation::items::Items;
use foundation::steps::Steps;
use schedule_meaning::{Answer, Instance};
use std::alloc::{AllocError, Global};
use std::marker::Brand;
use std::sync::ledger::{Blank, Ledger};
use std::thread::Threads;

/// The whole table with the best answer, as `forward_dp::certify` makes it, layer by layer: each layer is extended from
/// the one before in pieces of this width, 1 to 4096 entries, in threads, and the pieces are joined. The width changes
/// nothing of the certificate.
///
/// It returns, also where no thread can be started: the calling thread then does the work. `Err`: out of memory.
///
/// docs/RULES.md, "Layers in pieces".
pub fn certify_par(
    rt: &(impl Threads + Sync),
    alloc: Global,
    i: &Instance,
    width: u32,
) -> Result<Certificate, AllocError>
    requires { (1 ≤ width) × (width ≤ 4096) }
    ensures instance { IfOk result (λ c. c.problem ≡ i.now) }
    ensures whole { IfOk result (λ c. IsWhole i.now c.entries) }
    ensures best { IfOk result (λ c. IsBest i.now c.answer) }
    ensures proves { IfOk result Proves }
    ensures few { IfOk result (λ c. (length c.entries ≤ most_entries)
        × (length (sequence_of c.answer) ≤ most_clusters)) }
{
    let layers = all_layers(rt, alloc, i, width as usize)?;
    let answer = answer_in_ledger::<Brand>(alloc, i, layers.as_slice(), Blank::new(1))?;
    let entries = join_all(alloc, layers.as_slice())?;
    let instance = i.copy(alloc)?;
    Ok(Certificate::of_lawful(instance, entries, answer))
}

/// The answer out of the layers, its servings counted in the ledger of this blank.
fn answer_in_ledger<L: Ledger>(
    alloc: Global,
    i: &Instance,
    layers: &[Items<Entry>],
    blank: Blank,
) -> Result<Answer, AllocError>
    requires name { blank.name ≡ L.name }
    requires parts { blank.parts ≡ L.parts }
    requires some { 0 < L.parts }
    requires lawful { IsInstance i.now }
    requires layers { AreLayers i.now (servings_of i.now + 1) layers.now }
    ensures { IfOk result (IsBest i.now) }
{
    let mut steps = Steps::<L>::new(blank);
    answer_of_layers(alloc, i, layers, &mut steps)
}

/// The layers, from that of no servings to that of all.
fn all_layers(
    rt: &(impl Threads + Sync),
    alloc: Global,
    i: &Instance,
    width: usize,
) -> Result<Vec<Items<Entry>>, AllocError>
    requires { (0 < width) × (width ≤ 4096) }
    ensures layers { IfOk result (λ v. AreLayers i.now (servings_of i.now + 1) v.items) }
    ensures instance { IsInstance i.now }
{
    let count = places(i);
    let mut layers = Vec::new(alloc);
    let mut layer = first_layer(alloc, i)?;
    for _ in 0..count {
        let next = next_layer(rt, alloc, i, layer.as_slice(), width)?;
        layers.push(Items::from_vec(layer))?;
        layer = next;
    }
    layers.push(Items::from_vec(layer))?;
    Ok(layers)
}

/// The layer of no servings: the entry of the start.
fn first_layer(alloc: Global, i: &Instance) -> Result<Vec<Entry>, AllocError>
    ensures { IfOk result (λ v. IsLayer i.now 0 v.items) }
{
    let head = i.head();
    let mut layer = Vec::with_capacity(alloc, 1)?;
    layer.push(Entry {
        counts: [0; 4],
        phase: head.phase,
        since: head.since,
        at: head.at,
        delay: 0,
    })?;
    Ok(layer)
}
