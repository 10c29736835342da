//! What a sequence serves.

ghost use Rattle.std.specs.Prelude.{◌≡◌, ◌≢◌, ◌^◌, ◌<◌, IfErr, IfOk, None, Some, length};
ghost use Rattle.std.specs.Option.{option_map};
ghost use Rattle.schedule_meaning.specs.{Listing.IsServingsFault, Timing.timed, Timing.timing};

use super::faults::SeqFault;
use super::instances::Instance;
use super::replays::{next_cluster, replay};
use foundation::steps::Steps;
use foundation::threads::CrossesThreads;
use std::alloc::{AllocError, Global};
use std::marker::Brand;
use std::sync::ledger::{Blank, Ledger};
use switch_rules::{Served, serve};

/// Why there is no list of what a sequence serves.
///
/// docs/RULES.md, "Sequence, feasibility, delay".
#[derive(Debug, Clone, Copy, PartialEq, Eq)]
pub enum ServingsFault {
    /// The sequence is not feasible; the fault is the one that `replay` names.
    Seq(SeqFault),
    /// The sequence is feasible, and memory ran out.
    NoMemory,
}

impl CrossesThreads for ServingsFault {}

/// What a sequence of phases serves from the instance's head, one cluster after another, for callers that count no
/// steps.
///
/// A fault `Seq` comes exactly where the sequence is not feasible; it is the first in the order of `SeqFault`. Memory
/// runs out only where it is feasible. The sequence has fewer than 2^32 numbers.
///
/// docs/RULES.md, "Sequence, feasibility, delay".
pub fn servings(alloc: Global, i: &Instance, seq: &[u8]) -> Result<Vec<Served>, ServingsFault>
    requires { length seq.now < 2 ^ 32 }
    ensures ok { IfOk result (λ list. option_map (λ t. t.0) (timed i.now seq.now) ≡ Some list.items) }
    ensures first { IfErr result (IsServingsFault i.now seq.now) }
{
    servings_in_ledger::<Brand>(alloc, i, seq, Blank::new(1))
}

/// What a sequence serves, its steps counted in the ledger of this blank.
fn servings_in_ledger<L: Ledger>(
    alloc: Global,
    i: &Instance,
    seq: &[u8],
    blank: Blank,
) -> Result<Vec<Served>, ServingsFault>
    requires name { blank.name ≡ L.name }
    requires parts { blank.parts ≡ L.parts }
    requires some { 0 < L.parts }
    requires short { length seq.now < 2 ^ 32 }
    ensures ok { IfOk result (λ list. option_map (λ t. t.0) (timed i.now seq.now) ≡ Some list.items) }
    ensures first { IfErr result (IsServingsFault i.now seq.now) }
{
    let mut steps = Steps::<L>::new(blank);
    match replay(i, seq, &mut steps) {
        Ok(_) => match list_servings(alloc, i, seq, &mut steps) {
            Ok(list) => Ok(list),
            Err(_) => Err(ServingsFault::NoMemory),
        },
        Err(fault) => Err(ServingsFault::Seq(fault)),
    }
}

/// What a feasible sequence serves.
fn list_servings<L: Ledger>(
    alloc: Global,
    i: &Instance,
    seq: &[u8],
    steps: &mut Steps<L>,
) -> Result<Vec<Served>, AllocError>
    requires { timing i.now seq.now ≢ None }
    ensures { IfOk result (λ list. option_map (λ t. t.0) (timed i.now seq.now) ≡ Some list.items) }
{
    let mut counts = [0; 4];
    let left = &mut counts[..i.plan().count() as usize];
    i.count(left);
    let mut head = i.head();
    let mut list = Vec::with_capacity(alloc, seq.len())?;
    for phase in seq {
        let cluster = next_cluster(i, *phase, left);
        let (served, next) = serve(i.plan(), &head, *phase, cluster, steps).unwrap();
        left[*phase as usize] -= 1;
        list.push(served)?;
        head = next;
    }
    Ok(list)
}
