//! The command `spill NET ARR STORE`.
ghost use Rattle.std.specs.Prelude.{◌≡◌, ◌<◌, ◌++◌, IfOk, OnOk, length};
ghost use Rattle.arrivals.specs.Amounts.{AreArrivals, arriving_of};
ghost use Rattle.bounded_runs.specs.Runs.{IsRunOf};
ghost use Rattle.commands.specs.Outcome.{Outcome};
ghost use Rattle.controller_jobs.specs.{Meanings.spill_meaning, Storages.IsSpillTable, Storages.spilled_line, Storages.spilled_under};
ghost use Rattle.histories.specs.Histories.{turn_order};
ghost use Rattle.net_simulator.specs.Worlds.{line_in, signs_by};
ghost use Rattle.runs.specs.declared.records.RunRecord.{RunRecord};

use crate::kinds::StoreFile;
use arrivals::Arrivals;
use bounded_runs::turn_totals;
use commands::{Made, Refusal, Status, Work, job};
use net_simulator::Lines;
use outside_world::{Shelf, Sink};
use road_net::Network;
use scene_jobs::fetch_scene_with;
use spillback_control::spill_actuated;
use spillback_world::{SpillTotals, Store, spill_lines};
use std::alloc::{AllocError, Global};
use text_lines::push_line;

// What is counted in the world with a store under the last lines of the run of the turn order.
fn planned_totals(
    alloc: Global,
    net: &Network,
    arrivals: &Arrivals,
    store: &Store,
) -> Result<SpillTotals, AllocError>
    requires arrivals { AreArrivals net.now arrivals.now }
    requires store { length store.now ≡ length net.now.link_names }
    ensures { IfOk result (λ t. (run : RunRecord)
        × IsRunOf net.now (arriving_of arrivals.now) (turn_order net.now) run
        × (t ≡ spilled_under net.now (arriving_of arrivals.now) store.now (signs_by (line_in run.timelines)))) }
{
    let (left, _) = turn_totals(alloc, net, arrivals)?;
    let lines = Lines {
        all: left.timelines.as_slice(),
    };
    let totals = spill_lines(alloc, net, arrivals, store, &lines)?;
    Ok(totals)
}

// Appends a line of a word and totals to a text: what entered, left, is on the links, waits outside, and waited.
fn push_totals(text: &mut Vec<u8>, word: &[u8], totals: &SpillTotals) -> Result<(), AllocError>
    requires { length word.now < 50 }
    ensures { OnOk result (text.new.items ≡ text.old.items ++ spilled_line word.now totals.now) }
{
    push_line(
        text,
        word,
        &[
            totals.entered,
            totals.left,
            totals.on,
            totals.outside,
            totals.delay,
        ],
    )
}

// The totals of both runs in the world with a store. The first leaves nothing in memory when the second begins.
fn spill_table(
    alloc: Global,
    net: &Network,
    arrivals: &Arrivals,
    store: &Store,
) -> Result<Vec<u8>, AllocError>
    requires arrivals { AreArrivals net.now arrivals.now }
    requires store { length store.now ≡ length net.now.link_names }
    ensures { IfOk result (λ text. IsSpillTable net.now (arriving_of arrivals.now) store.now text.items) }
{
    let of_plans = planned_totals(alloc, net, arrivals, store)?;
    let of_calls = spill_actuated(alloc, net, arrivals, store)?;
    let mut text = Vec::new(alloc);
    push_totals(&mut text, b"planned", &of_plans)?;
    push_totals(&mut text, b"actuated", &of_calls)?;
    Ok(text)
}

/// `spill NET ARR STORE`.
#[derive(Clone, Copy)]
struct SpillWork<'a> {
    net: &'a str,
    arr: &'a str,
    store: &'a str,
}

impl Work for SpillWork<'_> {
    ghost use Rattle.controller_jobs.specs.Meanings.{spill_meaning};

    ghost means = { λ work. spill_meaning work.net.now work.arr.now work.store.now };

    fn make<S: Shelf>(&self, alloc: Global, shelf: &mut S) -> Result<Made, Refusal> {
        let read = fetch_scene_with::<StoreFile, S>(alloc, shelf, self.net, self.arr, self.store)?;
        let scene = &read.scene;
        let text = spill_table(alloc, &scene.network, &scene.arrivals, &read.value)?;
        Ok(Made::Done(text))
    }
}

/// The command `spill NET ARR STORE`: writes what is counted in the world whose links hold what the store says, under the last
/// lines of the run of the turn order, and under actuated control which senses that world, with the network, the arrivals and
/// the store in the files. It says nothing of which makes less delay.
///
/// Each status has its cause, and each refusal writes its line to `err`, as `signal` says.
///
/// docs/FORMATS.md, "Words".
pub fn spill_job<S: Shelf, O: Sink, E: Sink>(
    alloc: Global,
    net: &str,
    arr: &str,
    store: &str,
    shelf: &mut S,
    out: &mut O,
    err: &mut E,
) -> Status
    ensures { Outcome (spill_meaning net.now arr.now store.now)
        (record { shelf = S.state shelf.old; out = O.state out.old; err = E.state err.old })
        (record { shelf = S.state shelf.new; out = O.state out.new; err = E.state err.new }) result }
{
    job(alloc, &SpillWork { net, arr, store }, shelf, out, err)
}
