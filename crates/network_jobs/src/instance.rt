//! The command `instance NET ARR HIST NODE ROUND`.
ghost use Rattle.std.specs.Prelude.{◌≡◌, ℕ, ◌<◌, List, IfErr, IfOk, IsSome, OnOk, Some, length};
ghost use Rattle.arrivals.specs.Amounts.{AreArrivals, arriving_of};
ghost use Rattle.histories.specs.Histories.{IsLawful};
ghost use Rattle.net_parts.specs.Numbers.{number_of};
ghost use Rattle.commands.specs.Outcome.{Outcome};
ghost use Rattle.network_jobs.specs.{Headline.IsPlannedText, Meanings.instance_meaning, Missing.IsWithoutPlan};

use crate::kinds::HistoryFile;
use arrivals::Arrivals;
use bounded_runs::kept_run;
use commands::{Made, Named, Refusal, Status, Work, job};
use histories::History;
use outside_world::{Shelf, Sink};
use road_net::Network;
use scene_jobs::fetch_scene_with;
use schedule_meaning::write_instance;
use std::alloc::{AllocError, Global};

/// `instance` with its words.
#[derive(Clone, Copy)]
struct InstanceWork<'a> {
    /// The file of the network.
    net: &'a str,
    /// The file of the arrivals at it.
    arr: &'a str,
    /// The file of a history of it.
    hist: &'a str,
    /// The name of the node that planned.
    node: &'a str,
    /// The round in which it did, from 0.
    round: u32,
}

// The number of a node, in a network that has this round too.
fn node_in_round(net: &Network, node: &str, round: u32) -> Result<u32, Refusal>
    ensures ok { IfOk result (λ number. number_of net.now.node_names node.now ≡ Some number) }
    ensures below { IfOk result (λ number. number < length net.now.node_names) }
    ensures round { OnOk result (round < net.now.run.rounds) }
    ensures refused { IfErr result (IsWithoutPlan net.now node.now round) }
{
    let Some(number) = net.find_node(node) else {
        return Err(Refusal::Missing { what: Named::Node });
    };
    if round < net.run().rounds {
        Ok(number)
    } else {
        Err(Refusal::Missing { what: Named::Round })
    }
}

// The text of the instance that the node with this number planned in a round of the run of a history.
fn planned_text(
    alloc: Global,
    net: &Network,
    arrivals: &Arrivals,
    h: &History,
    number: u32,
    round: u32,
) -> Result<Vec<u8>, AllocError>
    requires arrivals { AreArrivals net.now arrivals.now }
    requires lawful { IsLawful net.now h.now }
    requires number { number < length net.now.node_names }
    requires round { round < net.now.run.rounds }
    ensures { IfOk result (λ text. (node : List ℕ) → number_of net.now.node_names node ≡ Some number
        → IsPlannedText net.now (arriving_of arrivals.now) h.now node round text.items) }
{
    let run = kept_run(alloc, net, arrivals, h)?;
    write_instance(alloc, &run.plan(net, round, number).instance)
}

// The text of the instance that a node planned in a round of the run of a history.
fn find_planned_text(
    alloc: Global,
    net: &Network,
    arrivals: &Arrivals,
    h: &History,
    node: &str,
    round: u32,
) -> Result<Vec<u8>, Refusal>
    requires arrivals { AreArrivals net.now arrivals.now }
    requires lawful { IsLawful net.now h.now }
    ensures planned { IfOk result (λ text. IsPlannedText net.now
        (arriving_of arrivals.now) h.now node.now round text.items) }
    ensures exists { OnOk result (IsSome (number_of net.now.node_names node.now) × (round < net.now.run.rounds)) }
    ensures refused { IfErr result (IsWithoutPlan net.now node.now round) }
{
    let number = node_in_round(net, node, round)?;
    let text = planned_text(alloc, net, arrivals, h, number, round)?;
    Ok(text)
}

impl Work for InstanceWork<'_> {
    ghost use Rattle.network_jobs.specs.Meanings.{instance_meaning};

    ghost means = { λ work. instance_meaning work.net.now work.arr.now work.hist.now work.node.now work.round };

    // The text of the instance that a node planned in a round of the run of the history in the third file, with the network and the
    // arrivals in the first two.
    fn make<S: Shelf>(&self, alloc: Global, shelf: &mut S) -> Result<Made, Refusal> {
        let read = fetch_scene_with::<HistoryFile, S>(alloc, shelf, self.net, self.arr, self.hist)?;
        let text = find_planned_text(
            alloc,
            &read.scene.network,
            &read.scene.arrivals,
            &read.value,
            self.node,
            self.round,
        )?;
        Ok(Made::Done(text))
    }
}

/// The command `instance NET ARR HIST NODE ROUND`: writes the instance that a node planned in a round of the run of the history
/// in the third file, with the network and the arrivals in the first two. The answer of each certificate of it agrees with the
/// plan.
///
/// Each status has its cause, and each refusal writes its line to `err`, as `signal` says.
///
/// docs/FORMATS.md, "Words".
pub fn instance_job<S: Shelf, O: Sink, E: Sink>(
    alloc: Global,
    net: &str,
    arr: &str,
    hist: &str,
    node: &str,
    round: u32,
    shelf: &mut S,
    out: &mut O,
    err: &mut E,
) -> Status
    ensures { Outcome (instance_meaning net.now arr.now hist.now node.now round)
        (record { shelf = S.state shelf.old; out = O.state out.old; err = E.state err.old })
        (record { shelf = S.state shelf.new; out = O.state out.new; err = E.state err.new }) result }
{
    let work = InstanceWork {
        net,
        arr,
        hist,
        node,
        round,
    };
    job(alloc, &work, shelf, out, err)
}
