//! The run of a network under actuated control in the world with a store.

ghost use Rattle.std.specs.Prelude.{◌≡◌, ℕ, IfOk, length, slice_index};
ghost use Rattle.actuated.specs.ActSteps as steps;
ghost use Rattle.arrivals.specs.Amounts.{AreArrivals, arriving_of};
ghost use Rattle.audit.specs.Audits.{AreLawful};
ghost use Rattle.net_simulator.specs.Worlds.{line_in};
ghost use Rattle.signal_safety.specs.Safe.{IsSafe};
ghost use Rattle.spillback_control.specs.{SpillRounds.HaveSpilled, SpillRuns.CountsLastLines, SpillRuns.IsActuatedIn, SpillRuns.IsSpillRun, SpillRuns.LastLinesShow, SpillRuns.last_lines};
ghost use Rattle.spillback_world.specs.StoredTotals.{IsBalanced};
ghost use Rattle.spillback_world.specs.declared.totals.SpillTotals as spec;

use crate::records::SpillRun;
use crate::sensing::sense_near;
use actuated::{act_rounds, act_step, first_lines, renew_lines};
use arrivals::Arrivals;
use control_flow::greens::Timeline;
use foundation::items::Items;
use net_simulator::Lines;
use net_simulator::starts::zeros;
use road_net::{Network, law_of_network};
use spillback_world::{SpillTotals, SpillWorld, Store};
use std::alloc::{AllocError, Global};

/// What is counted of a network whose links hold what the store says, in its run under actuated control from second 0 up
/// to the end of the last round: when a round of the controller begins, of `act_step` seconds, the timeline of each node goes
/// on by what the node senses then of the world with that store; and then this world moves by the timelines up to the next one.
///
/// The last timelines are lawful, and the network is safe under them. They show the signs by which that world moved. What
/// entered has left or is on the links.
///
/// `Err`: out of memory.
///
/// docs/RULES.md, "Storage".
pub fn spill_actuated(
    alloc: Global,
    net: &Network,
    arrivals: &Arrivals,
    store: &Store,
) -> Result<SpillTotals, AllocError>
    requires arrivals { AreArrivals net.now arrivals.now }
    requires store { length store.now ≡ length net.now.link_names }
    ensures run { IfOk result (IsActuatedIn net.now (arriving_of arrivals.now) (slice_index store.now)) }
    ensures lawful { IfOk result (λ t. (is : IsActuatedIn net.now (arriving_of arrivals.now) (slice_index store.now) t)
        → AreLawful net.now (last_lines net.now is.made)) }
    ensures safe { IfOk result (λ t. (is : IsActuatedIn net.now (arriving_of arrivals.now) (slice_index store.now) t)
        → IsSafe net.now (line_in (last_lines net.now is.made))) }
    ensures signs { IfOk result (λ t. (is : IsActuatedIn net.now (arriving_of arrivals.now) (slice_index store.now) t)
        → LastLinesShow net.now is.made) }
    ensures whole { IfOk result IsBalanced }
{
    law_of_network(net);
    let run = spill_run(alloc, net, arrivals, store)?;
    Ok(run.totals)
}

/// The same run, with all that it leaves: its last timelines too.
///
/// They are lawful, and the network is safe under them; they show the signs by which that world moved, and what is counted in all
/// is what that world counts under them.
///
/// `Err`: out of memory.
///
/// docs/RULES.md, "Storage".
pub fn spill_run(
    alloc: Global,
    net: &Network,
    arrivals: &Arrivals,
    store: &Store,
) -> Result<SpillRun, AllocError>
    requires arrivals { AreArrivals net.now arrivals.now }
    requires store { length store.now ≡ length net.now.link_names }
    ensures run { IfOk result (IsSpillRun net.now (arriving_of arrivals.now) (slice_index store.now)) }
    ensures lines { IfOk result (λ run. length run.timelines ≡ length net.now.node_names) }
    ensures lawful { IfOk result (λ run. AreLawful net.now run.timelines) }
    ensures safe { IfOk result (λ run. IsSafe net.now (line_in run.timelines)) }
    ensures signs { IfOk result (λ run. (is : IsSpillRun net.now (arriving_of arrivals.now) (slice_index store.now) run)
        → LastLinesShow net.now is.actuated.made) }
    ensures counts { IfOk result (CountsLastLines net.now (arriving_of arrivals.now) (slice_index store.now)) }
    ensures whole { IfOk result (λ run. IsBalanced run.totals) }
{
    law_of_network(net);
    let lines = first_lines(alloc, net)?;
    let mut world = SpillWorld::new(alloc, net)?;
    let lines = play_rounds(alloc, net, arrivals, store, lines, &mut world)?;
    Ok(SpillRun {
        timelines: Items::from_vec(lines),
        totals: world.totals(),
    })
}

/// In a world with a store a network has one run under actuated control for what arrives at it: what is counted in two of
/// them is the same.
///
/// docs/RULES.md, "Storage".
pub fn law_of_one_spill(net: &Network)
    ensures { (arriving : ℕ → ℕ → ℕ) (store : ℕ → ℕ) (one other : spec.SpillTotals)
        → IsActuatedIn net.now arriving store one → IsActuatedIn net.now arriving store other → one ≡ other }
{
    law_of_network(net);
}

/// Plays all rounds from the first one, and gives the last lines.
fn play_rounds(
    alloc: Global,
    net: &Network,
    arrivals: &Arrivals,
    store: &Store,
    mut lines: Vec<Timeline>,
    world: &mut SpillWorld,
) -> Result<Vec<Timeline>, AllocError>
    requires arrivals { AreArrivals net.now arrivals.now }
    requires store { length store.now ≡ length net.now.link_names }
    requires first { HaveSpilled net.now (arriving_of arrivals.now) (slice_index store.now) 0
        lines.items world.old }
    ensures { IfOk result (λ played. HaveSpilled net.now (arriving_of arrivals.now) (slice_index store.now)
        (steps.act_rounds net.now) played.items world.new) }
{
    let mut near = zeros(alloc, net.links() as usize)?;
    let mut calls = Vec::with_capacity(alloc, 4)?;
    let step = act_step(net);
    let rounds = act_rounds(net);
    for _round in 0..rounds {
        sense_near(near.as_mut_slice(), net, world);
        lines = renew_lines(alloc, net, world.now(), near.as_slice(), lines, &mut calls)?;
        world.advance(
            net,
            store,
            &Lines {
                all: lines.as_slice(),
            },
            arrivals,
            step,
        );
    }
    Ok(lines)
}
