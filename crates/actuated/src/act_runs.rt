//! The run of a network under actuated control.

ghost use Rattle.std.specs.Prelude.{◌≡◌, ℕ, IfOk};
ghost use Rattle.arrivals.specs.Amounts.{AreArrivals, arriving_of};
ghost use Rattle.audit.specs.{Audits.AreLawful, Audits.IsClean, LineRuns.sheet_of, SheetTexts.HasShape};
ghost use Rattle.net_simulator.specs.{Counts.IsBalanced, Worlds.line_in};
ghost use Rattle.signal_safety.specs.Safe.{IsSafe};
ghost use Rattle.audit.specs.declared.line_runs.LineRun as spec;
ghost use Rattle.actuated.specs.{ActRuns.IsActRun, ActRuns.KeepsWaits, ActRuns.ShowsSigns, RunsSoFar.HavePlayed};
ghost use Rattle.actuated.specs.ActSteps as steps;

use super::act_steps::{act_rounds, act_step};
use super::records::ActRecord;
use super::renewing::{first_lines, renew_lines};
use super::sensing::sense_near;
use arrivals::Arrivals;
use audit::list_totals;
use control_flow::greens::Timeline;
use foundation::items::Items;
use net_simulator::starts::zeros;
use net_simulator::{Lines, World};
use road_net::{Network, law_of_network};
use std::alloc::{AllocError, Global};

/// The run of a network under actuated control, from second 0 up to the end of the last round: when a round of
/// the controller begins, of `act_step` seconds, the timeline of each node goes on by what the node senses then; and then
/// the world moves by the timelines up to the next one.
///
/// All timelines are lawful, and the network is safe. The last timelines show the signs by which the world
/// moved, and each queue of a link without a walk loses something within the bound of its phase, where it has one. The totals
/// are what the world shows under the last timelines, and what entered has left or is on the links.
///
/// `Err`: out of memory.
///
/// docs/RULES.md, "Actuated control".
pub fn run_actuated(
    alloc: Global,
    net: &Network,
    arrivals: &Arrivals,
) -> Result<ActRecord, AllocError>
    requires { AreArrivals net.now arrivals.now }
    ensures run { IfOk result (IsActRun net.now (arriving_of arrivals.now)) }
    ensures shape { IfOk result (λ run. HasShape net.now (sheet_of run)) }
    ensures lawful { IfOk result (λ run. AreLawful net.now run.timelines) }
    ensures safe { IfOk result (λ run. IsSafe net.now (line_in run.timelines)) }
    ensures signs { IfOk result (λ run. (is : IsActRun net.now (arriving_of arrivals.now) run)
        → ShowsSigns net.now is.made run) }
    ensures waits { IfOk result (λ run. (is : IsActRun net.now (arriving_of arrivals.now) run)
        → KeepsWaits net.now (arriving_of arrivals.now) is.made) }
    ensures clean { IfOk result (λ run. IsClean net.now (arriving_of arrivals.now) (sheet_of run)) }
    ensures whole { IfOk result (λ run. IsBalanced run.totals) }
{
    law_of_network(net);
    let lines = first_lines(alloc, net)?;
    let mut world = World::new(alloc, net)?;
    let lines = play_rounds(alloc, net, arrivals, lines, &mut world)?;
    let links = list_totals(alloc, net, &world)?;
    Ok(ActRecord {
        timelines: Items::from_vec(lines),
        links: Items::from_vec(links),
        totals: world.totals(),
    })
}

/// A network has one run under actuated control for what arrives at it: two records of it are the same.
///
/// docs/RULES.md, "Actuated control".
pub fn law_of_one_run(net: &Network)
    ensures { (arriving : ℕ → ℕ → ℕ) (one other : spec.LineRun)
        → IsActRun net.now arriving one → IsActRun net.now arriving other → one ≡ other }
{
    law_of_network(net);
}

/// Plays all rounds from the first one, and gives the last lines.
fn play_rounds(
    alloc: Global,
    net: &Network,
    arrivals: &Arrivals,
    mut lines: Vec<Timeline>,
    world: &mut World,
) -> Result<Vec<Timeline>, AllocError>
    requires arrivals { AreArrivals net.now arrivals.now }
    requires first { HavePlayed net.now (arriving_of arrivals.now) 0 lines.items world.old }
    ensures { IfOk result (λ played. HavePlayed net.now (arriving_of arrivals.now) (steps.act_rounds net.now)
        played.items world.new) }
{
    let mut near = zeros(alloc, net.links() as usize)?;
    let mut calls = Vec::with_capacity(alloc, 4)?;
    let step = act_step(net);
    let rounds = act_rounds(net);
    for _round in 0..rounds {
        sense_near(near.as_mut_slice(), net, world);
        lines = renew_lines(alloc, net, world.now(), near.as_slice(), lines, &mut calls)?;
        world.advance(
            net,
            &Lines {
                all: lines.as_slice(),
            },
            arrivals,
            step,
        );
    }
    Ok(lines)
}
