//! Forecasts of what comes to the end of an exit link.
ghost use Rattle.std.specs.Prelude.{◌≡◌, ◌+◌, ◌-◌, ◌<◌, ◌≤◌, ℕ, All, Contains, IfOk, length, slice_index};
ghost use Rattle.std.specs.List.{range_with_len};
ghost use Rattle.net_parts.specs.{Limits.most_look, Limits.most_seconds, Outline.link_at};
ghost use Rattle.clusters.specs.{Sound.AreOfNode, Windows.counts_of};
ghost use Rattle.outflow.specs.Outflow.{AreServed, departures, told_forecast, positive_rows};
ghost use Rattle.road_net.specs.Network.{exit_links};

use crate::exit_flow::fill_exit_flow;
use crate::servings::Servings;
use board_model::{Forecast, Row};
use clusters::Window;
use road_net::Network;
use std::alloc::{AllocError, Global};
use switch_rules::Served;

/// When the vehicles of these servings will come to the end of an exit link of the node: for each second before
/// `now` + look, what turns into the exit of all that leaves in time, where that is more than nothing.
///
/// `now` is at most 86,400. The window's platoons are the node's from `now` on, each with a part for each link of its phase,
/// in their order, with an amount for each second of at most the link's `sat`. The servings are those of one feasible
/// sequence of the clusters of `w`, or none at all.
///
/// The rows are at most 180, each of 1 to 80,000 in a second before `now` + look, and none comes before `now` + travel of the
/// exit. No servings make the empty forecast. `Err`: out of memory.
///
/// docs/RULES.md, "Predicted outflow".
pub fn forecast(
    alloc: Global,
    net: &Network,
    node: u32,
    w: &Window,
    phases: &[u8],
    served: &[Served],
    exit: u32,
    now: u32,
) -> Result<Forecast, AllocError>
    requires node { node < length net.now.node_names }
    requires now { now ≤ most_seconds }
    requires exit { Contains (exit_links net.now node) exit }
    requires platoons { AreOfNode net.now node now w.now.lists }
    requires served { AreServed w.now.lists phases.now served.now }
    ensures value { IfOk result (λ forecast. forecast ≡ told_forecast net.now exit now
        (departures w.now.lists (counts_of w.now.lists) phases.now served.now)) }
    ensures later { IfOk result (λ forecast. All (λ row. now + (link_at net.now exit).travel ≤ row.second) forecast) }
{
    // The exit is one of these links, so it exists.
    let _exits = net.exit_links(node);
    let servings = Servings { phases, served };
    let mut places = [0; 180];
    let amounts = &mut places[..net.run().look as usize];
    fill_exit_flow(amounts, net, node, w, &servings, exit, now);
    rows(alloc, now, amounts)
}

/// The rows of the seconds in which something comes, the first amount being that of the second `now`.
fn rows(alloc: Global, now: u32, amounts: &[u32]) -> Result<Forecast, AllocError>
    requires now { now ≤ most_seconds }
    requires few { length amounts.now ≤ most_look }
    requires most { (k : ℕ) → slice_index amounts.now k ≤ 80000 }
    ensures { IfOk result (λ forecast. forecast ≡
        positive_rows (λ d. slice_index amounts.now (d - now)) (range_with_len now (length amounts.now))) }
{
    let filled = amounts.iter().filter(|amount| **amount > 0).count();
    let mut forecast = Forecast::with_capacity(alloc, filled)?;
    for (k, amount) in amounts.iter().enumerate() {
        if *amount > 0 {
            forecast.push(Row {
                second: now + k as u32,
                amount: *amount,
            })?;
        }
    }
    Ok(forecast)
}
