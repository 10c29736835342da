//! The queues of all links, second by second.

ghost use Rattle.std.specs.Prelude.{◌≡◌, ℕ, ◌<◌, [], ◌∷◌, IfOk, OnOk, if◌then◌else◌, length, map};
ghost use Rattle.std.specs.List.{flat_map, range_with_len};
ghost use Rattle.arrivals.specs.Amounts.{AreArrivals, arriving_of};
ghost use Rattle.net_simulator.specs.{Counts.counts_at, Shown.cumulative_of_lines, Worlds.Stands, Worlds.line_in, Worlds.signs_by};
ghost use Rattle.net_simulator.specs.Sums as sums;
ghost use Rattle.world_records.specs.Written.{Adds};
ghost use Rattle.queue_series.specs.Series.{IsSeries, peak_record, second_records};
ghost use Rattle.queue_series.specs.LinkStates.{AreLinkStates, CanGoOn, HaveMoved, are_same, kept_records, peak_of, state_at, state_record};

use super::link_states::{LinkState, Peak, first_link_states, next_state};
use arrivals::Arrivals;
use control_flow::greens::Timeline;
use csv::Writer;
use net_simulator::{Lines, World, end_of_run};
use road_net::{Network, law_of_network};
use std::alloc::{AllocError, Global};
use world_records::{digits_of, finish, start, write_record};

/// The text of the queues under these timelines, from second 0 up to the end of the last round: a record for each second and link
/// in which the queue or what is on the link is another than a second before, and then for each link its longest queue.
///
/// `Err`: out of memory.
///
/// docs/FORMATS.md, "Queues".
pub fn queue_series(
    alloc: Global,
    net: &Network,
    arrivals: &Arrivals,
    lines: &[Timeline],
) -> Result<Vec<u8>, AllocError>
    requires { AreArrivals net.now arrivals.now }
    ensures { IfOk result (λ text.
        IsSeries net.now (cumulative_of_lines net.now (arriving_of arrivals.now) lines.now)
        (sums.end_of_run net.now) text.items) }
{
    let mut link_states = first_link_states(alloc, net.links())?;
    let mut out = start(Vec::new(alloc));
    write_record(&mut out, &[b"second", b"link", b"queue", b"on"])?;
    write_seconds(alloc, net, arrivals, lines, &mut link_states, &mut out)?;
    write_peaks(net, link_states.as_slice(), &mut out)?;
    finish(out)
}

/// Writes the records of all seconds of the run.
fn write_seconds(
    alloc: Global,
    net: &Network,
    arrivals: &Arrivals,
    lines: &[Timeline],
    link_states: &mut Vec<LinkState>,
    out: &mut Writer<Vec<u8>>,
) -> Result<(), AllocError>
    requires arrivals { AreArrivals net.now arrivals.now }
    requires link_states { AreLinkStates net.now (cumulative_of_lines net.now (arriving_of arrivals.now) lines.now)
        0 link_states.old.items }
    ensures link_states { OnOk result (AreLinkStates net.now
        (cumulative_of_lines net.now (arriving_of arrivals.now) lines.now)
        (sums.end_of_run net.now) link_states.new.items) }
    ensures adds { OnOk result (Adds out.old out.new
        (flat_map (second_records net.now (cumulative_of_lines net.now (arriving_of arrivals.now) lines.now))
        (range_with_len 0 (sums.end_of_run net.now)))) }
{
    law_of_network(net);
    let mut world = World::new(alloc, net)?;
    for _second in 0..end_of_run(net) {
        world.advance(net, &Lines { all: lines }, arrivals, 1);
        write_second(net, &world, link_states, out)?;
    }
    Ok(())
}

/// Writes the records of the second that the world has moved by.
fn write_second(
    net: &Network,
    world: &World,
    link_states: &mut Vec<LinkState>,
    out: &mut Writer<Vec<u8>>,
) -> Result<(), AllocError>
    requires link_states { length link_states.old.items ≡ length net.now.link_names }
    requires counts { length world.now.counts ≡ length net.now.link_names }
    requires grows { (l : ℕ) → l < length net.now.link_names
        → CanGoOn (state_at link_states.old.items l) (counts_at world.now.counts l) }
    ensures link_states { OnOk result (HaveMoved world.now link_states.old.items (length net.now.link_names) link_states.new.items) }
    ensures adds { OnOk result (Adds out.old out.new (flat_map (kept_records net.now world.now link_states.old.items)
        (range_with_len 0 (length net.now.link_names)))) }
{
    for link in 0..net.links() {
        let before = link_states[link as usize];
        let after = next_state(&before, &world.link_totals(link), world.now());
        write_change(net, link, world.now(), &before, &after, out)?;
        link_states[link as usize] = after;
    }
    Ok(())
}

/// Writes the record of a link at a second, if its queue or what is on it is another than before.
fn write_change(
    net: &Network,
    link: u32,
    second: u32,
    before: &LinkState,
    after: &LinkState,
    out: &mut Writer<Vec<u8>>,
) -> Result<(), AllocError>
    requires { link < length net.now.link_names }
    ensures { OnOk result (Adds out.old out.new
        (if are_same before.now after.now then [] else state_record net.now link second after.now ∷ [])) }
{
    if before.queue == after.queue && before.on == after.on {
        return Ok(());
    }
    let second = digits_of(u64::from(second));
    let queue = digits_of(after.queue);
    let on = digits_of(after.on);
    let name = net.link_name(link).as_bytes();
    write_record(
        out,
        &[second.as_bytes(), name, queue.as_bytes(), on.as_bytes()],
    )
}

/// Writes the record of the longest queue of each link.
fn write_peaks(
    net: &Network,
    link_states: &[LinkState],
    out: &mut Writer<Vec<u8>>,
) -> Result<(), AllocError>
    requires { length link_states.now ≡ length net.now.link_names }
    ensures { OnOk result (Adds out.old out.new
        (map (peak_record net.now (peak_of link_states.now)) (range_with_len 0 (length net.now.link_names)))) }
{
    for link in 0..net.links() {
        write_peak(net, link, link_states[link as usize].peak, out)?;
    }
    Ok(())
}

/// Writes the record of the longest queue of a link.
fn write_peak(
    net: &Network,
    link: u32,
    peak: Peak,
    out: &mut Writer<Vec<u8>>,
) -> Result<(), AllocError>
    requires { link < length net.now.link_names }
    ensures { OnOk result (Adds out.old out.new (peak_record net.now (λ l. peak) link ∷ [])) }
{
    let queue = digits_of(peak.queue);
    let second = digits_of(u64::from(peak.second));
    let name = net.link_name(link).as_bytes();
    write_record(out, &[b"most", name, queue.as_bytes(), second.as_bytes()])
}
