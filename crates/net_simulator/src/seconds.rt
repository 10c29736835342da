//! What happens in one second of the world.

ghost use Rattle.std.specs.Prelude.{◌≡◌, ◌≢◌, ℕ, ◌+◌, ◌-◌, ◌*◌, ◌/◌, ◌%◌, ◌≤◌, ◌<◌, ◌^◌, Some, length, slice_index};
ghost use Rattle.net_parts.specs.Limits.{most_seconds};
ghost use Rattle.net_parts.specs.Outline.{link_at, turns_at};
ghost use Rattle.arrivals.specs.Amounts.{arriving_of};
ghost use Rattle.net_simulator.specs.Counts.{counts_at};
ghost use Rattle.net_simulator.specs.LinkSeconds.{waits_at};
ghost use Rattle.net_simulator.specs.Rows.{cell, kept_seconds};
ghost use Rattle.net_simulator.specs.Steps.{goes_at, goes_out, all_of, counted, FitsSeconds};
ghost use Rattle.net_simulator.specs.Sums as sums;
ghost use Rattle.road_net.specs.Joins.{split_of};
ghost use Rattle.road_net.specs.Totals.{total};

use super::link_seconds::{Shown, is_open, outward, rate, waiting_amount};
use super::rows;
use super::totals::LinkTotals;
use arrivals::{Arrivals, next_amount};
use road_net::Network;

/// Begins a second: what comes from outside enters, and what reaches the ends of links joins their queues, which then are what waits there.
/// Tells how much comes from outside.
pub(crate) fn arrive(
    recent: &mut [u32],
    queues: &mut [u32],
    net: &Network,
    arrivals: &Arrivals,
    second: u32,
) -> u64
    requires recent { length recent.old ≡ length net.now.link_names * kept_seconds }
    requires queues { length queues.old ≡ length net.now.link_names }
    requires second { second < most_seconds }
    requires fits { (l : ℕ) → l < length net.now.link_names → waits_at net.now queues.old recent.old second l < 2 ^ 32 }
    ensures here { (l : ℕ) → l < length net.now.link_names
        → cell recent.new l second ≡ arriving_of arrivals.now second l }
    ensures others { (l y : ℕ) → y % kept_seconds ≢ second % kept_seconds → cell recent.new l y ≡ cell recent.old l y }
    ensures all { result ≡ total (λ l. arriving_of arrivals.now second l) (length net.now.link_names) }
    ensures queues { (l : ℕ) → l < length net.now.link_names
        → slice_index queues.new l ≡ waits_at net.now queues.old recent.new second l }
{
    let mut coming = arrivals.in_second(second);
    let mut all = 0;
    for l in 0..net.links() {
        let (amount, later) = next_amount(coming, l);
        coming = later;
        rows::put(recent, l, second, amount);
        queues[l as usize] = waiting_amount(net, queues, recent, second, l);
        all += u64::from(amount);
    }
    all
}

/// What link `l` discharges in this second of what waits at its end; `ready` has what waits at the end of each link.
fn goes(net: &Network, waits: &[u32], shown: &Shown, ready: &[u32], second: u32, l: u32) -> u32
    requires link { l < length net.now.link_names }
    requires signs { length shown.now.signs.now ≡ length net.now.node_names }
    requires since { length shown.now.since.now ≡ length net.now.link_names }
    requires waits { length waits.now ≡ length net.now.link_names * kept_seconds }
    requires ready { length ready.now ≡ length net.now.link_names }
    ensures value { result ≡
        goes_at net.now shown.now.signs.now shown.now.since.now waits.now ready.now second l }
    ensures most { result ≤ slice_index ready.now l }
{
    let waiting = ready[l as usize];
    if waiting == 0 {
        return 0;
    }
    let Some(node) = net.link(l).to else {
        return waiting;
    };
    if is_open(net, waits, shown, second, l, node) {
        waiting.min(rate(net, shown.since, ready, second, l))
    } else {
        0
    }
}

/// The part of an amount that makes turns with these shares together.
#[inline]
fn part_to(amount: u32, shares: u32) -> u32
    requires { shares ≤ 1000 }
    ensures { result ≡ amount * shares / 1000 }
{
    (u64::from(amount) * u64::from(shares) / 1000) as u32
}

/// What link `l` discharges enters the links into which it turns. Tells how much has left the network, where `out` had before.
fn turn(recent: &mut [u32], net: &Network, l: u32, amount: u32, second: u32, out: u64) -> u64
    requires link { l < length net.now.link_names }
    requires recent { length recent.old ≡ length net.now.link_names * kept_seconds }
    requires out { out + amount < 2 ^ 64 }
    requires fits { (k : ℕ) → k < length net.now.link_names
        → cell recent.old k second + split_of (turns_at net.now l) amount k < 2 ^ 32 }
    ensures here { (k : ℕ) → k < length net.now.link_names
        → cell recent.new k second ≡ cell recent.old k second + split_of (turns_at net.now l) amount k }
    ensures others { (k y : ℕ) → y % kept_seconds ≢ second % kept_seconds → cell recent.new k y ≡ cell recent.old k y }
    ensures out { result ≡ out + sums.outward (link_at net.now l).to amount }
{
    if amount == 0 {
        return out;
    }
    let mut shares = 0;
    let mut given = 0;
    for turn in net.turns(l) {
        shares += turn.share;
        let all = part_to(amount, shares);
        let part = all - given;
        let entered = rows::at(recent, turn.exit, second);
        rows::put(recent, turn.exit, second, entered + part);
        given = all;
    }
    out + u64::from(outward(net.link(l).to, amount))
}

/// Each link discharges what it may of what waits at its end, and that enters the links into which it turns; `ready` has what waits at the end of
/// each link. Tells how much leaves the network.
pub(crate) fn discharge(
    leaving: &mut [u32],
    recent: &mut [u32],
    net: &Network,
    waits: &[u32],
    shown: &Shown,
    ready: &[u32],
    second: u32,
) -> u64
    requires leaving { length leaving.old ≡ length net.now.link_names }
    requires recent { length recent.old ≡ length net.now.link_names * kept_seconds }
    requires waits { length waits.now ≡ length net.now.link_names * kept_seconds }
    requires signs { length shown.now.signs.now ≡ length net.now.node_names }
    requires since { length shown.now.since.now ≡ length net.now.link_names }
    requires ready { length ready.now ≡ length net.now.link_names }
    requires fits { (k : ℕ) → k < length net.now.link_names → cell recent.old k second
        + total (λ l. split_of (turns_at net.now l)
        (goes_at net.now shown.now.signs.now shown.now.since.now waits.now ready.now second l) k)
        (length net.now.link_names) < 2 ^ 32 }
    ensures leaving { (l : ℕ) → l < length net.now.link_names → slice_index leaving.new l ≡
        goes_at net.now shown.now.signs.now shown.now.since.now waits.now ready.now second l }
    ensures most { (l : ℕ) → l < length net.now.link_names → slice_index leaving.new l ≤ slice_index ready.now l }
    ensures here { (k : ℕ) → k < length net.now.link_names → cell recent.new k second ≡ cell recent.old k second
        + total (λ l. split_of (turns_at net.now l) (slice_index leaving.new l) k) (length net.now.link_names) }
    ensures others { (k y : ℕ) → y % kept_seconds ≢ second % kept_seconds → cell recent.new k y ≡ cell recent.old k y }
    ensures out { result ≡ goes_out net.now leaving.new }
{
    let mut out = 0;
    for l in 0..net.links() {
        let amount = goes(net, waits, shown, ready, second, l);
        leaving[l as usize] = amount;
        out = turn(recent, net, l, amount, second, out);
    }
    out
}

/// What has left the ends of links is no longer in their queues.
pub(crate) fn settle(queues: &mut [u32], leaving: &[u32], links: u32)
    requires queues { length queues.old ≡ links }
    requires leaving { length leaving.now ≡ links }
    requires most { (l : ℕ) → l < links → slice_index leaving.now l ≤ slice_index queues.old l }
    ensures { (l : ℕ) → l < links
        → slice_index queues.new l ≡ slice_index queues.old l - slice_index leaving.now l }
{
    for l in 0..links {
        queues[l as usize] -= leaving[l as usize];
    }
}

/// Counts what passed each link in this second. Tells how much waits after it.
pub(crate) fn count(
    counts: &mut [LinkTotals],
    recent: &[u32],
    leaving: &[u32],
    queues: &[u32],
    links: u32,
    second: u32,
) -> u64
    requires counts { length counts.old ≡ links }
    requires recent { length recent.now ≡ links * kept_seconds }
    requires leaving { length leaving.now ≡ links }
    requires queues { length queues.now ≡ links }
    requires fits { (l : ℕ) → l < links → FitsSeconds second (counts_at counts.old l) }
    requires second { second < most_seconds }
    ensures counts { (l : ℕ) → l < links → counts_at counts.new l ≡
        counted (counts_at counts.old l) (cell recent.now l second) (slice_index leaving.now l)
        (slice_index queues.now l) }
    ensures waits { result ≡ all_of queues.now links }
    ensures most { result ≤ links * 4294967295 }
{
    let mut waits = 0;
    for l in 0..links {
        let count = counts[l as usize];
        let queue = u64::from(queues[l as usize]);
        counts[l as usize] = LinkTotals {
            entered: count.entered + u64::from(rows::at(recent, l, second)),
            left: count.left + u64::from(leaving[l as usize]),
            delay: count.delay + queue,
        };
        waits += queue;
    }
    waits
}
