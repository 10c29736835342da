//! What a second is at each link, whatever the links hold: worlds are made of these functions.
//!
//! They work on the slices that a world keeps, a number for each link, or a row of 128 seconds for each (`rows`).

ghost use Rattle.std.specs.Prelude.{◌≡◌, ◌≢◌, ◌↔◌, IsTrue, false, ℕ, ◌*◌, ◌%◌, ◌≤◌, ◌<◌, ◌^◌, None, Some, is_some, length, slice_index, slice_index_or};
ghost use Rattle.std.specs.List.{list_any};
ghost use Rattle.net_parts.specs.Limits.{most_seconds};
ghost use Rattle.control_flow.specs.Signs.{is_on, is_on_in, sign_at};
ghost use Rattle.control_flow.specs.declared.greens.Sign.TheVariants.{Dark};
ghost use Rattle.net_parts.specs.Outline.{is_green_in, link_at, plan_at};
ghost use Rattle.net_simulator.specs.LinkGreens.{has_walks, is_lit, lit_on, loss_of};
ghost use Rattle.net_simulator.specs.LinkSeconds.{AreLit, is_busy_by, is_open, rate_by, stands_on, waits_at};
ghost use Rattle.net_simulator.specs.Rows.{cell, kept_seconds};
ghost use Rattle.net_simulator.specs.Sums.{outward};

use super::lights::Lights;
use super::rows;
use control_flow::greens::Sign;
use road_net::{Link, Network, law_of_network};

/// The signs of the nodes in a second, in their order, and the second since which each link is green; 2^32 - 1 for a link that is not.
///
/// docs/RULES.md, "World".
#[derive(Drop)]
pub struct Shown<'a> {
    /// The sign of each node.
    pub signs: &'a [Sign],
    /// The second since which each link is green.
    pub since: &'a [u32],
}

/// Whether a link is green in a second in which the node at its end shows this sign.
fn is_lit(net: &Network, l: u32, second: u32, sign: Sign) -> bool
    requires { l < length net.now.link_names }
    ensures { result ≡ is_lit net.now l second sign }
{
    match net.link(l).walk {
        None => is_on(net, l, sign),
        Some(walk) => is_walked(net, l, second, sign, walk.seconds),
    }
}

/// Whether a link with a walk of these seconds is green in a second in which the node at its end shows this sign.
fn is_walked(net: &Network, l: u32, second: u32, sign: Sign, walk: u32) -> bool
    requires { l < length net.now.link_names }
    ensures { result ≡ is_on_in (is_green_in net.now l) (Some walk) second sign }
{
    let Sign::On { phase, since } = sign else {
        return false;
    };
    u64::from(second) < u64::from(since) + u64::from(walk) && net.is_green(l, phase)
}

/// Whether a link without a walk is green where the node at its end shows this sign.
fn is_on(net: &Network, l: u32, sign: Sign) -> bool
    requires { l < length net.now.link_names }
    ensures { result ≡ is_on (is_green_in net.now l) sign }
{
    match sign {
        Sign::Dark => false,
        Sign::On { phase, since: _ } => net.is_green(l, phase),
        Sign::Change { from, to } => net.is_green(l, from) && net.is_green(l, to),
    }
}

/// The second since which a link is green in a second in which the node at its end shows this sign, where it has been so since `since`.
fn lit_on(net: &Network, l: u32, second: u32, sign: Sign, since: u32) -> u32
    requires { l < length net.now.link_names }
    ensures { result ≡ lit_on net.now l second sign since }
{
    if is_lit(net, l, second, sign) {
        since.min(second)
    } else {
        u32::MAX
    }
}

/// Whether a link may be green otherwise than in the second before: its node has another sign, or the link has a walk.
fn may_differ(net: &Network, l: u32, is_other: bool) -> bool
    requires { l < length net.now.link_names }
    ensures { result ≡ false → (is_other ≡ false) × ((link_at net.now l).walk ≡ None) }
{
    match net.link(l).walk {
        None => is_other,
        Some(_) => true,
    }
}

/// Notes since when the links that end at a node are green, where the node shows this sign in this second. Where that is no other sign than
/// before, those without a walk stay as they are.
fn light(since: &mut [u32], net: &Network, node: u32, sign: Sign, second: u32, is_other: bool)
    requires node { node < length net.now.node_names }
    requires since { length since.old ≡ length net.now.link_names }
    requires lit { (l : ℕ) → l < length net.now.link_names → (link_at net.now l).to ≡ Some node
        → is_other ≡ false → (link_at net.now l).walk ≡ None
        → slice_index since.old l ≡ lit_on net.now l second sign (slice_index since.old l) }
    ensures here { (l : ℕ) → l < length net.now.link_names → (link_at net.now l).to ≡ Some node
        → slice_index since.new l ≡ lit_on net.now l second sign (slice_index since.old l) }
    ensures others { (l : ℕ) → l < length net.now.link_names → (link_at net.now l).to ≢ Some node
        → slice_index since.new l ≡ slice_index since.old l }
{
    for &l in net.entry_links(node) {
        if may_differ(net, l, is_other) {
            let place = l as usize;
            since[place] = lit_on(net, l, second, sign, since[place]);
        }
    }
}

/// Whether two signs are not the same.
fn differ(one: Sign, other: Sign) -> bool
    ensures { result ≡ false → one ≡ other }
{
    one != other
}

/// Looks once at the light of each node: `signs` gets the signs of the nodes in this second, in their order, and `since` the second
/// since which each link is green. At a node whose sign is as before only the links with a walk are looked at, and no link where none has a walk.
///
/// docs/RULES.md, "World".
pub fn look<T: Lights>(
    signs: &mut [Sign],
    since: &mut [u32],
    net: &Network,
    lights: &T,
    second: u32,
    walks: bool,
)
    requires signs { length signs.old ≡ length net.now.node_names }
    requires since { length since.old ≡ length net.now.link_names }
    requires walks { walks ≡ has_walks net.now }
    requires lit { AreLit net.now second signs.old since.old }
    ensures signs { (n : ℕ) → n < length net.now.node_names
        → slice_index_or signs.new n Dark ≡ sign_at (T.lines lights.now n) second }
    ensures since { (l node : ℕ) → l < length net.now.link_names → (link_at net.now l).to ≡ Some node
        → slice_index since.new l ≡
        lit_on net.now l second (sign_at (T.lines lights.now node) second) (slice_index since.old l) }
    ensures none { (l : ℕ) → l < length net.now.link_names → (link_at net.now l).to ≡ None
        → slice_index since.new l ≡ slice_index since.old l }
{
    for node in 0..net.nodes() {
        let sign = lights.sign(node, second);
        let is_other = differ(signs[node as usize], sign);
        if walks || is_other {
            signs[node as usize] = sign;
            light(since, net, node, sign, second, is_other);
        }
    }
}

/// The seconds that a green loses where its node shows this sign.
fn loss_of(net: &Network, node: u32, sign: Sign) -> u32
    requires { node < length net.now.node_names }
    ensures { result ≡ loss_of (plan_at net.now node) sign }
{
    let phase = match sign {
        Sign::Dark => return 0,
        Sign::On { phase, since: _ } => phase,
        Sign::Change { from, to: _ } => from,
    };
    match net.plan(node).phases().get(phase as usize) {
        Some(p) => p.loss,
        None => 0,
    }
}

/// Whether link `l` may discharge in this second, by what is shown: it is green, and the second is not one that is lost at the
/// begin of the green. `waits` has the queues of each link before each of the last seconds (`rows`).
///
/// docs/RULES.md, "World".
#[inline]
pub fn is_open(net: &Network, waits: &[u32], shown: &Shown, second: u32, l: u32, node: u32) -> bool
    requires link { l < length net.now.link_names }
    requires node { (link_at net.now l).to ≡ Some node }
    requires waits { length waits.now ≡ length net.now.link_names * kept_seconds }
    requires signs { length shown.now.signs.now ≡ length net.now.node_names }
    requires since { length shown.now.since.now ≡ length net.now.link_names }
    ensures { result ≡
        is_open net.now waits.now shown.now.since.now second l node (slice_index_or shown.now.signs.now node Dark) }
{
    law_of_network(net);
    let from = shown.since[l as usize];
    if from > second {
        return false;
    }
    // No phase loses more than the first 10 seconds of a green.
    let lasted = second - from;
    lasted >= 10
        || lasted >= loss_of(net, node, shown.signs[node as usize])
        || rows::at(waits, l, from) == 0
}

/// Whether a link is busy in a second: it is green, and something waits at its end.
fn is_busy(since: &[u32], ready: &[u32], second: u32, l: u32) -> bool
    ensures { result ≡ is_busy_by since.now ready.now second l }
{
    since.get(l as usize).copied().unwrap_or(0) <= second
        && ready.get(l as usize).copied().unwrap_or(0) > 0
}

/// Whether one of these links is busy in a second.
fn is_one_busy(since: &[u32], ready: &[u32], second: u32, links: &[u32]) -> bool
    ensures { result ≡ list_any (is_busy_by since.now ready.now second) links.now }
{
    links
        .iter()
        .any(|link| is_busy(since, ready, second, *link))
}

/// What link `l` discharges at the most in a second, where it may: its `yield_sat` while a link to which it gives way is busy, else its `sat`.
/// `since` has the second since which each link is green, and `ready` what waits at the end of each.
///
/// docs/RULES.md, "World".
pub fn rate(net: &Network, since: &[u32], ready: &[u32], second: u32, l: u32) -> u32
    requires { l < length net.now.link_names }
    ensures { result ≡ rate_by net.now since.now ready.now second l }
{
    let link = net.link(l);
    if is_one_busy(since, ready, second, net.yields(l)) {
        link.yield_sat
    } else {
        link.sat
    }
}

/// Whether some link of a network has a walk.
///
/// docs/RULES.md, "Links".
pub fn has_walks(net: &Network) -> bool
    ensures { result ≡ has_walks net.now }
{
    is_one_walked(net.parts().links.as_slice())
}

/// Whether one of these links has a walk.
fn is_one_walked(links: &[Link]) -> bool
    ensures { result ≡ list_any (λ link. is_some link.walk) links.now }
{
    links.iter().any(|link| link.walk.is_some())
}

/// What waits at the end of link `l` in a second below 86,400, in thousandths of a vehicle: its queue, and what entered it one
/// travel time ago. `recent` has what entered each link in each of the last seconds (`rows`).
///
/// docs/RULES.md, "World".
#[inline]
pub fn waiting_amount(net: &Network, queues: &[u32], recent: &[u32], second: u32, l: u32) -> u32
    requires link { l < length net.now.link_names }
    requires queues { length queues.now ≡ length net.now.link_names }
    requires recent { length recent.now ≡ length net.now.link_names * kept_seconds }
    requires second { second < most_seconds }
    requires fits { waits_at net.now queues.now recent.now second l < 2 ^ 32 }
    ensures { result ≡ waits_at net.now queues.now recent.now second l }
{
    let travel = net.link(l).travel;
    queues[l as usize] + rows::at(recent, l, second + 128 - travel)
}

/// What of an amount that a link discharges leaves the network: all of it, where the link ends at no node.
///
/// docs/RULES.md, "World".
#[inline]
pub fn outward(to: Option<u32>, amount: u32) -> u32
    ensures value { result ≡ outward to amount }
    ensures most { result ≤ amount }
{
    match to {
        None => amount,
        Some(_) => 0,
    }
}

/// Keeps the queues of the links that stand before second `next`: in `waits` (`rows`) what they are, and in `stood` for how
/// many seconds each has stood without a break.
///
/// docs/RULES.md, "World", "What a node sees".
pub fn remember(waits: &mut [u32], stood: &mut [u32], queues: &[u32], links: u32, next: u32)
    requires waits { length waits.old ≡ links * kept_seconds }
    requires stood { length stood.old ≡ links }
    requires queues { length queues.now ≡ links }
    requires fits { (l : ℕ) → l < links → slice_index stood.old l < most_seconds }
    ensures here { (l : ℕ) → l < links → cell waits.new l next ≡ slice_index queues.now l }
    ensures others { (l y : ℕ) → y % kept_seconds ≢ next % kept_seconds → cell waits.new l y ≡ cell waits.old l y }
    ensures stood { (l : ℕ) → l < links
        → slice_index stood.new l ≡ stands_on (slice_index queues.now l) (slice_index stood.old l) }
{
    for l in 0..links {
        let queue = queues[l as usize];
        rows::put(waits, l, next, queue);
        let before = stood[l as usize];
        stood[l as usize] = if queue > 0 { before + 1 } else { 0 };
    }
}
