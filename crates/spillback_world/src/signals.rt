//! How much links may discharge in a second.

ghost use Rattle.std.specs.Prelude.{◌≡◌, ℕ, ◌*◌, ◌≤◌, ◌<◌, length, slice_index};
ghost use Rattle.net_parts.specs.Outline.{link_at};
ghost use Rattle.net_simulator.specs.Rows.{kept_seconds};
ghost use Rattle.spillback_world.specs.Steps.{rate_at};

use net_simulator::link_seconds::{Shown, is_open, rate};
use road_net::Network;

/// How much link `l` may discharge in this second at the most, by what is shown and by what waits at the ends of links (`ready`): 0 where it
/// may not, or ends at no node.
fn rate_of(net: &Network, waits: &[u32], shown: &Shown, ready: &[u32], second: u32, l: u32) -> u32
    requires link { l < length net.now.link_names }
    requires waits { length waits.now ≡ length net.now.link_names * kept_seconds }
    requires signs { length shown.now.signs.now ≡ length net.now.node_names }
    requires since { length shown.now.since.now ≡ length net.now.link_names }
    ensures { result ≡ rate_at net.now waits.now shown.now.signs.now shown.now.since.now ready.now second l
        (link_at net.now l).to }
{
    let Some(node) = net.link(l).to else {
        return 0;
    };
    if is_open(net, waits, shown, second, l, node) {
        rate(net, shown.since, ready, second, l)
    } else {
        0
    }
}

/// Tells of each link how much it may discharge in this second at the most; `ready` has what waits at the ends of links before any
/// discharges.
pub(crate) fn serve(
    rates: &mut [u32],
    net: &Network,
    waits: &[u32],
    shown: &Shown,
    ready: &[u32],
    second: u32,
)
    requires rates { length rates.old ≡ length net.now.link_names }
    requires waits { length waits.now ≡ length net.now.link_names * kept_seconds }
    requires signs { length shown.now.signs.now ≡ length net.now.node_names }
    requires since { length shown.now.since.now ≡ length net.now.link_names }
    ensures { (l : ℕ) → l < length net.now.link_names → slice_index rates.new l ≡
        rate_at net.now waits.now shown.now.signs.now shown.now.since.now ready.now second l (link_at net.now l).to }
{
    for l in 0..net.links() {
        rates[l as usize] = rate_of(net, waits, shown, ready, second, l);
    }
}
