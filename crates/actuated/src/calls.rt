//! What calls for a phase of a node, by what the node sensed.

ghost use Rattle.std.specs.Prelude.{◌≡◌, ◌≢◌, ◌<◌, ◌≤◌, AllPairs, length, sum, sum_by};
ghost use Rattle.net_parts.specs.{Limits.most_of_all, Outline.plan_at};
ghost use Rattle.road_net.specs.Senses.{IsSensedOf, amount};
ghost use Rattle.actuated.specs.Calls as spec;
ghost use Rattle.actuated.specs.Calls.{calling, amount_near};

use clusters::sensed_of;
use road_net::{Network, Sensed};

/// What calls for a phase of a node, in thousandths of a vehicle: on the links of the phase, what waits
/// at their ends, and what reaches these in this second and in each of the next `gap` ones.
///
/// What is sensed is of the node.
///
/// docs/RULES.md, "Actuated control".
pub fn calling(net: &Network, node: u32, sensed: &Sensed, phase: u8) -> u32
    requires node { node < length net.now.node_names }
    requires phase { phase < length (plan_at net.now node) }
    requires sensed { IsSensedOf net.now node sensed.now }
    ensures { result ≡ calling net.now node sensed.entry.now phase }
{
    all_near_amounts(sensed, net.run().gap, net.phase_links(node, phase))
}

/// What is near on these links.
fn all_near_amounts(sensed: &Sensed, gap: u32, links: &[u32]) -> u32
    requires amounts { sum_by amount sensed.now.links ≤ most_of_all }
    requires links { AllPairs (λ a b. a ≢ b) links.now }
    ensures { result ≡ sum_by (amount_near sensed.entry.now gap) links.now }
{
    let mut all = 0;
    for link in links {
        all += amount_near(sensed, gap, *link);
    }
    all
}

/// What waits at the end of a link, or reaches it now or within `gap` seconds after.
fn amount_near(sensed: &Sensed, gap: u32, link: u32) -> u32
    requires { sum_by amount sensed.now.links ≤ most_of_all }
    ensures { result ≡ spec.amount_near sensed.entry.now gap link }
{
    let (queue, coming) = sensed_of(sensed, link);
    let seconds = coming.len().min(gap as usize + 1);
    queue + sum_of(&coming[..seconds])
}

/// The sum of amounts.
fn sum_of(amounts: &[u32]) -> u32
    requires { sum amounts.now ≤ most_of_all }
    ensures { result ≡ sum amounts.now }
{
    let mut all = 0;
    for amount in amounts {
        all += *amount;
    }
    all
}
