//! What platoons count: their loads.
ghost use Rattle.std.specs.Prelude.{◌≡◌, ◌+◌, ◌*◌, ◌/◌, ◌<◌, ◌≤◌, ℕ, All, Some, length, min, sum, sum_by};
ghost use Rattle.net_parts.specs.{Limits.most_sat, Outline.link_at};
ghost use Rattle.clusters.specs.{Inflow.sense_of, Options.amount_load, Options.first_with_hold, Sound.AreSpacedClusters, Sound.clusters_of, Steps.IsAge};
ghost use Rattle.switch_rules.specs.Bounds.{greatest_size, greatest_weight};

use crate::inflows::stood_on;
use crate::vehicle_groups::Platoon;
use road_net::{Network, Sensed};
use switch_rules::GREATEST_WEIGHT;

/// What these amounts count on a link, where `whole` is all of them. With an age they count more while the queue of the
/// link stands.
pub(crate) fn load_on(
    net: &Network,
    sensed: &Sensed,
    age: Option<u32>,
    link: u32,
    amounts: &[u32],
    whole: u32,
) -> u32
    requires link { link < length net.now.link_names }
    requires age { IsAge age }
    requires whole { whole ≡ sum amounts.now }
    requires few { whole ≤ 900000 }
    requires small { All (λ amount. amount ≤ most_sat) amounts.now }
    ensures value { result ≡
        sum_by (amount_load age (link_at net.now link).weight (sense_of sensed.entry.now link).stood) amounts.now }
    ensures most { result ≤ greatest_weight * whole }
{
    let weight = net.link(link).weight;
    match age {
        Some(age) => aged_load(age, weight, stood_on(sensed, link), amounts),
        None => weight * whole,
    }
}

/// What these amounts count on a link of this weight whose queue has stood for so long, with this age.
fn aged_load(age: u32, weight: u32, stood: u32, amounts: &[u32]) -> u32
    requires age { (1 ≤ age) × (age ≤ 3600) }
    requires weight { (1 ≤ weight) × (weight ≤ greatest_weight) }
    requires few { sum amounts.now ≤ 900000 }
    requires small { All (λ amount. amount ≤ most_sat) amounts.now }
    ensures value { result ≡ sum_by (amount_load (Some age) weight stood) amounts.now }
    ensures most { result ≤ greatest_weight * sum amounts.now }
{
    let grown = grown_weight(age, weight, stood);
    let mut load = 0;
    for amount in amounts {
        load += amount_load(age, grown, *amount);
    }
    load
}

/// The weight by the age, and again by the seconds that the queue has stood, up to three ages.
fn grown_weight(age: u32, weight: u32, stood: u32) -> u32
    requires age { (1 ≤ age) × (age ≤ 3600) }
    requires weight { (1 ≤ weight) × (weight ≤ greatest_weight) }
    ensures value { result ≡ weight * (age + min stood (3 * age)) }
    ensures most { result ≤ 288000 }
{
    weight * (age + stood.min(3 * age))
}

/// What an amount counts where the weight by the age has grown to this, and at most 20 times itself.
fn amount_load(age: u32, grown: u32, amount: u32) -> u32
    requires age { 1 ≤ age }
    requires grown { grown ≤ 288000 }
    requires amount { amount ≤ most_sat }
    ensures value { result ≡ min (greatest_weight * amount) (amount * grown / age) }
    ensures most { result ≤ greatest_weight * amount }
{
    (GREATEST_WEIGHT * amount).min(amount * grown / age)
}

/// Lets the load of the first of these platoons count this many times, and at most 20 times its size, where it has arrived by
/// this second.
pub(crate) fn hold_first(list: &mut [Platoon], hold: u32, at: u32)
    requires { AreSpacedClusters (clusters_of list.old) }
    ensures { list.new ≡ first_with_hold (Some hold) at list.old }
{
    if list.is_empty() || list[0].cluster.arr > at {
        return;
    }
    let cluster = list[0].cluster;
    list[0].cluster.load = held_load(hold, cluster.size, cluster.load);
}

/// A load that counts this many times, and at most 20 times the size.
fn held_load(hold: u32, size: u32, load: u32) -> u32
    requires { size ≤ greatest_size }
    ensures { result ≡ min (greatest_weight * size) (hold * load) }
{
    let most = GREATEST_WEIGHT * size;
    (hold as u64 * load as u64).min(most as u64) as u32
}
