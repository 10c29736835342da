//! How what comes is cut into platoons.
ghost use Rattle.std.specs.Prelude.{◌≡◌, ◌+◌, ◌<◌, ◌≤◌, ◌^◌, ℕ, All, IfOk, IfNone, IfSome, length, replicate, slice_index, sum};
ghost use Rattle.net_parts.specs.Limits.{most_look, most_sat, most_seconds};
ghost use Rattle.clusters.specs.{Cuts.filled, Cuts.first_of, Options.aged_load_of, Platoons.ArePlatoonsBy, Platoons.platoon_within, Platoons.together, Steps.AreOfLinks, Steps.AreSpans, Steps.AreStreams, Steps.IsAge, Steps.IsEmpty};
ghost use Rattle.clusters.specs.{Steps.IsNext, Steps.IsRunUpTo, Steps.IsClosed, Steps.span_at};

use crate::loads::load_on;
use crate::parts::{Parts, PhaseStreams};
use crate::vehicle_groups::{Part, Platoon};
use road_net::{Network, Sensed};
use std::alloc::{AllocError, Global};
use switch_rules::Cluster;

/// The capacity for the platoons of a phase, which are seldom more.
const CAPACITY: usize = 8;

/// Puts what the streams bring together in the seconds of a series, in which nothing comes yet.
pub(crate) fn together(series: &mut [u32], streams: &[Part])
    requires none { series.old ≡ replicate (length series.old) 0 }
    requires streams { AreStreams (length series.old) streams.now }
    ensures { series.new ≡ together streams.now (length series.old) }
{
    for stream in streams {
        add_to(series, stream.amounts.as_slice());
    }
}

/// Adds each amount to that of its second.
fn add_to(series: &mut [u32], amounts: &[u32])
    requires same { length amounts.now ≡ length series.old }
    requires fits { (k : ℕ) → slice_index series.old k + slice_index amounts.now k < 2 ^ 32 }
    ensures { (k : ℕ) → slice_index series.new k ≡ slice_index series.old k + slice_index amounts.now k }
{
    for (k, amount) in amounts.iter().enumerate() {
        series[k] += *amount;
    }
}

/// The first second from this one on that is not empty.
fn next_filled(series: &[u32], from: usize) -> Option<usize>
    ensures none { IfNone result (IsEmpty series.now from (length series.now)) }
    ensures some { IfSome result (IsNext series.now from) }
{
    for x in from..series.len() {
        if series[x] > 0 {
            return Some(x);
        }
    }
    None
}

/// Where the run ends that begins with this second, which is not empty: after its last second.
fn run_end(series: &[u32], first: usize, gap: u32, rate: u32, most: u32) -> usize
    requires there { first < length series.now }
    requires filled { 1 ≤ slice_index series.now first }
    requires gap { gap ≤ 10 }
    requires most { (1 ≤ most) × (most ≤ 240) }
    ensures run { IsRunUpTo gap rate most series.now first result }
    ensures closed { IsClosed gap rate most series.now first result }
{
    let mut end = first + 1;
    let mut peak = series[first];
    for x in first + 1..series.len().min(first + most as usize) {
        if x > end + gap as usize {
            return end;
        }
        if series[x] > 0 {
            if 1000 * (series[x] as u64) < rate as u64 * peak as u64 {
                return end;
            }
            peak = peak.max(series[x]);
            end = x + 1;
        }
    }
    end
}

/// The first second that is not empty; 0 where all are.
pub(crate) fn first_filled(series: &[u32]) -> usize
    ensures value { result ≡ first_of (filled series.now) }
    ensures bounds { result ≤ length series.now }
{
    next_filled(series, 0).unwrap_or(0)
}

/// How a series is cut.
#[derive(Clone, Copy)]
pub(crate) struct Cutting {
    /// How many empty seconds a run may have between its vehicles.
    pub gap: u32,
    /// How many thousandths of the greatest amount before it each later second of a run has; 0 for any.
    pub rate: u32,
    /// How many seconds a run may span.
    pub most: u32,
    /// The second in which a run begins that may span another number of seconds, and that number.
    pub first: Option<(usize, u32)>,
}

/// How many seconds a run may span that begins in this one.
fn span_at(cutting: Cutting, second: usize) -> u32
    ensures { result ≡ span_at cutting.first cutting.most second }
{
    match cutting.first {
        Some((first, span)) if first == second => span,
        _ => cutting.most,
    }
}

/// The platoons of the streams, whose series is what they bring together. With an age a link counts more in their loads
/// while its queue stands.
pub(crate) fn gather_platoons(
    alloc: Global,
    net: &Network,
    sensed: &Sensed,
    age: Option<u32>,
    cutting: Cutting,
    series: &[u32],
    streams: &PhaseStreams,
) -> Result<Vec<Platoon>, AllocError>
    requires now { sensed.now.now ≤ most_seconds }
    requires age { IsAge age }
    requires gap { cutting.gap ≤ 10 }
    requires spans { AreSpans cutting.first cutting.most }
    requires look { length series.now ≤ most_look }
    requires series { series.now ≡ together streams.now (length series.now) }
    requires streams { AreStreams (length series.now) streams.now }
    requires links { AreOfLinks net.now streams.now }
    ensures { IfOk result (λ platoons. ArePlatoonsBy (aged_load_of age net.now sensed.entry.now) cutting.gap
        cutting.rate (span_at cutting.first cutting.most) sensed.entry.now.now (length series.now)
        streams.now platoons.items) }
{
    let mut platoons = Vec::with_capacity(alloc, CAPACITY)?;
    let mut from = 0;
    while let Some(first) = next_filled(series, from) {
        let most = span_at(cutting, first);
        let end = run_end(series, first, cutting.gap, cutting.rate, most);
        platoons.push(platoon(net, sensed, age, streams, first, end)?)?;
        from = end;
    }
    Ok(platoons)
}

/// The platoon of what the streams bring from the place `first` on, before the place `end`.
fn platoon(
    net: &Network,
    sensed: &Sensed,
    age: Option<u32>,
    streams: &PhaseStreams,
    first: usize,
    end: usize,
) -> Result<Platoon, AllocError>
    requires now { sensed.now.now ≤ most_seconds }
    requires age { IsAge age }
    requires order { first ≤ end }
    requires end { end ≤ most_look }
    requires few { length streams.now ≤ 16 }
    requires links { AreOfLinks net.now streams.now }
    requires long { All (λ s. end ≤ length s.amounts) streams.now }
    requires amounts { All (λ s. All (λ amount. amount ≤ most_sat) s.amounts) streams.now }
    ensures { IfOk result (λ platoon. platoon ≡
        platoon_within (aged_load_of age net.now sensed.entry.now) sensed.entry.now.now streams.now first end) }
{
    let mut size = 0;
    let mut load = 0;
    for stream in streams.as_slice() {
        let amounts = &stream.amounts.as_slice()[first..end];
        let amount = total(amounts);
        size += amount;
        load += load_on(net, sensed, age, stream.link, amounts, amount);
    }
    let cluster = Cluster {
        size,
        load,
        arr: sensed.now + first as u32,
        len: (end - first) as u32,
    };
    Ok(Platoon {
        cluster,
        parts: Parts::within(streams, first, end)?,
    })
}

/// All these amounts.
fn total(amounts: &[u32]) -> u32
    requires { sum amounts.now < 2 ^ 32 }
    ensures { result ≡ sum amounts.now }
{
    amounts.iter().sum()
}
