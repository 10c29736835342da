//! How many seconds the runs of a standing phase may span.
ghost use Rattle.std.specs.Prelude.{◌≡◌, ◌-◌, ◌<◌, ◌≤◌, ℕ, IfSome, length};
ghost use Rattle.net_parts.specs.Limits.{most_look, most_seconds};
ghost use Rattle.clusters.specs.{Options.span_in_green, Steps.AreSpans, Steps.span_at, Steps.span_with};
ghost use Rattle.phase_plan.specs.Phases.{IsPhase};

use crate::cuts::first_filled;
use phase_plan::Phase;
use switch_rules::Head;

/// The second in which the first run of a series begins and how many seconds it may span, where a head is given in
/// whose green it is to end.
pub(crate) fn first_in_green(
    times: &Phase,
    split: Option<Head>,
    now: u32,
    series: &[u32],
) -> Option<(usize, u32)>
    requires times { IsPhase times.now }
    requires head { IfSome split (λ head. head.since ≤ head.at) }
    requires now { now ≤ most_seconds }
    requires look { length series.now ≤ most_look }
    ensures value { (x : ℕ) → span_at result (times.now.greatest - times.now.loss) x ≡
        span_with split times.now.greatest (times.now.greatest - times.now.loss) now series.now x }
    ensures bounds { AreSpans result (times.now.greatest - times.now.loss) }
{
    let head = split?;
    let first = first_filled(series);
    let most = times.greatest - times.loss;
    let span = span_in_green(times.greatest, most, &head, now + first as u32);
    Some((first, span))
}

/// How many seconds a cluster of the standing phase may span that arrives in this second.
fn span_in_green(greatest: u32, most: u32, head: &Head, arr: u32) -> u32
    requires head { head.now.since ≤ head.now.at }
    requires most { (1 ≤ most) × (most ≤ 240) }
    ensures value { result ≡ span_in_green greatest most head.now arr }
    ensures bounds { (1 ≤ result) × (result ≤ 240) }
{
    let passed = arr.max(head.at) - head.since;
    if passed >= greatest {
        return most;
    }
    most.min(greatest - passed)
}
