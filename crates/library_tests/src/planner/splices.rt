//! Timelines that are continued by other ones.

ghost use Rattle.std.specs.Prelude.{◌<◌, ◌≤◌};
ghost use Rattle.switch_rules.specs.Bounds.{latest_time};
ghost use Rattle.control_flow.specs.Greens.{IsLawful, end_of};

use super::lines::{TWO_CLUSTERS, TWO_PHASES, are_rows, planned};
use super::servings::instance;
use control_flow::greens::Timeline;
use control_flow::{head_at, rotation};
use phase_plan::PhasePlan;
use std::alloc::Global;
use std::test::Fail;
use switch_rules::LATEST_TIME;

#[test]
fn splices(rt: HostRuntime) -> Result<(), Fail> {
    let alloc = rt.alloc();
    let from_start = turned_at(alloc, 0, 20)?;
    assert!(rt; are_rows(&from_start, &[[0, 0, 5], [1, 10, 15], [0, 20, 25]]));
    let turned = turned_at(alloc, 22, 40)?;
    let rows = &[[0, 0, 15], [1, 20, 25], [0, 30, 35], [1, 40, 45]];
    assert!(rt; are_rows(&turned, rows));
    Ok(())
}

// The timeline of two clusters up to a second, and from its head there on that of no plan.
fn turned_at(alloc: Global, now: u32, until: u32) -> Result<Timeline, Fail>
    requires now { now ≤ 60 }
    requires until { until ≤ latest_time }
{
    let instance = instance(alloc, TWO_PHASES, TWO_CLUSTERS)?;
    let line = planned(alloc, &instance, &[1, 0], 60)?;
    turned(alloc, instance.plan(), line, now, until)
}

// The timeline up to a second, and from its head there on that of no plan.
fn turned(
    alloc: Global,
    plan: &PhasePlan,
    line: Timeline,
    now: u32,
    until: u32,
) -> Result<Timeline, Fail>
    requires lawful { IsLawful plan.now line }
    requires end { now < end_of line }
    requires until { until ≤ latest_time }
{
    let mut line = line;
    let head = head_at(plan, &line, now);
    if head.at > LATEST_TIME {
        return Err("past the bounds".into());
    }
    line.splice(rotation(alloc, plan, &head, until)?)?;
    Ok(line)
}
