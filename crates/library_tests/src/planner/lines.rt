//! The timelines of sequences, and of no plan.

ghost use Rattle.std.specs.Prelude.{◌<◌, ◌≤◌, IfOk};
ghost use Rattle.switch_rules.specs.Bounds.{latest_time};
ghost use Rattle.control_flow.specs.Greens.{IsLawful, end_of};

use super::servings::instance;
use control_flow::greens::Timeline;
use control_flow::timeline;
use schedule_meaning::{Instance, servings};
use std::alloc::Global;
use std::test::Fail;
use switch_rules::LATEST_TIME;

/// The lines of two phases alike and of the head.
pub const TWO_PHASES: &str =
    "instance 1\nphases 2\nphase 5 30 3 2 2 120\nphase 5 30 3 2 2 120\nhead 0 0 0 kept\n";

const THREE_PHASES: &str =
    "instance 1\nphases 3\nphase 5 30 3 2 2 120\nphase 5 30 3 2 2 120\nphase 5 30 3 2 2 120\nhead 0 0 0 kept\n";

/// Two clusters, the second of which has to be served first.
pub const TWO_CLUSTERS: &str = "cluster 0 1000 50 2\ncluster 1 1000 20 2\n";

// The lines of the phases and of the clusters, their sequence, the second that is to be reached, and the rows: phase, from
// and to.
const LINES: &[(&str, &str, &[u8], u32, &[[u32; 3]])] = &[
    (
        TWO_PHASES,
        TWO_CLUSTERS,
        &[1, 0],
        60,
        &[[0, 0, 15], [1, 20, 45], [0, 50, 80]],
    ),
    (TWO_PHASES, "", &[], 39, &[[0, 0, 30], [1, 35, 40]]),
    (
        TWO_PHASES,
        "",
        &[],
        40,
        &[[0, 0, 30], [1, 35, 40], [0, 45, 50]],
    ),
    (
        TWO_PHASES,
        "cluster 1 1000 60 2\n",
        &[1],
        60,
        &[[0, 0, 30], [1, 60, 90]],
    ),
    // Phase 1 is passed on the way to phase 2, and then the ring passes phases 0 and 1 to a new green of phase 2.
    (
        THREE_PHASES,
        "cluster 0 1000 150 2\ncluster 2 1000 40 2\ncluster 2 1000 120 2\n",
        &[2, 2, 0],
        150,
        &[
            [0, 0, 25],
            [1, 30, 35],
            [2, 40, 70],
            [0, 75, 80],
            [1, 85, 90],
            [2, 120, 145],
            [0, 150, 180],
        ],
    ),
];

#[test]
fn lines_of_sequences(rt: HostRuntime) -> Result<(), Fail> {
    let alloc = rt.alloc();
    for &(phases, clusters, sequence, until, rows) in LINES {
        assert!(rt; until <= 150);
        let instance = instance(alloc, phases, clusters)?;
        let line = planned(alloc, &instance, sequence, until)?;
        assert!(rt; are_rows(&line, rows), "{clusters:?} until {until}");
    }
    Ok(())
}

/// The timeline of a sequence from the instance's head.
pub fn planned(alloc: Global, i: &Instance, sequence: &[u8], until: u32) -> Result<Timeline, Fail>
    requires { until ≤ latest_time }
    ensures lawful { IfOk result (λ line. IsLawful i.now.plan line) }
    ensures end { IfOk result (λ line. until < end_of line) }
{
    let head = i.head();
    if head.at > LATEST_TIME || sequence.len() > 100 {
        return Err("past the bounds".into());
    }
    let Ok(served) = servings(alloc, i, sequence) else {
        return Err("no servings".into());
    };
    Ok(timeline(alloc, i.plan(), &head, sequence, &served, until)?)
}

/// Whether a timeline has these rows: phase, from and to.
pub fn are_rows(line: &Timeline, rows: &[[u32; 3]]) -> bool {
    if line.rows().len() != rows.len() {
        return false;
    }
    for (row, &numbers) in line.rows().iter().zip(rows) {
        if [u32::from(row.phase), row.from, row.to] != numbers {
            return false;
        }
    }
    true
}
