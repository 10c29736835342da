//! What a timeline shows at a second.

ghost use Rattle.std.specs.Prelude.{◌<◌};
ghost use Rattle.control_flow.specs.Greens.{IsLawful, end_of};

use super::lines::{TWO_CLUSTERS, TWO_PHASES, planned};
use super::servings::instance;
use control_flow::greens::{Colour, Green, Timeline};
use control_flow::{colour, green_at, head_at};
use phase_plan::PhasePlan;
use std::test::Fail;
use switch_rules::Head;

// A second, and the head then.
const HEADS: &[(u32, Head)] = &[
    (
        1,
        Head {
            phase: 0,
            since: 0,
            at: 1,
            fresh: true,
        },
    ),
    (
        2,
        Head {
            phase: 0,
            since: 0,
            at: 2,
            fresh: false,
        },
    ),
    (
        3,
        Head {
            phase: 0,
            since: 0,
            at: 3,
            fresh: false,
        },
    ),
    (
        14,
        Head {
            phase: 0,
            since: 0,
            at: 14,
            fresh: false,
        },
    ),
    (
        15,
        Head {
            phase: 1,
            since: 20,
            at: 20,
            fresh: true,
        },
    ),
    (
        17,
        Head {
            phase: 1,
            since: 20,
            at: 20,
            fresh: true,
        },
    ),
];

// A second, and the row that covers it, if one does.
const GREENS: &[(u32, Option<Green>)] = &[
    (
        14,
        Some(Green {
            phase: 0,
            from: 0,
            to: 15,
        }),
    ),
    (15, None),
    (
        20,
        Some(Green {
            phase: 1,
            from: 20,
            to: 45,
        }),
    ),
];

// A phase, a second, and what the phase shows then.
const COLOURS: &[(u8, u32, Colour)] = &[
    (0, 14, Colour::Green),
    (0, 15, Colour::Yellow),
    (0, 17, Colour::Yellow),
    (0, 18, Colour::Red),
    (1, 19, Colour::Red),
    (1, 20, Colour::Green),
];

#[test]
fn seconds_of_a_line(rt: HostRuntime) -> Result<(), Fail> {
    let alloc = rt.alloc();
    let instance = instance(alloc, TWO_PHASES, TWO_CLUSTERS)?;
    let plan = instance.plan();
    let line = planned(alloc, &instance, &[1, 0], 60)?;
    let head = other_head(plan, &line);
    assert!(rt; head.is_none(), "the head at {head:?}");
    let green = other_green(&line);
    assert!(rt; green.is_none(), "the green at {green:?}");
    let colour = other_colour(plan, &line);
    assert!(rt; colour.is_none(), "the colours at {colour:?}");
    Ok(())
}

// The first second of the table whose head is another one.
fn other_head(plan: &PhasePlan, line: &Timeline) -> Option<u32>
    requires lawful { IsLawful plan.now line.now }
    requires end { 60 < end_of line.now }
{
    for &(second, head) in HEADS {
        if second > 60 || head_at(plan, line, second) != head {
            return Some(second);
        }
    }
    None
}

// The first second of the table whose row is another one.
fn other_green(line: &Timeline) -> Option<u32> {
    for &(second, row) in GREENS {
        if green_at(line, second) != row {
            return Some(second);
        }
    }
    None
}

// The first second of the table whose colour is another one.
fn other_colour(plan: &PhasePlan, line: &Timeline) -> Option<u32> {
    for &(phase, second, shown) in COLOURS {
        if phase >= plan.count() || colour(plan, line, phase, second) != shown {
            return Some(second);
        }
    }
    None
}
