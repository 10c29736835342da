//! Single servings, whole sequences, and the parts that they depend on.

ghost use Rattle.std.specs.Prelude.{◌≡◌, ◌<◌, length};

use foundation::steps::Steps;
use phase_plan::{Phase, PhasePlan};
use schedule_meaning::{Instance, SeqFault, ServingsFault, Timed, read_instance, replay, servings};
use std::alloc::Global;
use std::marker::Brand;
use std::sync::ledger::{Blank, Ledger};
use std::test::Fail;
use switch_rules::{Head, LATEST_TIME, Served, Unfit, serve, ways};

/// The lines of two phases alike, up to the head's.
pub(crate) const TWO_PHASES: &str =
    "instance 1\nphases 2\nphase 5 30 3 2 2 120\nphase 5 30 3 2 2 120\n";

/// The same, where clusters may not wait long.
pub(crate) const IMPATIENT: &str =
    "instance 1\nphases 2\nphase 5 30 3 2 2 20\nphase 5 30 3 2 2 10\n";

const MEETING: &str = "head 0 0 0 kept\ncluster 0 4000 0 8\ncluster 1 2000 3 4\n";

const DEAR_END: &str =
    "head 0 0 0 kept\ncluster 0 1000 0 10\ncluster 0 1000 30 8\ncluster 0 1000 41 12\ncluster 1 6000 0 4\n";

const PHASE: Phase = Phase {
    least: 5,
    greatest: 30,
    yellow: 3,
    clear: 2,
    loss: 2,
    wait: 120,
    skip: false,
};

// How the first cluster of a phase is served from the head, or why it is not.
const FIRST: &[(&str, &str, &str, u8, Result<Served, Unfit>)] = &[
    (
        "in the green that stands",
        TWO_PHASES,
        "head 0 0 0 kept\ncluster 0 4000 0 8\n",
        0,
        Ok(Served {
            green: 0,
            start: 0,
            finish: 8,
            cost: 0,
            kept: true,
        }),
    ),
    (
        "in a green that begins as soon as can be",
        TWO_PHASES,
        "head 0 0 0 kept\ncluster 1 2000 3 4\n",
        1,
        Ok(Served {
            green: 10,
            start: 12,
            finish: 16,
            cost: 18000,
            kept: false,
        }),
    ),
    (
        "in a green that begins as it arrives",
        TWO_PHASES,
        "head 0 0 0 kept\ncluster 1 1000 20 2\n",
        1,
        Ok(Served {
            green: 20,
            start: 20,
            finish: 22,
            cost: 0,
            kept: false,
        }),
    ),
    (
        "to the last second of the green",
        TWO_PHASES,
        "head 0 0 20 kept\ncluster 0 1000 20 10\n",
        0,
        Ok(Served {
            green: 0,
            start: 20,
            finish: 30,
            cost: 0,
            kept: true,
        }),
    ),
    (
        "behind a pass round the ring",
        TWO_PHASES,
        "head 0 0 20 kept\ncluster 0 1000 20 15\n",
        0,
        Ok(Served {
            green: 35,
            start: 37,
            finish: 52,
            cost: 17000,
            kept: false,
        }),
    ),
    (
        "behind the start-up loss",
        TWO_PHASES,
        "head 0 10 10 fresh\ncluster 0 1000 10 2\n",
        0,
        Ok(Served {
            green: 10,
            start: 12,
            finish: 14,
            cost: 2000,
            kept: true,
        }),
    ),
    (
        "rolling",
        TWO_PHASES,
        "head 0 10 10 fresh\ncluster 0 1000 11 2\n",
        0,
        Ok(Served {
            green: 10,
            start: 11,
            finish: 13,
            cost: 0,
            kept: true,
        }),
    ),
    (
        "longer than a green",
        TWO_PHASES,
        "head 0 0 0 kept\ncluster 0 1000 0 40\n",
        0,
        Err(Unfit::TooLong),
    ),
    (
        "with a wait as long as can be",
        IMPATIENT,
        "head 0 0 0 kept\ncluster 1 2000 2 4\n",
        1,
        Ok(Served {
            green: 10,
            start: 12,
            finish: 16,
            cost: 20000,
            kept: false,
        }),
    ),
    (
        "with too long a wait",
        IMPATIENT,
        "head 0 0 8 kept\ncluster 1 2000 3 4\n",
        1,
        Err(Unfit::TooLate),
    ),
    (
        "too long before too late",
        IMPATIENT,
        "head 0 0 8 kept\ncluster 1 2000 3 40\n",
        1,
        Err(Unfit::TooLong),
    ),
];

#[test]
fn first_clusters(rt: HostRuntime) -> Result<(), Fail> {
    let alloc = rt.alloc();
    for &(shows, phases, rest, phase, served) in FIRST {
        let instance = instance(alloc, phases, rest)?;
        let found = first_served(&instance, phase);
        assert!(rt; found == Some(served), "{shows}: {found:?}");
    }
    Ok(())
}

// Whole sequences, timed, or the first fault.
const SEQUENCES: &[(&str, &str, &[u8], Result<Timed, SeqFault>)] = &[
    (TWO_PHASES, MEETING, &[], Err(SeqFault::WrongCount(0))),
    (
        TWO_PHASES,
        MEETING,
        &[0, 1],
        Ok(Timed {
            delay: 24000,
            head: Head {
                phase: 1,
                since: 13,
                at: 19,
                fresh: false,
            },
        }),
    ),
    (
        TWO_PHASES,
        MEETING,
        &[1, 0],
        Ok(Timed {
            delay: 110000,
            head: Head {
                phase: 0,
                since: 21,
                at: 31,
                fresh: false,
            },
        }),
    ),
    (
        TWO_PHASES,
        MEETING,
        &[0, 2],
        Err(SeqFault::Phase { place: 2 }),
    ),
    (
        TWO_PHASES,
        MEETING,
        &[1, 1, 7],
        Err(SeqFault::Phase { place: 3 }),
    ),
    (TWO_PHASES, MEETING, &[0], Err(SeqFault::WrongCount(1))),
    (TWO_PHASES, MEETING, &[0, 0], Err(SeqFault::WrongCount(0))),
    (
        TWO_PHASES,
        MEETING,
        &[1, 1, 0],
        Err(SeqFault::WrongCount(1)),
    ),
    (
        IMPATIENT,
        MEETING,
        &[0, 1],
        Err(SeqFault::Unfit {
            place: 2,
            why: Unfit::TooLate,
        }),
    ),
    (
        TWO_PHASES,
        "head 0 0 0 kept\ncluster 0 1000 0 40\n",
        &[0],
        Err(SeqFault::Unfit {
            place: 1,
            why: Unfit::TooLong,
        }),
    ),
    (
        TWO_PHASES,
        "head 1 7 9 fresh\n",
        &[],
        Ok(Timed {
            delay: 0,
            head: Head {
                phase: 1,
                since: 7,
                at: 9,
                fresh: true,
            },
        }),
    ),
    (
        TWO_PHASES,
        DEAR_END,
        &[0, 1, 0, 0],
        Ok(Timed {
            delay: 102000,
            head: Head {
                phase: 0,
                since: 30,
                at: 53,
                fresh: false,
            },
        }),
    ),
    (
        TWO_PHASES,
        DEAR_END,
        &[1, 0, 0, 0],
        Ok(Timed {
            delay: 115000,
            head: Head {
                phase: 0,
                since: 56,
                at: 70,
                fresh: false,
            },
        }),
    ),
];

#[test]
fn sequences(rt: HostRuntime) -> Result<(), Fail> {
    let alloc = rt.alloc();
    for &(phases, rest, sequence, timed) in SEQUENCES {
        let instance = instance(alloc, phases, rest)?;
        assert!(rt; sequence.len() < 100);
        let found = replayed(&instance, sequence);
        assert!(rt; found == timed, "{sequence:?}: {found:?}");
    }
    Ok(())
}

// What a sequence of the clusters that meet serves: of each cluster when its green began, its first vehicle leaves and its last has left,
// its delay, and whether the green before it went on.
const SERVED: [(u32, u32, u32, u64, bool); 2] = [(0, 0, 8, 0, true), (13, 15, 19, 24000, false)];

#[test]
fn servings_of_sequences(rt: HostRuntime) -> Result<(), Fail> {
    let alloc = rt.alloc();
    let instance = instance(alloc, TWO_PHASES, MEETING)?;
    let list = servings(alloc, &instance, &[0, 1]).ok().ok_or("none")?;
    let served = SERVED.map(|(green, start, finish, cost, kept)| Served {
        green,
        start,
        finish,
        cost,
        kept,
    });
    assert_eq!(rt; list.as_slice(), served.as_slice());
    let refused = servings(alloc, &instance, &[0, 2]).err();
    let fault = SeqFault::Phase { place: 2 };
    assert_eq!(rt; refused, Some(ServingsFault::Seq(fault)));
    Ok(())
}

// Of three phases alike, the seconds from the green of one to that of another.
const SWITCH_TIMES: &[(u8, u8, u32)] = &[(0, 1, 5), (0, 2, 15), (0, 0, 25)];

#[test]
fn switch_times(rt: HostRuntime) -> Result<(), Fail> {
    let phases = vec![in rt.alloc(); PHASE; 3]?;
    assert_eq!(rt; phases.len(), 3);
    let plan = PhasePlan::new(phases).ok().ok_or("no plan")?;
    for &(from, to, seconds) in SWITCH_TIMES {
        assert!(rt; from < plan.count() && to < plan.count());
        assert!(rt;
            plan.switch_time(from, to) == seconds,
            "from {from} to {to}"
        );
    }
    Ok(())
}

#[test]
fn numbers_of_orders(rt: HostRuntime) {
    assert_eq!(rt; ways(&[9, 9]), 48620);
    // There are 92378, and the answer is at most 50001.
    assert_eq!(rt; ways(&[10, 9]), 50001);
}

/// The instance of these phases, with these lines after them.
pub(crate) fn instance(alloc: Global, phases: &str, rest: &str) -> Result<Instance, Fail> {
    let text = [phases, rest, "end\n"].concat(alloc)?;
    if text.len() > 10_000 {
        return Err("long".into());
    }
    Ok(
        read_instance(alloc, text.as_bytes())
            .ok()
            .ok_or("no instance")?,
    )
}

// The first cluster of a phase served from the head.
fn first_served(i: &Instance, phase: u8) -> Option<Result<Served, Unfit>> {
    first_counted::<Brand>(i, phase, Blank::new(1))
}

// The same, with the steps counted.
fn first_counted<L: Ledger>(i: &Instance, phase: u8, blank: Blank) -> Option<Result<Served, Unfit>>
    requires name { blank.name ≡ L.name }
    requires parts { blank.parts ≡ L.parts }
    requires some { 0 < L.parts }
{
    let mut steps = Steps::<L>::new(blank);
    let head = i.head();
    if phase >= i.plan().count() || head.at > LATEST_TIME {
        return None;
    }
    let cluster = i.list(phase).first()?;
    match serve(i.plan(), &head, phase, cluster, &mut steps) {
        Ok((served, _)) => Some(Ok(served)),
        Err(why) => Some(Err(why)),
    }
}

// A sequence replayed.
fn replayed(i: &Instance, sequence: &[u8]) -> Result<Timed, SeqFault>
    requires { length sequence.now < 100 }
{
    replay_counted::<Brand>(i, sequence, Blank::new(1))
}

// The same, with the steps counted.
fn replay_counted<L: Ledger>(i: &Instance, sequence: &[u8], blank: Blank) -> Result<Timed, SeqFault>
    requires name { blank.name ≡ L.name }
    requires parts { blank.parts ≡ L.parts }
    requires some { 0 < L.parts }
    requires short { length sequence.now < 100 }
{
    let mut steps = Steps::<L>::new(blank);
    replay(i, sequence, &mut steps)
}
