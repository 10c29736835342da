//! What the planner that tries all orders answers for worked instances; no command calls it.

use super::servings::{IMPATIENT, TWO_PHASES, instance};
use schedule_meaning::{Answer, PlainPlanner, best_answer};
use std::test::Fail;

// What the instance shows, the lines up to its head, those from there to its end, and the best answer: whether
// there is a plan, its delay and its sequence.
const WORKED: &[(&str, &str, &str, bool, u64, &[u8])] = &[
    ("no clusters", TWO_PHASES, "head 0 0 0 kept\n", true, 0, &[]),
    (
        "of two orders that cost the same the first",
        TWO_PHASES,
        "head 0 0 0 kept\ncluster 0 3000 0 8\ncluster 1 23000 3 4\n",
        true,
        276_000,
        &[0, 1],
    ),
    (
        "waits that no order meets",
        IMPATIENT,
        "head 0 0 0 kept\ncluster 0 4000 0 8\ncluster 1 2000 3 4\n",
        false,
        0,
        &[],
    ),
    (
        "a start-up loss that is not yet spent",
        TWO_PHASES,
        "head 0 10 10 fresh\ncluster 0 1000 10 2\n",
        true,
        2000,
        &[0],
    ),
    (
        "a prefix that is cheaper and whose end is dearer",
        TWO_PHASES,
        "head 0 0 0 kept\ncluster 0 1000 0 10\ncluster 0 1000 30 8\ncluster 0 1000 41 12\ncluster 1 6000 0 4\n",
        true,
        102_000,
        &[0, 1, 0, 0],
    ),
    (
        "nine clusters and nine",
        TWO_PHASES,
        "head 0 0 0 kept\n\
         cluster 0 1 0 1\ncluster 0 1 10 1\ncluster 0 1 20 1\ncluster 0 1 30 1\ncluster 0 1 40 1\n\
         cluster 0 1 50 1\ncluster 0 1 60 1\ncluster 0 1 70 1\ncluster 0 1 80 1\ncluster 1 2 5 1\n\
         cluster 1 2 15 1\ncluster 1 2 25 1\ncluster 1 2 35 1\ncluster 1 2 45 1\ncluster 1 2 55 1\n\
         cluster 1 2 65 1\ncluster 1 2 75 1\ncluster 1 2 85 1\n",
        true,
        144,
        &[0, 1, 1, 0, 0, 0, 1, 1, 1, 0, 0, 1, 1, 0, 0, 1, 1, 0],
    ),
];

#[test]
fn worked_plans(rt: HostRuntime) -> Result<(), Fail> {
    let alloc = rt.alloc();
    for &(shows, phases, rest, is_plan, delay, sequence) in WORKED {
        let instance = instance(alloc, phases, rest)?;
        let found = best_answer(alloc, &mut PlainPlanner, &instance)?;
        assert!(rt; is_answer(&found, is_plan, delay, sequence), "{shows}");
    }
    Ok(())
}

// Whether an answer is this one.
fn is_answer(answer: &Answer, is_plan: bool, delay: u64, sequence: &[u8]) -> bool {
    match answer {
        Answer::Plan {
            sequence: found,
            delay: least,
        } => is_plan && *least == delay && found.as_slice() == sequence,
        Answer::NoPlan => !is_plan,
    }
}
