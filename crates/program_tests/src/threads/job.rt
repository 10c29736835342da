//! The command `net`.
use super::copies::{network_of_copies, vehicles_of_copies};
use super::pairs::{COPIES, MET, PAIRS, can_meet, gate_of};
use crate::gates::meeting::MeetingGate;
use crate::program::calls::file;
use commands::Status;
use network_jobs::net_job;
use outside_world::{MemoryShelf, MemorySink};
use std::alloc::{AllocError, Global};
use std::sync::Wait;
use std::test::Fail;
use std::thread::Threads;

/// The shelf with the network of the copies, and one vehicle for each.
fn shelf(alloc: Global) -> Result<MemoryShelf, AllocError> {
    let net = network_of_copies(alloc, COPIES)?.into_bytes();
    let arr = vehicles_of_copies(alloc, COPIES)?.into_bytes();
    let files = vec![in alloc; file(alloc, "net", net)?, file(alloc, "arr", arr)?]?;
    Ok(MemoryShelf::new(alloc, files, Vec::new(alloc)))
}

/// How `net` ends with this gate, and what it writes to `out`.
fn ending<R: Threads + Wait + Sync>(
    rt: &R,
    alloc: Global,
    gate: &MeetingGate,
) -> Result<(Status, MemorySink), AllocError> {
    let mut shelf = shelf(alloc)?;
    let mut out = MemorySink::new(alloc, 100_000, Vec::new(alloc))?;
    let mut err = MemorySink::new(alloc, 1000, Vec::new(alloc))?;
    let status = net_job(
        rt, alloc, "net", "arr", &mut shelf, &mut out, &mut err, gate,
    );
    Ok((status, out))
}

/// How lines of a report begin in which node b0 plans by the version of link ab0 that a0 published in the round before. In the turn
/// order it plans by that of the same round.
const PLANS: &[&str] = &[
    "\nplan,0,b0,ab0=0,",
    "\nplan,1,b0,ab0=1,",
    "\nplan,2,b0,ab0=2,",
    "\nplan,3,b0,ab0=3,",
];

/// Whether a report has all these lines.
fn has_plans(report: &[u8]) -> bool {
    let report = str::from_utf8(report).unwrap_or("");
    PLANS.iter().all(|front| report.contains(front))
}

#[test]
fn two_reads_inside_the_command(rt: HostRuntime) -> Result<(), Fail> {
    if !can_meet(&rt) {
        return Ok(());
    }
    for (place, &[first, second]) in PAIRS.iter().enumerate() {
        let gate = gate_of(first, second);
        let (status, out) = ending(&rt, rt.alloc(), &gate)?;
        assert!(rt; status == Status::Done);
        assert_eq!(rt; gate.met(), MET, "pair {place}");
        assert!(rt; place > 0 || has_plans(out.bytes()));
    }
    Ok(())
}
