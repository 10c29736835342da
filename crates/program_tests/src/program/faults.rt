//! Sinks that keep more of a piece that fails than recorded cases have, and memory that runs out in mid-work.

use super::calls::{Faults, NO_FAULTS, TWO_CLUSTERS, TWO_CLUSTERS_PLAN, run};
use outside_world::SinkFail;
use signal_cli::Status;
use std::test::Fail;

const OUT_KEEPS_ALL: Faults<'static> = Faults {
    out: &[SinkFail {
        call: 1,
        kept: 1000,
    }],
    err: &[],
};

const ERR_KEEPS_FOUR: Faults<'static> = Faults {
    out: &[],
    err: &[SinkFail { call: 1, kept: 4 }],
};

// The command, what fails, and how it ends: its status, and what stands in `out` and `err`.
const FAULTY: &[(&str, Faults<'static>, Status, &str, &str)] = &[
    (
        "plan",
        OUT_KEEPS_ALL,
        Status::WriteFault,
        TWO_CLUSTERS_PLAN,
        "signal: cannot write\n",
    ),
    ("planned", ERR_KEEPS_FOUR, Status::Usage, "", "sign"),
];

#[test]
fn faulty(rt: HostRuntime) -> Result<(), Fail> {
    let alloc = rt.alloc();
    for &(command, faults, status, out, err) in FAULTY {
        let ending = run(
            &rt,
            alloc,
            &[command, "file"],
            TWO_CLUSTERS.as_bytes(),
            faults,
        )?;
        assert!(rt;
            ending.is(status, out, err),
            "{command} with {out} and {err}"
        );
    }
    Ok(())
}

// Whichever allocation fails: the right answer, or out of memory with nothing written.
#[test]
fn plan_whichever_is_refused(rt: HostRuntime) {
    let words = ["plan", "file"];
    let Ok(ending) = run(&rt, rt.alloc(), &words, TWO_CLUSTERS.as_bytes(), NO_FAULTS) else {
        return;
    };
    let planned = ending.is(Status::Done, TWO_CLUSTERS_PLAN, "");
    let wants = ending.is(Status::NoMemory, "", "signal: no memory\n");
    assert!(rt; planned || wants);
}
