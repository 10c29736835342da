//! The run of the worked network under actuated control.

use actuated::{act_report, run_actuated};
use arrivals::read_arrivals;
use road_net::Network;
use std::alloc::Global;
use std::test::Fail;
use worked_network::{ONE_VEHICLE, network};

/// The report of the run: nothing calls at a before second 9, so its first green is held up to second 10, when the
/// vehicle arrives and calls for the other phase. The vehicle waits for seven seconds, and then leaves in two.
const REPORT: &str = "kind,round,node,x,y,z,w\n\
    green,,a,0,0,10,\ngreen,,a,1,15,45,\ngreen,,b,0,0,30,\n\
    link,,,sa,1000,1000,7500\nlink,,,ab,1000,0,0\nlink,,,ba,0,0,0\nlink,,,sb,0,0,0\nlink,,,xb,0,0,0\n\
    total,,,1000,0,1000,7500\n";

/// The report of the run of the worked network.
fn report(alloc: Global) -> Result<Vec<u8>, Fail> {
    match network(alloc, 4) {
        Ok(net) => report_of(alloc, &net),
        Err(_) => Err("no network".into()),
    }
}

/// The report of the run of a network that the one vehicle enters.
fn report_of(alloc: Global, net: &Network) -> Result<Vec<u8>, Fail> {
    let arrivals = read_arrivals(alloc, ONE_VEHICLE.as_bytes(), net)?;
    let run = run_actuated(alloc, net, &arrivals)?;
    Ok(act_report(alloc, net, &run)?)
}

#[test]
fn a_vehicle_calls_for_its_phase(rt: HostRuntime) -> Result<(), Fail> {
    let report = report(rt.alloc())?;
    assert!(rt; report.as_slice() == REPORT.as_bytes());
    Ok(())
}
