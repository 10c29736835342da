//! What an audit finds of the worked network's report, and of sheets that differ from it in one place or two.
ghost use Rattle.std.specs.Prelude.{◌≡◌, ◌<◌, ◌^◌, All, IfOk, length};
ghost use Rattle.arrivals.specs.Amounts.{AreArrivals};

use arrivals::{Arrivals, read_arrivals};
use audit::{AuditWhy, Finding, Sheet, audit, read_sheet};
use control_flow::greens::Green;
use foundation::items::Items;
use net_simulator::{LinkTotals, Totals};
use road_net::Network;
use std::alloc::{AllocError, Global};
use std::test::Fail;
use worked_network::{ONE_VEHICLE, network};

/// Of each sheet the begin of the second green of a, the end of the green of b, the delay of link sa and that of the
/// whole network, and what is found.
const SHEETS: &[(u32, u32, u64, u64, Finding)] = &[
    (10, 27, 500, 500, Finding::Clean),
    (
        10,
        31,
        500,
        500,
        Finding::Bad(AuditWhy::Span { node: 1, row: 1 }),
    ),
    (
        9,
        27,
        500,
        500,
        Finding::Bad(AuditWhy::Next { node: 0, row: 2 }),
    ),
    (
        9,
        31,
        500,
        500,
        Finding::Bad(AuditWhy::Span { node: 1, row: 1 }),
    ),
    (10, 27, 499, 500, Finding::Bad(AuditWhy::Link { link: 0 })),
    (10, 27, 499, 499, Finding::Bad(AuditWhy::Link { link: 0 })),
    (10, 27, 500, 499, Finding::Bad(AuditWhy::Total)),
];

/// The report of the worked network, but for its steps and all plans but the last.
const REPORT: &str = "kind,round,node,x,y,z,w\nplan,3,b,ab=4,plan,0,00\n\
    green,,a,0,0,5,\ngreen,,a,1,10,27,\ngreen,,b,0,0,27,\n\
    link,,,sa,1000,1000,500\nlink,,,ab,1000,0,0\nlink,,,ba,0,0,0\nlink,,,sb,0,0,0\nlink,,,xb,0,0,0\n\
    total,,,1000,0,1000,500\n";

/// What the report says of the whole network, with this delay.
fn totals(delay: u64) -> Totals {
    Totals {
        entered: 1000,
        left: 0,
        on: 1000,
        delay,
    }
}

/// What the report says of each link, with this delay of the first one.
fn links(alloc: Global, delay: u64) -> Result<Vec<LinkTotals>, AllocError>
    ensures { IfOk result (λ all. length all.items ≡ 5) }
{
    let nothing = LinkTotals {
        entered: 0,
        left: 0,
        delay: 0,
    };
    let mut all = vec![in alloc; nothing; 5]?;
    all[0] = LinkTotals {
        entered: 1000,
        left: 1000,
        delay,
    };
    all[1].entered = 1000;
    Ok(all)
}

/// The greens of both nodes, where the second one of a begins and that of b ends in these seconds.
fn lines(alloc: Global, from: u32, to: u32) -> Result<Vec<Items<Green>>, AllocError>
    ensures count { IfOk result (λ all. length all.items ≡ 2) }
    ensures few { IfOk result (λ all. All (λ rows. length rows < 2 ^ 32) all.items) }
{
    let first = Green {
        phase: 0,
        from: 0,
        to: 5,
    };
    let second = Green {
        phase: 1,
        from,
        to: 27,
    };
    let other = Green {
        phase: 0,
        from: 0,
        to,
    };
    let mut all = Vec::new(alloc);
    all.push(Items::from_vec(vec![in alloc; first, second]?))?;
    all.push(Items::from_vec(vec![in alloc; other]?))?;
    Ok(all)
}

/// A sheet of the worked network.
fn sheet(alloc: Global, from: u32, to: u32, delay: u64, all: u64) -> Result<Sheet, AllocError>
    ensures lines { IfOk result (λ s. length s.lines ≡ 2) }
    ensures links { IfOk result (λ s. length s.links ≡ 5) }
    ensures few { IfOk result (λ s. All (λ rows. length rows < 2 ^ 32) s.lines) }
{
    let lines = lines(alloc, from, to)?;
    let links = links(alloc, delay)?;
    Ok(Sheet {
        lines: Items::from_vec(lines),
        links: Items::from_vec(links),
        totals: totals(all),
    })
}

/// How many sheets an audit finds something else of than is said.
fn count_others(alloc: Global, net: &Network, arrivals: &Arrivals) -> Result<usize, AllocError>
    requires nodes { length net.now.node_names ≡ 2 }
    requires links { length net.now.link_names ≡ 5 }
    requires arrivals { AreArrivals net.now arrivals.now }
{
    let mut others: usize = 0;
    for &(from, to, delay, all, found) in SHEETS {
        let sheet = sheet(alloc, from, to, delay, all)?;
        if audit(alloc, net, arrivals, sheet)? != found {
            others = others.saturating_add(1);
        }
    }
    Ok(others)
}

/// The same of a network that the one vehicle enters.
fn count_others_in(alloc: Global, net: &Network) -> Result<usize, Fail> {
    if net.nodes() != 2 || net.links() != 5 {
        return Err("another network".into());
    }
    let arrivals = read_arrivals(alloc, ONE_VEHICLE.as_bytes(), net)?;
    Ok(count_others(alloc, net, &arrivals)?)
}

/// The same of the worked network.
fn count_all_others(alloc: Global) -> Result<usize, Fail> {
    match network(alloc, 4) {
        Ok(net) => count_others_in(alloc, &net),
        Err(_) => Err("no network".into()),
    }
}

#[test]
fn an_audit_finds_the_first_reason(rt: HostRuntime) -> Result<(), Fail> {
    assert_eq!(rt; count_all_others(rt.alloc())?, 0);
    Ok(())
}

/// What an audit finds of the report of a network that the one vehicle enters.
fn finding_of(alloc: Global, net: &Network) -> Result<Finding, Fail> {
    let arrivals = read_arrivals(alloc, ONE_VEHICLE.as_bytes(), net)?;
    let sheet = read_sheet(alloc, REPORT.as_bytes(), net)?;
    Ok(audit(alloc, net, &arrivals, sheet)?)
}

/// What an audit finds of the report of the worked network.
fn finding(alloc: Global) -> Result<Finding, Fail> {
    match network(alloc, 4) {
        Ok(net) => finding_of(alloc, &net),
        Err(_) => Err("no network".into()),
    }
}

#[test]
fn a_report_is_read_as_a_clean_sheet(rt: HostRuntime) -> Result<(), Fail> {
    assert_eq!(rt; finding(rt.alloc())?, Finding::Clean);
    Ok(())
}
