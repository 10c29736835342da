//! A link that is green in two phases: when it is green, and what a report tells of its node.
ghost use Rattle.std.specs.Prelude.{◌≡◌, ◌<◌, IfOk, length};

use audit::line_report;
use control_flow::greens::{Green, Sign, Timeline};
use control_flow::sign_at;
use foundation::items::Items;
use foundation::text::Text;
use net_build::build;
use net_parts::{Draft, DraftConflict, DraftLink, DraftNode, DraftPhase, DraftTurn, NetFault, Run};
use net_simulator::{LinkTotals, Totals};
use phase_plan::Phase;
use road_net::Network;
use std::alloc::{AllocError, Global};
use std::test::Fail;

/// A run of two rounds, which ends in second 12.
const RUN: Run = Run {
    step: 6,
    look: 30,
    gap: 1,
    rounds: 2,
    split: false,
    age: None,
    hold: None,
    recall: None,
    act_step: None,
    rate: None,
};

/// The times of each phase.
const TIMES: Phase = Phase {
    least: 5,
    greatest: 30,
    yellow: 3,
    clear: 2,
    loss: 2,
    wait: 120,
    skip: false,
};

/// A green of each phase.
const ROWS: &[Green] = &[
    Green {
        phase: 0,
        from: 0,
        to: 10,
    },
    Green {
        phase: 1,
        from: 15,
        to: 20,
    },
    Green {
        phase: 2,
        from: 25,
        to: 30,
    },
];

/// In which seconds the links are green: `through`, `left`, which is green also beside it, and `cross`.
const SHOWN: &[(u32, bool, bool, bool)] = &[
    (0, true, true, false),
    (9, true, true, false),
    (10, false, true, false),
    (14, false, true, false),
    (15, false, true, false),
    (19, false, true, false),
    (20, false, false, false),
    (24, false, false, false),
    (25, false, false, true),
    (29, false, false, true),
    (30, false, false, false),
];

/// The report of the lines, where nothing entered: the run ends within the change from phase 0 to phase 1.
const REPORT: &str = "kind,round,node,x,y,z,w\ngreen,,a,0,0,10,\n\
    link,,,through,0,0,0\nlink,,,left,0,0,0\nlink,,,cross,0,0,0\nlink,,,out,0,0,0\ntotal,,,0,0,0,0\n";

/// The same where the row after the change is told.
const THROUGH: &str = "kind,round,node,x,y,z,w\ngreen,,a,0,0,10,\ngreen,,a,1,15,20,\n\
    link,,,through,0,0,0\nlink,,,left,0,0,0\nlink,,,cross,0,0,0\nlink,,,out,0,0,0\ntotal,,,0,0,0,0\n";

/// A word as a name.
fn name(alloc: Global, word: &str) -> Result<Text, AllocError> {
    Ok(Text::from_string(String::from_str(alloc, word)?))
}

/// The list of a name, or of none.
fn names(alloc: Global, word: Option<&str>) -> Result<Items<Text>, AllocError> {
    let mut all = Vec::new(alloc);
    if let Some(word) = word {
        all.push(name(alloc, word)?)?;
    }
    Ok(Items::from_vec(all))
}

/// A phase that serves a link, and names another one also.
fn phase(alloc: Global, link: &str, also: Option<&str>) -> Result<DraftPhase, AllocError> {
    Ok(DraftPhase {
        phase: TIMES,
        links: names(alloc, Some(link))?,
        also: names(alloc, also)?,
    })
}

/// The node, whose first phase names a link also, or none.
fn node(alloc: Global, also: Option<&str>) -> Result<DraftNode, AllocError> {
    let mut phases = Vec::new(alloc);
    phases.push(phase(alloc, "through", also)?)?;
    phases.push(phase(alloc, "left", None)?)?;
    phases.push(phase(alloc, "cross", None)?)?;
    Ok(DraftNode {
        name: name(alloc, "a")?,
        phases: Items::from_vec(phases),
        free_ring: false,
    })
}

/// A link that enters the node.
fn entry(alloc: Global, word: &str) -> Result<DraftLink, AllocError> {
    let turn = DraftTurn {
        exit: name(alloc, "out")?,
        share: 1000,
    };
    let turns = vec![in alloc; turn]?;
    Ok(DraftLink {
        name: name(alloc, word)?,
        from: None,
        to: Some(name(alloc, "a")?),
        travel: 10,
        sat: 500,
        weight: 1,
        yields: None,
        walk: None,
        turns: Items::from_vec(turns),
    })
}

/// The link that leaves it.
fn exit(alloc: Global) -> Result<DraftLink, AllocError> {
    Ok(DraftLink {
        name: name(alloc, "out")?,
        from: Some(name(alloc, "a")?),
        to: None,
        travel: 10,
        sat: 500,
        weight: 1,
        yields: None,
        walk: None,
        turns: Items::from_vec(Vec::new(alloc)),
    })
}

/// The links `through` 0, `left` 1, `cross` 2 and `out` 3.
fn links(alloc: Global) -> Result<Items<DraftLink>, AllocError> {
    let mut all = Vec::new(alloc);
    all.push(entry(alloc, "through")?)?;
    all.push(entry(alloc, "left")?)?;
    all.push(entry(alloc, "cross")?)?;
    all.push(exit(alloc)?)?;
    Ok(Items::from_vec(all))
}

/// The conflict of `left` and `cross`.
fn conflicts(alloc: Global) -> Result<Items<DraftConflict>, AllocError> {
    let conflict = DraftConflict {
        a: name(alloc, "left")?,
        b: name(alloc, "cross")?,
    };
    Ok(Items::from_vec(vec![in alloc; conflict]?))
}

/// The network, where phase 0 names a link also, or none.
fn network(alloc: Global, also: Option<&str>) -> Result<Network, NetFault> {
    let nodes = vec![in alloc; node(alloc, also)?]?;
    let draft = Draft {
        run: RUN,
        nodes: Items::from_vec(nodes),
        links: links(alloc)?,
        conflicts: conflicts(alloc)?,
        great: false,
    };
    build(alloc, draft)
}

/// The report of the lines of a network with one node and four links, into which nothing came.
fn report(alloc: Global, net: &Network) -> Result<Vec<u8>, AllocError>
    requires nodes { length net.now.node_names ≡ 1 }
    requires links { length net.now.link_names ≡ 4 }
{
    let nothing = LinkTotals {
        entered: 0,
        left: 0,
        delay: 0,
    };
    let all = Totals {
        entered: 0,
        left: 0,
        on: 0,
        delay: 0,
    };
    let lines = vec![in alloc; Timeline::from_rows(ROWS.to_vec(alloc)?)]?;
    let links = vec![in alloc; nothing; 4]?;
    line_report(alloc, net, &lines, &links, all)
}

/// Whether a link is green where its node shows this sign.
fn is_shown(net: &Network, l: u32, sign: Sign) -> bool
    requires { l < length net.now.link_names }
{
    match sign {
        Sign::On { phase, .. } => net.is_green(l, phase),
        Sign::Change { from, to } => net.is_green(l, from) && net.is_green(l, to),
        Sign::Dark => false,
    }
}

/// In how many of the seconds another link is green than is said.
fn count_others(net: &Network, line: &Timeline) -> usize
    requires { length net.now.link_names ≡ 4 }
{
    let mut others: usize = 0;
    for &(second, through, left, cross) in SHOWN {
        let sign = sign_at(line, second);
        let shown = (
            is_shown(net, 0, sign),
            is_shown(net, 1, sign),
            is_shown(net, 2, sign),
        );
        if shown != (through, left, cross) {
            others = others.saturating_add(1);
        }
    }
    others
}

/// The same of the lines of a network with four links.
fn count_others_in(alloc: Global, net: &Network) -> Result<usize, Fail> {
    if net.links() != 4 {
        return Err("another network".into());
    }
    let line = Timeline::from_rows(ROWS.to_vec(alloc)?);
    Ok(count_others(net, &line))
}

/// The same of the network, where phase 0 names a link also.
fn count_others_with(alloc: Global, also: &str) -> Result<usize, Fail> {
    match network(alloc, Some(also)) {
        Ok(net) => count_others_in(alloc, &net),
        Err(_) => Err("no network".into()),
    }
}

#[test]
fn a_link_stays_green_from_one_of_its_phases_to_the_next(rt: HostRuntime) -> Result<(), Fail> {
    assert_eq!(rt; count_others_with(rt.alloc(), "left")?, 0);
    Ok(())
}

/// The report of a network with one node and four links.
fn report_of(alloc: Global, net: &Network) -> Result<Vec<u8>, Fail> {
    if net.nodes() != 1 || net.links() != 4 {
        return Err("another network".into());
    }
    Ok(report(alloc, net)?)
}

/// The report of the network, where phase 0 names a link also, or none.
fn report_with(alloc: Global, also: Option<&str>) -> Result<Vec<u8>, Fail> {
    match network(alloc, also) {
        Ok(net) => report_of(alloc, &net),
        Err(_) => Err("no network".into()),
    }
}

#[test]
fn a_report_tells_the_row_after_a_change_where_a_link_goes_through(
    rt: HostRuntime,
) -> Result<(), Fail> {
    let through = report_with(rt.alloc(), Some("left"))?;
    assert_eq!(rt; through.as_slice(), THROUGH.as_bytes());
    let other = report_with(rt.alloc(), None)?;
    assert_eq!(rt; other.as_slice(), REPORT.as_bytes());
    Ok(())
}
