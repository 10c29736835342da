//! What a core answers to steps, and what it wants.
ghost use Rattle.std.specs.Prelude.{IfOk};
ghost use Rattle.arrivals.specs.Amounts.{AreArrivals};
ghost use Rattle.schedule_meaning.specs.{Best.IsBest, Best.IsLeast, declared.planners.Answer.Answer};

use arrivals::{Arrivals, read_arrivals};
use forward_dp::LayerPlanner;
use foundation::steps::Steps;
use net_core::Core;
use road_net::Network;
use schedule_meaning::{Answer, Instance, Planner};
use std::alloc::{AllocError, Global};
use std::sync::ledger::Ledger;
use std::test::Fail;
use worked_network::{ONE_VEHICLE, network};

/// The nodes that are asked to act, the answer to the last one, and then what both nodes want, how many steps there were, and whether
/// all is over.
const ANSWERS: &[(&str, &str)] = &[
    ("a", "Ok(()) [Publish(1), Read(1)] 1 false"),
    ("aa", "Ok(()) [Done, Read(1)] 2 false"),
    ("aaa", "Err(NotItsTurn) [Done, Read(1)] 2 false"),
    ("aac", "Err(UnknownNode) [Done, Read(1)] 2 false"),
    ("aabb", "Ok(()) [Read(2), Read(1)] 4 false"),
    ("aabbaabbaabbaabb", "Ok(()) [Done, Done] 16 true"),
    ("aabbaabbaabbaabba", "Err(Over) [Done, Done] 16 true"),
    ("aabbaabbaabbaabbc", "Err(UnknownNode) [Done, Done] 16 true"),
];

/// The same with a planner that finds no memory.
const SPENT: &[(&str, &str)] = &[
    ("a", "Err(NoMemory) [Done, Done] 0 false"),
    ("ab", "Err(Spent) [Done, Done] 0 false"),
    ("abc", "Err(UnknownNode) [Done, Done] 0 false"),
];

/// What a planner answers.
type Answered = Result<Answer, AllocError>;

/// A planner that finds no memory.
#[derive(Clone, Copy)]
struct NoMemory;

impl Planner for NoMemory {
    fn best<L: Ledger>(&mut self, _: Global, _: &Instance, _: &mut Steps<L>) -> Answered {
        Err(AllocError)
    }
}

#[test]
fn answers(rt: HostRuntime) -> Result<(), Fail> {
    for &(nodes, wanted) in ANSWERS {
        let found = answer(rt.alloc(), nodes, &mut LayerPlanner)?;
        assert_eq!(rt; found.as_str(), wanted);
    }
    for &(nodes, wanted) in SPENT {
        let found = answer(rt.alloc(), nodes, &mut NoMemory)?;
        assert_eq!(rt; found.as_str(), wanted);
    }
    Ok(())
}

/// What a core of the worked network answers when these nodes are asked to act.
fn answer<P: Planner>(alloc: Global, nodes: &str, planner: &mut P) -> Result<String, Fail> {
    match network(alloc, 4) {
        Ok(net) => answer_of(alloc, &net, nodes, planner),
        Err(_) => Err("no network".into()),
    }
}

/// What a core of a network that the one vehicle enters answers when these nodes are asked to act.
fn answer_of<P: Planner>(
    alloc: Global,
    net: &Network,
    nodes: &str,
    planner: &mut P,
) -> Result<String, Fail> {
    let arrivals = read_arrivals(alloc, ONE_VEHICLE.as_bytes(), net)?;
    Ok(stepped(alloc, net, &arrivals, nodes, planner)?)
}

/// What a core answers when these nodes are asked to act.
fn stepped<P: Planner>(
    alloc: Global,
    net: &Network,
    arrivals: &Arrivals,
    nodes: &str,
    planner: &mut P,
) -> Result<String, AllocError>
    requires { AreArrivals net.now arrivals.now }
{
    let mut core = Core::start(alloc, net, arrivals, planner)?;
    let mut last = Ok(());
    for name in nodes.bytes() {
        last = core.step(alloc, node_of(name), planner);
    }
    if net.nodes() != 2 {
        return Err(AllocError);
    }
    let wants = [core.wants(0), core.wants(1)];
    let count = core.steps().len();
    let is_over = core.is_over();
    format!(in alloc; "{last:?} {wants:?} {count} {is_over}")
}

/// The number of a node of these names: `a` is 0.
fn node_of(name: u8) -> u32 {
    u32::from(name.wrapping_sub(b'a'))
}
