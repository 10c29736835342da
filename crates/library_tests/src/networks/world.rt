//! The world of the worked network, in one move of 20 seconds and second by second.
ghost use Rattle.std.specs.Prelude.{◌≡◌, length};
ghost use Rattle.arrivals.specs.Amounts.{AreArrivals};
ghost use Rattle.net_simulator.specs.Worlds.{IsWorldOf};

use super::lines::lines_of_both;
use arrivals::{Arrivals, read_arrivals};
use net_simulator::{Lines, World, play};
use road_net::Network;
use std::alloc::{AllocError, Global};
use std::test::Fail;
use worked_network::{ONE_VEHICLE, network};

/// What is told after each of ten seconds, in which the vehicle comes, and of each of ten in which half of it waits.
const COMING: &str = "1000 0 1000 0\n";

const WAITING: &str = "1000 0 1000 500\n";

/// What is told in the end: of each link what entered, what left, and the delay; and of each node what it senses of each entry
/// link, the queue first.
const END: &str = "1000 1000 500
1000 0 0
0 0 0
0 0 0
0 0 0
0 0 [0, 0, 0, 0, 0, 0, 0, 0, 0, 0]
2 0 [0, 0, 0, 0, 0, 0, 0, 0, 0, 0]
1 0 [500, 500, 0, 0, 0, 0, 0, 0, 0, 0]
3 0 [0, 0, 0, 0, 0, 0, 0, 0, 0, 0]
";

/// What is told of the worked network, played at once or second by second.
fn told(alloc: Global, at_once: bool) -> Result<String, Fail> {
    match network(alloc, 4) {
        Ok(net) => told_of(alloc, &net, at_once),
        Err(_) => Err("no network".into()),
    }
}

/// What is told of a network, played at once or second by second.
fn told_of(alloc: Global, net: &Network, at_once: bool) -> Result<String, Fail> {
    let lines = lines_of_both(alloc)?;
    let lines = Lines {
        all: lines.as_slice(),
    };
    let arrivals = read_arrivals(alloc, ONE_VEHICLE.as_bytes(), net)?;
    Ok(if at_once {
        played_at_once(alloc, net, &arrivals, &lines)?
    } else {
        played_by_seconds(alloc, net, &arrivals, &lines)?
    })
}

/// Plays a network for 20 seconds, and tells the totals, and what is told in the end.
fn played_at_once<'a>(
    alloc: Global,
    net: &Network,
    arrivals: &Arrivals,
    lines: &Lines<'a>,
) -> Result<String, AllocError>
    requires { AreArrivals net.now arrivals.now }
{
    let mut told = String::new(alloc);
    let world = play(alloc, net, arrivals, lines, 20)?;
    tell_totals(&world, &mut told)?;
    tell_links(net, &world, &mut told)?;
    tell_senses(alloc, net, &world, &mut told)?;
    Ok(told)
}

/// Plays a network second by second, and tells the totals after each, and then what is told in the end.
fn played_by_seconds<'a>(
    alloc: Global,
    net: &Network,
    arrivals: &Arrivals,
    lines: &Lines<'a>,
) -> Result<String, AllocError>
    requires { AreArrivals net.now arrivals.now }
{
    let mut told = String::new(alloc);
    let mut world = World::new(alloc, net)?;
    for _i in 0..20_u32 {
        world.advance(net, lines, arrivals, 1);
        tell_totals(&world, &mut told)?;
    }
    tell_links(net, &world, &mut told)?;
    tell_senses(alloc, net, &world, &mut told)?;
    Ok(told)
}

/// Tells what entered, what left, what is there, and the delay.
fn tell_totals(world: &World, told: &mut String) -> Result<(), AllocError> {
    let totals = world.totals();
    let (entered, left, on, delay) = (totals.entered, totals.left, totals.on, totals.delay);
    Ok(write!(told, "{entered} {left} {on} {delay}\n")?)
}

/// Tells what is counted of each link.
fn tell_links(net: &Network, world: &World, told: &mut String) -> Result<(), AllocError>
    requires { length world.now.counts ≡ length net.now.link_names }
{
    for l in 0..net.links() {
        let totals = world.link_totals(l);
        let (entered, left, delay) = (totals.entered, totals.left, totals.delay);
        write!(told, "{entered} {left} {delay}\n")?;
    }
    Ok(())
}

/// Tells what each node senses.
fn tell_senses(
    alloc: Global,
    net: &Network,
    world: &World,
    told: &mut String,
) -> Result<(), AllocError>
    requires { IsWorldOf net.now world.now }
{
    for node in 0..net.nodes() {
        let sensed = world.sense(alloc, net, node)?;
        for sense in sensed.links.as_slice() {
            let (link, queue, coming) = (sense.link, sense.queue, sense.coming.as_slice());
            write!(told, "{link} {queue} {coming:?}\n")?;
        }
    }
    Ok(())
}

#[test]
fn twenty_seconds(rt: HostRuntime) -> Result<(), Fail> {
    let alloc = rt.alloc();
    let at_once = told(alloc, true)?;
    assert_eq!(rt; at_once.as_str(), [WAITING, END].concat(alloc)?.as_str());
    let by_seconds = told(alloc, false)?;
    let seconds = [
        COMING.repeat(alloc, 10)?.as_str(),
        WAITING.repeat(alloc, 10)?.as_str(),
        END,
    ]
    .concat(alloc)?;
    assert_eq!(rt; by_seconds.as_str(), seconds.as_str());
    Ok(())
}
