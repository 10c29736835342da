//! Steps, the turn order, and which histories are lawful.
use histories::{
    History, law_of_histories, law_of_merged_calls, law_of_steps, law_of_versions, lawful,
    node_steps, step_count, turn_order,
};
use road_net::Network;
use std::alloc::{AllocError, Global};
use std::test::Fail;
use worked_network::network;

/// The steps of each node with their number, and the turn order.
fn steps_shown(alloc: Global, net: &Network) -> Result<String, AllocError> {
    law_of_steps(net);
    law_of_histories(net);
    law_of_versions(net);
    law_of_merged_calls(net);
    let mut text = String::new(alloc);
    for node in 0..net.nodes() {
        let count = step_count(net, node);
        let steps = node_steps(alloc, net, node)?;
        write!(text, "{count} {steps:?}\n")?;
    }
    let order = turn_order(alloc, net)?;
    let nodes = order.steps();
    write!(text, "{nodes:?}")?;
    Ok(text)
}

/// The history of these digits.
fn history_of(alloc: Global, digits: &str) -> Result<History, AllocError> {
    let mut steps = Vec::new(alloc);
    for digit in digits.bytes() {
        steps.push(u32::from(digit.wrapping_sub(b'0')))?;
    }
    Ok(History::new(steps))
}

/// Each of these histories with whether it is lawful.
fn judged(alloc: Global, net: &Network, histories: &str) -> Result<String, AllocError> {
    let mut text = String::new(alloc);
    for digits in histories.split(' ') {
        let h = history_of(alloc, digits)?;
        let is = lawful(alloc, net, &h)?;
        write!(text, "{digits}:{is} ")?;
    }
    Ok(text)
}

/// What the worked network with this number of rounds shows: its steps, or of histories, where some are given, which are lawful.
fn shown(alloc: Global, rounds: u32, histories: Option<&str>) -> Result<String, AllocError> {
    match network(alloc, rounds) {
        Ok(net) => answer(alloc, &net, histories),
        Err(_) => String::from_str(alloc, "no network"),
    }
}

/// The same of a network.
fn answer(alloc: Global, net: &Network, histories: Option<&str>) -> Result<String, AllocError> {
    match histories {
        None => steps_shown(alloc, net),
        Some(histories) => judged(alloc, net, histories),
    }
}

/// How many rounds, histories, and what is shown.
const SHOWN: &[(u32, Option<&str>, &str)] = &[
    (
        4,
        None,
        "2 [Read(2), Publish(1)]
2 [Read(1), Publish(2)]
[0, 0, 1, 1, 0, 0, 1, 1, 0, 0, 1, 1, 0, 0, 1, 1]",
    ),
    (
        1,
        Some("0011 0101 000 00 00110 0121  1100"),
        "0011:true 0101:true 000:false 00:false 00110:false 0121:false :false 1100:true ",
    ),
    // In the third of these each node has its steps in all, but not in each round.
    (
        2,
        Some("00110011 01101001 00001111 0011001 01010101 00110111"),
        "00110011:true 01101001:true 00001111:false 0011001:false 01010101:true 00110111:false ",
    ),
];

#[test]
fn steps_and_histories_of_the_worked_network(rt: HostRuntime) -> Result<(), Fail> {
    for &(rounds, histories, wanted) in SHOWN {
        let found = shown(rt.alloc(), rounds, histories)?;
        assert_eq!(rt; found.as_str(), wanted);
    }
    Ok(())
}
