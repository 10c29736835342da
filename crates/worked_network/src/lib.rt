//! The worked network of docs/FORMATS.md for tests: its text, what enters it, and the network itself.
#![tactic(auto)]

use net_file::read_network;
use road_net::{NetFault, Network};
use std::alloc::{AllocError, Global};

/// Two nodes, a 0 and b 1, for four rounds. The links by number: sa 0 enters at a, ab 1 leads from a to b and ba 2 back, sb 3 enters
/// at b, and xb 4 leaves it. A line that begins with a space is a node, a link or a conflict.
pub const NETWORK: &str = r#"node = [
  { name = "a", phase = [
    { least = 5, greatest = 30, yellow = 3, clear = 2, loss = 2, wait = 120, links = ["ba"] },
    { least = 5, greatest = 30, yellow = 3, clear = 2, loss = 2, wait = 120, links = ["sa"] },
  ] },
  { name = "b", phase = [
    { least = 5, greatest = 30, yellow = 3, clear = 2, loss = 2, wait = 120, links = ["ab"] },
    { least = 5, greatest = 30, yellow = 3, clear = 2, loss = 2, wait = 120, links = ["sb"] },
  ] },
]
link = [
  { name = "sa", to = "a", travel = 10, sat = 500, turn = [{ exit = "ab", share = 1000 }] },
  { name = "ab", from = "a", to = "b", travel = 10, sat = 500, turn = [{ exit = "ba", share = 500 }, { exit = "xb", share = 500 }] },
  { name = "ba", from = "b", to = "a", travel = 10, sat = 500, turn = [{ exit = "ab", share = 1000 }] },
  { name = "sb", to = "b", travel = 10, sat = 500, turn = [{ exit = "xb", share = 1000 }] },
  { name = "xb", from = "b", travel = 10, sat = 500 },
]
conflict = [
  { a = "ba", b = "sa" },
  { a = "ab", b = "sb" },
]
[run]
step = 5
look = 30
gap = 1
rounds = 4
"#;

/// One vehicle enters in second 0.
pub const ONE_VEHICLE: &str = "second,link,amount\n0,sa,1000\n";

/// The text of the network with this number of rounds.
fn with_rounds(alloc: Global, rounds: u32) -> Result<String, AllocError> {
    let line = format!(in alloc; "rounds = {rounds}")?;
    NETWORK.replace(alloc, "rounds = 4", line.as_str())
}

/// The network of a text, which has at most 10,000 bytes.
pub fn network_of(alloc: Global, text: &str) -> Result<Network, NetFault> {
    if text.len() > 10_000 {
        return Err(NetFault::NoMemory);
    }
    read_network(alloc, text.as_bytes())
}

/// The network with this number of rounds.
pub fn network(alloc: Global, rounds: u32) -> Result<Network, NetFault> {
    network_of(alloc, with_rounds(alloc, rounds)?.as_str())
}
