//! The texts of decisions.
ghost use Rattle.std.specs.Prelude.{◌≡◌, ◌<◌, ◌≤◌, [], ◌∷◌, IfOk, OnOk, length};
ghost use Rattle.std.specs.List.{flat_map};
ghost use Rattle.net_parts.specs.Limits.{most_seconds};
ghost use Rattle.round_decisions.specs.DecisionTexts as texts;
ghost use Rattle.round_decisions.specs.{DecisionTexts.IsDecisionOf, DecisionTexts.IsNodeDecisionOf, DecisionTexts.decision_records, DecisionTexts.node_decision_records, DecisionTexts.turn_records, Promises.decided_line};
ghost use Rattle.round_states.specs.{StateRecords.header, States.begin_of};
ghost use Rattle.world_records.specs.Written.{Adds};

use crate::board_records::write_boards;
use crate::decisions::{Decision, NodeDecision};
use crate::turn_records::write_turn;
use csv::Writer;
use road_net::Network;
use std::alloc::{AllocError, Global};
use world_records::{finish, start, write_record};

/// The text of a decision of a round: the plan of each node and the rows of its line that the round and later ones need,
/// and the boards of the links on which a node tells another one. The round begins before second 86,400, and the decision is one of the
/// network. `Err`: out of memory.
///
/// docs/FORMATS.md, "Decision of a round".
pub fn decision_text(
    alloc: Global,
    net: &Network,
    round: u32,
    decision: &Decision,
) -> Result<Vec<u8>, AllocError>
    requires round { begin_of net.now round < most_seconds }
    requires decision { IsDecisionOf net.now decision.now }
    ensures { IfOk result (λ text. text.items ≡ texts.decision_text net.now round decision.now) }
{
    let mut out = start(Vec::new(alloc));
    write_decision(alloc, net, round, decision, &mut out)?;
    finish(out)
}

/// The text of what one node decides in a round: its plan and the rows of its line that the round and later ones need, and
/// the boards of the links on which it tells another node. The round begins before second 86,400, and the decision is one of the network.
/// `Err`: out of memory.
///
/// docs/FORMATS.md, "Decision of a round".
pub fn node_decision_text(
    alloc: Global,
    net: &Network,
    round: u32,
    node: u32,
    decision: &NodeDecision,
) -> Result<Vec<u8>, AllocError>
    requires round { begin_of net.now round < most_seconds }
    requires decision { IsNodeDecisionOf net.now decision.now }
    ensures { IfOk result (λ text. text.items ≡ texts.node_decision_text net.now round node decision.now) }
{
    let mut out = start(Vec::new(alloc));
    write_node_decision(alloc, net, round, node, decision, &mut out)?;
    finish(out)
}

/// Writes the records of a decision of a round.
fn write_decision(
    alloc: Global,
    net: &Network,
    round: u32,
    decision: &Decision,
    out: &mut Writer<Vec<u8>>,
) -> Result<(), AllocError>
    requires round { begin_of net.now round < most_seconds }
    requires decision { IsDecisionOf net.now decision.now }
    ensures { OnOk result (Adds out.old out.new (decision_records net.now round decision.now)) }
{
    let second = round * net.run().step;
    write_header(out)?;
    write_turns(alloc, net, second, decision, out)?;
    write_boards(net, None, decision.boards.as_slice(), out)
}

/// Writes the records of what one node decides in a round.
fn write_node_decision(
    alloc: Global,
    net: &Network,
    round: u32,
    node: u32,
    decision: &NodeDecision,
    out: &mut Writer<Vec<u8>>,
) -> Result<(), AllocError>
    requires round { begin_of net.now round < most_seconds }
    requires decision { IsNodeDecisionOf net.now decision.now }
    ensures { OnOk result (Adds out.old out.new (node_decision_records net.now round node decision.now)) }
{
    let second = round * net.run().step;
    write_header(out)?;
    write_turn(alloc, net, second, &decision.plan, &decision.line, out)?;
    write_boards(net, Some(node), decision.boards.as_slice(), out)
}

/// Writes the header.
fn write_header(out: &mut Writer<Vec<u8>>) -> Result<(), AllocError>
    ensures { OnOk result (Adds out.old out.new (header ∷ [])) }
{
    write_record(out, &[b"kind", b"name", b"x", b"y", b"z"])
}

/// Writes the records of the turns of all nodes.
fn write_turns(
    alloc: Global,
    net: &Network,
    second: u32,
    decision: &Decision,
    out: &mut Writer<Vec<u8>>,
) -> Result<(), AllocError>
    requires { IsDecisionOf net.now decision.now }
    ensures { OnOk result (Adds out.old out.new
        (flat_map (λ plan. turn_records net.now second plan (decided_line decision.now plan.node)) decision.now.plans)) }
{
    for plan in decision.plans.as_slice() {
        let line = &decision.lines.as_slice()[plan.node as usize];
        write_turn(alloc, net, second, plan, line, out)?;
    }
    Ok(())
}
