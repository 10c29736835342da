//! What a decision tells, kept for the state of the next round.
ghost use Rattle.std.specs.Prelude.{◌≡◌, ◌<◌, [], None, IfOk, OnOk, if◌then◌else◌, length};
ghost use Rattle.std.specs.List.{flat_map};
ghost use Rattle.net_parts.specs.Limits.{most_seconds};
ghost use Rattle.round_decisions.specs.{DecisionTexts.IsDecisionOf, DecisionTexts.IsPlanOf, DecisionTexts.boards_records, DecisionTexts.is_shown, DecisionTexts.told_records, DecisionTexts.turn_records, Promises.decided_line};
ghost use Rattle.round_states.specs.{NextTexts.AreKept, NextTexts.Keeps, StateRecords.board_records, States.begin_of};

use crate::board_records::is_shown;
use crate::decisions::Decision;
use crate::lines::rows_from;
use control_flow::greens::Timeline;
use intersection_actor::PlanRecord;
use road_net::Network;
use round_states::{KeptRecords, LinkBoard};
use std::alloc::{AllocError, Global};

/// What the records of a decision of a round tell but for the header, to come after those of the next round's text. The round begins
/// before second 86,400, and the decision is one of the network. `Err`: out of memory.
///
/// docs/FORMATS.md, "Serving".
pub fn keep_decision(
    alloc: Global,
    net: &Network,
    round: u32,
    decision: &Decision,
) -> Result<KeptRecords, AllocError>
    requires round { begin_of net.now round < most_seconds }
    requires decision { IsDecisionOf net.now decision.now }
    ensures { IfOk result (AreKept net.now (told_records net.now round decision.now)) }
{
    let second = round * net.run().step;
    let mut kept = KeptRecords::none(alloc);
    keep_turns(net, second, decision, &mut kept)?;
    keep_boards(net, decision.boards.as_slice(), &mut kept)?;
    Ok(kept)
}

/// Adds the records of the turns of all nodes.
fn keep_turns(
    net: &Network,
    second: u32,
    decision: &Decision,
    kept: &mut KeptRecords,
) -> Result<(), AllocError>
    requires { IsDecisionOf net.now decision.now }
    ensures { OnOk result (Keeps net.now kept.old kept.new
        (flat_map (λ plan. turn_records net.now second plan (decided_line decision.now plan.node)) decision.now.plans)) }
{
    for plan in decision.plans.as_slice() {
        let timeline = &decision.lines.as_slice()[plan.node as usize];
        keep_turn(net, second, plan, timeline, kept)?;
    }
    Ok(())
}

/// Adds the records of a node's turn.
fn keep_turn(
    net: &Network,
    second: u32,
    plan: &PlanRecord,
    timeline: &Timeline,
    kept: &mut KeptRecords,
) -> Result<(), AllocError>
    requires { IsPlanOf net.now plan.now }
    ensures { OnOk result (Keeps net.now kept.old kept.new (turn_records net.now second plan.now timeline.now)) }
{
    kept.add_plan()?;
    kept.add_greens(net, plan.node, rows_from(timeline, second))
}

/// Adds the records of the boards of the links on which one node tells another, by number.
fn keep_boards(
    net: &Network,
    boards: &[LinkBoard],
    kept: &mut KeptRecords,
) -> Result<(), AllocError>
    requires { length boards.now ≡ length net.now.link_names }
    ensures { OnOk result (Keeps net.now kept.old kept.new (boards_records net.now None boards.now)) }
{
    for link in 0..net.links() {
        keep_if_shown(net, link, &boards[link as usize], kept)?;
    }
    Ok(())
}

/// Adds the records of the board of a link, where it is told.
fn keep_if_shown(
    net: &Network,
    link: u32,
    board: &LinkBoard,
    kept: &mut KeptRecords,
) -> Result<(), AllocError>
    requires { link < length net.now.link_names }
    ensures { OnOk result (Keeps net.now kept.old kept.new
        (if is_shown net.now None link then board_records net.now link board.now else [])) }
{
    if !is_shown(net, None, link) {
        return Ok(());
    }
    kept.add_board(net, link, board)
}
