//! The records of the turns of nodes.
ghost use Rattle.std.specs.Prelude.{◌≡◌, ◌<◌, [], ◌∷◌, OnOk, length, map};
ghost use Rattle.round_decisions.specs.DecisionTexts.{IsPlanOf, plan_record, turn_records};
ghost use Rattle.round_states.specs.StateRecords.{green_record};
ghost use Rattle.world_records.specs.Written.{Adds};

use crate::lines::rows_from;
use control_flow::greens::{Green, Timeline};
use csv::Writer;
use intersection_actor::{PlanRecord, phase_digits, used_text};
use road_net::Network;
use schedule_meaning::Answer;
use std::alloc::{AllocError, Global};
use world_records::{digits_of, write_record};

/// Writes the records of a node's turn: its plan, and the rows of its line that rounds from this second on need.
pub(crate) fn write_turn(
    alloc: Global,
    net: &Network,
    second: u32,
    plan: &PlanRecord,
    line: &Timeline,
    out: &mut Writer<Vec<u8>>,
) -> Result<(), AllocError>
    requires { IsPlanOf net.now plan.now }
    ensures { OnOk result (Adds out.old out.new (turn_records net.now second plan.now line.now)) }
{
    write_plan(alloc, net, plan, out)?;
    write_greens(net, plan.node, rows_from(line, second), out)
}

/// Writes the record of a plan.
fn write_plan(
    alloc: Global,
    net: &Network,
    plan: &PlanRecord,
    out: &mut Writer<Vec<u8>>,
) -> Result<(), AllocError>
    requires { IsPlanOf net.now plan.now }
    ensures { OnOk result (Adds out.old out.new (plan_record net.now plan.now ∷ [])) }
{
    let node = net.node_name(plan.node).as_bytes();
    let used = used_text(alloc, net, plan.used.as_slice())?;
    match &plan.answer {
        Answer::NoPlan => write_record(out, &[b"plan", node, &used, b"none", b""]),
        Answer::Plan { sequence, delay } => {
            let delay = digits_of(*delay);
            let phases = phase_digits(alloc, sequence.as_slice())?;
            write_record(out, &[b"plan", node, &used, delay.as_bytes(), &phases])
        }
    }
}

/// Writes the records of rows of a node's line.
fn write_greens(
    net: &Network,
    node: u32,
    greens: &[Green],
    out: &mut Writer<Vec<u8>>,
) -> Result<(), AllocError>
    requires { node < length net.now.node_names }
    ensures { OnOk result (Adds out.old out.new (map (green_record net.now node) greens.now)) }
{
    for green in greens {
        write_green(net, node, *green, out)?;
    }
    Ok(())
}

/// Writes the record of a row of a node's line.
fn write_green(
    net: &Network,
    node: u32,
    green: Green,
    out: &mut Writer<Vec<u8>>,
) -> Result<(), AllocError>
    requires { node < length net.now.node_names }
    ensures { OnOk result (Adds out.old out.new (green_record net.now node green ∷ [])) }
{
    let phase = digits_of(u64::from(green.phase));
    let from = digits_of(u64::from(green.from));
    let to = digits_of(u64::from(green.to));
    let name = net.node_name(node).as_bytes();
    write_record(
        out,
        &[
            b"green",
            name,
            phase.as_bytes(),
            from.as_bytes(),
            to.as_bytes(),
        ],
    )
}
