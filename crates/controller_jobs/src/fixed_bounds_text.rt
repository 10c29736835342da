//! The text of how long queues can wait, also under a fixed plan.
ghost use Rattle.std.specs.Prelude.{◌≡◌, ◌<◌, [], ◌∷◌, IfOk, OnOk, Result, length};
ghost use Rattle.std.specs.List.{flat_map, range_with_len};
ghost use Rattle.controller_jobs.specs.Bounds as bounds;
ghost use Rattle.controller_jobs.specs.Bounds.{fixed_record, fixed_records};
ghost use Rattle.fixed_plans.specs.Rows.{IsFixedPlan};
ghost use Rattle.world_records.specs.Written.{Adds};

use super::bounds_text::{bound_field, red_field};
use csv::Writer;
use fixed_plans::{FixedPlan, fixed_bounds, fixed_reds};
use road_net::Network;
use std::alloc::{AllocError, Global};
use waits::{NoBound, PhaseBounds, phase_bounds};
use world_records::{digits_of, finish, start, write_record};

/// How long the queues of each phase of a network can wait, where its nodes plan, under actuated control, and under a fixed plan of
/// it, and how long each red is under that. `Err`: out of memory.
///
/// docs/FORMATS.md, "Bounds of waits".
pub(crate) fn fixed_bounds_text(
    alloc: Global,
    net: &Network,
    plan: &FixedPlan,
) -> Result<Vec<u8>, AllocError>
    requires { IsFixedPlan net.now plan.now }
    ensures { IfOk result (λ text. text.items ≡ bounds.fixed_bounds_text net.now plan.now) }
{
    let mut out = start(Vec::new(alloc));
    write_record(
        &mut out,
        &[b"node", b"phase", b"planned", b"actuated", b"fixed", b"red"],
    )?;
    write_nodes(alloc, net, plan, &mut out)?;
    finish(out)
}

// Writes the records of all nodes.
fn write_nodes(
    alloc: Global,
    net: &Network,
    plan: &FixedPlan,
    out: &mut Writer<Vec<u8>>,
) -> Result<(), AllocError>
    requires { IsFixedPlan net.now plan.now }
    ensures { OnOk result (Adds out.old out.new
        (flat_map (fixed_records net.now plan.now) (range_with_len 0 (length net.now.node_names)))) }
{
    for node in 0..net.nodes() {
        write_node(alloc, net, plan, node, out)?;
    }
    Ok(())
}

// Writes the records of the phases of a node.
fn write_node(
    alloc: Global,
    net: &Network,
    plan: &FixedPlan,
    node: u32,
    out: &mut Writer<Vec<u8>>,
) -> Result<(), AllocError>
    requires plan { IsFixedPlan net.now plan.now }
    requires node { node < length net.now.node_names }
    ensures { OnOk result (Adds out.old out.new (fixed_records net.now plan.now node)) }
{
    let fixed = fixed_bounds(alloc, net, plan, node)?;
    let reds = fixed_reds(alloc, net, plan, node)?;
    for phase in 0..net.plan(node).count() {
        let own = fixed[phase as usize];
        let red = reds[phase as usize];
        write_bounds(net, &phase_bounds(net, node, phase), own, red, out)?;
    }
    Ok(())
}

// Writes the record of the bounds of a phase, with that under a fixed plan and the length of its reds there.
fn write_bounds(
    net: &Network,
    bounds: &PhaseBounds,
    fixed: Result<u32, NoBound>,
    red: Option<u32>,
    out: &mut Writer<Vec<u8>>,
) -> Result<(), AllocError>
    requires { bounds.now.node < length net.now.node_names }
    ensures { OnOk result (Adds out.old out.new (fixed_record net.now bounds.now fixed red ∷ [])) }
{
    let phase = digits_of(u64::from(bounds.phase));
    let planned = bound_field(bounds.planned);
    let actuated = bound_field(bounds.actuated);
    let under_plan = bound_field(fixed);
    let reds = red_field(red);
    let name = net.node_name(bounds.node).as_bytes();
    write_record(
        out,
        &[
            name,
            phase.as_bytes(),
            planned.as_bytes(),
            actuated.as_bytes(),
            under_plan.as_bytes(),
            reds.as_bytes(),
        ],
    )
}
