//! The text of how long queues can wait.
ghost use Rattle.std.specs.Prelude.{◌≡◌, ◌<◌, [], ◌∷◌, IfOk, OnOk, length};
ghost use Rattle.std.specs.List.{flat_map, range_with_len};
ghost use Rattle.controller_jobs.specs.Bounds as bounds;
ghost use Rattle.controller_jobs.specs.Bounds.{bound_record, bound_records};
ghost use Rattle.world_records.specs.Written.{Adds};

use csv::Writer;
use road_net::Network;
use std::alloc::{AllocError, Global};
use text_lines::Line;
use waits::{NoBound, PhaseBounds, phase_bounds};
use world_records::{digits_of, finish, start, write_record};

/// How long the queues of each phase of a network can wait, where its nodes plan and under actuated control. `Err`: out of memory.
///
/// docs/FORMATS.md, "Bounds of waits".
pub(crate) fn bounds_text(alloc: Global, net: &Network) -> Result<Vec<u8>, AllocError>
    ensures { IfOk result (λ text. text.items ≡ bounds.bounds_text net.now) }
{
    let mut out = start(Vec::new(alloc));
    write_record(&mut out, &[b"node", b"phase", b"planned", b"actuated"])?;
    write_nodes(net, &mut out)?;
    finish(out)
}

// Writes the records of all nodes.
fn write_nodes(net: &Network, out: &mut Writer<Vec<u8>>) -> Result<(), AllocError>
    ensures { OnOk result (Adds out.old out.new
        (flat_map (bound_records net.now) (range_with_len 0 (length net.now.node_names)))) }
{
    for node in 0..net.nodes() {
        write_node(net, node, out)?;
    }
    Ok(())
}

// Writes the records of the phases of a node.
fn write_node(net: &Network, node: u32, out: &mut Writer<Vec<u8>>) -> Result<(), AllocError>
    requires { node < length net.now.node_names }
    ensures { OnOk result (Adds out.old out.new (bound_records net.now node)) }
{
    for phase in 0..net.plan(node).count() {
        write_bounds(net, &phase_bounds(net, node, phase), out)?;
    }
    Ok(())
}

// Writes the record of the bounds of a phase.
fn write_bounds(
    net: &Network,
    bounds: &PhaseBounds,
    out: &mut Writer<Vec<u8>>,
) -> Result<(), AllocError>
    requires { bounds.now.node < length net.now.node_names }
    ensures { OnOk result (Adds out.old out.new (bound_record net.now bounds.now ∷ [])) }
{
    let phase = digits_of(u64::from(bounds.phase));
    let planned = bound_field(bounds.planned);
    let actuated = bound_field(bounds.actuated);
    let name = net.node_name(bounds.node).as_bytes();
    write_record(
        out,
        &[
            name,
            phase.as_bytes(),
            planned.as_bytes(),
            actuated.as_bytes(),
        ],
    )
}

/// A bound as a field: its seconds, or why there is none.
pub(crate) fn bound_field(bound: Result<u32, NoBound>) -> Line
    ensures { result ≡ bounds.bound_field bound }
{
    let mut field = Line::new();
    match bound {
        Ok(seconds) => field.put_number(u64::from(seconds)),
        Err(NoBound::Marked) => field.put_word(b"marked"),
        Err(NoBound::ShortGreen) => field.put_word(b"short"),
    }
    field
}

/// The length of a red as a field: its seconds, or that the phase has no row.
pub(crate) fn red_field(red: Option<u32>) -> Line
    ensures { result ≡ bounds.red_field red }
{
    let mut field = Line::new();
    match red {
        Some(seconds) => field.put_number(u64::from(seconds)),
        None => field.put_word(b"marked"),
    }
    field
}
