//! The records of what the signals showed and the world counted.
ghost use Rattle.std.specs.Prelude.{◌≡◌, ◌<◌, ℕ, [], ◌∷◌, All, IfOk, OnOk, length, map};
ghost use Rattle.std.specs.List.{flat_map, range_with_len};
ghost use Rattle.control_flow.specs.Greens.{row_at};
ghost use Rattle.net_simulator.specs.Counts.{counts_at};
ghost use Rattle.net_simulator.specs.Sums as sums;
ghost use Rattle.road_net.specs.Through.{is_through};
ghost use Rattle.world_records.specs.Records as records;
ghost use Rattle.world_records.specs.{Records.counted_records, Records.green_record, Records.green_records, Records.link_record, Records.link_record_of, Records.shown_records, Records.total_record, Told.AreToldCounts, Told.IsToldGreen};
ghost use Rattle.world_records.specs.{Told.told_by, Told.told_line, Told.told_rows, Written.Adds};

use crate::digits::digits_of;
use crate::entries::write_header;
use crate::records::{finish, start, write_record};
use control_flow::greens::{Green, Timeline};
use csv::Writer;
use net_simulator::{LinkTotals, Totals, end_of_run};
use road_net::Network;
use std::alloc::{AllocError, Global};

/// Writes what lines show and what was counted: the greens that are told of each line, by node and time, the totals of each
/// link, and all totals. There are a line for each node and totals of each link. A report can tell these greens, and the totals
/// of each link. `Err`: out of memory.
///
/// docs/FORMATS.md, "Report".
pub fn write_shown(
    net: &Network,
    lines: &[Timeline],
    links: &[LinkTotals],
    totals: Totals,
    out: &mut Writer<Vec<u8>>,
) -> Result<(), AllocError>
    requires lines { length lines.now ≡ length net.now.node_names }
    requires links { length links.now ≡ length net.now.link_names }
    ensures records { OnOk result (Adds out.old out.new
        (shown_records net.now lines.now links.now totals (sums.end_of_run net.now))) }
    ensures told { OnOk result ((node : ℕ) → node < length net.now.node_names
        → All IsToldGreen (told_line net.now lines.now (sums.end_of_run net.now) node)) }
    ensures counts { OnOk result ((link : ℕ) → link < length net.now.link_names
        → AreToldCounts (counts_at links.now link)) }
{
    write_greens(net, lines, end_of_run(net), out)?;
    write_counted(net, links, totals, out)
}

/// Writes what was counted: the totals of each link, and all totals. There are totals of each link. `Err`: out of memory.
fn write_counted(
    net: &Network,
    links: &[LinkTotals],
    totals: Totals,
    out: &mut Writer<Vec<u8>>,
) -> Result<(), AllocError>
    requires { length links.now ≡ length net.now.link_names }
    ensures records { OnOk result (Adds out.old out.new (counted_records net.now links.now totals)) }
    ensures counts { OnOk result ((link : ℕ) → link < length net.now.link_names
        → AreToldCounts (counts_at links.now link)) }
{
    write_links(net, links, out)?;
    write_totals(totals, out)
}

/// The text of what was counted in a run: the header, the totals of each link, and all totals. There are totals of each link.
/// `Err`: out of memory.
///
/// docs/FORMATS.md, "Totals of a run".
pub fn counted_text(
    alloc: Global,
    net: &Network,
    links: &[LinkTotals],
    totals: Totals,
) -> Result<Vec<u8>, AllocError>
    requires { length links.now ≡ length net.now.link_names }
    ensures { IfOk result (λ text. text.items ≡ records.counted_text net.now links.now totals) }
{
    let mut out = start(Vec::new(alloc));
    write_header(&mut out)?;
    write_counted(net, links, totals, &mut out)?;
    finish(out)
}

/// Writes the records of the greens that are told of each node's line, up to second `end`, by node and time; a line for each
/// node, by number.
fn write_greens(
    net: &Network,
    lines: &[Timeline],
    end: u32,
    out: &mut Writer<Vec<u8>>,
) -> Result<(), AllocError>
    requires { length lines.now ≡ length net.now.node_names }
    ensures records { OnOk result (Adds out.old out.new
        (flat_map (green_records net.now lines.now end) (range_with_len 0 (length net.now.node_names)))) }
    ensures told { OnOk result ((node : ℕ) → node < length net.now.node_names
        → All IsToldGreen (told_line net.now lines.now end node)) }
{
    for node in 0..net.nodes() {
        write_greens_of(net, node, lines[node as usize].rows(), end, out)?;
    }
    Ok(())
}

/// Writes the records of those greens of a node that are told.
fn write_greens_of(
    net: &Network,
    node: u32,
    greens: &[Green],
    end: u32,
    out: &mut Writer<Vec<u8>>,
) -> Result<(), AllocError>
    requires { node < length net.now.node_names }
    ensures records { OnOk result (Adds out.old out.new
        (map (green_record net.now node) (told_rows (is_through net.now node) end greens.now))) }
    ensures told { OnOk result (All IsToldGreen (told_rows (is_through net.now node) end greens.now)) }
{
    let through = net.is_through(node);
    let mut last = first_begin(greens);
    for green in greens {
        let by = told_by(through, last, green);
        if by >= end {
            return Ok(());
        }
        write_green(net, node, *green, out)?;
        last = green.to;
    }
    Ok(())
}

/// The second that has to lie before the end of the run for a row to be told, after one that ends at `last`.
fn told_by(through: bool, last: u32, green: &Green) -> u32
    ensures { result ≡ told_by through last green.now }
{
    if through { last } else { green.from }
}

/// When the first of these rows begins; 0 where there is none.
fn first_begin(greens: &[Green]) -> u32
    ensures { result ≡ (row_at greens.now 0).from }
{
    match greens.first() {
        Some(green) => green.from,
        None => 0,
    }
}

/// Writes the record of a green.
fn write_green(
    net: &Network,
    node: u32,
    green: Green,
    out: &mut Writer<Vec<u8>>,
) -> Result<(), AllocError>
    requires { node < length net.now.node_names }
    ensures records { OnOk result (Adds out.old out.new (green_record net.now node green ∷ [])) }
    ensures told { IsToldGreen green }
{
    let phase = digits_of(u64::from(green.phase));
    let from = digits_of(u64::from(green.from));
    let to = digits_of(u64::from(green.to));
    let name = net.node_name(node).as_bytes();
    write_record(
        out,
        &[
            b"green",
            b"",
            name,
            phase.as_bytes(),
            from.as_bytes(),
            to.as_bytes(),
            b"",
        ],
    )
}

/// Writes the records of the totals of each link, by number.
fn write_links(
    net: &Network,
    totals: &[LinkTotals],
    out: &mut Writer<Vec<u8>>,
) -> Result<(), AllocError>
    requires { length totals.now ≡ length net.now.link_names }
    ensures records { OnOk result (Adds out.old out.new
        (map (link_record_of net.now totals.now) (range_with_len 0 (length net.now.link_names)))) }
    ensures counts { OnOk result ((link : ℕ) → link < length net.now.link_names
        → AreToldCounts (counts_at totals.now link)) }
{
    for link in 0..net.links() {
        write_link(net, link, totals[link as usize], out)?;
    }
    Ok(())
}

/// Writes the record of the totals of a link.
fn write_link(
    net: &Network,
    link: u32,
    totals: LinkTotals,
    out: &mut Writer<Vec<u8>>,
) -> Result<(), AllocError>
    requires { link < length net.now.link_names }
    ensures records { OnOk result (Adds out.old out.new (link_record net.now link totals ∷ [])) }
    ensures told { AreToldCounts totals }
{
    let entered = digits_of(totals.entered);
    let left = digits_of(totals.left);
    let delay = digits_of(totals.delay);
    let name = net.link_name(link).as_bytes();
    write_record(
        out,
        &[
            b"link",
            b"",
            b"",
            name,
            entered.as_bytes(),
            left.as_bytes(),
            delay.as_bytes(),
        ],
    )
}

/// Writes the record of all totals.
fn write_totals(totals: Totals, out: &mut Writer<Vec<u8>>) -> Result<(), AllocError>
    ensures { OnOk result (Adds out.old out.new (total_record totals ∷ [])) }
{
    let entered = digits_of(totals.entered);
    let left = digits_of(totals.left);
    let on = digits_of(totals.on);
    let delay = digits_of(totals.delay);
    write_record(
        out,
        &[
            b"total",
            b"",
            b"",
            entered.as_bytes(),
            left.as_bytes(),
            on.as_bytes(),
            delay.as_bytes(),
        ],
    )
}
