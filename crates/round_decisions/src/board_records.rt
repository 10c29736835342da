//! The records of boards.
ghost use Rattle.std.specs.Prelude.{◌≡◌, ◌<◌, [], ◌∷◌, IfSome, OnOk, if◌then◌else◌, length, map};
ghost use Rattle.std.specs.List.{flat_map, range_with_len};
ghost use Rattle.round_decisions.specs.{DecisionTexts.board_records_of, DecisionTexts.boards_records, DecisionTexts.is_shown, Turns.board_of};
ghost use Rattle.round_states.specs.StateRecords.{board_records, row_record, version_record};
ghost use Rattle.world_records.specs.Written.{Adds};

use board_model::Row;
use csv::Writer;
use road_net::Network;
use round_states::LinkBoard;
use std::alloc::AllocError;
use world_records::{digits_of, write_record};

/// Writes the records of the boards of the links on which this node tells another one, or, with no node, on which any
/// does, by number.
pub(crate) fn write_boards(
    net: &Network,
    node: Option<u32>,
    boards: &[LinkBoard],
    out: &mut Writer<Vec<u8>>,
) -> Result<(), AllocError>
    requires { length boards.now ≡ length net.now.link_names }
    ensures { OnOk result (Adds out.old out.new (boards_records net.now node boards.now)) }
{
    for link in 0..net.links() {
        write_if_shown(net, node, link, &boards[link as usize], out)?;
    }
    Ok(())
}

/// Writes the records of the board of a link, where it is told.
fn write_if_shown(
    net: &Network,
    node: Option<u32>,
    link: u32,
    board: &LinkBoard,
    out: &mut Writer<Vec<u8>>,
) -> Result<(), AllocError>
    requires { link < length net.now.link_names }
    ensures { OnOk result (Adds out.old out.new
        (if is_shown net.now node link then board_records net.now link board.now else [])) }
{
    if !is_shown(net, node, link) {
        return Ok(());
    }
    write_board(net, link, board, out)
}

/// Writes the records of the board of a link.
fn write_board(
    net: &Network,
    link: u32,
    board: &LinkBoard,
    out: &mut Writer<Vec<u8>>,
) -> Result<(), AllocError>
    requires { link < length net.now.link_names }
    ensures { OnOk result (Adds out.old out.new (board_records net.now link board.now)) }
{
    write_version(net, link, board.version, out)?;
    write_rows(net, link, board.forecast.rows(), out)
}

/// Whether this node tells another one on a link, or, with no node, any does.
pub(crate) fn is_shown(net: &Network, node: Option<u32>, link: u32) -> bool
    requires { link < length net.now.link_names }
    ensures { result ≡ is_shown net.now node link }
{
    let ends = net.link(link);
    match node {
        None => ends.from.is_some() && ends.to.is_some(),
        Some(node) => ends.from == Some(node) && ends.to.is_some(),
    }
}

/// Writes the record of the version of a link.
fn write_version(
    net: &Network,
    link: u32,
    version: u32,
    out: &mut Writer<Vec<u8>>,
) -> Result<(), AllocError>
    requires { link < length net.now.link_names }
    ensures { OnOk result (Adds out.old out.new (version_record net.now link version ∷ [])) }
{
    let version = digits_of(u64::from(version));
    let name = net.link_name(link).as_bytes();
    write_record(out, &[b"version", name, version.as_bytes(), b"", b""])
}

/// Writes the records of the rows of a link's forecast.
fn write_rows(
    net: &Network,
    link: u32,
    rows: &[Row],
    out: &mut Writer<Vec<u8>>,
) -> Result<(), AllocError>
    requires { link < length net.now.link_names }
    ensures { OnOk result (Adds out.old out.new (map (row_record net.now link) rows.now)) }
{
    for row in rows {
        write_row(net, link, *row, out)?;
    }
    Ok(())
}

/// Writes the record of a row of a link's forecast.
fn write_row(
    net: &Network,
    link: u32,
    row: Row,
    out: &mut Writer<Vec<u8>>,
) -> Result<(), AllocError>
    requires { link < length net.now.link_names }
    ensures { OnOk result (Adds out.old out.new (row_record net.now link row ∷ [])) }
{
    let second = digits_of(u64::from(row.second));
    let amount = digits_of(u64::from(row.amount));
    let name = net.link_name(link).as_bytes();
    write_record(
        out,
        &[b"row", name, second.as_bytes(), amount.as_bytes(), b""],
    )
}
