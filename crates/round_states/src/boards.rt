//! The boards of a state.
ghost use Rattle.std.specs.Prelude.{◌≡◌, ◌↔◌, ℕ, ◌<◌, ◌≤◌, All, IfErr, IfOk, IsTrue, MatchOption, OnOk, length, map, take};
ghost use Rattle.std.specs.List.{range_with_len};
ghost use Rattle.std.specs.List.Sorted.{IsStrictlyIncreasing};
ghost use Rattle.board_model.specs.Forecasts.{IsForecast, IsRow, seconds};
ghost use Rattle.round_states.specs.Faults.{AreSensedOnce, IsEntryFault};
ghost use Rattle.round_states.specs.States.{IsBoard};
ghost use Rattle.round_states.specs.Readers.{IsByPlace};
ghost use Rattle.round_states.specs.Texts.{IsBoardOnce, all_said, board_in, row_said, version_said};

use crate::asked::Asked;
use crate::by_place::{ByPlace, list_of};
use crate::entries::Entry;
use crate::faults::StateFault;
use crate::order::round_of;
use crate::states::LinkBoard;
use board_model::{Forecast, Row};
use road_net::Network;
use std::alloc::{AllocError, Global};

/// No forecast has more rows.
const MOST_ROWS: usize = 180;

/// The last second that a row of a forecast may have.
const LAST_SECOND: u32 = 100_000;

/// What a row of a forecast may have at the most, in thousandths of a vehicle.
const MOST_IN_SECOND: u32 = 80_000;

/// The board of each link, where what is sensed of each is told once. The fault is `Board` of the least link that has
/// none.
pub(crate) fn boards(
    alloc: Global,
    net: &Network,
    asked: Asked,
    entries: &[Entry],
    content: &ByPlace,
) -> Result<Vec<LinkBoard>, StateFault>
    requires content { IsByPlace net.now entries.now content.now }
    requires senses { AreSensedOnce net.now entries.now }
    ensures ok { IfOk result (λ boards. boards.items
        ≡ map (board_in entries.now) (range_with_len 0 (length net.now.link_names))) }
    ensures each { OnOk result ((l : ℕ) → l < length net.now.link_names → IsBoardOnce net.now entries.now l) }
    ensures first { IfErr result (IsEntryFault net.now asked entries.now) }
{
    let mut boards = Vec::new(alloc);
    for link in 0..net.links() {
        let versions = list_of(content.versions.as_slice(), link);
        let rows = list_of(content.rows.as_slice(), link);
        let Some(board) = board(alloc, net, entries, link, versions, rows)? else {
            return Err(StateFault::Board(link));
        };
        boards.push(board)?;
    }
    Ok(boards)
}

/// The board of a link, from the versions and the rows that are told of it; none where its version is told twice, or where
/// what is told is no board. `Err`: out of memory.
fn board(
    alloc: Global,
    net: &Network,
    entries: &[Entry],
    link: u32,
    versions: &[u32],
    rows: &[Row],
) -> Result<Option<LinkBoard>, AllocError>
    requires versions { versions.now ≡ all_said version_said entries.now link }
    requires rows { rows.now ≡ all_said row_said entries.now link }
    ensures { IfOk result (λ board. MatchOption board (¬ IsBoardOnce net.now entries.now link)
        (λ board. (board ≡ board_in entries.now link) × IsBoardOnce net.now entries.now link)) }
{
    let round = round_of(net, entries);
    let version = versions.first().copied().unwrap_or(0);
    if versions.len() > 1 || !is_board(round, version, rows) {
        return Ok(None);
    }
    let forecast = forecast(alloc, rows)?;
    Ok(Some(LinkBoard { version, forecast }))
}

/// Whether a version and rows are a board in this round.
fn is_board(round: u32, version: u32, rows: &[Row]) -> bool
    ensures { IsTrue result ↔ IsBoard round (record { version = version; forecast = rows.now }) }
{
    version.saturating_sub(1) <= round && (version > 0 || rows.is_empty()) && is_forecast(rows)
}

/// Whether rows are a forecast.
fn is_forecast(rows: &[Row]) -> bool
    ensures { IsTrue result ↔ IsForecast rows.now }
{
    rows.len() <= MOST_ROWS && are_rising(rows) && rows.iter().all(|row| is_row(row))
}

/// Whether a row is within its bounds.
fn is_row(row: &Row) -> bool
    ensures { IsTrue result ↔ IsRow row.now }
{
    row.second <= LAST_SECOND && (1..=MOST_IN_SECOND).contains(&row.amount)
}

/// Whether the seconds of rows rise.
pub(crate) fn are_rising(rows: &[Row]) -> bool
    ensures { IsTrue result ↔ IsStrictlyIncreasing (seconds rows.now) }
{
    for index in 1..rows.len() {
        if rows[index].second <= rows[index - 1].second {
            return false;
        }
    }
    true
}

/// The forecast of rows that are one. `Err`: out of memory.
fn forecast(alloc: Global, rows: &[Row]) -> Result<Forecast, AllocError>
    requires { IsForecast rows.now }
    ensures { IfOk result (λ forecast. forecast ≡ rows.now) }
{
    let mut forecast = Forecast::with_capacity(alloc, rows.len())?;
    for row in rows {
        forecast.push(*row)?;
    }
    Ok(forecast)
}
