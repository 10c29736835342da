//! What reaches the end of a link in the seconds that a planning looks ahead, and what leaves there.
ghost use Rattle.std.specs.Prelude.{◌≡◌, ◌+◌, ◌-◌, ◌*◌, ◌++◌, replicate, ◌<◌, ◌≤◌, ◌^◌, ℕ, nat_lt, ◌==◌, find, option_copied, if◌then◌else◌, All, IfOk, length, slice_index, sum, sum_by, map};
ghost use Rattle.net_parts.specs.{Limits.most_look, Limits.most_of_all, Limits.most_seconds, Limits.most_travel, Outline.link_at};
ghost use Rattle.board_model.specs.Forecasts.{IsForecast, amount_at};
ghost use Rattle.road_net.specs.Senses.{amount};
ghost use Rattle.clusters.specs.{Inflow.inflow, Inflow.leaving, Inflow.sense_of, Inflow.heard_forecast, Platoons.streams_of, Steps.IsSeen};

use crate::parts::PhaseStreams;
use crate::smoothing::smooth_in_place;
use crate::vehicle_groups::Part;
use board_model::{Heard, Row};
use foundation::items::Items;
use road_net::{LinkSense, Network, Sensed};
use std::alloc::{AllocError, Global};

/// What leaves the end of each of these links, in each second that the network looks ahead.
pub(crate) fn streams(
    alloc: Global,
    net: &Network,
    links: &[u32],
    sensed: &Sensed,
    heard: &[Heard],
) -> Result<PhaseStreams, AllocError>
    requires links { All (λ l. l < length net.now.link_names) links.now }
    requires now { sensed.now.now ≤ most_seconds }
    requires amounts { sum_by amount sensed.now.links ≤ most_of_all }
    ensures { IfOk result (λ streams. streams ≡ streams_of net.now sensed.entry.now heard.now links.now) }
{
    let mut streams = Vec::with_capacity(alloc, links.len())?;
    for l in links {
        let amounts = link_outflow(alloc, net, *l, sensed, heard)?;
        streams.push(Part {
            link: *l,
            amounts: Items::from_vec(amounts),
        })?;
    }
    PhaseStreams::from_vec(alloc, streams)
}

/// What leaves the end of a link, in each second that the network looks ahead.
fn link_outflow(
    alloc: Global,
    net: &Network,
    l: u32,
    sensed: &Sensed,
    heard: &[Heard],
) -> Result<Vec<u32>, AllocError>
    requires link { l < length net.now.link_names }
    requires now { sensed.now.now ≤ most_seconds }
    requires amounts { sum_by amount sensed.now.links ≤ most_of_all }
    ensures { IfOk result (λ amounts. amounts.items ≡ leaving net.now sensed.entry.now heard.now l) }
{
    let link = net.link(l);
    let (queue, coming) = sensed_of(sensed, l);
    let rows = rows_of(heard, l);
    let mut amounts = inflow(
        alloc,
        sensed.now,
        net.run().look,
        link.travel,
        queue,
        coming,
        rows,
    )?;
    smooth_in_place(link.sat, amounts.as_mut_slice());
    Ok(amounts)
}

/// The queue of a link, and what comes on it; of a link that is not sensed, nothing.
///
/// docs/RULES.md, "What a node sees".
#[tactic(auto, unfolding(crate::specs::Inflow::sense_of))]
pub fn sensed_of(sensed: &Sensed, l: u32) -> (u32, &[u32])
    ensures queue { result.0 ≡ (sense_of sensed.entry.now l).queue }
    ensures coming { result.1.now ≡ (sense_of sensed.entry.now l).coming }
{
    match find_sense(sensed, l) {
        Some(sense) => (sense.queue, sense.coming.as_slice()),
        None => (0, &[]),
    }
}

/// For how many seconds the queue of a link has stood; of a link that is not sensed, none.
///
/// docs/RULES.md, "What a node sees".
#[tactic(auto, unfolding(crate::specs::Inflow::sense_of))]
pub fn stood_on(sensed: &Sensed, l: u32) -> u32
    ensures { result ≡ (sense_of sensed.entry.now l).stood }
{
    match find_sense(sensed, l) {
        Some(sense) => sense.stood,
        None => 0,
    }
}

/// What is sensed of a link, if it is.
fn find_sense(sensed: &Sensed, l: u32) -> Option<&LinkSense>
    ensures { option_copied result ≡ find (λ s. s.link == l) sensed.entry.now.links }
{
    sensed.links.as_slice().iter().find(|s| s.link == l)
}

/// The rows of the forecast that was heard of a link; none where none was.
#[tactic(auto, unfolding(crate::specs::Inflow::heard_forecast))]
fn rows_of(heard: &[Heard], l: u32) -> &[Row]
    ensures value { result.now ≡ heard_forecast heard.now l }
    ensures forecast { IsForecast result.now }
{
    match heard.iter().find(|h| h.link == l) {
        Some(found) => found.forecast.rows(),
        None => &[],
    }
}

/// What reaches the end of a link in each of `look` seconds from `now` on.
fn inflow(
    alloc: Global,
    now: u32,
    look: u32,
    travel: u32,
    queue: u32,
    coming: &[u32],
    rows: &[Row],
) -> Result<Vec<u32>, AllocError>
    requires now { now ≤ most_seconds }
    requires look { (1 ≤ look) × (look ≤ most_look) }
    requires travel { (1 ≤ travel) × (travel ≤ most_travel) }
    requires amounts { queue + sum coming.now ≤ most_of_all }
    requires rows { IsForecast rows.now }
    ensures value { IfOk result (λ amounts. amounts.items ≡ inflow now look travel queue coming.now rows.now) }
    ensures sum { IfOk result (λ amounts. sum amounts.items ≤ 2014400000) }
{
    let mut amounts = seen_ahead(alloc, look, travel, queue, coming)?;
    add_forecast(amounts.as_mut_slice(), now, now + travel, rows);
    Ok(amounts)
}

/// What the node sees coming, in each of `look` seconds: the queue in the first one, and what is on the link for as long
/// as it takes to travel it.
fn seen_ahead(
    alloc: Global,
    look: u32,
    travel: u32,
    queue: u32,
    coming: &[u32],
) -> Result<Vec<u32>, AllocError>
    requires look { (1 ≤ look) × (look ≤ most_look) }
    requires travel { (1 ≤ travel) × (travel ≤ most_travel) }
    requires amounts { queue + sum coming.now ≤ most_of_all }
    ensures { IfOk result (λ amounts. IsSeen look travel queue coming.now amounts.items) }
{
    let seen = coming.len().min(travel.min(look) as usize);
    let mut amounts = pad_with_zeros(alloc, &coming[..seen], look as usize)?;
    amounts[0] += queue;
    Ok(amounts)
}

/// These amounts, at most `count`, and zeros after them up to `count`.
fn pad_with_zeros(alloc: Global, front: &[u32], count: usize) -> Result<Vec<u32>, AllocError>
    requires { length front.now ≤ count }
    ensures { IfOk result (λ amounts. amounts.items ≡ front.now ++ replicate (count - length front.now) 0) }
{
    let mut amounts = Vec::with_capacity(alloc, count)?;
    amounts.extend_from_slice(front)?;
    amounts.resize(count, 0)?;
    Ok(amounts)
}

/// Puts the amounts of the forecast in their seconds, those from the second `from` on; nothing stands there yet. The
/// first amount is that of the second `now`.
fn add_forecast(amounts: &mut [u32], now: u32, from: u32, rows: &[Row])
    requires now { now ≤ most_seconds }
    requires from { now ≤ from }
    requires few { length amounts.old ≤ most_look }
    requires none { (k : ℕ) → from ≤ now + k → slice_index amounts.old k ≡ 0 }
    requires rows { IsForecast rows.now }
    ensures value { (k : ℕ) → k < length amounts.old → slice_index amounts.new k ≡
        (if nat_lt (now + k) from then slice_index amounts.old k else amount_at rows.now (now + k)) }
    ensures sum { sum amounts.new ≤ sum amounts.old + 80000 * length rows.now }
{
    for row in rows {
        if row.second >= from {
            let place = (row.second - now) as usize;
            if place < amounts.len() {
                amounts[place] = row.amount;
            }
        }
    }
}
