//! The command `scale NET ARR FROM TO STEP`.
ghost use Rattle.std.specs.Prelude.{◌≡◌, ◌+◌, ◌-◌, ◌*◌, ◌/◌, ◌≤◌, ◌∷◌, ◌++◌, IfErr, IfOk, OnOk};
ghost use Rattle.std.specs.List.{join_with_byte};
ghost use Rattle.arrivals.specs.{Amounts.AreArrivals, Amounts.arriving_of, Scaling.IsScaled, Scaling.greatest_factor, Scaling.scaled_whole};
ghost use Rattle.net_parts.specs.Limits.{most_of_all};
ghost use Rattle.bounded_runs.specs.Totals.{totals_words};
ghost use Rattle.command_words.specs.Factors.{AreFactors};
ghost use Rattle.commands.specs.{Ending.Makes, Outcome.Outcome};
ghost use Rattle.controller_jobs.specs.{Controllers.BringTooMuch, Controllers.IsScaleTable, Controllers.factors, Controllers.scale_line, Factors.GainsScaleLine, Factors.RefusesFactor, Factors.RefusesFactors, Meanings.scale_meaning};

use super::compare::{actuated_totals, planned_totals};
use arrivals::{Arrivals, ScaleFault, scale};
use commands::{Made, Named, Refusal, Status, end};
use net_simulator::Totals;
use outside_world::{Shelf, Sink};
use road_net::Network;
use scene_jobs::fetch_scene;
use std::alloc::{AllocError, Global};
use text_lines::{push_number, push_one};

/// Factors in thousandths: from the first on, a step apart, up to the last.
#[derive(Clone, Copy)]
pub(crate) struct FactorRange {
    /// The first factor.
    pub first: u32,
    /// Up to which factor they go.
    pub last: u32,
    /// How far each is from the one before it.
    pub step: u32,
}

// Appends, after a space, a word and what was counted in all.
fn push_counts(text: &mut Vec<u8>, word: &[u8], totals: &Totals) -> Result<(), AllocError>
    ensures { OnOk result (text.new.items
        ≡ text.old.items ++ 32 ∷ join_with_byte 32 (word.now ∷ totals_words totals.now)) }
{
    text.extend_from_slice(b" ")?;
    text.extend_from_slice(word)?;
    push_one(text, b" ", totals.entered)?;
    push_one(text, b" ", totals.left)?;
    push_one(text, b" ", totals.on)?;
    push_one(text, b" ", totals.delay)
}

// Appends the line of a factor and of what was counted in all in two runs.
fn push_scale_line(
    text: &mut Vec<u8>,
    factor: u32,
    of_plans: &Totals,
    of_calls: &Totals,
) -> Result<(), AllocError>
    ensures { OnOk result (text.new.items ≡ text.old.items ++ scale_line factor of_plans.now of_calls.now) }
{
    push_number(text, u64::from(factor))?;
    push_counts(text, b"planned", of_plans)?;
    push_counts(text, b"actuated", of_calls)?;
    text.extend_from_slice(b"\n")?;
    Ok(())
}

// The arrivals scaled by a factor.
fn scaled_by(
    alloc: Global,
    net: &Network,
    arrivals: &Arrivals,
    factor: u32,
) -> Result<Arrivals, Refusal>
    requires arrivals { AreArrivals net.now arrivals.now }
    requires factor { factor ≤ greatest_factor }
    ensures ok { IfOk result (λ scaled. IsScaled factor (arriving_of arrivals.now) (arriving_of scaled)) }
    ensures arrivals { IfOk result (AreArrivals net.now) }
    ensures few { OnOk result (scaled_whole net.now factor (arriving_of arrivals.now) ≤ most_of_all) }
    ensures refused { IfErr result (RefusesFactor net.now (arriving_of arrivals.now) factor) }
{
    match scale(alloc, net, arrivals, factor) {
        Ok(scaled) => Ok(scaled),
        Err(ScaleFault::Sum) => Err(Refusal::Missing {
            what: Named::Factor,
        }),
        Err(ScaleFault::NoMemory) => Err(Refusal::NoMemory),
    }
}

// Appends the line of a factor: the totals of both runs where the arrivals are scaled by it.
fn push_factor(
    alloc: Global,
    net: &Network,
    arrivals: &Arrivals,
    factor: u32,
    text: &mut Vec<u8>,
) -> Result<(), Refusal>
    requires arrivals { AreArrivals net.now arrivals.now }
    requires factor { factor ≤ greatest_factor }
    ensures ok { OnOk result (GainsScaleLine net.now (arriving_of arrivals.now) factor text.old.items text.new.items) }
    ensures few { OnOk result (scaled_whole net.now factor (arriving_of arrivals.now) ≤ most_of_all) }
    ensures refused { IfErr result (RefusesFactor net.now (arriving_of arrivals.now) factor) }
{
    let scaled = scaled_by(alloc, net, arrivals, factor)?;
    let of_plans = planned_totals(alloc, net, &scaled)?;
    let of_calls = actuated_totals(alloc, net, &scaled)?;
    push_scale_line(text, factor, &of_plans, &of_calls)?;
    Ok(())
}

// The factor at a place, from 0.
fn factor_at(range: &FactorRange, place: u32) -> u32
    requires factors { AreFactors range.now.first range.now.last range.now.step }
    requires place { place ≤ (range.now.last - range.now.first) / range.now.step }
    ensures value { result ≡ range.now.first + place * range.now.step }
    ensures most { result ≤ greatest_factor }
{
    range.first + place * range.step
}

// The lines of all factors.
fn scale_table(
    alloc: Global,
    net: &Network,
    arrivals: &Arrivals,
    range: &FactorRange,
) -> Result<Vec<u8>, Refusal>
    requires arrivals { AreArrivals net.now arrivals.now }
    requires factors { AreFactors range.now.first range.now.last range.now.step }
    ensures table { IfOk result (λ text. IsScaleTable net.now (arriving_of arrivals.now)
        range.now.first range.now.last range.now.step text.items) }
    ensures few { OnOk result (¬ BringTooMuch net.now (arriving_of arrivals.now)
        (factors range.now.first range.now.last range.now.step)) }
    ensures refused { IfErr result (RefusesFactors net.now (arriving_of arrivals.now)
        (factors range.now.first range.now.last range.now.step)) }
{
    let mut text = Vec::new(alloc);
    let count = (range.last - range.first) / range.step + 1;
    for place in 0..count {
        push_factor(alloc, net, arrivals, factor_at(range, place), &mut text)?;
    }
    Ok(text)
}

// The lines of all factors, with the network and the arrivals in the files.
fn scale_files<S: Shelf>(
    alloc: Global,
    shelf: &mut S,
    net: &str,
    arr: &str,
    range: &FactorRange,
) -> Result<Made, Refusal>
    requires { AreFactors range.now.first range.now.last range.now.step }
    ensures { Makes (scale_meaning net.now arr.now range.now.first range.now.last range.now.step)
        (S.state shelf.old) (S.state shelf.new) result }
{
    let scene = fetch_scene(alloc, shelf, net, arr)?;
    let text = scale_table(alloc, &scene.network, &scene.arrivals, range)?;
    Ok(Made::Done(text))
}

/// The command `scale NET ARR FROM TO STEP`: writes a line for each of at most 20 factors, of 0 to 10,000 thousandths: what `compare`
/// writes where the arrivals in the second file are scaled by it, at the network in the first. Where they would bring more than
/// 2,000,000,000 thousandths of a vehicle, the factor is refused.
///
/// Each status has its cause, and each refusal writes its line to `err`, as `signal` says.
///
/// docs/FORMATS.md, "Words".
pub fn scale_job<S: Shelf, O: Sink, E: Sink>(
    alloc: Global,
    net: &str,
    arr: &str,
    first: u32,
    last: u32,
    step: u32,
    shelf: &mut S,
    out: &mut O,
    err: &mut E,
) -> Status
    requires { AreFactors first last step }
    ensures { Outcome (scale_meaning net.now arr.now first last step)
        (record { shelf = S.state shelf.old; out = O.state out.old; err = E.state err.old })
        (record { shelf = S.state shelf.new; out = O.state out.new; err = E.state err.new }) result }
{
    let range = FactorRange { first, last, step };
    let made = scale_files(alloc, shelf, net, arr, &range);
    end(alloc, made, out, err)
}
