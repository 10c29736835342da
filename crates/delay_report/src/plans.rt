//! The records of plans.
ghost use Rattle.std.specs.Prelude.{◌≡◌, ◌<◌, [], ◌∷◌, All, OnOk, length, map};
ghost use Rattle.road_net.specs.Network.{heard_links};
ghost use Rattle.delay_report.specs.Reports.{plan_record};
ghost use Rattle.world_records.specs.Written.{Adds};

use csv::Writer;
use intersection_actor::{PlanRecord, phase_digits, used_text};
use road_net::Network;
use schedule_meaning::Answer;
use std::alloc::{AllocError, Global};
use world_records::{digits_of, write_record};

/// Writes the records of plans.
pub(crate) fn write_plans(
    alloc: Global,
    net: &Network,
    plans: &[PlanRecord],
    out: &mut Writer<Vec<u8>>,
) -> Result<(), AllocError>
    requires nodes { All (λ p. p.node < length net.now.node_names) plans.now }
    requires used { All (λ p. map (λ u. u.link) p.used ≡ heard_links net.now p.node) plans.now }
    ensures { OnOk result (Adds out.old out.new (map (plan_record net.now) plans.now)) }
{
    for plan in plans {
        write_plan(alloc, net, plan, out)?;
    }
    Ok(())
}

/// Writes the record of a plan.
fn write_plan(
    alloc: Global,
    net: &Network,
    plan: &PlanRecord,
    out: &mut Writer<Vec<u8>>,
) -> Result<(), AllocError>
    requires node { plan.now.node < length net.now.node_names }
    requires used { map (λ u. u.link) plan.now.used ≡ heard_links net.now plan.now.node }
    ensures { OnOk result (Adds out.old out.new (plan_record net.now plan.now ∷ [])) }
{
    let round = digits_of(u64::from(plan.round));
    let node = net.node_name(plan.node).as_bytes();
    let used = used_text(alloc, net, plan.used.as_slice())?;
    match &plan.answer {
        Answer::NoPlan => write_record(
            out,
            &[b"plan", round.as_bytes(), node, &used, b"none", b"", b""],
        ),
        Answer::Plan { sequence, delay } => {
            let delay = digits_of(*delay);
            let phases = phase_digits(alloc, sequence.as_slice())?;
            write_record(
                out,
                &[
                    b"plan",
                    round.as_bytes(),
                    node,
                    &used,
                    b"plan",
                    delay.as_bytes(),
                    &phases,
                ],
            )
        }
    }
}
