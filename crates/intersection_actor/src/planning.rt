//! What a node plans in a round.
ghost use Rattle.std.specs.Prelude.{◌≡◌, ◌+◌, ◌<◌, ◌≤◌, ◌++◌, [], ◌∷◌, All, IfOk, OnErr, OnOk, length};
ghost use Rattle.clusters.specs.{Inflow.IsHeardOf, Sound.ArePlannable, Sound.cluster_lists, Sound.clusters_of};
ghost use Rattle.control_flow.specs.{Greens.BeginBy, Greens.IsLawful, Greens.Joins, Greens.end_of, Greens.spliced, Timelines.AreServings};
ghost use Rattle.intersection_actor.specs.{Commits.AreServedBy, Commits.line_for, Commits.phases_of, Commits.used_of, Splices.IsLawAlong, Splices.kept_of, Splices.record_from, Steps.AreSoonServed, Steps.HasLine, Steps.IsExpected};
ghost use Rattle.intersection_actor.specs.{Steps.IsNextLine, Steps.IsPlanned, Steps.IsScheduled};
ghost use Rattle.net_parts.specs.Outline.{plan_at};
ghost use Rattle.road_net.specs.Senses.{IsSensedOf};
ghost use Rattle.schedule_meaning.specs.Best.{IsBest};
ghost use Rattle.switch_rules.specs.{Serving.IsHead, declared.Served.Served};

use crate::recalls::round_plan;
use crate::records::{PlanRecord, Used};
use board_model::Heard;
use clusters::{Platoon, Window, expected_platoons, window};
use control_flow::greens::Timeline;
use control_flow::{head_at, rotation, timeline};
use foundation::items::Items;
use phase_plan::PhasePlan;
use road_net::{Network, Sensed};
use schedule_meaning::{Answer, Instance, Planner, ServingsFault, best_answer, servings};
use std::alloc::{AllocError, Global};
use switch_rules::{Cluster, Head, Served};

/// The best answer of an instance, its phases, and what it serves.
#[derive(Drop)]
pub(crate) struct Schedule {
    pub(crate) answer: Answer,
    pub(crate) phases: Items<u8>,
    pub(crate) served: Items<Served>,
}

/// What a node plans in a round, and the versions that it used.
#[derive(Drop)]
pub(crate) struct RoundPlan {
    pub(crate) window: Window,
    pub(crate) instance: Instance,
    pub(crate) schedule: Schedule,
    pub(crate) next: Timeline,
    pub(crate) used: Items<Used>,
}

/// What a node keeps of a plan besides the record and the timeline.
#[derive(Drop)]
pub(crate) struct Kept {
    pub(crate) window: Window,
    pub(crate) phases: Items<u8>,
    pub(crate) served: Items<Served>,
}

/// What a node plans from its timeline, what it senses and what it has heard.
pub(crate) fn plan_round<P: Planner>(
    alloc: Global,
    net: &Network,
    node: u32,
    line: &Timeline,
    sensed: &Sensed,
    heard: &[Heard],
    planner: &mut P,
) -> Result<RoundPlan, AllocError>
    requires node { node < length net.now.node_names }
    requires lawful { IsLawful (plan_at net.now node) line.now }
    requires begins { BeginBy 100000 line.now }
    requires sensed { IsSensedOf net.now node sensed.now }
    requires ahead { sensed.now.now < end_of line.now }
    requires heard { IsHeardOf net.now node heard.now }
    ensures { IfOk result (IsPlanned net.now node line.now sensed.entry.now heard.now) }
{
    let own = net.plan(node);
    // Called for its clause `ring`, and not for the count.
    let _ = own.count();
    let until = sensed.now + net.run().look;
    let head = head_at(own, line, sensed.now);
    let used = used_versions(alloc, heard)?;
    let window = expected_window(alloc, net, node, &head, sensed, heard)?;
    let plan = round_plan(alloc, net, node, sensed)?;
    let instance = problem(alloc, plan, &head, &window)?;
    let (schedule, next) = schedule_line(alloc, planner, &instance, until)?;
    Ok(RoundPlan {
        window,
        instance,
        schedule,
        next,
        used: Items::from_vec(used),
    })
}

/// The window of the platoons that a node with this head expects.
fn expected_window(
    alloc: Global,
    net: &Network,
    node: u32,
    head: &Head,
    sensed: &Sensed,
    heard: &[Heard],
) -> Result<Window, AllocError>
    requires node { node < length net.now.node_names }
    requires head { IsHead (plan_at net.now node) head.now }
    requires sensed { IsSensedOf net.now node sensed.now }
    requires heard { IsHeardOf net.now node heard.now }
    ensures { IfOk result (IsExpected net.now node head.now sensed.entry.now heard.now) }
{
    // Called for its clause `ring`, and not for the count.
    let _ = net.plan(node).count();
    let lists = expected_platoons(alloc, net, node, head, sensed, heard)?;
    window(alloc, lists)
}

/// The instance of a plan, a head and the clusters of a window.
fn problem(
    alloc: Global,
    plan: PhasePlan,
    head: &Head,
    window: &Window,
) -> Result<Instance, AllocError>
    requires head { IsHead plan head.now }
    requires since { head.now.since ≤ 100000 }
    requires lists { length window.now.lists ≡ length plan }
    requires plannable { ArePlannable (cluster_lists window.now.lists) }
    ensures { IfOk result (λ i. i
        ≡ record { plan = plan; head = head.now; lists = cluster_lists window.now.lists }) }
{
    // Called for its clause `ring`, and not for the count.
    let _ = plan.count();
    let lists = cluster_lists(alloc, window.lists.as_slice())?;
    match Instance::new(plan, *head, lists) {
        Ok(instance) => Ok(instance),
        Err(_) => unreachable!(),
    }
}

/// The clusters of lists of platoons.
fn cluster_lists(alloc: Global, lists: &[Items<Platoon>]) -> Result<Vec<Items<Cluster>>, AllocError>
    ensures { IfOk result (λ clusters. clusters.items ≡ cluster_lists lists.now) }
{
    let mut clusters = Vec::with_capacity(alloc, lists.len())?;
    for list in lists {
        clusters.push(Items::from_vec(clusters_of(alloc, list.as_slice())?))?;
    }
    Ok(clusters)
}

/// The clusters of platoons.
fn clusters_of(alloc: Global, list: &[Platoon]) -> Result<Vec<Cluster>, AllocError>
    ensures { IfOk result (λ clusters. clusters.items ≡ clusters_of list.now) }
{
    list.iter().map(|platoon| platoon.cluster).collect(alloc)
}

/// The best answer of an instance, and what it serves.
fn best_schedule<P: Planner>(
    alloc: Global,
    planner: &mut P,
    i: &Instance,
) -> Result<Schedule, AllocError>
    ensures { IfOk result (IsScheduled i.now) }
{
    // Called for its clause `instance`, and not for the head.
    let _ = i.head();
    let answer = best_answer(alloc, planner, i)?;
    let served = servings_of(alloc, i, &answer)?;
    let phases = phases_of(alloc, &answer)?;
    Ok(Schedule {
        answer,
        phases: Items::from_vec(phases),
        served: Items::from_vec(served),
    })
}

/// The best answer of an instance, and its timeline from the head.
fn schedule_line<P: Planner>(
    alloc: Global,
    planner: &mut P,
    i: &Instance,
    until: u32,
) -> Result<(Schedule, Timeline), AllocError>
    requires reach { i.now.head.at ≤ 100000 }
    requires until { until ≤ 99980 }
    requires law { (s : Schedule) → IsScheduled i.now s → AreSoonServed i.now.plan i.now.head s }
    ensures { IfOk result (λ made. HasLine i.now until made.0 made.1) }
{
    let plan = i.plan();
    let head = i.head();
    let schedule = best_schedule(alloc, planner, i)?;
    let next = next_line(alloc, plan, &head, &schedule, until)?;
    Ok((schedule, next))
}

/// What the best answer of an instance serves.
fn servings_of(alloc: Global, i: &Instance, answer: &Answer) -> Result<Vec<Served>, AllocError>
    requires { IsBest i.now answer.now }
    ensures { IfOk result (λ served. AreServedBy i.now answer.now served.items) }
{
    // Called for its clause `instance`, and not for the head.
    let _ = i.head();
    let Answer::Plan { sequence, .. } = answer else {
        return Ok(Vec::new(alloc));
    };
    match servings(alloc, i, sequence.as_slice()) {
        Ok(served) => Ok(served),
        Err(ServingsFault::Seq(_)) => unreachable!(),
        Err(ServingsFault::NoMemory) => Err(AllocError),
    }
}

/// The phases of an answer, one after another.
fn phases_of(alloc: Global, answer: &Answer) -> Result<Vec<u8>, AllocError>
    ensures { IfOk result (λ phases. phases.items ≡ phases_of answer.now) }
{
    match answer {
        Answer::Plan { sequence, .. } => sequence.as_slice().to_vec(alloc),
        Answer::NoPlan => Ok(Vec::new(alloc)),
    }
}

/// The timeline of a schedule from a head.
fn next_line(
    alloc: Global,
    plan: &PhasePlan,
    head: &Head,
    schedule: &Schedule,
    until: u32,
) -> Result<Timeline, AllocError>
    requires head { IsHead plan.now head.now }
    requires reach { head.now.at ≤ 100000 }
    requires until { until ≤ 99980 }
    requires phases { schedule.now.phases ≡ phases_of schedule.now.answer }
    requires served { AreServings plan.now head.now schedule.now.phases schedule.now.served }
    requires greens { All (λ (s : Served). s.green ≤ 100000) schedule.now.served }
    ensures value { IfOk result (λ line. line
        ≡ line_for plan.now head.now schedule.now.answer schedule.now.served until) }
    ensures next { IfOk result (IsNextLine plan.now head.now until) }
{
    let phases = schedule.phases.as_slice();
    match schedule.answer {
        Answer::Plan { .. } => timeline(
            alloc,
            plan,
            head,
            phases,
            schedule.served.as_slice(),
            until,
        ),
        Answer::NoPlan => rotation(alloc, plan, head, until),
    }
}

/// The versions that were heard, each with its link.
fn used_versions(alloc: Global, heard: &[Heard]) -> Result<Vec<Used>, AllocError>
    ensures { IfOk result (λ used. used.items ≡ used_of heard.now) }
{
    heard
        .iter()
        .map(|heard| Used {
            link: heard.link,
            version: heard.version,
        })
        .collect(alloc)
}

/// Adds the record of a plan, and splices the plan's timeline into the node's. Answers what else the node keeps of it.
pub(crate) fn keep_plan(
    records: &mut Vec<PlanRecord>,
    line: &mut Timeline,
    node: u32,
    round: u32,
    plan: RoundPlan,
) -> Result<Kept, AllocError>
    requires { Joins line.old plan.next }
    ensures records { OnOk result (records.new.items ≡ records.old.items ++ record_from node round plan ∷ []) }
    ensures line { OnOk result (line.new ≡ spliced line.old plan.next) }
    ensures law { OnOk result (IsLawAlong line.old plan.next line.new) }
    ensures kept { IfOk result (λ kept. kept ≡ kept_of plan) }
    ensures refused { OnErr result ((records.new.items ≡ records.old.items) × (line.new ≡ line.old)) }
{
    records.reserve(1)?;
    let RoundPlan {
        window,
        instance,
        schedule,
        next,
        used,
    } = plan;
    line.splice(next)?;
    let Schedule {
        answer,
        phases,
        served,
    } = schedule;
    records.push_reserved(PlanRecord {
        node,
        round,
        used,
        instance,
        answer,
    });
    Ok(Kept {
        window,
        phases,
        served,
    })
}
