//! The bounds of what is in a draft.
ghost use Rattle.std.specs.Prelude.{◌≡◌, ◌*◌, ◌≤◌, ◌↔◌, OnOk, IfErr, IfSome, IsTrue, All, length, count_by};
ghost use Rattle.net_parts.specs.Limits.{most_links, most_nodes};
ghost use Rattle.foundation.specs.Firsts.{IsFirstAt, IsFirstNot, FromOne};
ghost use Rattle.phase_plan.specs.Phases.{is_unmarked};
ghost use Rattle.net_build.specs.Outcome.{Checks, HasOptions};
ghost use Rattle.net_parts.specs.FirstFaults.{IsNodeFault, IsLinkFault, FailsBounds, Refuses};
ghost use Rattle.net_parts.specs.Bounds.{IsNameByte, IsName, IsActStep, IsRun, HasCounts, HasRun, IsUnmarkedCount, HasNodeBounds, HasYieldBounds, HasWalkBounds, HasLinkBounds, IsBoundedPhase, IsBoundedNode, IsBoundedTurn, IsBoundedLink, IsBounded};

use net_parts::{
    Draft, DraftLink, DraftNode, DraftPhase, DraftTurn, DraftYield, Limits, MOST_LOOK, MOST_ROUNDS,
    MOST_SAT, MOST_SECONDS, MOST_TRAVEL, NetFault, Place, Run, Section, Walk,
};

/// Tests the bounds of a draft. The fault is `Bound` at the first place where one does not hold.
///
/// docs/FORMATS.md, "Places and faults".
pub fn check_bounds(draft: &Draft) -> Result<(), NetFault>
    ensures ok { OnOk result (IsBounded draft.now) }
    ensures refused { IfErr result (λ fault. Refuses fault (¬ IsBounded draft.now)) }
    ensures first { IfErr result (FailsBounds draft.now) }
{
    if !has_counts(draft) {
        return Err(bound(Section::Top, 0, 0));
    }
    if !has_run(draft) {
        return Err(bound(Section::Run, 0, 0));
    }
    check_nodes(draft.nodes.as_slice())?;
    check_links(draft.links.as_slice())
}

/// The fault `Bound` at this place.
fn bound(part: Section, item: u32, sub: u32) -> NetFault
    ensures { result ≡ NetFault.Bound (record { part = part; item = item; sub = sub }) }
{
    NetFault::Bound(Place { part, item, sub })
}

/// Whether there are as many nodes, links and conflicts as there may be.
fn has_counts(draft: &Draft) -> bool
    ensures { IsTrue result ↔ HasCounts draft.now }
{
    let most = Limits::of(draft.great);
    (1..=most.nodes as usize).contains(&draft.nodes.len())
        && (1..=most.links as usize).contains(&draft.links.len())
        && draft.conflicts.len() <= most.conflicts as usize
}

/// Whether the run of a draft is within its bounds, and has no more rounds than the draft may have.
fn has_run(draft: &Draft) -> bool
    ensures { IsTrue result ↔ HasRun draft.now }
{
    let is_run = is_run(&draft.run);
    let most = Limits::of(draft.great);
    is_run && draft.run.rounds <= most.rounds
}

/// Whether the numbers of the run are within their bounds.
fn is_run(run: &Run) -> bool
    ensures { IsTrue result ↔ IsRun run.now }
{
    let has_options = has_options(run);
    let seconds = seconds_of(run);
    (1..=30).contains(&run.step)
        && (10..=MOST_LOOK).contains(&run.look)
        && run.step <= run.look
        && run.gap <= 10
        && (1..=MOST_ROUNDS).contains(&run.rounds)
        && seconds <= u64::from(MOST_SECONDS)
        && has_options
}

/// The seconds of the whole run.
fn seconds_of(run: &Run) -> u64
    ensures { result ≡ run.now.rounds * run.now.step }
{
    u64::from(run.rounds) * u64::from(run.step)
}

/// Whether `age`, `hold`, `recall`, `act_step` and `rate` of the run are within their bounds, where it has them.
fn has_options(run: &Run) -> bool
    ensures { IsTrue result ↔ HasOptions run.now }
{
    run.age.is_none_or(|age| (1..=3600).contains(&age))
        && run.hold.is_none_or(|hold| (1..=20).contains(&hold))
        && run.recall.is_none_or(|recall| (1..=3600).contains(&recall))
        && run
            .act_step
            .is_none_or(|act_step| is_act_step(run.step, act_step))
        && run.rate.is_none_or(|rate| (1..=1000).contains(&rate))
}

/// Whether actuated control may have this step, where the rounds of the run have `step` seconds.
fn is_act_step(step: u32, act_step: u32) -> bool
    ensures { IsTrue result ↔ IsActStep step act_step }
{
    (1..=30).contains(&act_step) && step % act_step == 0
}

/// Tests each node, and names the first fault of the first that is out of its bounds.
fn check_nodes(nodes: &[DraftNode]) -> Result<(), NetFault>
    requires { length nodes.now ≤ most_nodes }
    ensures { Checks (All IsBoundedNode nodes.now)
        (λ place. FromOne
        (IsFirstAt IsBoundedNode (λ n. IsNodeFault n place.part place.sub) nodes.now) place.item) result }
{
    for (index, node) in nodes.iter().enumerate() {
        check_node(node, index as u32 + 1)?;
    }
    Ok(())
}

/// Tests a node, and then its phases.
fn check_node(node: &DraftNode, item: u32) -> Result<(), NetFault>
    ensures { Checks (IsBoundedNode node.now)
        (λ place. (place.item ≡ item) × IsNodeFault node.now place.part place.sub) result }
{
    if !has_node_bounds(node) {
        return Err(bound(Section::Node, item, 0));
    }
    check_phases(node.phases.as_slice(), item)
}

/// Whether the name and the number of phases of a node are as they may be, and how many of them are unmarked.
fn has_node_bounds(node: &DraftNode) -> bool
    ensures { IsTrue result ↔ HasNodeBounds node.now }
{
    let unmarked = count_unmarked(node.phases.as_slice());
    is_name(node.name.as_str())
        && (2..=4).contains(&node.phases.len())
        && is_unmarked_count(node.free_ring, unmarked)
}

/// Whether this many phases of a ring may be unmarked: two or more, or none where the ring may be free.
fn is_unmarked_count(free_ring: bool, count: usize) -> bool
    ensures { IsTrue result ↔ IsUnmarkedCount free_ring count }
{
    count >= 2 || free_ring && count == 0
}

/// How many of the phases are unmarked.
fn count_unmarked(phases: &[DraftPhase]) -> usize
    ensures { result ≡ count_by (λ p. is_unmarked p.phase) phases.now }
{
    phases.iter().filter(|phase| !phase.phase.skip).count()
}

/// Tests each phase, and names the first that is out of its bounds.
fn check_phases(phases: &[DraftPhase], item: u32) -> Result<(), NetFault>
    requires { length phases.now ≤ 4 }
    ensures { Checks (All IsBoundedPhase phases.now)
        (λ place. (place.part ≡ Section.Phase) × (place.item ≡ item)
        × FromOne (IsFirstNot IsBoundedPhase phases.now) place.sub) result }
{
    for (index, phase) in phases.iter().enumerate() {
        if !is_bounded_phase(phase) {
            return Err(bound(Section::Phase, item, index as u32 + 1));
        }
    }
    Ok(())
}

/// Whether the times and the numbers of links of a phase are as they may be.
fn is_bounded_phase(phase: &DraftPhase) -> bool
    ensures { IsTrue result ↔ IsBoundedPhase phase.now }
{
    phase.phase.is_within_bounds() && phase.links.len() <= 16 && phase.also.len() <= 16
}

/// Tests each link, and names the first fault of the first that is out of its bounds.
fn check_links(links: &[DraftLink]) -> Result<(), NetFault>
    requires { length links.now ≤ most_links }
    ensures { Checks (All IsBoundedLink links.now)
        (λ place. FromOne
        (IsFirstAt IsBoundedLink (λ l. IsLinkFault l place.part place.sub) links.now) place.item) result }
{
    for (index, link) in links.iter().enumerate() {
        check_link(link, index as u32 + 1)?;
    }
    Ok(())
}

/// Tests a link, and then its turns.
fn check_link(link: &DraftLink, item: u32) -> Result<(), NetFault>
    ensures { Checks (IsBoundedLink link.now)
        (λ place. (place.item ≡ item) × IsLinkFault link.now place.part place.sub) result }
{
    if !has_link_bounds(link) {
        return Err(bound(Section::Link, item, 0));
    }
    check_turns(link.turns.as_slice(), item)
}

/// Whether the name, the numbers and the number of turns of a link are as they may be.
fn has_link_bounds(link: &DraftLink) -> bool
    ensures { IsTrue result ↔ HasLinkBounds link.now }
{
    is_name(link.name.as_str())
        && (1..=MOST_TRAVEL).contains(&link.travel)
        && (1..=MOST_SAT).contains(&link.sat)
        && (1..=20).contains(&link.weight)
        && link.turns.len() <= 16
        && has_yields(link)
        && link.walk.is_none_or(|walk| has_walk_bounds(walk))
}

/// Whether the links to which a link gives way, where there are any, are as many as they may be, and its discharge
/// then is within its bounds.
fn has_yields(link: &DraftLink) -> bool
    ensures { IsTrue result ↔ IfSome link.now.yields (HasYieldBounds link.now.sat) }
{
    match &link.yields {
        Some(given) => has_yield_bounds(given, link.sat),
        None => true,
    }
}

/// Whether a link of this greatest discharge may give way so.
fn has_yield_bounds(given: &DraftYield, sat: u32) -> bool
    ensures { IsTrue result ↔ HasYieldBounds sat given.now }
{
    (1..=16).contains(&given.links.len()) && (1..=sat).contains(&given.sat)
}

/// Whether the seconds of a walk are within their bounds.
fn has_walk_bounds(walk: Walk) -> bool
    ensures { IsTrue result ↔ HasWalkBounds walk }
{
    (1..=120).contains(&walk.seconds) && walk.cross <= 120
}

/// Tests each turn, and names the first that is out of its bounds.
fn check_turns(turns: &[DraftTurn], item: u32) -> Result<(), NetFault>
    requires { length turns.now ≤ 16 }
    ensures { Checks (All IsBoundedTurn turns.now)
        (λ place. (place.part ≡ Section.Turn) × (place.item ≡ item)
        × FromOne (IsFirstNot IsBoundedTurn turns.now) place.sub) result }
{
    for (index, turn) in turns.iter().enumerate() {
        if turn.share > 1000 {
            return Err(bound(Section::Turn, item, index as u32 + 1));
        }
    }
    Ok(())
}

/// Whether the text is a name.
fn is_name(name: &str) -> bool
    ensures { IsTrue result ↔ IsName name.now }
{
    (1..=16).contains(&name.len()) && name.as_bytes().iter().all(|byte| is_name_byte(*byte))
}

/// Whether a name may have the byte.
fn is_name_byte(byte: u8) -> bool
    ensures { IsTrue result ↔ IsNameByte byte }
{
    byte.is_ascii_lowercase() || byte.is_ascii_digit() || byte == b'_'
}
