//! Numbers for the names of a draft.
ghost use Rattle.std.specs.Prelude.{◌≡◌, ◌≢◌, ◌≤◌, ◌<◌, [], Some, IfOk, IfErr, IfSome, OnOk, All, Contains, length, map, count_by};
ghost use Rattle.net_parts.specs.{Bounds.IsBoundedNode, Bounds.IsBoundedPhase, Bounds.IsBounded, FirstFaults.IsKnownPhase, FirstFaults.IsKnownNode, FirstFaults.HasKnownEnds, FirstFaults.HasKnownNames, FirstFaults.IsKnownTurn};
ghost use Rattle.net_parts.specs.{FirstFaults.IsKnownLink, FirstFaults.IsKnownConflict, FirstFaults.IsUnknownInNode, FirstFaults.IsUnknownInLink, FirstFaults.IsUnknownFault, FirstFaults.FailsNumbers, FirstFaults.Refuses};
ghost use Rattle.net_parts.specs.{Limits.most_conflicts, Limits.most_links, Limits.most_nodes, Numbers.Net, Numbers.number_of, Numbers.number_if, Numbers.yield_names, Numbers.yield_sat, Parts.net_of, Parts.IsNetOf};
ghost use Rattle.foundation.specs.{Firsts.IsFirstAt, Firsts.IsFirstNot, Firsts.FromOne, Options.each};
ghost use Rattle.phase_plan.specs.Phases.{is_unmarked};
ghost use Rattle.net_build.specs.{Outcome.AreAdded, Outcome.Makes, Stages.AreNames, Stages.AreTables, Stages.greens_of, Stages.phase_greens_of, Stages.net_with};
ghost use Rattle.net_parts.specs.Numbers as spec;

use foundation::items::Items;
use foundation::text::Text;
use net_parts::{
    Draft, DraftConflict, DraftLink, DraftNode, DraftPhase, DraftTurn, DraftYield, Link, Names,
    NetFault, Parts, Place, Section, Turn, phase_with,
};
use phase_plan::{Phase, PhasePlan};
use std::alloc::{AllocError, Global};

/// The draft with numbers for names. The fault is out of memory, or `Twice` or `Unknown` at the first place
/// that repeats a name, or else that uses one which stands for nothing.
///
/// docs/RULES.md, "Road network"; docs/FORMATS.md, "Places and faults".
pub(crate) fn number_draft(alloc: Global, draft: &Draft) -> Result<Parts, NetFault>
    requires { IsBounded draft.now }
    ensures ok { IfOk result (λ parts. IsNetOf draft.now (net_of parts)) }
    ensures refused { IfErr result (λ fault. Refuses fault ((net : Net) → ¬ IsNetOf draft.now net)) }
    ensures first { IfErr result (FailsNumbers draft.now) }
{
    let mut node_names = Names::new(alloc);
    let mut link_names = Names::new(alloc);
    let (phases, lists) = add_all(alloc, draft, &mut node_names, &mut link_names)?;
    Ok(Parts {
        run: draft.run,
        node_names,
        plans: lists.plans,
        phase_links: phases.serves,
        also_links: phases.also,
        link_names,
        links: lists.roads.links,
        turns: lists.roads.turns,
        yields: lists.roads.yields,
        conflicts: lists.conflicts,
    })
}

/// Adds the names of the nodes and of the links, no two the same. Answers what is numbered by them.
fn add_all(
    alloc: Global,
    draft: &Draft,
    nodes: &mut Names,
    links: &mut Names,
) -> Result<(PhaseLists, Lists), NetFault>
    requires bounded { IsBounded draft.now }
    requires no_nodes { nodes.old ≡ [] }
    requires no_links { links.old ≡ [] }
    ensures names { OnOk result (AreNames draft.now nodes.new links.new) }
    ensures ok { IfOk result (λ made. spec.numbered draft.now
        ≡ Some (net_with draft.now made.0.serves.items made.0.also.items made.1)) }
    ensures first { IfErr result (FailsNumbers draft.now) }
{
    add_node_names(alloc, draft.nodes.as_slice(), nodes)?;
    add_link_names(alloc, draft.links.as_slice(), links)?;
    phases_and_lists(alloc, nodes, links, draft)
}

/// For each phase of each node the links that it serves, and those that it names also.
#[derive(Drop)]
struct PhaseLists {
    serves: Vec<Items<Items<u32>>>,
    also: Vec<Items<Items<u32>>>,
}

/// The links, the turns of each, and those to which each gives way.
#[derive(Drop)]
struct LinkLists {
    links: Vec<Link>,
    turns: Vec<Items<Turn>>,
    yields: Vec<Items<u32>>,
}

/// What is numbered by the names and by the links of the phases.
#[derive(Drop)]
struct Lists {
    roads: LinkLists,
    conflicts: Vec<(u32, u32)>,
    plans: Vec<PhasePlan>,
}

/// The links of each phase of each node, and all that is numbered after them.
fn phases_and_lists(
    alloc: Global,
    nodes: &Names,
    links: &Names,
    draft: &Draft,
) -> Result<(PhaseLists, Lists), NetFault>
    requires bounds { IsBounded draft.now }
    requires nodes { nodes.now ≡ spec.node_names draft.now }
    requires links { links.now ≡ spec.link_names draft.now }
    ensures { Makes (λ made. net_with draft.now made.0.serves.items made.0.also.items made.1)
        result (spec.numbered draft.now)
        (λ place. IsUnknownFault draft.now place.part place.item place.sub) }
{
    let greens = greens(alloc, links, draft.nodes.as_slice())?;
    let tables = Tables {
        nodes,
        links,
        phase_links: greens.serves.as_slice(),
        also_links: greens.also.as_slice(),
    };
    let lists = lists_by_names(alloc, &tables, draft)?;
    Ok((greens, lists))
}

/// The links with what each has, the conflicts and the plans, in this order.
fn lists_by_names(alloc: Global, names: &Tables, draft: &Draft) -> Result<Lists, NetFault>
    requires bounds { IsBounded draft.now }
    requires tables { AreTables draft.now names.now.nodes.now names.now.links.now
        names.now.phase_links.now names.now.also_links.now }
    ensures { Makes (λ lists. net_with draft.now names.now.phase_links.now names.now.also_links.now lists)
        result (spec.numbered draft.now)
        (λ place. IsUnknownFault draft.now place.part place.item place.sub) }
{
    let roads = roads(alloc, names, draft.links.as_slice())?;
    let conflicts = conflicts(alloc, names.links, draft.conflicts.as_slice())?;
    let plans = plans(alloc, draft.nodes.as_slice())?;
    Ok(Lists {
        roads,
        conflicts,
        plans,
    })
}

/// Adds the names of the nodes, no two the same.
fn add_node_names(alloc: Global, nodes: &[DraftNode], names: &mut Names) -> Result<(), NetFault>
    requires few { length nodes.now ≤ most_nodes }
    requires none { names.old ≡ [] }
    ensures { AreAdded Section.Node (map (λ n. n.name) nodes.now) names.new result }
{
    for (index, node) in nodes.iter().enumerate() {
        if !names.add(alloc, node.name.as_str())? {
            return Err(NetFault::Twice(place(Section::Node, index as u32 + 1, 0)));
        }
    }
    Ok(())
}

/// Adds the names of the links, no two the same.
fn add_link_names(alloc: Global, links: &[DraftLink], names: &mut Names) -> Result<(), NetFault>
    requires few { length links.now ≤ most_links }
    requires none { names.old ≡ [] }
    ensures { AreAdded Section.Link (map (λ l. l.name) links.now) names.new result }
{
    for (index, link) in links.iter().enumerate() {
        if !names.add(alloc, link.name.as_str())? {
            return Err(NetFault::Twice(place(Section::Link, index as u32 + 1, 0)));
        }
    }
    Ok(())
}

/// A place.
fn place(part: Section, item: u32, sub: u32) -> Place
    ensures { result ≡ record { part = part; item = item; sub = sub } }
{
    Place { part, item, sub }
}

/// The number of a name.
fn number(names: &Names, name: &Text, place: Place) -> Result<u32, NetFault>
    ensures { Makes (λ number. number) result (number_of names.now name.now)
        (λ at_fault. (at_fault ≡ place) × ¬ Contains names.now name.now) }
{
    match names.find(name.as_str()) {
        Some(number) => Ok(number),
        None => Err(NetFault::Unknown(place)),
    }
}

/// The number of a name that may be absent.
fn number_if(names: &Names, name: &Option<Text>, place: Place) -> Result<Option<u32>, NetFault>
    ensures { Makes (λ number. number) result (number_if names.now name.now)
        (λ at_fault. (at_fault ≡ place) × ¬ IfSome name.now (Contains names.now)) }
{
    match name {
        Some(name) => Ok(Some(number(names, name, place)?)),
        None => Ok(None),
    }
}

/// The numbers of these names, in order.
fn numbers(alloc: Global, names: &Names, texts: &[Text], place: Place) -> Result<Vec<u32>, NetFault>
    ensures { Makes (λ numbers. numbers.items) result (each (number_of names.now) texts.now)
        (λ at_fault. (at_fault ≡ place) × ¬ All (Contains names.now) texts.now) }
{
    let mut numbers = Vec::new(alloc);
    for text in texts {
        let number = number(names, text, place)?;
        numbers.push(number)?;
    }
    Ok(numbers)
}

/// The links of each phase of each node.
#[tactic(auto, unfolding(crate::specs::Stages::greens_of))]
fn greens(alloc: Global, names: &Names, nodes: &[DraftNode]) -> Result<PhaseLists, NetFault>
    requires few { length nodes.now ≤ most_nodes }
    requires bounds { All IsBoundedNode nodes.now }
    ensures { Makes (λ lists. (lists.serves.items, lists.also.items)) result (greens_of names.now nodes.now)
        (λ place. (place.part ≡ Section.Phase)
        × FromOne
        (IsFirstAt (IsKnownNode names.now) (λ n. IsUnknownInNode names.now n place.sub) nodes.now) place.item) }
{
    let mut serves = Vec::new(alloc);
    let mut also = Vec::new(alloc);
    for (index, node) in nodes.iter().enumerate() {
        let lists = links_of_phases(alloc, names, node.phases.as_slice(), index as u32 + 1)?;
        serves.push(Items::from_vec(lists.0))?;
        also.push(Items::from_vec(lists.1))?;
    }
    Ok(PhaseLists { serves, also })
}

/// The links of each of these phases: those that it serves, and those that it names also.
#[tactic(auto, unfolding(crate::specs::Stages::phase_greens_of))]
fn links_of_phases(
    alloc: Global,
    names: &Names,
    phases: &[DraftPhase],
    item: u32,
) -> Result<(Vec<Items<u32>>, Vec<Items<u32>>), NetFault>
    requires { length phases.now ≤ 4 }
    ensures { Makes (λ lists. (lists.0.items, lists.1.items)) result (phase_greens_of names.now phases.now)
        (λ place. (place.part ≡ Section.Phase) × (place.item ≡ item)
        × FromOne (IsFirstNot (IsKnownPhase names.now) phases.now) place.sub) }
{
    let mut serves = Vec::new(alloc);
    let mut further = Vec::new(alloc);
    for (index, phase) in phases.iter().enumerate() {
        let place = place(Section::Phase, item, index as u32 + 1);
        let links = numbers(alloc, names, phase.links.as_slice(), place)?;
        let also = numbers(alloc, names, phase.also.as_slice(), place)?;
        serves.push(Items::from_vec(links))?;
        further.push(Items::from_vec(also))?;
    }
    Ok((serves, further))
}

/// The names, and the links of phases that are numbered by them.
#[derive(Drop)]
struct Tables<'a> {
    nodes: &'a Names,
    links: &'a Names,
    phase_links: &'a [Items<Items<u32>>],
    also_links: &'a [Items<Items<u32>>],
}

/// The links, the turns of each, and those to which each gives way.
#[tactic(auto, unfolding(net_parts::specs::Numbers::roads_of))]
fn roads(alloc: Global, names: &Tables, links: &[DraftLink]) -> Result<LinkLists, NetFault>
    requires few { length links.now ≤ most_links }
    requires turns { All (λ l. length l.turns ≤ 16) links.now }
    requires nodes { length names.now.nodes.now ≤ length names.now.phase_links.now }
    requires phases { All (λ phases. length phases ≤ 4) names.now.phase_links.now }
    requires own { All (λ l. Contains names.now.links.now l.name) links.now }
    ensures { Makes (λ roads. (roads.links.items, roads.turns.items, roads.yields.items)) result
        (spec.roads_of names.now.nodes.now names.now.links.now names.now.phase_links.now links.now)
        (λ place. FromOne (IsFirstAt (IsKnownLink names.now.nodes.now names.now.links.now)
        (λ l. IsUnknownInLink names.now.nodes.now names.now.links.now l place.part place.sub) links.now) place.item) }
{
    let mut roads = Vec::new(alloc);
    let mut lists = Vec::new(alloc);
    let mut given = Vec::new(alloc);
    for (index, link) in links.iter().enumerate() {
        let item = index as u32 + 1;
        let place = place(Section::Link, item, 0);
        let road = road(names, link, place)?;
        let yields = yields(alloc, names.links, &link.yields, place)?;
        let turns = turns(alloc, names.links, link.turns.as_slice(), item)?;
        roads.push(road)?;
        lists.push(Items::from_vec(turns))?;
        given.push(Items::from_vec(yields))?;
    }
    Ok(LinkLists {
        links: roads,
        turns: lists,
        yields: given,
    })
}

/// A link by numbers.
#[tactic(auto, unfolding(net_parts::specs::Numbers::link_of))]
fn road(names: &Tables, link: &DraftLink, place: Place) -> Result<Link, NetFault>
    requires nodes { length names.now.nodes.now ≤ length names.now.phase_links.now }
    requires phases { All (λ phases. length phases ≤ 4) names.now.phase_links.now }
    requires own { Contains names.now.links.now link.now.name }
    ensures { Makes (λ link. link) result
        (spec.link_of names.now.nodes.now names.now.links.now names.now.phase_links.now link.now)
        (λ at_fault. (at_fault ≡ place) × ¬ HasKnownEnds names.now.nodes.now link.now) }
{
    let from = number_if(names.nodes, &link.from, place)?;
    let to = number_if(names.nodes, &link.to, place)?;
    let number = number(names.links, &link.name, place)?;
    Ok(Link {
        from,
        to,
        travel: link.travel,
        sat: link.sat,
        weight: link.weight,
        phase: phase_of(names.phase_links, number, to),
        yield_sat: sat_of(&link.yields),
        walk: link.walk,
    })
}

/// The greatest discharge of a link while one of those to which it gives way is busy; 0 where there is none.
fn sat_of(yields: &Option<DraftYield>) -> u32
    ensures { result ≡ yield_sat yields.now }
{
    match yields {
        Some(given) => given.sat,
        None => 0,
    }
}

/// The links to which a link gives way.
fn yields(
    alloc: Global,
    names: &Names,
    yields: &Option<DraftYield>,
    place: Place,
) -> Result<Vec<u32>, NetFault>
    ensures { Makes (λ numbers. numbers.items) result (each (number_of names.now) (yield_names yields.now))
        (λ at_fault. (at_fault ≡ place) × ¬ All (Contains names.now) (yield_names yields.now)) }
{
    match yields {
        Some(given) => numbers(alloc, names, given.links.as_slice(), place),
        None => Ok(Vec::new(alloc)),
    }
}

/// The first phase of the node that names the link; 0 where there is no node or no such phase.
fn phase_of(phase_links: &[Items<Items<u32>>], link: u32, to: Option<u32>) -> u8
    requires node { IfSome to (λ node. node < length phase_links.now) }
    requires phases { All (λ phases. length phases ≤ 4) phase_links.now }
    ensures { result ≡ spec.phase_of phase_links.now link to }
{
    match to {
        Some(node) => match phase_with(phase_links[node as usize].as_slice(), link) {
            Some(phase) => phase,
            None => 0,
        },
        None => 0,
    }
}

/// The turns of a link by numbers.
fn turns(
    alloc: Global,
    names: &Names,
    turns: &[DraftTurn],
    item: u32,
) -> Result<Vec<Turn>, NetFault>
    requires { length turns.now ≤ 16 }
    ensures { Makes (λ turns. turns.items) result (each (spec.turn_of names.now) turns.now)
        (λ place. (place.part ≡ Section.Turn) × (place.item ≡ item)
        × FromOne (IsFirstNot (IsKnownTurn names.now) turns.now) place.sub) }
{
    let mut numbered = Vec::new(alloc);
    for (index, turn) in turns.iter().enumerate() {
        let turn = turn_of(names, turn, place(Section::Turn, item, index as u32 + 1))?;
        numbered.push(turn)?;
    }
    Ok(numbered)
}

/// A turn by numbers.
#[tactic(auto, unfolding(net_parts::specs::Numbers::turn_of))]
fn turn_of(names: &Names, turn: &DraftTurn, place: Place) -> Result<Turn, NetFault>
    ensures { Makes (λ turn. turn) result (spec.turn_of names.now turn.now)
        (λ at_fault. (at_fault ≡ place) × ¬ IsKnownTurn names.now turn.now) }
{
    let exit = number(names, &turn.exit, place)?;
    Ok(Turn {
        exit,
        share: turn.share,
    })
}

/// The conflicts by numbers.
fn conflicts(
    alloc: Global,
    names: &Names,
    conflicts: &[DraftConflict],
) -> Result<Vec<(u32, u32)>, NetFault>
    requires { length conflicts.now ≤ most_conflicts }
    ensures { Makes (λ pairs. pairs.items) result (each (spec.conflict_of names.now) conflicts.now)
        (λ place. (place.part ≡ Section.Conflict) × (place.sub ≡ 0)
        × FromOne (IsFirstNot (IsKnownConflict names.now) conflicts.now) place.item) }
{
    let mut pairs = Vec::new(alloc);
    for (index, conflict) in conflicts.iter().enumerate() {
        let place = place(Section::Conflict, index as u32 + 1, 0);
        let pair = conflict_of(names, conflict, place)?;
        pairs.push(pair)?;
    }
    Ok(pairs)
}

/// A conflict by numbers.
#[tactic(auto, unfolding(net_parts::specs::Numbers::conflict_of))]
fn conflict_of(
    names: &Names,
    conflict: &DraftConflict,
    place: Place,
) -> Result<(u32, u32), NetFault>
    ensures { Makes (λ pair. pair) result (spec.conflict_of names.now conflict.now)
        (λ at_fault. (at_fault ≡ place) × ¬ IsKnownConflict names.now conflict.now) }
{
    let a = number(names, &conflict.a, place)?;
    let b = number(names, &conflict.b, place)?;
    Ok((a, b))
}

/// The plan of each node.
fn plans(alloc: Global, nodes: &[DraftNode]) -> Result<Vec<PhasePlan>, AllocError>
    requires { All IsBoundedNode nodes.now }
    ensures { IfOk result (λ plans. plans.items ≡ map spec.plan_of nodes.now) }
{
    let mut plans = Vec::new(alloc);
    for node in nodes {
        let plan = plan(alloc, node.phases.as_slice())?;
        plans.push(plan)?;
    }
    Ok(plans)
}

/// The plan of these phases.
fn plan(alloc: Global, phases: &[DraftPhase]) -> Result<PhasePlan, AllocError>
    requires some { 2 ≤ length phases.now }
    requires few { length phases.now ≤ 4 }
    requires ring { count_by (λ p. is_unmarked p.phase) phases.now ≢ 1 }
    requires bounds { All IsBoundedPhase phases.now }
    ensures { IfOk result (λ plan. plan ≡ map (λ p. p.phase) phases.now) }
{
    match PhasePlan::new_or_free(times(alloc, phases)?) {
        Ok(plan) => Ok(plan),
        Err(_) => unreachable!(),
    }
}

/// The times of these phases.
fn times(alloc: Global, phases: &[DraftPhase]) -> Result<Vec<Phase>, AllocError>
    ensures { IfOk result (λ times. times.items ≡ map (λ p. p.phase) phases.now) }
{
    phases.iter().map(|phase| phase.phase).collect(alloc)
}
