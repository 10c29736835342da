//! The draft of a network by numbers: names stand for its numbers again.
ghost use Rattle.std.specs.Prelude.{◌≡◌, ◌<◌, IfOk, IfSome, All, length, map, option_map};
ghost use Rattle.std.specs.List.{range_with_len};
ghost use Rattle.net_parts.specs.{Numbers.Net, Outline.IsOutline, Outline.link_at, Outline.plan_at, Outline.phases_at, Outline.also_at, Parts.net_of};
ghost use Rattle.net_file.specs.ByNames as spec;
ghost use Rattle.net_file.specs.ByNames.{name_in, AreNumbers};

use foundation::items::Items;
use foundation::text::Text;
use net_parts::{
    Draft, DraftConflict, DraftLink, DraftNode, DraftPhase, DraftTurn, DraftYield, Names, Parts,
    Turn,
};
use phase_plan::Phase;
use std::alloc::{AllocError, Global};

/// The draft that has the names of the network for its numbers, and every mark and weight, in a file of version 3 or of another
/// one. `Err`: out of memory.
#[tactic(auto, unfolding(crate::specs::ByNames::draft_by_names))]
pub(crate) fn draft_by_names(alloc: Global, parts: &Parts, third: bool) -> Result<Draft, AllocError>
    requires { IsOutline (net_of parts.now) }
    ensures { IfOk result (λ draft. draft ≡ spec.draft_by_names (net_of parts.now) third) }
{
    let nodes = nodes_by_names(alloc, parts, third)?;
    let links = links_by_names(alloc, parts)?;
    let conflicts = conflicts_by_names(alloc, &parts.link_names, parts.conflicts.as_slice())?;
    Ok(Draft {
        run: parts.run,
        nodes: Items::from_vec(nodes),
        links: Items::from_vec(links),
        conflicts: Items::from_vec(conflicts),
        great: third,
    })
}

/// The nodes, in order.
fn nodes_by_names(alloc: Global, parts: &Parts, third: bool) -> Result<Vec<DraftNode>, AllocError>
    requires { IsOutline (net_of parts.now) }
    ensures { IfOk result (λ nodes. nodes.items
        ≡ map (spec.node_by_names (net_of parts.now) third) (range_with_len 0 (length parts.now.node_names))) }
{
    let mut nodes = Vec::new(alloc);
    for n in 0..parts.node_names.len() {
        nodes.push(node_by_names(alloc, parts, third, n)?)?;
    }
    Ok(nodes)
}

/// A node.
#[tactic(auto, unfolding(crate::specs::ByNames::node_by_names))]
fn node_by_names(alloc: Global, parts: &Parts, third: bool, n: u32) -> Result<DraftNode, AllocError>
    requires outline { IsOutline (net_of parts.now) }
    requires node { n < length parts.now.node_names }
    ensures { IfOk result (λ node. node ≡ spec.node_by_names (net_of parts.now) third n) }
{
    let plan = parts.plans[n as usize].phases();
    let lists = parts.phase_links[n as usize].as_slice();
    let also = parts.also_links[n as usize].as_slice();
    let phases = phases_by_names(alloc, &parts.link_names, plan, lists, also)?;
    let name = name_of(alloc, &parts.node_names, n)?;
    Ok(DraftNode {
        name,
        phases: Items::from_vec(phases),
        free_ring: third,
    })
}

/// The phases of a plan, with the names of the links of each.
fn phases_by_names(
    alloc: Global,
    names: &Names,
    plan: &[Phase],
    lists: &[Items<u32>],
    also: &[Items<u32>],
) -> Result<Vec<DraftPhase>, AllocError>
    requires count { length lists.now ≡ length plan.now }
    requires also_count { length also.now ≡ length plan.now }
    requires links { All (AreNumbers names.now) lists.now }
    requires also { All (AreNumbers names.now) also.now }
    ensures { IfOk result (λ phases. phases.items
        ≡ map (spec.phase_by_names names.now plan.now lists.now also.now) (range_with_len 0 (length plan.now))) }
{
    let mut phases = Vec::new(alloc);
    for (k, phase) in plan.iter().enumerate() {
        let links = names_of(alloc, names, lists[k].as_slice())?;
        let further = names_of(alloc, names, also[k].as_slice())?;
        phases.push(DraftPhase {
            phase: *phase,
            links: Items::from_vec(links),
            also: Items::from_vec(further),
        })?;
    }
    Ok(phases)
}

/// The links with their turns, in order.
fn links_by_names(alloc: Global, parts: &Parts) -> Result<Vec<DraftLink>, AllocError>
    requires { IsOutline (net_of parts.now) }
    ensures { IfOk result (λ links. links.items
        ≡ map (spec.link_by_names (net_of parts.now)) (range_with_len 0 (length parts.now.link_names))) }
{
    let mut links = Vec::new(alloc);
    for l in 0..parts.link_names.len() {
        links.push(link_by_names(alloc, parts, l)?)?;
    }
    Ok(links)
}

/// A link with its turns.
#[tactic(auto, unfolding(crate::specs::ByNames::link_by_names))]
fn link_by_names(alloc: Global, parts: &Parts, l: u32) -> Result<DraftLink, AllocError>
    requires outline { IsOutline (net_of parts.now) }
    requires link { l < length parts.now.link_names }
    ensures { IfOk result (λ link. link ≡ spec.link_by_names (net_of parts.now) l) }
{
    let link = parts.links[l as usize];
    let turns = parts.turns[l as usize].as_slice();
    let yields = parts.yields[l as usize].as_slice();
    Ok(DraftLink {
        name: name_of(alloc, &parts.link_names, l)?,
        from: name_if(alloc, &parts.node_names, link.from)?,
        to: name_if(alloc, &parts.node_names, link.to)?,
        travel: link.travel,
        sat: link.sat,
        weight: link.weight,
        yields: yield_by_names(alloc, &parts.link_names, yields, link.yield_sat)?,
        walk: link.walk,
        turns: Items::from_vec(turns_by_names(alloc, &parts.link_names, turns)?),
    })
}

/// The links to which a link gives way, where there are any, and its discharge then.
fn yield_by_names(
    alloc: Global,
    names: &Names,
    yields: &[u32],
    sat: u32,
) -> Result<Option<DraftYield>, AllocError>
    requires { AreNumbers names.now yields.now }
    ensures { IfOk result (λ given. given ≡ spec.yield_by_names names.now yields.now sat) }
{
    if yields.is_empty() {
        return Ok(None);
    }
    let links = Items::from_vec(names_of(alloc, names, yields)?);
    Ok(Some(DraftYield { links, sat }))
}

/// The turns of a link.
fn turns_by_names(
    alloc: Global,
    names: &Names,
    turns: &[Turn],
) -> Result<Vec<DraftTurn>, AllocError>
    requires { All (λ turn. turn.exit < length names.now) turns.now }
    ensures { IfOk result (λ drafts. drafts.items ≡ map (spec.turn_by_names names.now) turns.now) }
{
    let mut drafts = Vec::new(alloc);
    for turn in turns {
        let exit = name_of(alloc, names, turn.exit)?;
        drafts.push(DraftTurn {
            exit,
            share: turn.share,
        })?;
    }
    Ok(drafts)
}

/// The conflicts, in order.
fn conflicts_by_names(
    alloc: Global,
    names: &Names,
    conflicts: &[(u32, u32)],
) -> Result<Vec<DraftConflict>, AllocError>
    requires { All (λ pair. (pair.0 < length names.now) × (pair.1 < length names.now)) conflicts.now }
    ensures { IfOk result (λ drafts. drafts.items ≡ map (spec.conflict_by_names names.now) conflicts.now) }
{
    let mut drafts = Vec::new(alloc);
    for conflict in conflicts {
        let a = name_of(alloc, names, conflict.0)?;
        let b = name_of(alloc, names, conflict.1)?;
        drafts.push(DraftConflict { a, b })?;
    }
    Ok(drafts)
}

/// The names of these numbers, in order.
fn names_of(alloc: Global, names: &Names, numbers: &[u32]) -> Result<Vec<Text>, AllocError>
    requires { AreNumbers names.now numbers.now }
    ensures { IfOk result (λ texts. texts.items ≡ map (name_in names.now) numbers.now) }
{
    let mut texts = Vec::new(alloc);
    for number in numbers {
        texts.push(name_of(alloc, names, *number)?)?;
    }
    Ok(texts)
}

/// The name of a number, copied.
fn name_of(alloc: Global, names: &Names, number: u32) -> Result<Text, AllocError>
    requires { number < length names.now }
    ensures { IfOk result (λ text. text ≡ name_in names.now number) }
{
    Ok(Text::from_string(String::from_str(alloc, names.name(number))?))
}

/// The same, where there is a number.
fn name_if(alloc: Global, names: &Names, number: Option<u32>) -> Result<Option<Text>, AllocError>
    requires { IfSome number (λ number. number < length names.now) }
    ensures { IfOk result (λ text. text ≡ option_map (name_in names.now) number) }
{
    match number {
        Some(number) => Ok(Some(name_of(alloc, names, number)?)),
        None => Ok(None),
    }
}
