//! The tables of a network file as they stand: each with its keys and no other, each of its kind. The tables within a
//! table are not yet read.
ghost use Rattle.std.specs.Prelude.{◌≡◌, MatchOption, option_map, option_copied, map};
ghost use Rattle.toml.specs.{Data.as_table, View.view, View.table_view};
ghost use Rattle.net_tables.specs.Forms.{raw_yields};
ghost use Rattle.net_tables.specs.Parts as parts;
ghost use Rattle.net_tables.specs.Table as spec;

use crate::values::{
    array_at, flag_at, list_at, number_at, numbers_at, only, optional_list_at, optional_number_at,
    optional_numbers_at, optional_text_at, table_at, text_at, weight_at,
};
use net_parts::{Run, Walk};
use phase_plan::Phase;
use toml::{Table, Value};

/// The table of the whole file.
#[derive(Drop)]
pub(crate) struct TopForm<'a> {
    pub(crate) version: Option<u32>,
    pub(crate) run: &'a Table,
    pub(crate) nodes: &'a [Value],
    pub(crate) links: &'a [Value],
    pub(crate) conflicts: &'a [Value],
}

/// The own form of the whole file.
#[tactic(auto, unfolding(crate::specs::Table::top_form, crate::specs::Parts::top_keys))]
pub(crate) fn top_form(table: &Table) -> Option<TopForm>
    ensures { MatchOption result (spec.top_form (table_view table.now) ≡ None)
        (λ top. spec.top_form (table_view table.now) ≡ Some (record {
          version = top.version;
          run = table_view top.run.now;
          nodes = map view top.nodes.now;
          links = map view top.links.now;
          conflicts = map view top.conflicts.now;
        })) }
{
    top_fields(only_top_keys(table)?)
}

/// The table, where it has no key beside those of the whole file.
#[tactic(auto, unfolding(crate::specs::Parts::top_keys))]
fn only_top_keys(table: &Table) -> Option<&Table>
    ensures { option_map (λ table. table_view table.now) result ≡ spec.only parts.top_keys (table_view table.now) }
{
    only(table, &["run", "node", "link", "conflict", "version"])
}

/// What the whole file has at its keys.
#[tactic(auto, unfolding(crate::specs::Parts::top_fields))]
fn top_fields(table: &Table) -> Option<TopForm>
    ensures { MatchOption result (parts.top_fields (table_view table.now) ≡ None)
        (λ top. parts.top_fields (table_view table.now) ≡ Some (record {
          version = top.version;
          run = table_view top.run.now;
          nodes = map view top.nodes.now;
          links = map view top.links.now;
          conflicts = map view top.conflicts.now;
        })) }
{
    let version = optional_number_at(table, "version")?;
    let run = table_at(table, "run")?;
    let (nodes, links, conflicts) = top_lists(table)?;
    Some(TopForm {
        version,
        run,
        nodes,
        links,
        conflicts,
    })
}

/// The lists of the nodes, the links and the conflicts.
#[tactic(auto, unfolding(crate::specs::Parts::top_lists))]
fn top_lists(table: &Table) -> Option<(&[Value], &[Value], &[Value])>
    ensures { option_map (λ lists. (map view lists.0.now, map view lists.1.now, map view lists.2.now)) result
        ≡ parts.top_lists (table_view table.now) }
{
    let nodes = list_at(table, "node")?;
    let links = list_at(table, "link")?;
    let conflicts = optional_list_at(table, "conflict")?;
    Some((nodes, links, conflicts))
}

/// The run.
#[tactic(auto, unfolding(crate::specs::Table::run_of))]
pub(crate) fn run_of(table: &Table) -> Option<Run>
    ensures { result ≡ spec.run_of (table_view table.now) }
{
    run_fields(only_run_keys(table)?)
}

/// What a run has at its keys.
#[tactic(auto, unfolding(crate::specs::Parts::run_fields))]
fn run_fields(table: &Table) -> Option<Run>
    ensures { result ≡ parts.run_fields (table_view table.now) }
{
    let (step, look) = numbers_at(table, "step", "look")?;
    let (gap, rounds) = numbers_at(table, "gap", "rounds")?;
    let split = flag_at(table, "split", false)?;
    let (age, hold) = optional_numbers_at(table, "age", "hold")?;
    let (recall, act_step) = optional_numbers_at(table, "recall", "act_step")?;
    let rate = optional_number_at(table, "rate")?;
    Some(Run {
        step,
        look,
        gap,
        rounds,
        split,
        age,
        hold,
        recall,
        act_step,
        rate,
    })
}

/// The table, where it has no key beside those of a run.
#[tactic(auto, unfolding(crate::specs::Table::run_keys))]
fn only_run_keys(table: &Table) -> Option<&Table>
    ensures { option_map (λ table. table_view table.now) result ≡ spec.only spec.run_keys (table_view table.now) }
{
    let keys = [
        "step", "look", "gap", "rounds", "split", "age", "hold", "recall", "act_step", "rate",
    ];
    only(table, &keys)
}

/// The own form of a node: its name and its phases.
#[tactic(auto, unfolding(crate::specs::Table::node_form))]
pub(crate) fn node_form(value: &Value) -> Option<(&str, &[Value])>
    ensures { MatchOption result (spec.node_form (view value.now) ≡ None)
        (λ node. spec.node_form (view value.now) ≡ Some (record { name = node.0.now; phases = map view node.1.now })) }
{
    let table = only(value.as_table()?, &["name", "phase"])?;
    let name = text_at(table, "name")?;
    let phases = list_at(table, "phase")?;
    Some((name, phases))
}

/// A phase.
#[derive(Drop)]
pub(crate) struct PhaseForm<'a> {
    pub(crate) phase: Phase,
    pub(crate) links: &'a [Value],
    pub(crate) also: &'a [Value],
}

/// The own form of a phase in a file of this version: its times and mark, and the names of its links. In a file that says its
/// version the mark is there.
#[tactic(auto, unfolding(crate::specs::Table::phase_form))]
pub(crate) fn phase_form(value: &Value, version: Option<u32>) -> Option<PhaseForm>
    ensures { MatchOption result (spec.phase_form version (view value.now) ≡ None)
        (λ form. spec.phase_form version (view value.now) ≡ Some (record {
          phase = form.phase;
          links = map view form.links.now;
          also = map view form.also.now;
        })) }
{
    phase_fields(only_phase_keys(value.as_table()?, version)?, version)
}

/// What a phase has at its keys.
#[tactic(auto, unfolding(crate::specs::Parts::phase_fields))]
fn phase_fields(table: &Table, version: Option<u32>) -> Option<PhaseForm>
    ensures { MatchOption result (parts.phase_fields version (table_view table.now) ≡ None)
        (λ form. parts.phase_fields version (table_view table.now) ≡ Some (record {
          phase = form.phase;
          links = map view form.links.now;
          also = map view form.also.now;
        })) }
{
    let phase = phase_times(table, version)?;
    let links = list_at(table, "links")?;
    let also = optional_list_at(table, "also")?;
    Some(PhaseForm { phase, links, also })
}

/// The times and the mark of a phase.
#[tactic(auto, unfolding(crate::specs::Parts::phase_times))]
fn phase_times(table: &Table, version: Option<u32>) -> Option<Phase>
    ensures { result ≡ parts.phase_times version (table_view table.now) }
{
    let (least, greatest) = numbers_at(table, "least", "greatest")?;
    let (yellow, clear) = numbers_at(table, "yellow", "clear")?;
    let (loss, wait) = numbers_at(table, "loss", "wait")?;
    let skip = flag_at(table, "skip", version.is_some())?;
    Some(Phase {
        least,
        greatest,
        yellow,
        clear,
        loss,
        wait,
        skip,
    })
}

/// Whether a file of this version may name further greens of phases, yields and walks, and have free rings and the counts of a
/// great network.
pub(crate) fn is_third(version: Option<u32>) -> bool
    ensures { result ≡ spec.is_third version }
{
    match version {
        Some(version) => version == 3,
        None => false,
    }
}

/// The table, where it has no key beside those of a phase in a file of this version.
#[tactic(auto, unfolding(crate::specs::Table::phase_keys_in, crate::specs::Table::phase_keys))]
fn only_phase_keys(table: &Table, version: Option<u32>) -> Option<&Table>
    ensures { option_map (λ table. table_view table.now) result
        ≡ spec.only (spec.phase_keys_in version) (table_view table.now) }
{
    let keys = [
        "also", "least", "greatest", "yellow", "clear", "loss", "wait", "links", "skip",
    ];
    if is_third(version) {
        only(table, &keys)
    } else {
        only(table, &keys[1..])
    }
}

/// The links to which a link gives way, and its discharge then.
#[derive(Drop, Clone, Copy)]
pub(crate) struct YieldForm<'a> {
    pub(crate) links: &'a [Value],
    pub(crate) sat: u32,
}

/// A link.
#[derive(Drop)]
pub(crate) struct LinkForm<'a> {
    pub(crate) name: &'a str,
    pub(crate) from: Option<&'a str>,
    pub(crate) to: Option<&'a str>,
    pub(crate) travel: u32,
    pub(crate) sat: u32,
    pub(crate) weight: u32,
    pub(crate) yields: Option<YieldForm<'a>>,
    pub(crate) walk: Option<Walk>,
    pub(crate) turns: &'a [Value],
}

/// The own form of a link in a file of this version. In a file that says its version the weight is there.
#[tactic(auto, unfolding(crate::specs::Table::link_form))]
pub(crate) fn link_form(value: &Value, version: Option<u32>) -> Option<LinkForm>
    ensures { MatchOption result (spec.link_form version (view value.now) ≡ None)
        (λ link. spec.link_form version (view value.now) ≡ Some (record {
          name = link.name.now;
          from = option_copied link.from;
          to = option_copied link.to;
          travel = link.travel;
          sat = link.sat;
          weight = link.weight;
          yields = option_map raw_yields link.yields;
          walk = link.walk;
          turns = map view link.turns.now;
        })) }
{
    link_fields(only_link_keys(value.as_table()?, version)?, version)
}

/// What a link has at its keys.
#[tactic(auto, unfolding(crate::specs::Parts::link_fields))]
fn link_fields(table: &Table, version: Option<u32>) -> Option<LinkForm>
    ensures { MatchOption result (parts.link_fields version (table_view table.now) ≡ None)
        (λ link. parts.link_fields version (table_view table.now) ≡ Some (record {
          name = link.name.now;
          from = option_copied link.from;
          to = option_copied link.to;
          travel = link.travel;
          sat = link.sat;
          weight = link.weight;
          yields = option_map raw_yields link.yields;
          walk = link.walk;
          turns = map view link.turns.now;
        })) }
{
    let name = text_at(table, "name")?;
    let (travel, sat, weight) = link_numbers(table, version)?;
    let (from, to) = link_ends(table)?;
    let yields = yields_at(table)?;
    let walk = walk_at(table)?;
    let turns = optional_list_at(table, "turn")?;
    Some(LinkForm {
        name,
        from,
        to,
        travel,
        sat,
        weight,
        yields,
        walk,
        turns,
    })
}

/// The travel time, the saturation and the weight of a link.
#[tactic(auto, unfolding(crate::specs::Parts::link_numbers))]
fn link_numbers(table: &Table, version: Option<u32>) -> Option<(u32, u32, u32)>
    ensures { result ≡ parts.link_numbers version (table_view table.now) }
{
    let (travel, sat) = numbers_at(table, "travel", "sat")?;
    let weight = weight_at(table, "weight", version.is_some())?;
    Some((travel, sat, weight))
}

/// The names of the nodes that a link comes from and ends at.
#[tactic(auto, unfolding(crate::specs::Parts::link_ends))]
fn link_ends(table: &Table) -> Option<(Option<&str>, Option<&str>)>
    ensures { option_map (λ ends. (option_copied ends.0, option_copied ends.1)) result
        ≡ parts.link_ends (table_view table.now) }
{
    let from = optional_text_at(table, "from")?;
    let to = optional_text_at(table, "to")?;
    Some((from, to))
}

/// The links to which a link gives way, and its discharge then; both keys are there or neither.
#[tactic(auto, unfolding(crate::specs::Table::yields_at))]
fn yields_at(table: &Table) -> Option<Option<YieldForm>>
    ensures { option_map (λ found. option_map raw_yields found) result ≡ spec.yields_at (table_view table.now) }
{
    let links = array_at(table, "yields")?;
    let sat = optional_number_at(table, "yield_sat")?;
    match (links, sat) {
        (Some(links), Some(sat)) => Some(Some(YieldForm { links, sat })),
        (None, None) => Some(None),
        _ => None,
    }
}

/// The walk of a link; both keys are there or neither.
#[tactic(auto, unfolding(crate::specs::Table::walk_at))]
fn walk_at(table: &Table) -> Option<Option<Walk>>
    ensures { result ≡ spec.walk_at (table_view table.now) }
{
    let seconds = optional_number_at(table, "walk")?;
    let cross = optional_number_at(table, "cross")?;
    match (seconds, cross) {
        (Some(seconds), Some(cross)) => Some(Some(Walk { seconds, cross })),
        (None, None) => Some(None),
        _ => None,
    }
}

/// The table, where it has no key beside those of a link in a file of this version.
#[tactic(auto, unfolding(crate::specs::Table::link_keys_in, crate::specs::Table::link_keys))]
fn only_link_keys(table: &Table, version: Option<u32>) -> Option<&Table>
    ensures { option_map (λ table. table_view table.now) result
        ≡ spec.only (spec.link_keys_in version) (table_view table.now) }
{
    let keys = [
        "yields",
        "yield_sat",
        "walk",
        "cross",
        "name",
        "from",
        "to",
        "travel",
        "sat",
        "weight",
        "turn",
    ];
    if is_third(version) {
        only(table, &keys)
    } else {
        only(table, &keys[4..])
    }
}

/// The own form of a turn: the name of its exit, and its share.
#[tactic(auto, unfolding(crate::specs::Table::turn_of))]
pub(crate) fn turn_form(value: &Value) -> Option<(&str, u32)>
    ensures { MatchOption result (spec.turn_of (view value.now) ≡ None)
        (λ turn. spec.turn_of (view value.now) ≡ Some (record { exit = turn.0.now; share = turn.1 })) }
{
    let table = only(value.as_table()?, &["exit", "share"])?;
    let exit = text_at(table, "exit")?;
    let share = number_at(table, "share")?;
    Some((exit, share))
}

/// The own form of a conflict: the names of its links.
#[tactic(auto, unfolding(crate::specs::Table::conflict_of))]
pub(crate) fn conflict_form(value: &Value) -> Option<(&str, &str)>
    ensures { MatchOption result (spec.conflict_of (view value.now) ≡ None)
        (λ pair. spec.conflict_of (view value.now) ≡ Some (record { a = pair.0.now; b = pair.1.now })) }
{
    let table = only(value.as_table()?, &["a", "b"])?;
    let a = text_at(table, "a")?;
    let b = text_at(table, "b")?;
    Some((a, b))
}
