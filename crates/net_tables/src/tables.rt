//! How the draft is read from the table of a network file.
ghost use Rattle.std.specs.Prelude.{◌≡◌, ◌↔◌, ℕ, IsTrue, Option, option_map, option_copied, IfOk, IfErr, map};
ghost use Rattle.toml.specs.{Data.Data, Data.as_str, View.view, View.table_view};
ghost use Rattle.foundation.specs.Options.{each};
ghost use Rattle.net_parts.specs.declared.faults.Place.{Place};
ghost use Rattle.net_tables.specs.{Faults.Misses, Faults.Blames, FirstShape.IsShapeFault, FirstShape.ordinal, Forms.raw_yields, Reading.IsFaultAmong, Reading.IsNodeAtFault, Reading.IsPhaseAtFault, Reading.IsLinkAtFault};
ghost use Rattle.net_tables.specs.{Reading.IsTurnAtFault, Reading.IsConflictAtFault, Table.HasKnownVersion};
ghost use Rattle.net_tables.specs.Table as spec;

use crate::forms::{
    YieldForm, conflict_form, is_third, link_form, node_form, phase_form, run_of, top_form,
    turn_form,
};
use foundation::items::Items;
use foundation::text::Text;
use net_parts::{
    Draft, DraftConflict, DraftLink, DraftNode, DraftPhase, DraftTurn, DraftYield, NetFault, Place,
    Section,
};
use std::alloc::{AllocError, Global};
use toml::{Table, Value};

/// The draft that a network file's table stands for, as docs/FORMATS.md, "Network file", says.
///
/// The fault is `NoMemory`, or `Shape` of the first table, in the order of "Places and faults" there, that
/// lacks a key, has a further key or one of the wrong kind, or is no table. The bounds of the draft are not
/// tested here: a whole number that is no u32 is read as the greatest u32, which is out of every bound.
#[tactic(auto, unfolding(crate::specs::Table::draft_of))]
pub fn read_draft(alloc: Global, table: &Table) -> Result<Draft, NetFault>
    ensures ok { IfOk result (λ draft. spec.draft_of (table_view table.now) ≡ Some draft) }
    ensures refused { IfErr result (λ fault. Misses fault (spec.draft_of (table_view table.now) ≡ None)) }
    ensures first { IfErr result (λ fault. Blames fault (λ place.
        IsShapeFault (table_view table.now) place.part place.item place.sub)) }
{
    let Some(top) = top_form(table) else {
        return Err(shape(Section::Top, 0, 0));
    };
    let Some(run) = run_of(top.run) else {
        return Err(shape(Section::Run, 0, 0));
    };
    let nodes = read_all(alloc, top.nodes, 0, top.version)?;
    let links = read_all(alloc, top.links, 0, top.version)?;
    let conflicts = read_all(alloc, top.conflicts, 0, top.version)?;
    Ok(Draft {
        run,
        nodes: Items::from_vec(nodes),
        links: Items::from_vec(links),
        conflicts: Items::from_vec(conflicts),
        great: is_third(top.version),
    })
}

/// Whether the table of a network file has no version, or one that is known. One whose own form is at fault has none.
///
/// docs/FORMATS.md, "Network file".
pub fn has_known_version(table: &Table) -> bool
    ensures { IsTrue result ↔ HasKnownVersion (table_view table.now) }
{
    match top_form(table) {
        Some(top) => top.version.is_none_or(|version| (2..=3).contains(&version)),
        None => true,
    }
}

/// The fault `Shape` at this place.
fn shape(part: Section, item: u32, sub: u32) -> NetFault
    ensures { result ≡ NetFault.Shape (record { part = part; item = item; sub = sub }) }
{
    NetFault::Shape(Place { part, item, sub })
}

/// Which table of an array is read, and in which file.
#[derive(Clone, Copy)]
struct Spot {
    /// The item of the node or link with the array; 0 where the array is in the table of the whole file.
    item: u32,
    /// The number of the table in the array, from 1.
    number: u32,
    /// The version that the file says.
    version: Option<u32>,
}

/// A table that is in an array of the file.
trait Element: Sized + Drop {
    /// What the table stands for, in a file of this version.
    ghost reading: { Option ℕ → Data → Option Self };

    /// Where the table that is not read is at fault, in such a file: in the table of an item, with its number, at a
    /// place.
    ghost at_fault: { Option ℕ → ℕ → ℕ → Data → Place → Type 0 };

    /// Reads a table.
    fn read(alloc: Global, value: &Value, spot: Spot) -> Result<Self, NetFault>
        ensures ok { IfOk result (λ element. reading spot.version (view value.now) ≡ Some element) }
        ensures first { IfErr result (λ fault. Blames fault
            (at_fault spot.version spot.item spot.number (view value.now))) };
}

/// The elements of an array, in order, in the table of this item.
fn read_all<T: Element>(
    alloc: Global,
    values: &[Value],
    item: u32,
    version: Option<u32>,
) -> Result<Vec<T>, NetFault>
    ensures ok { IfOk result (λ all. each (T.reading version) (map view values.now) ≡ Some all.items) }
    ensures first { IfErr result (λ fault. Blames fault
        (IsFaultAmong (T.reading version) (T.at_fault version) item (map view values.now))) }
{
    let mut all = Vec::new(alloc);
    for (index, value) in values.iter().enumerate() {
        let spot = Spot {
            item,
            number: ordinal(index),
            version,
        };
        let element = T::read(alloc, value, spot)?;
        all.push(element)?;
    }
    Ok(all)
}

/// The number of the element at this index, counted from 1; one past the greatest u32 stands as that one.
fn ordinal(index: usize) -> u32
    ensures { result ≡ ordinal index }
{
    u32::try_from(index).unwrap_or(u32::MAX).saturating_add(1)
}

impl Element for DraftNode {
    ghost reading = { spec.node_of };

    ghost at_fault = { IsNodeAtFault };

    #[tactic(auto, unfolding(crate::specs::Table::node_of))]
    fn read(alloc: Global, value: &Value, spot: Spot) -> Result<DraftNode, NetFault> {
        let Some((name, phases)) = node_form(value) else {
            return Err(shape(Section::Node, spot.number, 0));
        };
        let phases = read_all(alloc, phases, spot.number, spot.version)?;
        let name = copy_text(alloc, name)?;
        Ok(DraftNode {
            name,
            phases: Items::from_vec(phases),
            free_ring: is_third(spot.version),
        })
    }
}

impl Element for DraftPhase {
    ghost reading = { spec.phase_of };

    ghost at_fault = { IsPhaseAtFault };

    #[tactic(auto, unfolding(crate::specs::Table::phase_of))]
    fn read(alloc: Global, value: &Value, spot: Spot) -> Result<DraftPhase, NetFault> {
        let Some(form) = phase_form(value, spot.version) else {
            return Err(shape(Section::Phase, spot.item, spot.number));
        };
        let Some(links) = texts_of(alloc, form.links)? else {
            return Err(shape(Section::Phase, spot.item, spot.number));
        };
        let Some(also) = texts_of(alloc, form.also)? else {
            return Err(shape(Section::Phase, spot.item, spot.number));
        };
        Ok(DraftPhase {
            phase: form.phase,
            links: Items::from_vec(links),
            also: Items::from_vec(also),
        })
    }
}

impl Element for DraftLink {
    ghost reading = { spec.link_of };

    ghost at_fault = { IsLinkAtFault };

    #[tactic(auto, unfolding(crate::specs::Table::link_of, crate::specs::Table::link_own))]
    fn read(alloc: Global, value: &Value, spot: Spot) -> Result<DraftLink, NetFault> {
        let Some(link) = link_form(value, spot.version) else {
            return Err(shape(Section::Link, spot.number, 0));
        };
        let Some(yields) = yields_of(alloc, link.yields)? else {
            return Err(shape(Section::Link, spot.number, 0));
        };
        let turns = read_all(alloc, link.turns, spot.number, spot.version)?;
        Ok(DraftLink {
            name: copy_text(alloc, link.name)?,
            from: copy_optional_text(alloc, link.from)?,
            to: copy_optional_text(alloc, link.to)?,
            travel: link.travel,
            sat: link.sat,
            weight: link.weight,
            yields,
            walk: link.walk,
            turns: Items::from_vec(turns),
        })
    }
}

impl Element for DraftTurn {
    ghost reading = { λ _. spec.turn_of };

    ghost at_fault = { IsTurnAtFault };

    fn read(alloc: Global, value: &Value, spot: Spot) -> Result<DraftTurn, NetFault> {
        let Some((exit, share)) = turn_form(value) else {
            return Err(shape(Section::Turn, spot.item, spot.number));
        };
        let exit = copy_text(alloc, exit)?;
        Ok(DraftTurn { exit, share })
    }
}

impl Element for DraftConflict {
    ghost reading = { λ _. spec.conflict_of };

    ghost at_fault = { IsConflictAtFault };

    fn read(alloc: Global, value: &Value, spot: Spot) -> Result<DraftConflict, NetFault> {
        let Some((a, b)) = conflict_form(value) else {
            return Err(shape(Section::Conflict, spot.number, 0));
        };
        let a = copy_text(alloc, a)?;
        let b = copy_text(alloc, b)?;
        Ok(DraftConflict { a, b })
    }
}

/// The names of the links to which a link gives way, where each is a text, and its discharge then.
fn yields_of(
    alloc: Global,
    given: Option<YieldForm>,
) -> Result<Option<Option<DraftYield>>, AllocError>
    ensures { IfOk result (λ yields. yields ≡ spec.yield_of (option_map raw_yields given.entry)) }
{
    let Some(given) = given else {
        return Ok(Some(None));
    };
    let Some(links) = texts_of(alloc, given.links)? else {
        return Ok(None);
    };
    Ok(Some(Some(DraftYield {
        links: Items::from_vec(links),
        sat: given.sat,
    })))
}

/// The texts of an array, in order, where each element is one.
fn texts_of(alloc: Global, values: &[Value]) -> Result<Option<Vec<Text>>, AllocError>
    ensures { IfOk result (λ texts. option_map (λ list. list.items) texts ≡ each as_str (map view values.now)) }
{
    let mut texts = Vec::new(alloc);
    for value in values {
        let Some(text) = value.as_str() else {
            return Ok(None);
        };
        texts.push(copy_text(alloc, text)?)?;
    }
    Ok(Some(texts))
}

/// A copy of the text.
fn copy_text(alloc: Global, text: &str) -> Result<Text, AllocError>
    ensures { IfOk result (λ copy. copy ≡ text.now) }
{
    Ok(Text::from_string(String::from_str(alloc, text)?))
}

/// A copy of the text, where there is one.
fn copy_optional_text(alloc: Global, text: Option<&str>) -> Result<Option<Text>, AllocError>
    ensures { IfOk result (λ copy. copy ≡ option_copied text.entry) }
{
    match text {
        Some(text) => Ok(Some(copy_text(alloc, text)?)),
        None => Ok(None),
    }
}
