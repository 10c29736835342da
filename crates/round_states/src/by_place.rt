//! What the records of a state say: a list for each node or link, in the order of the records.
ghost use Rattle.std.specs.Prelude.{◌≡◌, [], IfOk, OnOk, length, map, slice_index_or};
ghost use Rattle.std.specs.List.{range_with_len};
ghost use Rattle.round_states.specs.Readers.{IsByPlace, HasAllSaid, lists_of, with_said};

use crate::entries::{Entry, Queue, StateRecord};
use board_model::Row;
use control_flow::greens::Green;
use road_net::Network;
use std::alloc::{AllocError, Global};

/// What records say of each node and link.
#[derive(Drop)]
pub(crate) struct ByPlace {
    /// The greens of each node.
    pub greens: Vec<Vec<Green>>,
    /// The queues of each link.
    pub queues: Vec<Vec<Queue>>,
    /// What comes on each link.
    pub coming: Vec<Vec<Row>>,
    /// The versions of each link.
    pub versions: Vec<Vec<u32>>,
    /// The rows of the forecast of each link.
    pub rows: Vec<Vec<Row>>,
}

/// A kind of records that say something of a node or link.
trait RecordKind {
    ghost use Rattle.std.specs.Prelude.{◌≡◌, Option};
    ghost use Rattle.round_states.specs.declared.entries.StateRecord as spec;

    /// What such a record says.
    type Value: Copy + Drop;

    /// What a record says, where it is one of this kind.
    ghost value_of: { spec.StateRecord → Option Self.Value };

    /// What a record says, where it is one of this kind.
    fn value(content: &StateRecord) -> Option<Self::Value>
        ensures { result ≡ value_of content.now };
}

/// What these records say of each node and link of a network. `Err`: out of memory.
pub(crate) fn sort_entries(
    alloc: Global,
    net: &Network,
    entries: &[Entry],
) -> Result<ByPlace, AllocError>
    ensures { IfOk result (IsByPlace net.now entries.now) }
{
    let greens = all_said::<Greens>(alloc, entries, net.nodes())?;
    let queues = all_said::<Queues>(alloc, entries, net.links())?;
    let coming = all_said::<Coming>(alloc, entries, net.links())?;
    let versions = all_said::<Versions>(alloc, entries, net.links())?;
    let rows = all_said::<Rows>(alloc, entries, net.links())?;
    Ok(ByPlace {
        greens,
        queues,
        coming,
        versions,
        rows,
    })
}

/// The list of a place; an empty one past the last place.
pub(crate) fn list_of<T>(lists: &[Vec<T>], place: u32) -> &[T]
    ensures { result.now ≡ slice_index_or (lists_of lists.now) place [] }
{
    match lists.get(place as usize) {
        Some(list) => list.as_slice(),
        None => &[],
    }
}

/// What the records of a kind say of each of this number of places. `Err`: out of memory.
fn all_said<K: RecordKind>(
    alloc: Global,
    entries: &[Entry],
    places: u32,
) -> Result<Vec<Vec<K::Value>>, AllocError>
    ensures { IfOk result (λ all. HasAllSaid K.value_of entries.now places all.items) }
{
    let mut all = no_lists(alloc, places)?;
    for entry in entries {
        keep(&mut all, entry.place, K::value(&entry.content))?;
    }
    Ok(all)
}

/// An empty list for each of this number of places. `Err`: out of memory.
fn no_lists<T: Drop>(alloc: Global, count: u32) -> Result<Vec<Vec<T>>, AllocError>
    ensures { IfOk result (λ all. lists_of all.items ≡ map (λ place. []) (range_with_len 0 count)) }
{
    let mut all = Vec::with_capacity(alloc, count as usize)?;
    for _place in 0..count {
        all.push(Vec::new(alloc))?;
    }
    Ok(all)
}

/// Appends to the list of a place what is said, if something is, and if there is one. `Err`: out of memory.
fn keep<T: Copy>(all: &mut Vec<Vec<T>>, place: u32, content: Option<T>) -> Result<(), AllocError>
    ensures { OnOk result (lists_of all.new.items ≡ with_said place content (lists_of all.old.items)) }
{
    let place = place as usize;
    let Some(value) = content else {
        return Ok(());
    };
    if place >= all.len() {
        return Ok(());
    }
    all[place].push(value)?;
    Ok(())
}

/// The greens of nodes.
struct Greens;

impl RecordKind for Greens {
    ghost use Rattle.round_states.specs.Texts.{green_said};

    type Value = Green;

    ghost value_of = { green_said };

    fn value(content: &StateRecord) -> Option<Green> {
        match content {
            StateRecord::Green(green) => Some(*green),
            _ => None,
        }
    }
}

/// The queues of links.
struct Queues;

impl RecordKind for Queues {
    ghost use Rattle.round_states.specs.Texts.{queue_said};

    type Value = Queue;

    ghost value_of = { queue_said };

    fn value(content: &StateRecord) -> Option<Queue> {
        match content {
            StateRecord::Queue(queue) => Some(*queue),
            _ => None,
        }
    }
}

/// What comes on links.
struct Coming;

impl RecordKind for Coming {
    ghost use Rattle.round_states.specs.Texts.{coming_said};

    type Value = Row;

    ghost value_of = { coming_said };

    fn value(content: &StateRecord) -> Option<Row> {
        match content {
            StateRecord::Coming(row) => Some(*row),
            _ => None,
        }
    }
}

/// The versions of links.
struct Versions;

impl RecordKind for Versions {
    ghost use Rattle.round_states.specs.Texts.{version_said};

    type Value = u32;

    ghost value_of = { version_said };

    fn value(content: &StateRecord) -> Option<u32> {
        match content {
            StateRecord::Version(version) => Some(*version),
            _ => None,
        }
    }
}

/// The rows of forecasts of links.
struct Rows;

impl RecordKind for Rows {
    ghost use Rattle.round_states.specs.Texts.{row_said};

    type Value = Row;

    ghost value_of = { row_said };

    fn value(content: &StateRecord) -> Option<Row> {
        match content {
            StateRecord::Row(row) => Some(*row),
            _ => None,
        }
    }
}
