//! The text of a state.
ghost use Rattle.std.specs.Prelude.{◌≡◌, ◌≢◌, ◌↔◌, ◌<◌, ◌^◌, ◌++◌, ℕ, List, [], IfErr, IfOk, IsTrue, length};
ghost use Rattle.csv.specs.Records.{fields_of};
ghost use Rattle.road_net.specs.Network.{IsNetwork};
ghost use Rattle.round_states.specs.Faults.{IsEntryFault, IsTextFault};
ghost use Rattle.round_states.specs.Order.{AreInOrder};
ghost use Rattle.round_states.specs.States.{IsStateOf};
ghost use Rattle.round_states.specs.NextTexts.{AreKept, AreOfAnswer, IsStateTextWith, IsTextFaultWith};
ghost use Rattle.round_states.specs.Readers.{Adds, IsByPlace, IsFaultWith, Reads};
ghost use Rattle.round_states.specs.Texts.{IsStateText, TellState};
ghost use Rattle.round_states.specs.declared.states.RoundState as spec;

use crate::asked::Asked;
use crate::boards::boards;
use crate::by_place::{ByPlace, sort_entries};
use crate::entries::{Entry, place_of};
use crate::faults::StateFault;
use crate::fields::read_said;
use crate::kept_records::KeptRecords;
use crate::limits::check_limits;
use crate::lines::lines;
use crate::order::{fits_after, round_of};
use crate::senses::{check_senses, senses};
use crate::states::RoundState;
use csv::ByteRecord;
use foundation::items::Items;
use record_text::{RecordTaker, is_record, take_records};
use road_net::{Network, law_of_network};
use std::alloc::Global;

/// The state that a text tells for these nodes, by the names of a network. A round of the network begins in it, or some nodes
/// have had their turns. The text has fewer than 2^32 bytes.
///
/// The fault is `NoMemory`; or `Header`, where the text does not begin with the header; or that of the first row at
/// fault, within a row in the order `Row`, `Name`, `Time`; or else the first of `Sense`, `Board`, `Line`, `Sum`, `Stood`, `Late`
/// and `Told`, at the least link or node.
///
/// docs/FORMATS.md, "State of a round".
pub fn read_state(
    alloc: Global,
    bytes: &[u8],
    net: &Network,
    asked: Asked,
) -> Result<RoundState, StateFault>
    requires { length bytes.now < 2 ^ 32 }
    ensures ok { IfOk result (IsStateText net.now asked bytes.now) }
    ensures state { IfOk result (IsStateOf net.now asked) }
    ensures refused { IfErr result (λ fault. fault ≢ StateFault.NoMemory
        → (state : spec.RoundState) → ¬ IsStateText net.now asked bytes.now state) }
    ensures first { IfErr result (IsTextFault net.now asked bytes.now) }
{
    let none = KeptRecords::none(alloc);
    read_state_with(alloc, bytes, net, asked, &none)
}

/// The state that a text tells for these nodes where what an answer told comes after its records. The text has fewer than 2^32 bytes.
///
/// The fault is as that of `read_state`, of all records, one after another: so where the text has none after the header, the first that
/// was told has the fault `Time`, as it does not say when the round begins.
///
/// docs/FORMATS.md, "Serving".
pub fn read_state_with(
    alloc: Global,
    bytes: &[u8],
    net: &Network,
    asked: Asked,
    kept: &KeptRecords,
) -> Result<RoundState, StateFault>
    requires few { length bytes.now < 2 ^ 32 }
    requires kept { AreOfAnswer kept.now }
    ensures ok { (told : List (List (List ℕ))) → AreKept net.now told kept.now
        → IfOk result (IsStateTextWith net.now asked told bytes.now) }
    ensures state { IfOk result (IsStateOf net.now asked) }
    ensures refused { (told : List (List (List ℕ))) → AreKept net.now told kept.now
        → IfErr result (λ fault. fault ≢ StateFault.NoMemory
        → (state : spec.RoundState) → ¬ IsStateTextWith net.now asked told bytes.now state) }
    ensures first { (told : List (List (List ℕ))) → AreKept net.now told kept.now
        → IfErr result (IsTextFaultWith net.now asked told bytes.now) }
{
    let mut taker = StateReader::none(alloc, net);
    match take_records(alloc, bytes, net, &mut taker) {
        Ok(true) => state_with(alloc, net, asked, taker.all, kept),
        Ok(false) => Err(StateFault::Header),
        Err(fault) => Err(fault),
    }
}

/// The state that these records tell, which stand in order, and then those that are kept.
fn state_with(
    alloc: Global,
    net: &Network,
    asked: Asked,
    entries: Vec<Entry>,
    kept: &KeptRecords,
) -> Result<RoundState, StateFault>
    requires network { IsNetwork net.now }
    requires order { AreInOrder net.now entries.items }
    requires kept { AreOfAnswer kept.now }
    ensures ok { IfOk result (TellState net.now asked (entries.items ++ kept.now.all.items)) }
    ensures first { IfErr result (IsFaultWith net.now asked entries.items kept.now.all.items) }
{
    if begins_with_told(entries.as_slice(), kept.all.as_slice()) {
        return Err(StateFault::Time(1));
    }
    let mut all = entries;
    all.extend_from_slice(kept.all.as_slice())?;
    state_of(alloc, net, asked, all.as_slice())
}

/// Whether the first record is one that was told.
fn begins_with_told(entries: &[Entry], told: &[Entry]) -> bool
    ensures { IsTrue result ↔ ((entries.now ≡ []) × (0 < length told.now)) }
{
    entries.is_empty() && !told.is_empty()
}

/// The state that these records tell, which stand in order.
fn state_of(
    alloc: Global,
    net: &Network,
    asked: Asked,
    entries: &[Entry],
) -> Result<RoundState, StateFault>
    requires network { IsNetwork net.now }
    requires order { AreInOrder net.now entries.now }
    ensures ok { IfOk result (TellState net.now asked entries.now) }
    ensures first { IfErr result (IsEntryFault net.now asked entries.now) }
{
    let content = sort_entries(alloc, net, entries)?;
    state_by(alloc, net, asked, entries, &content)
}

/// The same, where this is what they say.
fn state_by(
    alloc: Global,
    net: &Network,
    asked: Asked,
    entries: &[Entry],
    content: &ByPlace,
) -> Result<RoundState, StateFault>
    requires network { IsNetwork net.now }
    requires order { AreInOrder net.now entries.now }
    requires content { IsByPlace net.now entries.now content.now }
    ensures ok { IfOk result (TellState net.now asked entries.now) }
    ensures first { IfErr result (IsEntryFault net.now asked entries.now) }
{
    check_senses(net, asked, entries, content)?;
    let boards = boards(alloc, net, asked, entries, content)?;
    let lines = lines(alloc, net, asked, entries, content)?;
    let sensed = senses(alloc, net, asked, entries, content)?;
    check_limits(net, asked, entries, content)?;
    Ok(RoundState {
        round: round_of(net, entries),
        sensed: Items::from_vec(sensed),
        lines: Items::from_vec(lines),
        boards: Items::from_vec(boards),
    })
}

/// What the records so far tell.
#[derive(Drop)]
pub(crate) struct StateReader {
    all: Vec<Entry>,
}

impl StateReader {
    /// No record is taken.
    fn none(alloc: Global, net: &Network) -> StateReader
        ensures none { result.all.items ≡ [] }
        ensures network { IsNetwork net.now }
    {
        law_of_network(net);
        StateReader {
            all: Vec::new(alloc),
        }
    }

    /// The number of the node or link of the last record; 0 where there is none.
    fn last_place(&self) -> u32 {
        match self.all.last() {
            Some(entry) => entry.place,
            None => 0,
        }
    }

    /// Adds what the record with this number tells.
    fn add(&mut self, net: &Network, entry: Entry, number: u32) -> Result<(), StateFault>
        ensures { Adds net.now entry number self.old self.new result }
    {
        if !fits_after(net, self.all.as_slice(), &entry) {
            return Err(StateFault::Time(number));
        }
        self.all.push(entry)?;
        Ok(())
    }
}

/// What the record with this number tells; the link with the number `near` is tried first.
#[tactic(auto, unfolding(crate::specs::StateRecords::parse_in))]
fn read_entry(net: &Network, row: &ByteRecord, number: u32, near: u32) -> Result<Entry, StateFault>
    requires { IsNetwork net.now }
    ensures { Reads net.now (fields_of row.now) number result }
{
    let Some((name, content)) = read_said(row) else {
        return Err(StateFault::Row(number));
    };
    match place_of(net, &content, name, near) {
        Some(place) => Ok(Entry { place, content }),
        None => Err(StateFault::Name(number)),
    }
}

impl RecordTaker for StateReader {
    ghost use Rattle.round_states.specs.Readers.{HasRead, IsFaultAt};
    ghost use Rattle.round_states.specs.StateRecords as records;

    type Fault = StateFault;

    ghost header = { records.header };

    ghost has_taken = { HasRead };

    ghost at_fault = { IsFaultAt };

    fn is_header(row: &ByteRecord) -> bool {
        is_record(row, &[b"kind", b"name", b"x", b"y", b"z"])
    }

    fn take(
        &mut self,
        _alloc: Global,
        net: &Network,
        row: &ByteRecord,
        number: u32,
    ) -> Result<(), StateFault> {
        let entry = read_entry(net, row, number, self.last_place())?;
        self.add(net, entry, number)
    }
}
