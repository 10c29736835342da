//! The file of a history.
ghost use Rattle.std.specs.Prelude.{◌≢◌, ◌<◌, ◌^◌, ℕ, List, IfErr, IfOk, OnOk, length};
ghost use Rattle.csv.specs.Records.{fields_of};
ghost use Rattle.histories.specs.{Histories.IsLawful, Progress.HasCome};
ghost use Rattle.road_net.specs.Network.{IsNetwork};
ghost use Rattle.delay_report.specs.{Faults.IsTextFault, Readers.AreTaken, Readers.IsEntryFault, Texts.IsHistoryText};

use crate::entries::read_step;
use crate::faults::HistoryFault;
use csv::ByteRecord;
use histories::{History, Progress, Stop};
use record_text::{RecordTaker, take_records};
use road_net::Network;
use std::alloc::Global;
use world_records::is_header;

/// The history of a file, whose nodes stand by their names in the network. It is lawful. A report is such a file. The file
/// has fewer than 2^32 bytes.
///
/// The fault is `NoMemory`; or `Header`, where the file does not begin with the header; or that of the first row at
/// fault, within a row in the order `Row`, `Node`, `Extra`, `Turn`; or else `Short`, where the file ends before all rounds
/// are done.
///
/// docs/FORMATS.md, "History file".
pub fn read_history(alloc: Global, bytes: &[u8], net: &Network) -> Result<History, HistoryFault>
    requires { length bytes.now < 2 ^ 32 }
    ensures ok { IfOk result (IsHistoryText net.now bytes.now) }
    ensures lawful { IfOk result (IsLawful net.now) }
    ensures refused { IfErr result (λ fault. fault ≢ HistoryFault.NoMemory
        → (h : List ℕ) → ¬ IsHistoryText net.now bytes.now h) }
    ensures first { IfErr result (IsTextFault net.now bytes.now) }
{
    let mut reader = HistoryReader {
        steps: Vec::new(alloc),
        progress: Progress::new(alloc, net)?,
    };
    if !take_records(alloc, bytes, net, &mut reader)? {
        return Err(HistoryFault::Header);
    }
    let HistoryReader { steps, progress } = reader;
    if !progress.is_over() {
        return Err(HistoryFault::Short);
    }
    Ok(History::new(steps))
}

/// The history that the records so far tell.
#[derive(Drop)]
struct HistoryReader {
    /// Their steps.
    steps: Vec<u32>,
    /// How far the steps have come.
    progress: Progress,
}

impl RecordTaker for HistoryReader {
    ghost use Rattle.world_records.specs.Records as records;
    ghost use Rattle.delay_report.specs.Readers.{HasRead, IsFaultAt};

    type Fault = HistoryFault;

    ghost header = { records.header };

    ghost has_taken = { HasRead };

    ghost at_fault = { IsFaultAt };

    fn is_header(row: &ByteRecord) -> bool {
        is_header(row)
    }

    fn take(
        &mut self,
        _alloc: Global,
        net: &Network,
        row: &ByteRecord,
        number: u32,
    ) -> Result<(), HistoryFault> {
        take_step(net, row, number, &mut self.progress, &mut self.steps)
    }
}

/// Appends the step that the record with this number tells, if it tells one, to the steps so far.
fn take_step(
    net: &Network,
    row: &ByteRecord,
    number: u32,
    progress: &mut Progress,
    steps: &mut Vec<u32>,
) -> Result<(), HistoryFault>
    requires network { IsNetwork net.now }
    requires come { HasCome net.now steps.old.items progress.old }
    ensures taken { OnOk result (AreTaken net.now (fields_of row.now) steps.old.items steps.new.items progress.new) }
    ensures first { IfErr result (IsEntryFault net.now steps.old.items (fields_of row.now) number) }
{
    let Some(node) = read_step(net, row, number)? else {
        return Ok(());
    };
    match progress.take(node) {
        Ok(()) => {
            steps.push(node)?;
            Ok(())
        }
        Err(Stop::Over) => Err(HistoryFault::Extra(number)),
        Err(Stop::NotItsTurn) => Err(HistoryFault::Turn(number)),
    }
}
