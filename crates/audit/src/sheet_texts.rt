//! The file of a report, read as a sheet.
ghost use Rattle.std.specs.Prelude.{◌≢◌, ◌<◌, ◌^◌, All, IfErr, IfOk, length};
ghost use Rattle.audit.specs.{SheetFaults.IsTextFault, SheetTexts.HasShape, SheetTexts.IsSheetText};
ghost use Rattle.audit.specs.declared.sheet.Sheet as spec;

use crate::sheet::Sheet;
use crate::sheet_entries::read_entry;
use crate::sheet_faults::SheetFault;
use crate::sheet_reader::{SheetReader, take_entry};
use csv::ByteRecord;
use foundation::items::Items;
use record_text::{RecordTaker, take_records};
use road_net::Network;
use std::alloc::Global;
use world_records::is_header;

/// What a report says, whoever wrote it: the greens of each node and the totals, by the names of the network. It has
/// the network's shape, and each of its lines has fewer than 2^32 rows. Of a row only the fields are read that the
/// sheet has. The file has fewer than 2^32 bytes.
///
/// The fault is `NoMemory`; or `Header`, where the file does not begin with the header; or that of the first row at
/// fault, within a row in the order `Row`, `Extra`, `Name`; or else `Short`, where the file ends before the totals of
/// each link and of the whole network.
///
/// docs/FORMATS.md, "Sheet".
pub fn read_sheet(alloc: Global, bytes: &[u8], net: &Network) -> Result<Sheet, SheetFault>
    requires { length bytes.now < 2 ^ 32 }
    ensures ok { IfOk result (IsSheetText net.now bytes.now) }
    ensures shape { IfOk result (HasShape net.now) }
    ensures rows { IfOk result (λ sheet. All (λ rows. length rows < 2 ^ 32) sheet.lines) }
    ensures refused { IfErr result (λ fault. fault ≢ SheetFault.NoMemory
        → (sheet : spec.Sheet) → ¬ IsSheetText net.now bytes.now sheet) }
    ensures first { IfErr result (IsTextFault net.now bytes.now) }
{
    let mut reader = SheetReader::new(alloc, net)?;
    if !take_records(alloc, bytes, net, &mut reader)? {
        return Err(SheetFault::Header);
    }
    match reader.end(net) {
        Some(sheet) => Ok(sheet),
        None => Err(SheetFault::Short),
    }
}

impl RecordTaker for SheetReader {
    ghost use Rattle.world_records.specs.Records as records;
    ghost use Rattle.audit.specs.SheetEntries.{HasRead, IsFaultAt};

    type Fault = SheetFault;

    ghost header = { records.header };

    ghost has_taken = { HasRead };

    ghost at_fault = { IsFaultAt };

    fn is_header(row: &ByteRecord) -> bool {
        is_header(row)
    }

    fn take(
        &mut self,
        alloc: Global,
        net: &Network,
        row: &ByteRecord,
        number: u32,
    ) -> Result<(), SheetFault> {
        let Some(entry) = read_entry(row) else {
            return Err(SheetFault::Row(number));
        };
        take_entry(alloc, net, entry, number, self)
    }
}
