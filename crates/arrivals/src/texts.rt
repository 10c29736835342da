//! The file of arrivals.
ghost use Rattle.std.specs.Prelude.{◌≢◌, IfOk, IfErr};
ghost use Rattle.arrivals.specs.{Amounts.Amounts, Amounts.AreArrivals, Texts.IsArrivalText, Texts.IsTextFault};

use crate::amounts::Arrivals;
use crate::fields::read_row;
use crate::row_lists::RowList;
use crate::rows::RowFault;
use csv::ByteRecord;
use record_text::{RecordTaker, is_record, take_records};
use road_net::{Network, law_of_network};
use std::alloc::Global;

/// The arrivals of a file, whose links stand by their names in the network.
///
/// The fault is out of memory; or `Header`, where the file does not begin with the header; or that of the first row at
/// fault, within a row in the order `Row`, `Link`, `Bound`, `Sum`.
///
/// docs/FORMATS.md, "Arrivals file".
pub fn read_arrivals(alloc: Global, bytes: &[u8], net: &Network) -> Result<Arrivals, RowFault>
    ensures ok { IfOk result (IsArrivalText net.now bytes.now) }
    ensures arrivals { IfOk result (AreArrivals net.now) }
    ensures refused { IfErr result (λ fault. fault ≢ RowFault.NoMemory
        → (a : Amounts) → ¬ IsArrivalText net.now bytes.now a) }
    ensures first { IfErr result (IsTextFault net.now bytes.now) }
{
    law_of_network(net);
    let mut list = RowList::new(alloc);
    match take_records(alloc, bytes, net, &mut list) {
        Ok(true) => Ok(list.into_arrivals(alloc)?),
        Ok(false) => Err(RowFault::Header),
        Err(fault) => Err(fault),
    }
}

impl RecordTaker for RowList {
    ghost use Rattle.arrivals.specs.Records as records;
    ghost use Rattle.arrivals.specs.Stored.{HasRead, IsFaultAt};

    type Fault = RowFault;

    ghost header = { records.header };

    ghost has_taken = { HasRead };

    ghost at_fault = { IsFaultAt };

    fn is_header(row: &ByteRecord) -> bool {
        is_record(row, &[b"second", b"link", b"amount"])
    }

    fn take(
        &mut self,
        _alloc: Global,
        net: &Network,
        row: &ByteRecord,
        number: u32,
    ) -> Result<(), RowFault> {
        let row = read_row(net, row, number)?;
        self.add(net, row, number)
    }
}
