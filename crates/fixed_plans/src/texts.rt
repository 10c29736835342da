//! The file of a fixed plan.
ghost use Rattle.std.specs.Prelude.{◌≢◌, IfErr, IfOk, List};
ghost use Rattle.fixed_plans.specs.{Faults.IsTextFault, Faults.IsPlanText, Rows.IsFixedPlan};
ghost use Rattle.fixed_plans.specs.declared.rows.FixedRow as spec;

use crate::faults::FixedFault;
use crate::fields::read_row;
use crate::order::is_end;
use crate::plan::FixedPlan;
use crate::reader::{PlanReader, add_row};
use csv::ByteRecord;
use record_text::{RecordTaker, is_record, take_records};
use road_net::{Network, law_of_network};
use std::alloc::Global;

/// The fixed plan of a file, whose nodes stand by their names in the network: for each node, in the order of the
/// nodes, one row for each unmarked phase of its ring, from phase 0 up; a marked phase may have a row, and in a free ring at least two
/// of them have one.
///
/// The fault is out of memory; or `Header`, where the file does not begin with the header; or that of the first row at
/// fault, within a row in the order `Row`, `Node`, `Phase`, `Green`, `Offset`; or else `Short`, where the file ends
/// before each unmarked phase of each node had a row, and each node two.
///
/// docs/FORMATS.md, "Fixed plan".
pub fn read_fixed_plan(alloc: Global, bytes: &[u8], net: &Network) -> Result<FixedPlan, FixedFault>
    ensures ok { IfOk result (IsPlanText net.now bytes.now) }
    ensures plan { IfOk result (IsFixedPlan net.now) }
    ensures refused { IfErr result (λ fault. fault ≢ FixedFault.NoMemory
        → (rows : List spec.FixedRow) → ¬ IsPlanText net.now bytes.now rows) }
    ensures first { IfErr result (IsTextFault net.now bytes.now) }
{
    law_of_network(net);
    let mut reader = PlanReader::none(alloc);
    if !take_records(alloc, bytes, net, &mut reader)? {
        return Err(FixedFault::Header);
    }
    if !is_end(net, reader.last) {
        return Err(FixedFault::Short);
    }
    let PlanReader { rows, .. } = reader;
    Ok(FixedPlan::of_rows(rows))
}

impl RecordTaker for PlanReader {
    ghost use Rattle.fixed_plans.specs.Records as records;
    ghost use Rattle.fixed_plans.specs.Readers.{HasRead, IsFaultAt};

    type Fault = FixedFault;

    ghost header = { records.header };

    ghost has_taken = { HasRead };

    ghost at_fault = { IsFaultAt };

    fn is_header(row: &ByteRecord) -> bool {
        is_record(row, &[b"node", b"phase", b"green", b"offset"])
    }

    fn take(
        &mut self,
        _alloc: Global,
        net: &Network,
        row: &ByteRecord,
        number: u32,
    ) -> Result<(), FixedFault> {
        let row = read_row(net, row, number)?;
        add_row(net, row, number, self)
    }
}
