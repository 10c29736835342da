//! The walk over the records of a text.
ghost use Rattle.std.specs.Prelude.{[], IfErr, IfOk};
ghost use Rattle.road_net.specs.Network.{IsNetwork};
ghost use Rattle.record_text.specs.Faults.{HasAfterHeader};
ghost use Rattle.record_text.specs.Reading.{IsReading, left_of};
ghost use Rattle.record_text.specs.Records.{records_of};
ghost use Rattle.record_text.specs.Walks.{AreCounted, AreTakenIf, IsFaultAmong, OrMemory};

use crate::records::{next_record, open};
use csv::{ByteRecord, Reader};
use road_net::Network;
use std::alloc::{AllocError, Global};

/// What takes the records of a text over a network, one after another.
///
/// docs/FORMATS.md, "Records".
pub trait RecordTaker {
    ghost use Rattle.std.specs.Prelude.{◌≡◌, ◌↔◌, ◌++◌, ◌∷◌, [], ℕ, IfErr, IsTrue, List, OnOk};
    ghost use Rattle.csv.specs.Records.{fields_of};
    ghost use Rattle.net_parts.specs.Numbers.{Net};
    ghost use Rattle.road_net.specs.Network.{IsNetwork};

    /// Why a record is not taken, or out of memory.
    type Fault: From<AllocError> + Drop;

    /// The record that the text begins with.
    ghost header: { List (List ℕ) };

    /// These records were taken, and none of them is at fault.
    ghost has_taken: { Net → List (List (List ℕ)) → Self → Type 0 };

    /// After what was taken, the record with this number has this fault.
    ghost at_fault: { Net → Self → List (List ℕ) → ℕ → Self.Fault → Type 0 };

    /// Whether the record is the header.
    fn is_header(row: &ByteRecord) -> bool
        ensures { IsTrue result ↔ (fields_of row.now ≡ header) };

    /// Takes one record more, whose number this is, counted from 1 after the header.
    fn take(
        &mut self,
        alloc: Global,
        net: &Network,
        row: &ByteRecord,
        number: u32,
    ) -> Result<(), Self::Fault>
        requires network { IsNetwork net.now }
        requires come { (records : List (List (List ℕ))) × has_taken net.now records self.old }
        ensures taken { OnOk result ((records : List (List (List ℕ))) → has_taken net.now records self.old
            → has_taken net.now (records ++ fields_of row.now ∷ []) self.new) }
        ensures first { IfErr result (at_fault net.now self.old (fields_of row.now) number) };
}

/// Takes the records of a text after its header, in their order, up to the first at fault. Answers whether the text
/// begins with the header; where it does not, nothing is taken.
///
/// The fault is that of the first record that is not taken, or out of memory.
///
/// docs/FORMATS.md, "Records".
pub fn take_records<T: RecordTaker>(
    alloc: Global,
    bytes: &[u8],
    net: &Network,
    taker: &mut T,
) -> Result<bool, T::Fault>
    requires network { IsNetwork net.now }
    requires few { AreCounted (T.has_taken net.now) (records_of bytes.now) }
    requires none { T.has_taken net.now [] taker.old }
    ensures taken { IfOk result (AreTakenIf T.header (T.has_taken net.now) (records_of bytes.now) taker.new) }
    ensures first { IfErr result (λ fault. OrMemory T.Fault.from_gives fault
        (HasAfterHeader T.header (records_of bytes.now) (IsFaultAmong (T.has_taken net.now) (T.at_fault net.now) fault))) }
{
    let mut reader = open(alloc, bytes);
    let mut row = ByteRecord::new(alloc);
    walk(alloc, net, &mut reader, &mut row, taker)
}

/// The walk over what a reader has left.
fn walk<T: RecordTaker>(
    alloc: Global,
    net: &Network,
    reader: &mut Reader<&[u8]>,
    row: &mut ByteRecord,
    taker: &mut T,
) -> Result<bool, T::Fault>
    requires network { IsNetwork net.now }
    requires reading { IsReading reader.old }
    requires few { AreCounted (T.has_taken net.now) (left_of reader.old) }
    requires none { T.has_taken net.now [] taker.old }
    ensures taken { IfOk result (AreTakenIf T.header (T.has_taken net.now) (left_of reader.old) taker.new) }
    ensures first { IfErr result (λ fault. OrMemory T.Fault.from_gives fault
        (HasAfterHeader T.header (left_of reader.old) (IsFaultAmong (T.has_taken net.now) (T.at_fault net.now) fault))) }
{
    if !next_record(reader, row)? {
        return Ok(false);
    }
    if !T::is_header(row) {
        return Ok(false);
    }
    let mut number = 0;
    while next_record(reader, row)? {
        number += 1;
        taker.take(alloc, net, row, number)?;
    }
    Ok(true)
}
