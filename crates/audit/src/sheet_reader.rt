//! A sheet that is being read.
ghost use Rattle.std.specs.Prelude.{◌≡◌, ◌<◌, [], List, IfErr, IfNone, IfOk, IfSome, OnOk, length};
ghost use Rattle.net_parts.specs.Numbers.{Net};
ghost use Rattle.road_net.specs.Network.{IsNetwork};
ghost use Rattle.audit.specs.{SheetEntries.HasCome, SheetEntries.IsMore, SheetEntries.IsRecordFault, SheetEntries.in_words, SheetFaults.IsEarly, SheetRecords.Counts, SheetRecords.Shows, SheetRecords.Sums, SheetRecords.SheetRecord};
ghost use Rattle.audit.specs.SheetTexts.{IsSheetOf};

use crate::sheet::Sheet;
use crate::sheet_entries::Entry;
use crate::sheet_faults::SheetFault;
use control_flow::greens::Green;
use foundation::items::{Items, push_item};
use net_simulator::{LinkTotals, Totals};
use record_text::node_named;
use road_net::Network;
use std::alloc::{AllocError, Global};

/// What the records so far tell.
#[derive(Drop)]
pub(crate) struct SheetReader {
    /// The greens of each node.
    pub lines: Vec<Items<Green>>,
    /// What is told of the first links.
    pub links: Vec<LinkTotals>,
    /// What is told of the whole network.
    pub totals: Option<Totals>,
}

impl SheetReader {
    /// Nothing is told: the line of each node is empty. `Err`: out of memory.
    pub(crate) fn new(alloc: Global, net: &Network) -> Result<Self, AllocError>
        ensures come { IfOk result (HasCome net.now []) }
        ensures network { IsNetwork net.now }
    {
        let mut lines = Vec::new(alloc);
        for _ in 0..net.nodes() {
            lines.push(Items::from_vec(Vec::new(alloc)))?;
        }
        Ok(SheetReader {
            lines,
            links: Vec::new(alloc),
            totals: None,
        })
    }

    /// The sheet of all that was told; none where totals are missing.
    pub(crate) fn end(self, net: &Network) -> Option<Sheet>
        ensures some { IfSome result (λ sheet. (parsed : List SheetRecord) → HasCome net.now parsed self
            → IsSheetOf net.now parsed sheet) }
        ensures none { IfNone result ((parsed : List SheetRecord) → HasCome net.now parsed self
            → IsEarly net.now parsed) }
    {
        let SheetReader {
            lines,
            links,
            totals,
        } = self;
        if links.len() < net.links() as usize {
            return None;
        }
        let totals = totals?;
        Some(Sheet {
            lines: Items::from_vec(lines),
            links: Items::from_vec(links),
            totals,
        })
    }
}

/// Takes what one record more tells, whose number this is.
pub(crate) fn take_entry(
    alloc: Global,
    net: &Network,
    entry: Entry,
    number: u32,
    reader: &mut SheetReader,
) -> Result<(), SheetFault>
    requires network { IsNetwork net.now }
    requires lines { length reader.old.lines.items ≡ length net.now.node_names }
    ensures ok { OnOk result (IsMore net.now reader.old (in_words entry.entry) reader.new) }
    ensures first { IfErr result (λ fault. (parsed : List SheetRecord) → HasCome net.now parsed reader.old
        → IsRecordFault net.now parsed (in_words entry.entry) number fault) }
{
    match entry {
        Entry::Ignored => Ok(()),
        Entry::Shows(node, green) => take_green(alloc, net, node, green, number, reader),
        Entry::Counts(link, totals) => take_counts(net, link, totals, number, reader),
        Entry::Sums(totals) => take_sums(totals, number, reader),
    }
}

/// Takes a green of the node of this name.
fn take_green(
    alloc: Global,
    net: &Network,
    name: &[u8],
    green: Green,
    number: u32,
    reader: &mut SheetReader,
) -> Result<(), SheetFault>
    requires network { IsNetwork net.now }
    requires lines { length reader.old.lines.items ≡ length net.now.node_names }
    ensures ok { OnOk result (IsMore net.now reader.old (Shows name.now green) reader.new) }
    ensures first { IfErr result (λ fault. (parsed : List SheetRecord) → HasCome net.now parsed reader.old
        → IsRecordFault net.now parsed (Shows name.now green) number fault) }
{
    let Some(node) = node_named(net, name) else {
        return Err(SheetFault::Name(number));
    };
    push_item(alloc, &mut reader.lines, node as usize, green)?;
    Ok(())
}

/// Takes what was counted of the link of this name, which must be the next one.
fn take_counts(
    net: &Network,
    name: &[u8],
    totals: LinkTotals,
    number: u32,
    reader: &mut SheetReader,
) -> Result<(), SheetFault>
    requires network { IsNetwork net.now }
    ensures ok { OnOk result (IsMore net.now reader.old (Counts name.now totals) reader.new) }
    ensures first { IfErr result (λ fault. (parsed : List SheetRecord) → HasCome net.now parsed reader.old
        → IsRecordFault net.now parsed (Counts name.now totals) number fault) }
{
    let link = reader.links.len();
    if link >= net.links() as usize {
        return Err(SheetFault::Extra(number));
    }
    if name != net.link_name(link as u32).as_bytes() {
        return Err(SheetFault::Name(number));
    }
    reader.links.push(totals)?;
    Ok(())
}

/// Takes what was counted of the whole network, which must be the first.
fn take_sums(totals: Totals, number: u32, reader: &mut SheetReader) -> Result<(), SheetFault>
    ensures ok { OnOk result ((net : Net) → IsMore net reader.old (Sums totals) reader.new) }
    ensures first { IfErr result (λ fault. (net : Net) → (parsed : List SheetRecord) → HasCome net parsed reader.old
        → IsRecordFault net parsed (Sums totals) number fault) }
{
    if reader.totals.is_some() {
        return Err(SheetFault::Extra(number));
    }
    reader.totals = Some(totals);
    Ok(())
}
