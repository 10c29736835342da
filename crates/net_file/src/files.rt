//! A network from its file, and the file of a network.
ghost use Rattle.std.specs.Prelude.{◌↔◌, ◌≡◌, [], IsTrue, All, ◌<◌, ◌^◌, IfOk, IfErr, length};
ghost use Rattle.net_parts.specs.{Numbers.Net, Parts.net_of};
ghost use Rattle.net_tables.specs.Faults.{Unless};
ghost use Rattle.net_file.specs.{NetworkText.IsNetworkText, NetworkText.IsCause, Reading.Drafts, Upgrade.IsPlain, Upgrade.IsSmall, Upgrade.IsVersionOf, Upgrade.IsUpgraded};

use crate::by_names::draft_by_names;
use foundation::items::Items;
use net_build::build;
use net_parts::{Draft, Limits, NetFault, Parts, Place, Section};
use net_tables::{has_known_version, read_draft};
use road_net::Network;
use std::alloc::{AllocError, Global};

/// The network of a text, which is read as TOML. The text has fewer than 2^32 bytes.
///
/// The fault is out of memory, `NotToml` where the text is no UTF-8 or no TOML, `Shape` of the first table that has
/// not the form of its place, `Bound` of the whole table where it says a version other than 2 and 3, and else that of
/// `build`.
///
/// docs/FORMATS.md, "Network file".
pub fn read_network(alloc: Global, bytes: &[u8]) -> Result<Network, NetFault>
    requires { length bytes.now < 2 ^ 32 }
    ensures ok { IfOk result (IsNetworkText bytes.now) }
    ensures refused { IfErr result (λ fault. Unless fault ((net : Net) → ¬ IsNetworkText bytes.now net)) }
    ensures first { IfErr result (IsCause bytes.now) }
{
    let draft = parse_draft(alloc, bytes)?;
    build(alloc, draft)
}

/// A version that is not known is a bound of the table of the whole file.
const OTHER_VERSION: NetFault = NetFault::Bound(Place {
    part: Section::Top,
    item: 0,
    sub: 0,
});

/// The draft of a text. The text's table is given back before the network is built.
fn parse_draft(alloc: Global, bytes: &[u8]) -> Result<Draft, NetFault>
    requires { length bytes.now < 2 ^ 32 }
    ensures { Drafts bytes.now result }
{
    let table = match toml::de::table_from_slice(alloc, bytes) {
        Ok(table) => table,
        Err(error) => {
            if error.is_memory() {
                return Err(NetFault::NoMemory);
            }
            return Err(NetFault::NotToml);
        }
    };
    let draft = read_draft(alloc, &table)?;
    if !has_known_version(&table) {
        return Err(OTHER_VERSION);
    }
    Ok(draft)
}

/// The network file of a network, of the least version that can say it: 2, or 3 where a phase names a further link, a link gives way or
/// has a walk, a ring is free, or there are more than 64 nodes, 320 links, 1024 conflicts or 600 rounds. It has every mark and weight,
/// and of what else may be absent `split` where it is true, `age`, `hold`, `recall`, `act_step`, `rate`, the ends of links, yields and
/// walks where the network has them, and an array where it is not empty. What is read from it is this very network, with the same
/// value of every accessor. `Err`: out of memory.
///
/// docs/FORMATS.md, "Network file".
pub fn write_network(alloc: Global, net: &Network) -> Result<Vec<u8>, AllocError>
    ensures { IfOk result (λ bytes. IsUpgraded bytes.items net.now) }
{
    let parts = net.parts();
    let version = version_of(parts);
    let draft = draft_by_names(alloc, parts, version == 3)?;
    crate::draft_texts::draft_text(alloc, &draft, version)
}

/// The least version that can say the network of these parts.
fn version_of(parts: &Parts) -> u32
    ensures { IsVersionOf (net_of parts.now) result }
{
    if is_plain(parts) { 2 } else { 3 }
}

/// Whether version 2 can say it.
fn is_plain(parts: &Parts) -> bool
    ensures { IsTrue result ↔ IsPlain (net_of parts.now) }
{
    let is_small = is_small(parts);
    let names_no_further = parts
        .also_links
        .iter()
        .all(|phases| names_none(phases.as_slice()));
    names_no_further
        && names_none(parts.yields.as_slice())
        && parts.links.iter().all(|link| link.walk.is_none())
        && parts.plans.iter().all(|plan| !plan.is_free())
        && is_small
}

/// Whether it has no more nodes, links, conflicts and rounds than files of every version may have.
fn is_small(parts: &Parts) -> bool
    ensures { IsTrue result ↔ IsSmall (net_of parts.now) }
{
    let most = Limits::of(false);
    parts.node_names.len() <= most.nodes
        && parts.link_names.len() <= most.links
        && parts.conflicts.len() <= most.conflicts as usize
        && parts.run.rounds <= most.rounds
}

/// Whether none of these phases names a link.
fn names_none(phases: &[Items<u32>]) -> bool
    ensures { IsTrue result ↔ All (λ links. links ≡ []) phases.now }
{
    phases.iter().all(|links| links.as_slice().is_empty())
}
