//! The road network: nodes with signals, links between them, and how vehicles turn from link to link.
#![tactic(auto)]

ghost use Rattle.std.specs.Prelude.{◌≡◌, ℕ, ◌<◌, IfErr, length};
ghost use Rattle.net_parts.specs.{Outline.IsOutline, Parts.net_of};
ghost use Rattle.road_net.specs.{FirstFaults.IsHomed, FirstFaults.IsJoinFault, Joins.AreByNode, Joins.HasEndsAt, Network.IsNetwork, Network.Joins, Stored.IsStored, Stored.Links, Stored.Passes};

mod greens;
mod joins;
mod overlaps;
mod senses;
mod splits;
mod times;

use foundation::items::Items;
use foundation::threads::CrossesThreads;
use joins::Side;
use net_parts::{Parts, SMALL_SECONDS};
pub use net_parts::{
    Draft, DraftConflict, DraftLink, DraftNode, DraftPhase, DraftTurn, DraftYield, Link, NetFault,
    Place, Run, Section, Turn, Walk,
};
use phase_plan::PhasePlan;
pub use senses::{LinkSense, Sensed};
pub use splits::{law_of_parts, part_of_turn};
use std::alloc::Global;
use std::marker::Model;

/// A valid road network. Its nodes and links are numbered from 0 in the order of its file.
///
/// docs/RULES.md, "Road network".
#[derive(Drop)]
pub struct Network {
    parts: Parts,
    entry_links: Vec<Items<u32>>,
    exit_links: Vec<Items<u32>>,
}

impl Model for Network {
    ghost use Rattle.net_parts.specs.Numbers.{Net};

    ghost Value = { Net };

    ghost use Rattle.net_parts.specs.Parts.{net_of};
    ghost use Rattle.road_net.specs.Stored.{IsStored};

    ghost view = { λ network. net_of network.parts };

    ghost invariant = { λ network. IsStored network.parts network.entry_links.items network.exit_links.items };
}

impl CrossesThreads for Network {}

impl Network {
    ghost use Rattle.std.specs.Prelude.{◌≡◌, ◌≤◌, ◌<◌, ◌↔◌, Some, IsSome, IsNone, IfSome, Contains, sum_by, slice_get, length};
    ghost use Rattle.net_parts.specs.{Numbers.number_of, Outline.link_at, Outline.turns_at, Outline.yields_at, Outline.plan_at, Outline.phases_at, Outline.phase_links_at, Outline.also_links_at, Outline.is_green_in, Outline.known_seconds};
    ghost use Rattle.net_parts.specs.{Outline.node_name_at, Outline.link_name_at, Parts.net_of};
    ghost use Rattle.road_net.specs.{Joins.split_of, Joins.AreLinksAt, Joins.AreParts, Network.IsNetwork, Network.entry_links, Network.exit_links, Network.AreApart, Through.is_through, Totals.total};

    /// The parts that it was made of.
    ///
    /// docs/RULES.md, "Road network".
    pub fn parts(&self) -> &Parts
        ensures value { net_of result.now ≡ self.now }
        ensures network { IsNetwork self.now }
    {
        &self.parts
    }

    /// How the network is run.
    ///
    /// docs/RULES.md, "Road network".
    pub fn run(&self) -> Run
        ensures value { result ≡ self.now.run }
        ensures network { IsNetwork self.now }
    {
        self.parts.run
    }

    /// How many seconds the files of the network may name: as many as its run has, and 18,000 at the least.
    ///
    /// docs/FORMATS.md, "Arrivals file".
    pub fn known_seconds(&self) -> u32
        ensures value { result ≡ known_seconds self.now }
        ensures network { IsNetwork self.now }
    {
        let run = self.parts.run;
        (run.rounds * run.step).max(SMALL_SECONDS)
    }

    /// How many nodes there are, 1 to 1024.
    ///
    /// docs/RULES.md, "Road network".
    pub fn nodes(&self) -> u32
        ensures value { result ≡ length self.now.node_names }
        ensures network { IsNetwork self.now }
    {
        self.parts.node_names.len()
    }

    /// How many links there are, 1 to 8192.
    ///
    /// docs/RULES.md, "Road network".
    pub fn links(&self) -> u32
        ensures value { result ≡ length self.now.link_names }
        ensures network { IsNetwork self.now }
    {
        self.parts.link_names.len()
    }

    /// The phases of a node.
    ///
    /// docs/RULES.md, "Phases".
    pub fn plan(&self, node: u32) -> &PhasePlan
        requires { node < length self.now.node_names }
        ensures value { result.now ≡ plan_at self.now node }
        ensures network { IsNetwork self.now }
    {
        &self.parts.plans[node as usize]
    }

    /// The links that a phase of a node serves, at most 16, in the order of the file.
    ///
    /// docs/RULES.md, "Links".
    pub fn phase_links(&self, node: u32, phase: u8) -> &[u32]
        requires node { node < length self.now.node_names }
        requires phase { phase < length (plan_at self.now node) }
        ensures value { result.now ≡ phase_links_at self.now node phase }
        ensures network { IsNetwork self.now }
    {
        let phases = self.parts.phase_links[node as usize].as_slice();
        phases[phase as usize].as_slice()
    }

    /// The further links that are green in a phase of a node, beside those that it serves, at most 16, in the order of the file.
    ///
    /// docs/RULES.md, "Links".
    pub fn also_links(&self, node: u32, phase: u8) -> &[u32]
        requires node { node < length self.now.node_names }
        requires phase { phase < length (plan_at self.now node) }
        ensures value { result.now ≡ also_links_at self.now node phase }
        ensures network { IsNetwork self.now }
    {
        let phases = self.parts.also_links[node as usize].as_slice();
        phases[phase as usize].as_slice()
    }

    /// Whether a link is green in a phase of the node where it ends: the phase is its home, or names it also. A link that ends at no
    /// node is green in none.
    ///
    /// docs/RULES.md, "Links".
    pub fn is_green(&self, l: u32, phase: u8) -> bool
        requires { l < length self.now.link_names }
        ensures value { result ≡ is_green_in self.now l phase }
        ensures network { IsNetwork self.now }
    {
        greens::is_green(&self.parts, l, phase)
    }

    /// Whether the node is through: a link that ends there has two greens, and may stay green through a change between the two.
    ///
    /// docs/RULES.md, "Links".
    pub fn is_through(&self, node: u32) -> bool
        requires { node < length self.now.node_names }
        ensures value { result ≡ is_through self.now node }
        ensures network { IsNetwork self.now }
    {
        greens::is_through(&self.parts, node)
    }

    /// The links that end at a node, at most 16, in number order.
    ///
    /// docs/RULES.md, "Links".
    pub fn entry_links(&self, node: u32) -> &[u32]
        requires { node < length self.now.node_names }
        ensures value { result.now ≡ entry_links self.now node }
        ensures links { AreLinksAt Side.To self.now.links node result.now }
        ensures apart { AreApart self.now node }
        ensures network { IsNetwork self.now }
    {
        self.entry_links[node as usize].as_slice()
    }

    /// The links that come from a node, in number order.
    ///
    /// docs/RULES.md, "Links".
    pub fn exit_links(&self, node: u32) -> &[u32]
        requires { node < length self.now.node_names }
        ensures value { result.now ≡ exit_links self.now node }
        ensures links { AreLinksAt Side.From self.now.links node result.now }
        ensures network { IsNetwork self.now }
    {
        self.exit_links[node as usize].as_slice()
    }

    /// A link: its ends, travel time, greatest discharge, also while it gives way, weight, home and walk.
    ///
    /// docs/RULES.md, "Links".
    pub fn link(&self, l: u32) -> Link
        requires { l < length self.now.link_names }
        ensures value { result ≡ link_at self.now l }
        ensures network { IsNetwork self.now }
    {
        self.parts.links[l as usize]
    }

    /// The turns of a link, at most 16, in the order of the file; none where it ends at no node. What turns into the
    /// exit of each is `part_of_turn` of its share, after the shares of those before it.
    ///
    /// docs/RULES.md, "Turning".
    pub fn turns(&self, l: u32) -> &[Turn]
        requires { l < length self.now.link_names }
        ensures value { result.now ≡ turns_at self.now l }
        ensures parts { AreParts (turns_at self.now l) }
        ensures network { IsNetwork self.now }
    {
        self.parts.turns[l as usize].as_slice()
    }

    /// The links to which a link gives way, at most 16, in the order of the file; none where it gives way to none.
    ///
    /// docs/RULES.md, "Links".
    pub fn yields(&self, l: u32) -> &[u32]
        requires { l < length self.now.link_names }
        ensures value { result.now ≡ yields_at self.now l }
        ensures network { IsNetwork self.now }
    {
        self.parts.yields[l as usize].as_slice()
    }

    /// The part of an amount, in thousandths of a vehicle, that turns at the end of link `l` into the link
    /// `exit`; 0 where no turn leads there. Where the link ends at a node, the parts of its turns are the amount, and
    /// so are those of all links: nothing is lost and nothing comes from nowhere.
    ///
    /// docs/RULES.md, "Turning".
    pub fn split(&self, l: u32, amount: u32, exit: u32) -> u32
        requires { l < length self.now.link_names }
        ensures value { result ≡ split_of (turns_at self.now l) amount exit }
        ensures bounds { result ≤ amount }
        ensures whole { IsSome (link_at self.now l).to
            → sum_by (λ t. split_of (turns_at self.now l) amount t.exit) (turns_at self.now l) ≡ amount }
        ensures everywhere { IsSome (link_at self.now l).to
            → total (split_of (turns_at self.now l) amount) (length self.now.link_names) ≡ amount }
        ensures network { IsNetwork self.now }
    {
        splits::split(self.turns(l), amount, exit)
    }

    /// The pairs of links that must never be green together, at most 32,768, in the order of the file.
    ///
    /// docs/RULES.md, "Conflicts".
    pub fn conflicts(&self) -> &[(u32, u32)]
        ensures value { result.now ≡ self.now.conflicts }
        ensures network { IsNetwork self.now }
    {
        self.parts.conflicts.as_slice()
    }

    /// The name of a node.
    ///
    /// docs/RULES.md, "Road network".
    pub fn node_name(&self, n: u32) -> &str
        requires { n < length self.now.node_names }
        ensures value { result.now ≡ node_name_at self.now n }
        ensures network { IsNetwork self.now }
    {
        self.parts.node_names.name(n)
    }

    /// The name of a link.
    ///
    /// docs/RULES.md, "Road network".
    pub fn link_name(&self, l: u32) -> &str
        requires { l < length self.now.link_names }
        ensures value { result.now ≡ link_name_at self.now l }
        ensures network { IsNetwork self.now }
    {
        self.parts.link_names.name(l)
    }

    /// The number of the node with this name; `None` exactly where no node has it.
    ///
    /// docs/RULES.md, "Road network".
    pub fn find_node(&self, name: &str) -> Option<u32>
        ensures value { result ≡ number_of self.now.node_names name.now }
        ensures none { IsNone result ↔ ¬ Contains self.now.node_names name.now }
        ensures some { IfSome result (λ number. slice_get self.now.node_names number ≡ Some name.now) }
        ensures below { IfSome result (λ number. number < length self.now.node_names) }
        ensures network { IsNetwork self.now }
    {
        self.parts.node_names.find(name)
    }

    /// The number of the link with this name; `None` exactly where no link has it.
    ///
    /// docs/RULES.md, "Road network".
    pub fn find_link(&self, name: &str) -> Option<u32>
        ensures value { result ≡ number_of self.now.link_names name.now }
        ensures none { IsNone result ↔ ¬ Contains self.now.link_names name.now }
        ensures some { IfSome result (λ number. slice_get self.now.link_names number ≡ Some name.now) }
        ensures below { IfSome result (λ number. number < length self.now.link_names) }
        ensures network { IsNetwork self.now }
    {
        self.parts.link_names.find(name)
    }
}

/// A value that is a network by its type has the parts of one, joined as they must be.
///
/// docs/RULES.md, "Road network".
pub fn law_of_network(net: &Network)
    ensures { IsNetwork net.now }
{
    let _ = net.nodes();
}

/// The network of these parts, where they are joined as they must be.
///
/// The fault is out of memory, or the first that is found when all parts are tested for the ends of links, then for crowded nodes, for
/// shares, for phases, for further greens, for conflicts, for links that give way and for walks.
///
/// docs/RULES.md, "Road network".
pub fn join_parts(alloc: Global, parts: Parts) -> Result<Network, NetFault>
    requires { IsOutline (net_of parts) }
    ensures joins { Joins (net_of parts) result }
    ensures first { IfErr result (IsJoinFault (net_of parts)) }
{
    let links = node_links(alloc, &parts)?;
    Ok(network_of(parts, links))
}

/// The network of these parts and of the links of each node.
fn network_of(parts: Parts, links: NodeLinks) -> Network
    requires { IsStored parts links.entry.items links.exit.items }
    ensures { result ≡ net_of parts }
{
    let NodeLinks { entry, exit } = links;
    Network {
        parts,
        entry_links: entry,
        exit_links: exit,
    }
}

/// The links that end at each node, and those that come from it.
#[derive(Drop)]
struct NodeLinks {
    entry: Vec<Items<u32>>,
    exit: Vec<Items<u32>>,
}

/// The links of each node of these parts, where the parts are joined as they must be. The fault is out of memory, or
/// the first that is found when all are tested for the ends of links, then for crowded nodes, and as `check_joins` does.
fn node_links(alloc: Global, parts: &Parts) -> Result<NodeLinks, NetFault>
    requires { IsOutline (net_of parts.now) }
    ensures { Links parts.now result }
{
    let links = parts.links.as_slice();
    let nodes = parts.node_names.len();
    joins::check_ends(links)?;
    let entry = joins::links_by_node(alloc, links, nodes, Side::To)?;
    check_joins(alloc, parts, entry.as_slice())?;
    let exit = joins::links_by_node(alloc, links, nodes, Side::From)?;
    Ok(NodeLinks { entry, exit })
}

/// Tests crowded nodes, shares, phases, further greens, conflicts, links that give way and walks, in this order, where the ends of
/// the links are as they must be.
/// `entry` has the links that end at each node.
fn check_joins(alloc: Global, parts: &Parts, entry: &[Items<u32>]) -> Result<(), NetFault>
    requires outline { IsOutline (net_of parts.now) }
    requires ends { (k : ℕ) → k < length parts.now.links.items → HasEndsAt parts.now.links.items k }
    requires entry { AreByNode Side.To parts.now.links.items (length parts.now.node_names) entry.now }
    ensures { Passes (net_of parts.now) result }
{
    let links = parts.links.as_slice();
    joins::check_entries(entry)?;
    joins::check_shares(links, parts.turns.as_slice())?;
    joins::check_phases(alloc, links, parts.phase_links.as_slice())?;
    check_overlaps(alloc, parts)
}

/// Tests further greens, conflicts, links that give way and walks, in this order, where homes are as they must be.
fn check_overlaps(alloc: Global, parts: &Parts) -> Result<(), NetFault>
    requires outline { IsOutline (net_of parts.now) }
    requires homed { IsHomed (net_of parts.now) }
    ensures { Passes (net_of parts.now) result }
{
    overlaps::check_also(alloc, parts)?;
    joins::check_conflicts(parts)?;
    overlaps::check_yields(parts)?;
    overlaps::check_walks(parts)
}
