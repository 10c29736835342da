//! A road network by names, as it is in its file.
use crate::roads::Walk;
use foundation::items::Items;
use foundation::text::Text;
use foundation::threads::CrossesThreads;
use phase_plan::Phase;

/// How a network is run, in seconds and rounds (docs/RULES.md, "Road network").
///
/// In a `Draft` a number may be out of its bounds; they are tested when the network is made.
#[derive(Debug, Clone, Copy, PartialEq, Eq)]
pub struct Run {
    /// The seconds of a round, 1 to 30 and at most `look`.
    pub step: u32,
    /// How many seconds each planning looks ahead, 10 to 180.
    pub look: u32,
    /// The empty seconds that a cluster may have between its vehicles, 0 to 10.
    pub gap: u32,
    /// The number of rounds, 1 to 600, and 1 to 17,280 in a great network; they have at most 86,400 seconds in all.
    pub rounds: u32,
    /// Whether the first cluster of the standing phase has to end in its green; false where the file does not say it
    /// (docs/RULES.md, "Streets under load", as the two below).
    pub split: bool,
    /// The seconds in which the weight of a link whose queue stands grows by itself, 1 to 3600; none where the file
    /// does not say it.
    pub age: Option<u32>,
    /// How many times the load counts of what the standing green can serve at once, 1 to 20; none where the file does
    /// not say it, which is once.
    pub hold: Option<u32>,
    /// The seconds for which a queue has stood from which on its phase, and in a free ring each, is planned as one without a mark,
    /// 1 to 3600; none where the file does not say it (docs/RULES.md, "Recall").
    pub recall: Option<u32>,
    /// The seconds after which actuated control looks again, 1 to 30 and a divisor of `step`; none where the file does not
    /// say it, which is `step` (docs/RULES.md, "Actuated control").
    pub act_step: Option<u32>,
    /// How much has to leave in a second of a cluster beside the greatest second before it, in thousandths, 1 to 1000; none
    /// where the file does not say it (docs/RULES.md, "Streets under load").
    pub rate: Option<u32>,
}

impl CrossesThreads for Run {}

/// A road network by names, in the order of its file (docs/FORMATS.md, "Network file").
///
/// It is what is in the file, so a number, a count or a name may be out of the bounds that are given
/// here, and a name may be that of no node or link. All this is tested when the network is made.
///
/// The name of a node or link has 1 to 16 characters out of a to z, 0 to 9 and `_`.
#[derive(Drop)]
pub struct Draft {
    /// How it is run.
    pub run: Run,
    /// The nodes, 1 to 64 of them, no two with one name; 1 to 1024 in a great network.
    pub nodes: Items<DraftNode>,
    /// The links, 1 to 320 of them, no two with one name; 1 to 8192 in a great network.
    pub links: Items<DraftLink>,
    /// The conflicts, at most 1024, and at most 32,768 in a great network; none where the file has no array of them.
    pub conflicts: Items<DraftConflict>,
    /// Whether its counts may be those of a great network: a network file says so by its version 3.
    pub great: bool,
}

/// An intersection with a signal (docs/RULES.md, "Road network").
#[derive(Drop)]
pub struct DraftNode {
    /// Its name, of 1 to 16 characters out of a to z, 0 to 9 and `_`.
    pub name: Text,
    /// Its phases, 2 to 4 of them, in the order of the ring.
    pub phases: Items<DraftPhase>,
    /// Whether its ring may be free, all of its phases marked: a network file says so by its version 3.
    pub free_ring: bool,
}

/// A phase of a node, the links that it serves, and those that it names also (docs/RULES.md, "Links").
#[derive(Drop)]
pub struct DraftPhase {
    /// Its six times, in seconds, and its mark; the fields of `Phase` give their bounds.
    pub phase: Phase,
    /// The names of the links that it serves, at most 16. Each ends at the node.
    pub links: Items<Text>,
    /// The names of the further links that are green in it, at most 16; none where the file has no array of them. Each ends at
    /// the node.
    pub also: Items<Text>,
}

/// A one-way road. It comes from a node or enters the network, and ends at a node or leaves the network
/// (docs/RULES.md, "Links").
#[derive(Drop)]
pub struct DraftLink {
    /// Its name, of 1 to 16 characters out of a to z, 0 to 9 and `_`.
    pub name: Text,
    /// The name of the node that it comes from, or none where it enters the network.
    pub from: Option<Text>,
    /// The name of the node that it ends at, or none where it leaves the network.
    pub to: Option<Text>,
    /// The seconds from its begin to its end, 1 to 120.
    pub travel: u32,
    /// The most that leaves it in a second, in thousandths of a vehicle, 1 to 5000.
    pub sat: u32,
    /// How much a vehicle on it counts in the delay of a plan, 1 to 20; 1 where the file does not say it.
    pub weight: u32,
    /// The links to which it gives way; none where the file does not say it.
    pub yields: Option<DraftYield>,
    /// How pedestrians go over it; none where the file does not say it. The fields of `Walk` give their bounds.
    pub walk: Option<Walk>,
    /// Where its vehicles turn at its end: at most 16 turns, none where it leaves the network or the
    /// file has no array of them. Their shares add up to 1000 where it ends at a node.
    pub turns: Items<DraftTurn>,
}

/// The links to which a link gives way (docs/RULES.md, "Links").
#[derive(Drop)]
pub struct DraftYield {
    /// Their names, 1 to 16 of them. Each ends at the node where the link ends, and has a green in common with it.
    pub links: Items<Text>,
    /// The most that leaves the link in a second while one of them is busy, in thousandths of a vehicle, 1 to its `sat`.
    pub sat: u32,
}

/// A turn from the end of a link into another one (docs/RULES.md, "Turning").
#[derive(Drop)]
pub struct DraftTurn {
    /// The name of the link that is entered, which comes from the node where the turn is made.
    pub exit: Text,
    /// The share of the vehicles that turn so, 0 to 1000 thousandths.
    pub share: u32,
}

/// Two links that must never be green together: they differ, end at one node and have no green in common
/// (docs/RULES.md, "Conflicts").
#[derive(Drop)]
pub struct DraftConflict {
    /// The name of the first link.
    pub a: Text,
    /// The name of the second link.
    pub b: Text,
}
