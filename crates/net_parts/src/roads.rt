//! Links and turns by numbers.
use foundation::threads::CrossesThreads;

/// A one-way road, by numbers.
///
/// docs/RULES.md, "Links".
#[derive(Debug, Clone, Copy, PartialEq, Eq)]
pub struct Link {
    /// The node that it comes from; `None` where it comes from outside.
    pub from: Option<u32>,
    /// The node that it ends at; `None` where it leaves the network.
    pub to: Option<u32>,
    /// The seconds from its begin to its end, 1 to 120.
    pub travel: u32,
    /// The most that leaves it in a second, in thousandths of a vehicle, 1 to 5000.
    pub sat: u32,
    /// How much a vehicle on it counts in the delay of a plan, 1 to 20.
    pub weight: u32,
    /// Its phase at the node where it ends, its home; 0 where it ends at no node.
    pub phase: u8,
    /// The most that leaves it in a second while a link to which it gives way is busy, 1 to `sat`; 0 where it gives way to none.
    pub yield_sat: u32,
    /// How pedestrians go over it; `None` where it is for vehicles.
    pub walk: Option<Walk>,
}

impl CrossesThreads for Link {}

/// How long a link for pedestrians may be entered in each green, and how long who entered is on the way.
///
/// docs/RULES.md, "Links".
#[derive(Debug, Clone, Copy, PartialEq, Eq)]
pub struct Walk {
    /// The first seconds of each green, in which alone it may be entered, 1 to 120.
    pub seconds: u32,
    /// The seconds that who entered needs to be over, 0 to 120.
    pub cross: u32,
}

impl CrossesThreads for Walk {}

/// A turn from the end of a link into another one.
///
/// docs/RULES.md, "Turning".
#[derive(Debug, Clone, Copy, PartialEq, Eq)]
pub struct Turn {
    /// The link that is entered.
    pub exit: u32,
    /// The share of the vehicles that turn so, 0 to 1000 thousandths.
    pub share: u32,
}

impl CrossesThreads for Turn {}
