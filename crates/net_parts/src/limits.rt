//! How great the numbers of a network, and of a run of it, may be, as the code tests them; `specs/Limits.antt` has them for contracts.
ghost use Rattle.std.specs.Prelude.{◌≡◌};
ghost use Rattle.net_parts.specs.Limits.{limits};

use foundation::threads::CrossesThreads;

/// The most nodes of a network.
///
/// docs/FORMATS.md, "Network file", as all that follow and name no other section.
pub const MOST_NODES: u32 = 1024;

/// The most links of a network.
pub const MOST_LINKS: u32 = 8192;

/// The most conflicts of a network.
pub const MOST_CONFLICTS: u32 = 32_768;

/// The most seconds from the begin of a link to its end.
pub const MOST_TRAVEL: u32 = 120;

/// The most that leaves a link in a second, in thousandths of a vehicle.
pub const MOST_SAT: u32 = 5000;

/// The most seconds that a planning looks ahead.
pub const MOST_LOOK: u32 = 180;

/// The most rounds of a run.
pub const MOST_ROUNDS: u32 = 17_280;

/// The most seconds of a run: a day.
pub const MOST_SECONDS: u32 = 86_400;

/// A second in a file of a network may be any below this, however short its run is.
///
/// docs/FORMATS.md, "Arrivals file".
pub const SMALL_SECONDS: u32 = 18_000;

/// The most that enters a network in all, in thousandths of a vehicle.
///
/// docs/RULES.md, "Arrivals".
pub const MOST_OF_ALL: u32 = 2_000_000_000;

/// How many nodes, links, conflicts and rounds there may be.
///
/// docs/FORMATS.md, "Network file".
#[derive(Debug, Clone, Copy, PartialEq, Eq)]
pub struct Limits {
    /// The most nodes.
    pub nodes: u32,
    /// The most links.
    pub links: u32,
    /// The most conflicts.
    pub conflicts: u32,
    /// The most rounds.
    pub rounds: u32,
}

impl CrossesThreads for Limits {}

impl Limits {
    /// The limits of a great network: 1024 nodes, 8192 links, 32,768 conflicts and 17,280 rounds; and of one that is not: 64, 320,
    /// 1024 and 600.
    ///
    /// docs/FORMATS.md, "Network file".
    pub fn of(great: bool) -> Limits
        ensures { result ≡ limits great }
    {
        if great {
            Limits {
                nodes: MOST_NODES,
                links: MOST_LINKS,
                conflicts: MOST_CONFLICTS,
                rounds: MOST_ROUNDS,
            }
        } else {
            Limits {
                nodes: 64,
                links: 320,
                conflicts: 1024,
                rounds: 600,
            }
        }
    }
}
