//! The bounds that the rules of serving keep, as the code tests them; `specs/Bounds.antt` has them for contracts.

/// The latest second by which the time of a head may be spent from which clusters are served.
///
/// docs/RULES.md, "Certificate".
pub const LATEST_TIME: u32 = 104_000;

/// The latest second at which a cluster arrives, and at which the green of an instance's head begins.
///
/// docs/RULES.md, "Clusters".
pub const LATEST_ARRIVAL: u32 = 100_000;

/// The greatest size of a cluster, in thousandths of a vehicle.
///
/// docs/RULES.md, "Clusters".
pub const GREATEST_SIZE: u32 = 20_000_000;

/// The greatest weight of a link; the load of a cluster is at most this many times its size.
///
/// docs/RULES.md, "Clusters".
pub const GREATEST_WEIGHT: u32 = 20;

/// The greatest number of clusters in an instance.
///
/// docs/RULES.md, "Instance".
pub const MOST_CLUSTERS: u32 = 40;

/// The greatest number of orders that an instance may have.
///
/// docs/RULES.md, "Instance".
pub const MOST_ORDERS: u32 = 50_000;

/// The greatest weighted delay of an instance's servings together, in thousandths of a vehicle times weight times
/// seconds.
///
/// docs/RULES.md, "Instance".
pub const GREATEST_DELAY: u64 = 57_600_000_000_000;
