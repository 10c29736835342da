//! Faults of a network file, and the places that they name.
use foundation::threads::CrossesThreads;
use std::alloc::{AllocError, AllocFailed};

/// The sections of a network file: each is a kind of table (docs/FORMATS.md, "Places and faults").
#[derive(Debug, Clone, Copy, PartialEq, Eq)]
pub enum Section {
    /// The table of the whole file.
    Top,
    /// The table `run`.
    Run,
    /// An element of the array `node`.
    Node,
    /// An element of the array `phase` of a node.
    Phase,
    /// An element of the array `link`.
    Link,
    /// An element of the array `turn` of a link.
    Turn,
    /// An element of the array `conflict`.
    Conflict,
}

impl CrossesThreads for Section {}

/// A table of a network file (docs/FORMATS.md, "Places and faults"). A number past the greatest u32 stands as that one.
#[derive(Debug, Clone, Copy, PartialEq, Eq)]
pub struct Place {
    /// The kind of table.
    pub part: Section,
    /// The number of the node, link or conflict, from 1, and 0 at `Top` and `Run`.
    pub item: u32,
    /// The number of the phase or turn within it, from 1, and 0 elsewhere.
    pub sub: u32,
}

impl CrossesThreads for Place {}

/// Why a file or draft is no network (docs/FORMATS.md, "Places and faults").
///
/// `Shape` to `Unknown` name a place. `Ends` to `Walk` name links, from 0 to 8191, and nodes, from 0 to 1023,
/// by their numbers in the order of the file.
#[derive(Debug, Clone, Copy, PartialEq, Eq)]
pub enum NetFault {
    /// Out of memory. It says nothing of the file or draft.
    NoMemory,
    /// The text is no TOML.
    NotToml,
    /// The table lacks a key, has a further one or one of the wrong kind, or is no table.
    Shape(Place),
    /// A number, a count or a name is out of its bounds.
    Bound(Place),
    /// The node has the name of an earlier node, or the link that of an earlier link.
    Twice(Place),
    /// A name stands for no link or no node of the file.
    Unknown(Place),
    /// The link has neither a node that it comes from nor one that it ends at, or both are one node.
    Ends(u32),
    /// More than 16 links end at the node.
    Crowd(u32),
    /// The link ends at no node and has turns, or ends at one and its turns do not leave that node,
    /// name one link twice or have shares with a sum other than 1000.
    Shares(u32),
    /// The link ends at a node and is not named exactly once over all phases, as one that they serve, in a phase of that node,
    /// or ends at no node and is named so.
    Phaseless(u32),
    /// A phase names the link as a further one and is none of the node where the link ends, or names it twice.
    Also(u32),
    /// The links of a conflict are the same, do not end at one node or have a green in common.
    Clash { a: u32, b: u32 },
    /// The link gives way to itself, twice to one link, to one that ends elsewhere or to one with which it has no green in
    /// common.
    Yields(u32),
    /// The link has a walk and ends at no node, or a green of it has a `least` below the seconds of the walk and of `cross`.
    Walk(u32),
}

impl CrossesThreads for NetFault {}

impl From<AllocError> for NetFault {
    ghost use Rattle.std.specs.Prelude.{◌≡◌};
    ghost use Rattle.net_parts.specs.declared.faults.NetFault.TheVariants.{NoMemory};

    ghost from_gives = { λ _ fault. fault ≡ NoMemory };

    fn from(_error: AllocError) -> NetFault {
        NetFault::NoMemory
    }
}

impl<T: Drop> From<AllocFailed<T>> for NetFault {
    ghost use Rattle.std.specs.Prelude.{◌≡◌};
    ghost use Rattle.net_parts.specs.declared.faults.NetFault.TheVariants.{NoMemory};

    ghost from_gives = { λ _ fault. fault ≡ NoMemory };

    fn from(_error: AllocFailed<T>) -> NetFault {
        NetFault::NoMemory
    }
}
