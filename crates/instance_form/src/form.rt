//! What the lines of an instance's text say, and why a text has not their form.

ghost use Rattle.std.specs.Prelude.{◌≡◌};
ghost use Rattle.instance_form.specs.declared.form.FormFault.TheVariants.{NoMemory};

use foundation::items::Items;
use phase_plan::{Marks, Phase};
use std::alloc::{AllocError, AllocFailed};
use switch_rules::{Cluster, Head};

/// What the lines of an instance's text say: 2 to 4 phases, a head, and the clusters of each phase.
///
/// The numbers are as they are in the text: they may be no plan, no head and no clusters. In a text of version 4 all
/// phases are marked.
///
/// docs/FORMATS.md, "Instance text".
#[derive(Drop)]
pub struct Form {
    /// How many phases are said to be marked: all by version 4, all but one by version 5.
    pub marks: Marks,
    /// The phases, in order.
    pub phases: Vec<Phase>,
    /// The head.
    pub head: Head,
    /// The clusters of each phase, in order.
    pub lists: Vec<Items<Cluster>>,
}

/// Which form the lines of an instance's text have. A text has the least version that says its phases and clusters, and
/// how many are marked.
///
/// docs/FORMATS.md, "Instance text".
#[derive(Debug, Clone, Copy, PartialEq, Eq)]
pub enum Version {
    /// No phase is marked, and the load of each cluster is its size.
    One,
    /// Some phase is marked, and the load of each cluster is its size.
    Two,
    /// Some cluster has another load than its size.
    Three,
    /// All phases are marked: the ring is free.
    Four,
    /// All phases but one are marked.
    Five,
}

/// Why bytes are no instance's text.
///
/// docs/FORMATS.md, "Instance text".
#[derive(Debug, Clone, Copy, PartialEq, Eq)]
pub enum FormFault {
    /// The first line, from 1, that has not the form of its place.
    Line(u32),
    /// There is not enough memory.
    NoMemory,
}

impl From<AllocError> for FormFault {
    ghost from_gives = { λ _ e. e ≡ NoMemory };

    fn from(_e: AllocError) -> FormFault {
        FormFault::NoMemory
    }
}

impl<T: Drop> From<AllocFailed<T>> for FormFault {
    ghost from_gives = { λ _ e. e ≡ NoMemory };

    fn from(_e: AllocFailed<T>) -> FormFault {
        FormFault::NoMemory
    }
}
