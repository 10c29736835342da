//! The parts of a platoon: what the streams of its phase bring in its seconds.
ghost use Rattle.std.specs.Prelude.{◌≡◌, ◌<◌, ◌≤◌, [], Some, IfOk, length, map, slice_get};
ghost use Rattle.clusters.specs.Streams.{part_of, AreAsLong};

use crate::vehicle_groups::Part;
use foundation::items::Items;
use foundation::threads::CrossesThreads;
use std::alloc::{AllocError, Global};
use std::marker::Model;
use std::sync::Arc;

/// What leaves each link of a phase in each second that the planning looks ahead, for all platoons of the phase at once.
#[derive(Drop)]
pub(crate) struct PhaseStreams {
    shared: Arc<Items<Part>, Global>,
}

impl Model for PhaseStreams {
    ghost use Rattle.std.specs.Prelude.{List};
    ghost use Rattle.std.specs.Arc.{arc_value};
    ghost use Rattle.clusters.specs.declared.vehicle_groups.Part.{Part};

    ghost Value = { List Part };

    ghost view = { λ streams. arc_value streams.shared };
}

impl PhaseStreams {
    /// These streams. `Err`: out of memory.
    pub(crate) fn from_vec(alloc: Global, streams: Vec<Part>) -> Result<PhaseStreams, AllocError>
        ensures { IfOk result (λ all. all ≡ streams.items) }
    {
        let shared = Arc::new(alloc, Items::from_vec(streams))?;
        Ok(PhaseStreams { shared })
    }

    /// The streams, lent.
    pub(crate) fn as_slice(&self) -> &[Part]
        ensures { result.now ≡ self.now }
    {
        let items: &Items<Part> = &self.shared;
        items.as_slice()
    }

    /// The same streams once more, which takes no memory. `Err`: they are shared too often.
    fn share(&self) -> Result<PhaseStreams, AllocError>
        ensures { IfOk result (λ all. all ≡ self.now) }
    {
        let shared = Arc::try_clone(&self.shared)?;
        Ok(PhaseStreams { shared })
    }
}

/// What of a platoon comes along each link of its phase: one part for each link, in the order in which the phase names them.
///
/// All platoons of a phase share the amounts of their links, so that parts take no memory of their own.
///
/// docs/RULES.md, "Platoons".
#[derive(Drop)]
pub struct Parts {
    streams: PhaseStreams,
    first: usize,
    end: usize,
}

impl Model for Parts {
    ghost use Rattle.std.specs.Prelude.{◌≤◌, List, map};
    ghost use Rattle.clusters.specs.{Streams.part_of, Streams.AreAsLong, declared.vehicle_groups.Part.Part};

    ghost Value = { List Part };

    ghost view = { λ parts. map (part_of parts.first parts.end) parts.streams };

    ghost invariant = { λ parts. (parts.first ≤ parts.end) × AreAsLong parts.end parts.streams };
}

impl CrossesThreads for Parts {}

impl Parts {
    /// No parts, of no links.
    ///
    /// `Err`: out of memory.
    ///
    /// docs/RULES.md, "Platoons".
    pub fn none(alloc: Global) -> Result<Parts, AllocError>
        ensures { IfOk result (λ parts. parts ≡ []) }
    {
        let streams = PhaseStreams::from_vec(alloc, Vec::new(alloc))?;
        Ok(Parts {
            streams,
            first: 0,
            end: 0,
        })
    }

    /// What the streams bring from the place `first` on, before the place `end`.
    pub(crate) fn within(
        streams: &PhaseStreams,
        first: usize,
        end: usize,
    ) -> Result<Parts, AllocError>
        requires order { first ≤ end }
        requires long { AreAsLong end streams.now }
        ensures { IfOk result (λ parts. parts ≡ map (part_of first end) streams.now) }
    {
        Ok(Parts {
            streams: streams.share()?,
            first,
            end,
        })
    }

    /// How many parts there are.
    ///
    /// docs/RULES.md, "Platoons".
    pub fn len(&self) -> usize
        ensures { result ≡ length self.now }
    {
        self.streams.as_slice().len()
    }

    /// The part with this place: the number of its link, and what leaves the link in each second of the platoon, in
    /// thousandths of a vehicle.
    ///
    /// docs/RULES.md, "Platoons".
    pub fn at(&self, place: usize) -> (u32, &[u32])
        requires { place < length self.now }
        ensures { slice_get self.now place ≡ Some (record { link = result.0; amounts = result.1.now }) }
    {
        let stream = &self.streams.as_slice()[place];
        (
            stream.link,
            &stream.amounts.as_slice()[self.first..self.end],
        )
    }
}
