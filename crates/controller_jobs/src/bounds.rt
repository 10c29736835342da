//! The commands `bounds NET` and `bounds NET PLAN`.
use crate::bounds_text::bounds_text;
use crate::fixed_bounds_text::fixed_bounds_text;
use crate::kinds::PlanFile;
use commands::{Made, Refusal, Work};
use outside_world::Shelf;
use road_net::Network;
use scene_jobs::{NetworkWork, fetch_network_with};
use std::alloc::{AllocError, Global};

/// `bounds NET`: within how many seconds a queue of each phase, of a link without a walk, loses something, under plans and under actuated
/// control, or why there is no such bound.
///
/// docs/FORMATS.md, "Words".
#[derive(Debug, Clone, Copy, PartialEq, Eq)]
pub struct BoundsWork;

impl NetworkWork for BoundsWork {
    ghost use Rattle.std.specs.Prelude.{◌≡◌};
    ghost use Rattle.controller_jobs.specs.Bounds.{bounds_text};

    ghost writes = { λ work net bytes. bytes ≡ bounds_text net };

    fn write(&self, alloc: Global, net: &Network) -> Result<Vec<u8>, AllocError> {
        bounds_text(alloc, net)
    }
}

/// `bounds NET PLAN`: what `bounds NET` writes, and beside it the same bound under the fixed plan in the second file, and how long the
/// reds of each phase are under that plan.
///
/// docs/FORMATS.md, "Words".
#[derive(Clone, Copy)]
pub struct BoundsFixedWork<'a> {
    /// The file of the network.
    pub net: &'a str,
    /// The file of the fixed plan.
    pub plan: &'a str,
}

impl Work for BoundsFixedWork<'_> {
    ghost use Rattle.controller_jobs.specs.Meanings.{bounds_fixed_meaning};

    ghost means = { λ work. bounds_fixed_meaning work.net.now work.plan.now };

    fn make<S: Shelf>(&self, alloc: Global, shelf: &mut S) -> Result<Made, Refusal> {
        let read = fetch_network_with::<PlanFile, S>(alloc, shelf, self.net, self.plan)?;
        let text = fixed_bounds_text(alloc, &read.network, &read.value)?;
        Ok(Made::Done(text))
    }
}
