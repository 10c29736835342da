//! The command `totals NET ARR`.
use arrivals::Arrivals;
use bounded_runs::turn_totals;
use road_net::Network;
use scene_jobs::SceneWork;
use std::alloc::{AllocError, Global};
use world_records::counted_text;

/// `totals NET ARR`: what the run of the turn order counted of each link and in all, as its report ends, with the network and the arrivals
/// in the files. In the run all is kept that is promised of runs; its plans are counted and dropped, round by round.
///
/// docs/FORMATS.md, "Words".
#[derive(Debug, Clone, Copy, PartialEq, Eq)]
pub struct TotalsWork;

impl SceneWork for TotalsWork {
    ghost use Rattle.network_jobs.specs.Headline.{IsTotalsText};

    ghost writes = { λ work. IsTotalsText };

    fn write(
        &self,
        alloc: Global,
        net: &Network,
        arrivals: &Arrivals,
    ) -> Result<Vec<u8>, AllocError> {
        let (left, _) = turn_totals(alloc, net, arrivals)?;
        counted_text(alloc, net, left.links.as_slice(), left.totals)
    }
}
