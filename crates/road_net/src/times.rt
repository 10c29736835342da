//! How often phases name links.
ghost use Rattle.std.specs.Prelude.{◌≡◌, ◌+◌, ◌<◌, ◌^◌, ◌++◌, IfOk, OnOk, slice_index_or, slice_set};
ghost use Rattle.std.specs.List.{concat};
ghost use Rattle.road_net.specs.{Joins.named_links, Stored.AreTimes};

use foundation::items::Items;
use std::alloc::{AllocError, Global};

/// How often phases name each of this number of links.
pub(crate) fn times_named(
    alloc: Global,
    phase_links: &[Items<Items<u32>>],
    links: usize,
) -> Result<Vec<usize>, AllocError>
    ensures { IfOk result (λ times. AreTimes (named_links phase_links.now) links times.items) }
{
    let named = named_links(alloc, phase_links)?;
    count_links(alloc, named.as_slice(), links)
}

/// How often each of this number of links is among these.
fn count_links(alloc: Global, named: &[u32], links: usize) -> Result<Vec<usize>, AllocError>
    ensures { IfOk result (λ times. AreTimes named.now links times.items) }
{
    let mut times = vec![in alloc; 0; links]?;
    for link in named {
        count_link(&mut times, *link);
    }
    Ok(times)
}

/// Adds one to the count of a link, where it has one.
fn count_link(times: &mut Vec<usize>, link: u32)
    requires { slice_index_or times.old.items link 0 < 2 ^ 63 }
    ensures { times.new.items ≡ slice_set times.old.items link (slice_index_or times.old.items link 0 + 1) }
{
    let place = link as usize;
    if place < times.len() {
        times[place] += 1;
    }
}

/// All links that phases name, phase by phase.
fn named_links(alloc: Global, phase_links: &[Items<Items<u32>>]) -> Result<Vec<u32>, AllocError>
    ensures { IfOk result (λ named. named.items ≡ named_links phase_links.now) }
{
    let mut named = Vec::new(alloc);
    for phases in phase_links {
        push_links(&mut named, phases.as_slice())?;
    }
    Ok(named)
}

/// Adds the links of these phases at the end.
fn push_links(named: &mut Vec<u32>, phases: &[Items<u32>]) -> Result<(), AllocError>
    ensures { OnOk result (named.new.items ≡ named.old.items ++ concat phases.now) }
{
    for links in phases {
        named.extend_from_slice(links.as_slice())?;
    }
    Ok(())
}
