//! What a node sees, by what a world keeps.

ghost use Rattle.std.specs.Prelude.{◌≡◌, ◌+◌, ◌-◌, ◌*◌, ◌≤◌, ◌<◌, ◌^◌, All, IfOk, OnOk, length, map, slice_index};
ghost use Rattle.net_parts.specs.Limits.{most_seconds};
ghost use Rattle.net_parts.specs.Outline.{link_at};
ghost use Rattle.net_simulator.specs.Rows.{kept_seconds};
ghost use Rattle.net_simulator.specs.LinkSeconds.{seen_by};
ghost use Rattle.net_simulator.specs.Senses.{near_of};

use super::rows;
use foundation::items::Items;
use road_net::{LinkSense, Network};
use std::alloc::{AllocError, Global};
use std::mem;

/// What is seen in a second: the links of a network, and what a world keeps of them.
///
/// docs/RULES.md, "What a node sees".
#[derive(Drop)]
pub struct Sight<'a> {
    /// The network.
    pub net: &'a Network,
    /// The queues after the second before, by link, in thousandths of a vehicle.
    pub queues: &'a [u32],
    /// What entered each link in each of the last seconds (`rows`), in thousandths of a vehicle.
    pub recent: &'a [u32],
    /// For how many seconds each queue has stood without a break.
    pub stood: &'a [u32],
    /// The second, at most 86,400.
    pub second: u32,
}

/// What is seen of these links, in the memory of a list that is no longer needed. It takes more only where that is too
/// little.
///
/// `Err`: out of memory.
///
/// docs/RULES.md, "What a node sees".
pub fn sense_links(
    alloc: Global,
    sight: &Sight,
    links: &[u32],
    spare: Vec<LinkSense>,
) -> Result<Vec<LinkSense>, AllocError>
    requires links { All (λ l. l < length sight.now.net.now.link_names) links.now }
    requires queues { length sight.now.queues.now ≡ length sight.now.net.now.link_names }
    requires recent { length sight.now.recent.now ≡ length sight.now.net.now.link_names * kept_seconds }
    requires stood { length sight.now.stood.now ≡ length sight.now.net.now.link_names }
    requires second { sight.now.second ≤ most_seconds }
    ensures { IfOk result (λ s. s.items ≡ map (seen_by sight.now.net.now sight.now.queues.now sight.now.recent.now
        sight.now.stood.now sight.now.second) links.now) }
{
    let mut senses = spare;
    senses.resize_with(links.len(), || unseen(alloc))?;
    for (place, &link) in links.iter().enumerate() {
        see(alloc, sight, link, &mut senses[place])?;
    }
    Ok(senses)
}

/// What is near on a link, in thousandths of a vehicle: its queue, and what reaches its end in this second and in each of
/// the next `gap` ones, as far as that is on the link. It is the sum of what `sense_links` answers of the link.
///
/// docs/RULES.md, "Actuated control".
pub fn near_amount(sight: &Sight, link: u32, gap: u32) -> u32
    requires link { link < length sight.now.net.now.link_names }
    requires queues { length sight.now.queues.now ≡ length sight.now.net.now.link_names }
    requires recent { length sight.now.recent.now ≡ length sight.now.net.now.link_names * kept_seconds }
    requires second { sight.now.second ≤ most_seconds }
    requires fits { near_of (seen_by sight.now.net.now sight.now.queues.now sight.now.recent.now
        sight.now.stood.now sight.now.second link) gap < 2 ^ 32 }
    ensures { result ≡ near_of (seen_by sight.now.net.now sight.now.queues.now sight.now.recent.now
        sight.now.stood.now sight.now.second link) gap }
{
    let travel = sight.net.link(link).travel;
    let first = sight.second + 128 - travel;
    let mut near = sight.queues[link as usize];
    for i in 0..travel.min(gap.saturating_add(1)) {
        near += rows::at(sight.recent, link, first + i);
    }
    near
}

/// What is known of a link that is not seen yet.
fn unseen(alloc: Global) -> LinkSense {
    LinkSense {
        link: 0,
        queue: 0,
        coming: Items::from_vec(Vec::new(alloc)),
        stood: 0,
    }
}

/// Sees a link: its queue, what is on its way to its end, and for how long a queue has stood.
fn see(alloc: Global, sight: &Sight, link: u32, sense: &mut LinkSense) -> Result<(), AllocError>
    requires link { link < length sight.now.net.now.link_names }
    requires queues { length sight.now.queues.now ≡ length sight.now.net.now.link_names }
    requires recent { length sight.now.recent.now ≡ length sight.now.net.now.link_names * kept_seconds }
    requires stood { length sight.now.stood.now ≡ length sight.now.net.now.link_names }
    requires second { sight.now.second ≤ most_seconds }
    ensures { OnOk result (sense.new ≡ seen_by sight.now.net.now sight.now.queues.now sight.now.recent.now
        sight.now.stood.now sight.now.second link) }
{
    let travel = sight.net.link(link).travel;
    let first = sight.second + 128 - travel;
    let nothing = Items::from_vec(Vec::new(alloc));
    let mut coming = mem::replace(&mut sense.coming, nothing).into_vec();
    coming.clear();
    coming.reserve(travel as usize)?;
    for i in 0..travel {
        coming.push(rows::at(sight.recent, link, first + i))?;
    }
    *sense = LinkSense {
        link,
        queue: sight.queues[link as usize],
        coming: Items::from_vec(coming),
        stood: sight.stood[link as usize],
    };
    Ok(())
}
