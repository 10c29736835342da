//! The phases in which links are green.
ghost use Rattle.std.specs.Prelude.{◌≡◌, ◌<◌, ◌↔◌, IsTrue, [], length, slice_index_or};
ghost use Rattle.std.specs.List.{list_any};
ghost use Rattle.net_parts.specs.{Numbers.has_link, Outline.IsOutline, Outline.is_green_in, Parts.net_of};
ghost use Rattle.road_net.specs.{Joins.AreNeverBoth, Through.is_through, Through.may_stay, Through.names_staying};

use foundation::items::Items;
use net_parts::Parts;

/// Whether a link is green in a phase of the node where it ends: the phase is its home, or names it as a further one.
pub(crate) fn is_green(parts: &Parts, l: u32, phase: u8) -> bool
    requires outline { IsOutline (net_of parts.now) }
    requires link { l < length parts.now.link_names }
    ensures { result ≡ is_green_in (net_of parts.now) l phase }
{
    let link = parts.links[l as usize];
    match link.to {
        Some(node) => {
            link.phase == phase || has_link(parts.also_links[node as usize].as_slice(), phase, l)
        }
        None => false,
    }
}

/// Whether the list of this phase has the link.
fn has_link(lists: &[Items<u32>], phase: u8, link: u32) -> bool
    ensures { result ≡ has_link link (slice_index_or lists.now phase []) }
{
    match lists.get(phase as usize) {
        Some(links) => links.as_slice().contains(&link),
        None => false,
    }
}

/// Whether there is no phase in which both links are green.
pub(crate) fn are_never_both(parts: &Parts, a: u32, b: u32) -> bool
    requires outline { IsOutline (net_of parts.now) }
    requires first { a < length parts.now.link_names }
    requires second { b < length parts.now.link_names }
    ensures { IsTrue result ↔ AreNeverBoth (net_of parts.now) a b }
{
    for phase in 0..4 {
        if is_green(parts, a, phase) && is_green(parts, b, phase) {
            return false;
        }
    }
    true
}

/// Whether a phase of the node names a further link that has no walk.
pub(crate) fn is_through(parts: &Parts, node: u32) -> bool
    requires { node < length parts.now.also_links.items }
    ensures { result ≡ is_through (net_of parts.now) node }
{
    names_any(parts, parts.also_links[node as usize].as_slice())
}

/// Whether one of these lists has a link that has no walk.
fn names_any(parts: &Parts, lists: &[Items<u32>]) -> bool
    ensures { result ≡ list_any (names_staying (net_of parts.now)) lists.now }
{
    lists
        .iter()
        .any(|links| names_staying(parts, links.as_slice()))
}

/// Whether one of these links has no walk.
fn names_staying(parts: &Parts, links: &[u32]) -> bool
    ensures { result ≡ names_staying (net_of parts.now) links.now }
{
    links.iter().any(|l| may_stay(parts, *l))
}

/// Whether a link has no walk.
fn may_stay(parts: &Parts, l: u32) -> bool
    ensures { result ≡ may_stay (net_of parts.now) l }
{
    match parts.links.get(l as usize) {
        Some(link) => link.walk.is_none(),
        None => true,
    }
}
