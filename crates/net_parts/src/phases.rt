//! The phase that names a link.
ghost use Rattle.std.specs.Prelude.{◌≡◌, ◌≤◌, length, position};
ghost use Rattle.net_parts.specs.Numbers.{has_link};

use foundation::items::Items;

/// The first phase that names the link; none where none does.
///
/// docs/RULES.md, "Links".
pub fn phase_with(phases: &[Items<u32>], link: u32) -> Option<u8>
    requires { length phases.now ≤ 4 }
    ensures { result ≡ position (has_link link) phases.now }
{
    for (index, links) in phases.iter().enumerate() {
        if links.as_slice().contains(&link) {
            return Some(index as u8);
        }
    }
    None
}
